// No code: runs and refusals of the oracle, as it dumped them (specs/), computed by the definitions of document 01 (proofs/).
#![tactic(auto)]
