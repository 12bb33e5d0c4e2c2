// No code: a table as a row of chunks is defined in specs/Flat.antt, and its laws are in proofs/Laws.antt.
#![tactic(auto)]
