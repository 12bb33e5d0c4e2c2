// No code: numbers as floats are in specs/Numbers.antt, the laws of floats in proofs/.
#![tactic(auto)]
