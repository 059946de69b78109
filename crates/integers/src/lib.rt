// Sums and products of whole numbers, for the proofs of the crates above. It has definitions and lemmas, and no code.
#![tactic(auto)]
