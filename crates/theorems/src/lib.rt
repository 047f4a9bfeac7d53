// Theorems alone: see proofs/. What is proved of the rounds, of results and of the answers in text: the promises (crate promises), demand 3 among them.
#![tactic(auto)]
