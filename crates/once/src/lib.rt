// Theorems alone: see proofs/, a file for each crate with open calls. No second answer and no second content of a lent buffer satisfies a call's contract.
#![tactic(auto)]
