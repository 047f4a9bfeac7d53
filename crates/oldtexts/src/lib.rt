// Theorems alone: see specs/ and proofs/.
#![tactic(auto)]
