// Theorems alone: see specs/ and proofs/. The byte that a refusal names is the first bad one, and every bad line has one (02, E5).
#![tactic(auto)]
