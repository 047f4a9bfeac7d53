// Theorems alone, on what include/keravnoth.h says: its numbers (proofs/Figures), and what an answer in text tells (proofs/Told).
#![tactic(auto)]
