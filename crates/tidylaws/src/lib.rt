// Theorems alone: see proofs/. What the calculator accepts, `tidy` does not change: a table, a correction sheet, the planners' sheet.
#![tactic(auto)]
