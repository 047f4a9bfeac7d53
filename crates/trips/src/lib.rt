// Theorems alone: see proofs/. What is written reads back as itself, and what was read is written again byte for byte: tables, corrected tables, the sheet of rows.
#![tactic(auto)]
