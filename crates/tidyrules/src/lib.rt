// Definitions and theorems alone: see specs/ and proofs/. What `tidy` makes of a text, that it changes nothing a second time, and how long its result is.
#![tactic(auto)]
