// What is promised of results, for every table, as definitions, with the numbers and the edits that hold them: see specs/ and proofs/. That it is true: crate theorems.
#![tactic(auto)]
