// What a border's reasons say in the words of the table, as definitions, with the numbers and the edit that hold them: see specs/ and proofs/. That it is true: crate theorems.
#![tactic(auto)]
