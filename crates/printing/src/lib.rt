// What a program prints for a task: for each word its text, of a table's text.
#![tactic(auto)]

pub mod tasks;
pub mod texts;
