// The command line: the options among the arguments, what is read, and what the words ask for.
#![tactic(auto)]

pub mod asked;
pub mod input;
pub mod options;
