// The lines of the table as they are written (01, "The table as text"), and of the planners' sheet (02, E11): each into lent bytes at a place, and how long each is.
#![tactic(auto)]

pub mod length;
pub mod put;
