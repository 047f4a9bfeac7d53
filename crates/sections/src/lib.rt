// Sections of lines: each kind of line from a place of the text on, in the order of the indices. The lines of rows stand in rowlines.
#![tactic(auto)]

pub mod borders;
pub mod put;
pub mod zones;
