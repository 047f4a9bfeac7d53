// How large a table may be (01, "The table as text": the H line). They stand apart from the values of lines, so that the rounds need no lines and no refusals.
#![tactic(auto)]

pub const ZONES_LEAST: usize = 2;

pub const ZONES_MOST: usize = 16;

pub const BORDERS_LEAST: usize = 1;

pub const BORDERS_MOST: usize = 64;

pub const ROWS_LEAST: usize = 1;

pub const ROWS_MOST: usize = 200;
