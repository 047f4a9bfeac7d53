// Definitions alone, with the number of borders: see specs/ and proofs/.
#![tactic(auto)]

// A sheet is made for at most so many borders.
pub const BORDERS_MOST: usize = 12;
