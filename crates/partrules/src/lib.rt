// Definitions alone, and the record that is stored of them: see specs/ and proofs/.
#![tactic(auto)]

// State, n, F0core, Fuaf, Base, AMR, S, LTA margin, CVA, IVA, RAM, starting margin; grains, but for state and n.
pub const ITEMS: usize = 12;

pub type PartsRecord = [i64; ITEMS];
