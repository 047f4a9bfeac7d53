// Definitions alone, and the types that they name: see specs/ and proofs/.
#![tactic(auto)]

// N, L and 2 x N x L of 01's demand 3; and the sharper bound.
#[derive(Clone, Copy)]
pub struct RoundsMost {
    pub sharers: u64,
    pub bits: u64,
    pub rounds: u64,
    pub sharp: u64,
}

// What a border could take alone, and its reach, kW; or the largest of each.
#[derive(Clone, Copy)]
pub struct Kws {
    pub alone: u64,
    pub reach: u64,
}
