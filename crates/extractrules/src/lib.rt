// Definitions alone, and the type that they name: see specs/ and proofs/. What the rounds start from (code: start), and what they come to (code: extraction).
#![tactic(auto)]

use refusals::Refusal;
