// Definitions alone, and the type that they name: see specs/ and proofs/.
#![tactic(auto)]

use refusals::Refusal;
use tightrules::RoundsMost;
