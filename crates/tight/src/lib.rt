// How many rounds a grid can take at most, measured before the first: N, L and 2 x N x L of 01's demand 3, and the sharper bound, the steps of U by N (`Tight.antt` of crate tightrules).
#![tactic(auto)]

mod pass;

ghost use Rattle.std.specs.Prelude.{◌≡◌, ◌*◌, ◌≤◌, length};
ghost use Rattle.limits.specs.Limits.{borders_most};
ghost use Rattle.rounds.specs.Rounds.{bits};
ghost use Rattle.walk.specs.Flat.{flat_of};
ghost use Rattle.tightrules.specs.Tight.{steps};
ghost use Rattle.tightrules.specs.Measure.{bound_by};
ghost use Rattle.tightrules.specs.Pass.{Small};

use tightrules::RoundsMost;
use walk::grid::Grid;

// Measures a flat table of factors p and the margins that the rounds start from; `ns` is working memory.
pub fn measure(grid: &Grid, margins: &[u64], ns: &mut [u64]) -> RoundsMost
    requires borders_few { grid.now.borders ≤ borders_most }
    requires margins_len { (length margins.now ≡ grid.now.rows) × (length ns.old ≡ grid.now.rows) }
    requires small { Small margins.now }
    ensures { result ≡ bound_by (flat_of grid.now) margins.now }
{
    grid.count_sharers(ns);
    let n = pass::most(ns);
    let kws = pass::highest(grid, margins, ns, n);
    let bits = bits(kws.alone);
    RoundsMost {
        sharers: n,
        bits,
        rounds: 2 * n * bits,
        sharp: steps(n, kws.reach),
    }
}

// The least L with v < 2^L.
fn bits(v: u64) -> u64
    ensures { result ≡ bits v }
{
    let mut half = v;
    let mut count: u64 = 0;
    while 0 < half {
        half /= 2;
        count += 1;
    }
    count
}

// How often `u` is cut until it is 0. Where n is 0 a cut takes nothing away, and the definition stops after u cuts.
fn steps(n: u64, u: u64) -> u64
    ensures { result ≡ steps n u }
{
    if n == 0 {
        return u;
    }
    let mut rest = u;
    let mut count: u64 = 0;
    while 0 < rest {
        rest -= rest.div_ceil(n);
        count += 1;
    }
    count
}
