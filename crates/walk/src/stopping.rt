// Which row stopped a border (02, E7). Which round raised it last is noted by the rounds (roundloop).
ghost use Rattle.std.specs.Prelude.{◌≡◌, ◌*◌, ◌/◌, ◌<◌, ◌≤◌, length};
ghost use Rattle.numbers.specs.Below.{at, table};
ghost use Rattle.rounds.specs.AllRounds.{stop_by};
ghost use Rattle.walk.specs.Flat.{flat_of};

use crate::grid::{Grid, equal_share};

// Each row's equal share of its margin, written over its n.
pub fn share_out(margins: &[u64], ns: &mut [u64])
    requires { length ns.old ≡ length margins.now }
    ensures { ns.new ≡ table (length margins.now) (λ i. at margins.now i / at ns.old i) }
{
    for (i, n) in ns.iter_mut().enumerate() {
        *n = equal_share(margins[i], *n);
    }
}

// The row that stopped border `b`: the first whose equal share is less than p, which is what one kW takes of it. A row with p = 0 has no such share.
pub fn stop_row(grid: &Grid, shares: &[u64], b: usize) -> Option<usize>
    requires border_in_bounds { b < grid.now.borders }
    requires shares_len { length shares.now ≡ grid.now.rows }
    ensures { result ≡ stop_by (flat_of grid.now) shares.now b }
{
    for i in 0..grid.rows {
        if shares[i] < grid.factor(i, b) {
            return Some(i);
        }
    }
    None
}
