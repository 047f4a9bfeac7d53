// What each border could take alone, and its reach, found in one pass: the smallest floor(margin / p), and the smallest of that less n - 1.
ghost use Rattle.std.specs.Prelude.{◌≡◌, ◌+◌, ◌*◌, ◌-◌, ◌^◌, ◌<◌, ◌≤◌, min, length};
ghost use Rattle.numbers.specs.Below.{at, largest, table};
ghost use Rattle.limits.specs.Limits.{borders_most};
ghost use Rattle.rounds.specs.Rounds.{sharers, most_sharers};
ghost use Rattle.walk.specs.Flat.{flat_of};
ghost use Rattle.tightrules.specs.Pass.{Small, Highest, Higher, Lowered};

use tightrules::Kws;
use walk::grid::Grid;

// The largest of a list, 0 where it is empty.
pub fn most(list: &[u64]) -> u64
    ensures { result ≡ largest (length list.now) (at list.now) }
{
    let mut most: u64 = 0;
    for &item in list {
        most = most.max(item);
    }
    most
}

// The most that any border could take alone, and U, the largest reach of any border. `n` is N.
pub fn highest(grid: &Grid, margins: &[u64], ns: &[u64], n: u64) -> Kws
    requires margins_len { (length margins.now ≡ grid.now.rows) × (grid.now.borders ≤ borders_most) }
    requires ns_value { (ns.now ≡ table grid.now.rows (sharers (flat_of grid.now))) × (n ≡ most_sharers (flat_of grid.now)) }
    requires small { Small margins.now }
    ensures { Highest (flat_of grid.now) margins.now grid.now.borders result }
{
    let mut most = Kws { alone: 0, reach: 0 };
    for b in 0..grid.borders {
        most = higher(grid, margins, ns, n, b, most);
    }
    most
}

// `most`, raised to the values of border `b`. Both values of `low` start at or above the border's and fall row by row; where neither exceeds `most`, no further row is tried.
fn higher(grid: &Grid, margins: &[u64], ns: &[u64], n: u64, b: usize, most: Kws) -> Kws
    requires margins_len { (length margins.now ≡ grid.now.rows) × (grid.now.borders ≤ borders_most) × (b < grid.now.borders) }
    requires ns_value { (ns.now ≡ table grid.now.rows (sharers (flat_of grid.now))) × (n ≡ most_sharers (flat_of grid.now)) }
    requires small { Small margins.now }
    ensures { Higher (flat_of grid.now) margins.now b most result }
{
    let first = walk::first_cap(grid, margins, b);
    let mut low = Kws {
        alone: first,
        reach: first,
    };
    for i in 0..grid.rows {
        if low.alone <= most.alone && low.reach <= most.reach {
            return most;
        }
        low = lower(grid.factor(i, b), ns[i], n, margins[i], low);
    }
    Kws {
        alone: most.alone.max(low.alone),
        reach: most.reach.max(low.reach),
    }
}

// `low`, lowered by a row with this margin, this `n`, and factor `f` at the border. Where the row has room for `low.alone` and one kW more for each of the `most` sharers,
// neither value falls: so most rows need one product only. Else the quotient is computed.
fn lower(f: u64, n: u64, most: u64, margin: u64, low: Kws) -> Kws
    requires { (n ≤ most) × (low.reach ≤ low.alone) × (low.alone + most < 2 ^ 64) }
    ensures { Lowered f n margin low result }
{
    let room = low.alone + most;
    let taken = caps::tighten(f, margin, room);
    if taken == room {
        return low;
    }
    Kws {
        alone: low.alone.min(taken),
        reach: low.reach.min(taken.saturating_sub(n.saturating_sub(1))),
    }
}
