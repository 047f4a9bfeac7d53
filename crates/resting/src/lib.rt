// Blocks of rounds, in which most rows rest (02, E4). The rows are sorted once for a block (nearness), and in its rounds only the near ones are walked.
// During a block the margins (grains) do not change, and `gained` holds what each border rose by since the block began (kW).
#![tactic(auto)]

ghost use Rattle.std.specs.Prelude.{◌≡◌, ◌+◌, ◌*◌, ◌-◌, ◌^◌, ◌<◌, ◌≤◌, length, take};
ghost use Rattle.rounds.specs.Rounds.{raises};
ghost use Rattle.walk.specs.Flat.{flat_of};
ghost use Rattle.walk.specs.Walk.{Listed};
ghost use Rattle.resting.specs.Resting.{left_to, Settleable, Waiting, Renewed, Walkable, Steppable, stepped};

use walk::grid::Grid;

// A block of rounds: how many borders and how many rows its rounds look at, and the rounds that are left of it.
#[derive(Clone, Copy)]
pub struct Block {
    pub live: usize,
    pub count: usize,
    pub wait: u64,
}

// Begins the next block where this one is over: all rows lose what was gained, borders whose cap is 0 leave the list, and the rows are sorted again.
pub fn renew(
    grid: &Grid,
    ns: &[u64],
    caps: &[u64],
    done: u64,
    block: Block,
    margins: &mut [u64],
    gained: &mut [u64],
    rising: &mut [usize],
    near: &mut [usize],
) -> Block
    requires live_in_bounds { block.live ≤ length rising.old }
    requires waiting { Waiting (flat_of grid.now) ns.now margins.old gained.old caps.now (take block.live rising.old) near.old block.count block.wait }
    ensures live_in_bounds { result.live ≤ length rising.new }
    ensures renewed { Renewed (flat_of grid.now) ns.now margins.old gained.old near.old margins.new gained.new caps.now (take result.live rising.new) near.new result.count result.wait }
{
    if block.wait > 0 {
        return block;
    }
    settle(grid, gained, &rising[..block.live], margins);
    gained.fill(0);
    let live = keep_rising(caps, &mut rising[..block.live]);
    let bits = block_bits(done);
    let count = nearness::find_near(grid, ns, margins, caps, &rising[..live], bits, near);
    Block {
        live,
        count,
        wait: 1 << bits,
    }
}

// The next block has 2^bits rounds: about as many as were done, at least 4 and at most 128. At first many borders rise and many rows are near; soon they are few.
// Powers of 2, so that dividing by them is a shift.
fn block_bits(done: u64) -> u64
    ensures { result < 64 }
{
    match done {
        0..8 => 2,
        8..16 => 3,
        16..32 => 4,
        32..64 => 5,
        64..128 => 6,
        _ => 7,
    }
}

// Every row loses the sum of p times what was gained.
pub fn settle(grid: &Grid, gained: &[u64], rising: &[usize], margins: &mut [u64])
    requires { Settleable (flat_of grid.now) margins.old gained.now rising.now }
    ensures { margins.new ≡ left_to (flat_of grid.now) gained.now margins.old }
{
    for i in 0..grid.rows {
        // Read here, where it is known to fit.
        let old = margins[i];
        margins[i] = old - walk::row_loads(grid, i, gained, gained, rising).loss;
    }
}

// Moves the borders of `rising` whose cap is above 0 to the front. Answers how many they are. A border whose cap is 0 never rises again.
fn keep_rising(caps: &[u64], rising: &mut [usize]) -> usize
    requires { Listed (length caps.now) caps.now rising.old }
    ensures { Listed (length caps.now) caps.now (take result rising.new) × (result ≤ length rising.new) }
{
    let mut kept: usize = 0;
    for j in 0..rising.len() {
        let b = rising[j];
        // Always written: after a border whose cap is 0, the next one is written over it.
        rising[kept] = b;
        if caps[b] > 0 {
            kept += 1;
        }
    }
    kept
}

// The near rows tighten the caps by the margin that is left to them: the caps become the raises of the next round. A resting row would tighten none.
pub fn walk_near(
    grid: &Grid,
    ns: &[u64],
    margins: &[u64],
    gained: &[u64],
    rising: &[usize],
    near: &[usize],
    count: usize,
    caps: &mut [u64],
)
    requires { Walkable (flat_of grid.now) ns.now margins.now gained.now caps.old rising.now near.now count }
    ensures { caps.new ≡ raises (flat_of grid.now) (left_to (flat_of grid.now) gained.now margins.now) }
{
    for &i in &near[..count] {
        walk_row(grid, ns, margins, gained, rising, i, caps);
    }
    // Rows that have no place in the list. (For a table of 01 every row has a place.)
    for i in near.len()..grid.rows {
        walk_row(grid, ns, margins, gained, rising, i, caps);
    }
}

// Row `i` tightens the caps by the margin that is left to it.
fn walk_row(
    grid: &Grid,
    ns: &[u64],
    margins: &[u64],
    gained: &[u64],
    rising: &[usize],
    i: usize,
    caps: &mut [u64],
)
    requires { Steppable (flat_of grid.now) ns.now margins.now gained.now caps.old rising.now i }
    ensures { caps.new ≡ stepped (flat_of grid.now) margins.now gained.now caps.old i }
{
    let loads = walk::row_loads(grid, i, gained, caps, rising);
    let margin = margins[i] - loads.loss;
    walk::lower_if_tight(grid, i, ns[i], margin, loads.most, rising, caps);
}
