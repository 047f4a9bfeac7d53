// The rows that the rounds of a block look at; most rows may rest (02, E4). Raises never grow, so what a row loses in this round is the most that it loses in each
// of the next: a row far from tight rests. Some near rows need no look either: a row that yields to another, with no less margin and no larger n or factor, never
// tightens a cap below what the other allows. Margins and losses are in grains, caps in kW.
#![tactic(auto)]

ghost use Rattle.std.specs.Prelude.{◌≡◌, true, ℕ, ◌*◌, ◌-◌, ◌/◌, ◌^◌, ◌<◌, ◌≤◌, ltb, length};
ghost use Rattle.numbers.specs.Below.{at};
ghost use Rattle.rounds.specs.AllRounds.{Ready};
ghost use Rattle.walk.specs.Flat.{flat_of};
ghost use Rattle.nearness.specs.Near.{Sortable, Yields, Placed, Sorted};

use walk::Loads;
use walk::grid::Grid;

// Lists at the front of `near` the rows that each of the next 2^bits rounds looks at. Only rows for which `near` has a place are tried. Answers how many are listed.
pub fn find_near(
    grid: &Grid,
    ns: &[u64],
    margins: &[u64],
    caps: &[u64],
    rising: &[usize],
    bits: u64,
    near: &mut [usize],
) -> usize
    requires sortable { Sortable (flat_of grid.now) ns.now margins.now caps.now rising.now }
    requires near_len_bound { (length near.old ≤ grid.now.rows) × (bits < 64) }
    ensures { Sorted (flat_of grid.now) margins.now caps.now rising.now (2 ^ bits) near.new result (length near.new) }
{
    let mut count: usize = 0;
    for i in 0..near.len() {
        let loads = walk::row_loads(grid, i, caps, caps, rising);
        if is_near(margins[i], ns[i], loads, bits) {
            count = list_row(grid, ns, margins, rising, i, near, count);
        }
    }
    count
}

// Whether 2^bits rounds, each with this round's loss, could leave less than n times the largest part: the row could then tighten a cap.
fn is_near(margin: u64, n: u64, loads: Loads, bits: u64) -> bool
    requires { (loads.most * n ≤ margin) × (bits < 64) }
    ensures { result ≡ ltb ((margin - loads.most * n) / 2 ^ bits) loads.loss }
{
    let slack = margin - loads.most * n;
    slack >> bits < loads.loss
}

// Lists row `i` after the first `count` of `near`. If it yields to the first of them, it is not listed; if the first yields to it, it takes that place.
// Answers how many are listed then.
fn list_row(
    grid: &Grid,
    ns: &[u64],
    margins: &[u64],
    rising: &[usize],
    i: usize,
    near: &mut [usize],
    count: usize,
) -> usize
    requires row_in_bounds { i < grid.now.rows }
    requires ready { Ready (flat_of grid.now) ns.now margins.now }
    requires rising_in_bounds { (j : ℕ) → j < length rising.now → at rising.now j < grid.now.borders }
    requires count_le_i { (count ≤ i) × (i < length near.old) × ((j : ℕ) → j < count → at near.old j < i) }
    ensures { Placed (flat_of grid.now) margins.now rising.now near.old count i near.new result }
{
    if count == 0 {
        near[0] = i;
        return 1;
    }
    let first = near[0];
    if yields(grid, ns, margins, rising, first, i) {
        return count;
    }
    if yields(grid, ns, margins, rising, i, first) {
        near[0] = i;
        return count;
    }
    near[count] = i;
    count + 1
}

// Whether row `i` yields to row `t`: true only where it does.
fn yields(grid: &Grid, ns: &[u64], margins: &[u64], rising: &[usize], t: usize, i: usize) -> bool
    requires rows_in_bounds { (t < grid.now.rows) × (i < grid.now.rows) }
    requires ready { Ready (flat_of grid.now) ns.now margins.now }
    requires rising_in_bounds { (j : ℕ) → j < length rising.now → at rising.now j < grid.now.borders }
    ensures { result ≡ true → Yields (flat_of grid.now) margins.now rising.now t i }
{
    if margins[i] < margins[t] || ns[t] < ns[i] {
        return false;
    }
    let leading = grid.row(t);
    let yielding = grid.row(i);
    for &b in rising {
        if leading[b] < yielding[b] {
            return false;
        }
    }
    true
}
