// The raises of the first round, and one row's work in the others, which divides little (02, E4). Margins are in grains, caps and raises in kW.
// A border's cap is what it may rise by at most. Raises never grow from round to round, so the last raise caps the next one, and a border at 0 is
// done with: `rising` lists the others. A row is tried by products with the caps, and divides its margin by n, once, only
// where a cap is too high. A factor of 0 makes a product of 0 and so never divides.
#![tactic(auto)]

pub mod grid;
pub mod stopping;

ghost use Rattle.std.specs.Prelude.{◌≡◌, ◌*◌, ◌/◌, ◌^◌, ◌<◌, length};
ghost use Rattle.numbers.specs.Below.{table};
ghost use Rattle.rounds.specs.Rounds.{sharers, raises, load};
ghost use Rattle.rounds.specs.AllRounds.{Ready};
ghost use Rattle.walk.specs.Flat.{flat_of};
ghost use Rattle.walk.specs.Walk.{Listed, First, Caps, tightened, most_load, Loadable};

use grid::Grid;

// The list of all borders, and the raises of the first round.
pub fn begin(grid: &Grid, ns: &[u64], margins: &[u64], rising: &mut [usize], caps: &mut [u64])
    requires ready { Ready (flat_of grid.now) ns.now margins.now }
    requires rising_len { (length rising.old ≡ grid.now.borders) × (length caps.old ≡ grid.now.borders) }
    ensures { (rising.new ≡ table grid.now.borders (λ b. b)) × (caps.new ≡ raises (flat_of grid.now) margins.now) }
{
    list_all(rising);
    first_caps(grid, margins, caps);
    first_raises(grid, ns, margins, rising, caps);
}

// Every border is listed.
fn list_all(rising: &mut [usize])
    ensures { rising.new ≡ table (length rising.old) (λ b. b) }
{
    for (b, place) in rising.iter_mut().enumerate() {
        *place = b;
    }
}

// A first cap for each border.
fn first_caps(grid: &Grid, margins: &[u64], caps: &mut [u64])
    requires margins_len { length margins.now ≡ grid.now.rows }
    requires caps_len { length caps.old ≡ grid.now.borders }
    ensures { Caps (flat_of grid.now) margins.now caps.new }
{
    for (b, cap) in caps.iter_mut().enumerate() {
        *cap = first_cap(grid, margins, b);
    }
}

// The first cap of border `b`: the margin of the first row that loads it, or 0. No row allows more than its margin, even to a border alone. This needs no division.
pub fn first_cap(grid: &Grid, margins: &[u64], b: usize) -> u64
    requires border_in_bounds { b < grid.now.borders }
    requires margins_len { length margins.now ≡ grid.now.rows }
    ensures { First (flat_of grid.now) margins.now b result }
{
    for i in 0..grid.rows {
        if grid.factor(i, b) > 0 {
            return margins[i];
        }
    }
    0
}

// The raises of the first round: each row in turn divides its margin by n, once, and tightens all caps.
fn first_raises(grid: &Grid, ns: &[u64], margins: &[u64], rising: &[usize], caps: &mut [u64])
    requires ready { Ready (flat_of grid.now) ns.now margins.now }
    requires rising_value { rising.now ≡ table grid.now.borders (λ b. b) }
    requires caps_len { length caps.old ≡ grid.now.borders }
    requires caps { Caps (flat_of grid.now) margins.now caps.old }
    ensures { caps.new ≡ raises (flat_of grid.now) margins.now }
{
    for i in 0..grid.rows {
        let share = grid::equal_share(margins[i], ns[i]);
        lower_caps(grid, i, share, rising, caps);
    }
}

// Row `i`, whose equal share is `share`, tightens the cap of each border that still rises.
fn lower_caps(grid: &Grid, i: usize, share: u64, rising: &[usize], caps: &mut [u64])
    requires row_in_bounds { i < grid.now.rows }
    requires listed { Listed grid.now.borders caps.old rising.now }
    requires caps_len { length caps.old ≡ grid.now.borders }
    ensures { caps.new ≡ table grid.now.borders (tightened (flat_of grid.now) i share caps.old) }
{
    let factors = grid.row(i);
    for &b in rising {
        caps[b] = caps::tighten(factors[b], share, caps[b]);
    }
}

// What a row loses by the raises, and the most that one border would take of it by its cap. Grains.
#[derive(Clone, Copy)]
pub struct Loads {
    pub loss: u64,
    pub most: u64,
}

pub fn row_loads(grid: &Grid, i: usize, raises: &[u64], caps: &[u64], rising: &[usize]) -> Loads
    requires row_in_bounds { i < grid.now.rows }
    requires loadable { Loadable (flat_of grid.now) i raises.now caps.now rising.now }
    ensures { (result.loss ≡ load (flat_of grid.now) i raises.now) × (result.most ≡ most_load (flat_of grid.now) i caps.now) }
{
    let factors = grid.row(i);
    let mut loss: u64 = 0;
    let mut most: u64 = 0;
    for &b in rising {
        loss += factors[b] * raises[b];
        most = most.max(factors[b] * caps[b]);
    }
    Loads { loss, most }
}

// Row `i` tightens the caps where one of them asks for more than its equal share: most > margin / n, tried as most x n > margin. The product fits, since
// n times the most part is within the margin before the loss. Only where the row is tight its margin is divided.
pub fn lower_if_tight(
    grid: &Grid,
    i: usize,
    n: u64,
    margin: u64,
    most: u64,
    rising: &[usize],
    caps: &mut [u64],
)
    requires row_in_bounds { i < grid.now.rows }
    requires listed { Listed grid.now.borders caps.old rising.now }
    requires caps_len { length caps.old ≡ grid.now.borders }
    requires n_value { n ≡ sharers (flat_of grid.now) i }
    requires most_value { (most ≡ most_load (flat_of grid.now) i caps.old) × (most * n < 2 ^ 64) }
    ensures { caps.new ≡ table grid.now.borders (tightened (flat_of grid.now) i (margin / n) caps.old) }
{
    if margin < most * n {
        lower_caps(grid, i, margin / n, rising, caps);
    }
}
