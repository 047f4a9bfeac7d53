// What the rounds of a grid tell of one border: the rounds themselves, the row that holds it, what each row would still allow it, and where each border started and ended
// (01, "Extraction"; 02, E7). It knows p, margins and exchanges, and no table. Margins are in grains, exchanges in kW.
#![tactic(auto)]

ghost use Rattle.std.specs.Prelude.{◌≡◌, ℕ, ◌*◌, ◌^◌, ◌<◌, ◌≤◌, length};
ghost use Rattle.numbers.specs.Below.{at, table, over};
ghost use Rattle.limits.specs.Limits.{borders_most};
ghost use Rattle.rounds.specs.Stopping.{stop_row};
ghost use Rattle.rounds.specs.AllRounds.{Ready, Startable};
ghost use Rattle.walk.specs.Flat.{flat_of};
ghost use Rattle.outcome.specs.Outcome.{row_or_dash, left_of_margin};
ghost use Rattle.holding.specs.Holding.{allowed, kw_or_dash, ends_left, row_left, counts_of, Worked};

use rounds::Final;
use walk::grid::{Grid, equal_share};

// Stands for a row, a margin or kW where there is none.
const DASH: i64 = -1;

pub const END_ITEMS: usize = 2;

// A border's record: where it started, kW; where it ended.
pub type EndRecord = [i64; END_ITEMS];

pub const HOLD_ITEMS: usize = 3;

// A row's record: n, the marked borders that share it; its margin left, grains; what its equal share would still allow the border in one round, kW.
pub type HoldRecord = [i64; HOLD_ITEMS];

// A border's reasons: how many rounds there were, the last that raised it (0 if none did), the row that the result names for it, and the row that ended its rise; `DASH` where
// no row did.
#[derive(Clone, Copy)]
pub struct Reasons {
    pub rounds: u64,
    pub last: u64,
    pub named: i64,
    pub ended: i64,
}

// The first row whose equal share of these margins is less than p of border `b`, which is what one kW takes of it; or `DASH`.
fn holder(grid: &Grid, ns: &[u64], margins: &[u64], b: usize) -> i64
    requires borders_in_bounds { (b < grid.now.borders) × (grid.now.rows < 2 ^ 63) }
    requires ready { Ready (flat_of grid.now) ns.now margins.now }
    ensures { result ≡ row_or_dash (stop_row (flat_of grid.now) margins.now b) }
{
    for i in 0..grid.rows {
        let share = equal_share(margins[i], ns[i]);
        if share < grid.factor(i, b) {
            return i as i64;
        }
    }
    DASH
}

// The row that holds a border by the margins at the end, which the result names, and the row that ended its rise, by those after its last round.
#[derive(Clone, Copy)]
pub struct Stops {
    pub named: i64,
    pub ended: i64,
}

pub fn find_stops(grid: &Grid, ns: &[u64], margins: &[u64], stood: &[u64], b: usize) -> Stops
    requires borders_in_bounds { (b < grid.now.borders) × (grid.now.rows < 2 ^ 63) }
    requires ready { Ready (flat_of grid.now) ns.now margins.now × Ready (flat_of grid.now) ns.now stood.now }
    ensures { (result.named ≡ row_or_dash (stop_row (flat_of grid.now) margins.now b)) × (result.ended ≡ row_or_dash (stop_row (flat_of grid.now) stood.now b)) }
{
    let named = holder(grid, ns, margins, b);
    let ended = holder(grid, ns, stood, b);
    Stops { named, ended }
}

// What an equal share of the margin would still allow a border of factor `f` in one round, kW, or `DASH` where the row does not limit it.
fn allow(n: u64, margin: u64, f: u64) -> i64
    requires { margin < 2 ^ 63 }
    ensures { result ≡ kw_or_dash (allowed n margin f) }
{
    if f == 0 {
        return DASH;
    }
    (equal_share(margin, n) / f) as i64
}

// The margin left, or `DASH` where the row took no part.
fn margin_left(state: u64, margin: u64) -> i64
    requires { margin < 2 ^ 63 }
    ensures { result ≡ left_of_margin state margin }
{
    if state == 0 { margin as i64 } else { DASH }
}

fn hold(n: u64, state: u64, margin: u64, f: u64) -> HoldRecord
    requires { (n < 2 ^ 63) × (margin < 2 ^ 63) }
    ensures { result ≡ row_left n state margin (allowed n margin f) }
{
    [n as i64, margin_left(state, margin), allow(n, margin, f)]
}

pub fn store_holds(
    grid: &Grid,
    states: &[u64],
    ns: &[u64],
    margins: &[u64],
    b: usize,
    out: &mut [HoldRecord],
)
    requires borders_in_bounds { (b < grid.now.borders) × (grid.now.rows ≤ length out.old) }
    requires states_len { (length states.now ≡ grid.now.rows) × (length ns.now ≡ grid.now.rows) × (length margins.now ≡ grid.now.rows) }
    requires by_index { (i : ℕ) → i < grid.now.rows → (at ns.now i < 2 ^ 63) × (at margins.now i < 2 ^ 63) }
    ensures { out.new ≡ over (table grid.now.rows (λ i. row_left (at ns.now i) (at states.now i) (at margins.now i) (allowed (at ns.now i) (at margins.now i) ((flat_of grid.now).p i b)))) out.old }
{
    for i in 0..grid.rows {
        out[i] = hold(ns[i], states[i], margins[i], grid.factor(i, b));
    }
}

pub fn store_ends(from: &[u64], to: &[u64], out: &mut [EndRecord])
    requires to_len { (length to.now ≡ length from.now) × (length from.now ≤ length out.old) }
    requires by_index { (c : ℕ) → c < length from.now → (at from.now c < 2 ^ 63) × (at to.now c < 2 ^ 63) }
    ensures { out.new ≡ over (table (length from.now) (λ c. ends_left (at from.now c) (at to.now c))) out.old }
{
    for c in 0..from.len() {
        out[c] = [from[c] as i64, to[c] as i64];
    }
}

// The rounds, and what the margins were after the last that raised border `b`: `margins` is left with those at the end, `stood` with those. The rounds keep none between, so
// as many are done once more. `ns` and `lasts` are memory to work in, and are left with n of each row and each border's last round.
pub fn work(
    grid: &Grid,
    from: [u64; limits::BORDERS_MOST],
    b: usize,
    ns: &mut [u64],
    lasts: &mut [u64],
    margins: &mut [u64],
    stood: &mut [u64],
) -> Final
    requires borders_in_bounds { (b < grid.now.borders) × (grid.now.borders ≤ borders_most) }
    requires startable { Startable (flat_of grid.now) (counts_of (flat_of grid.now)) margins.old from }
    requires ns_len { (length ns.old ≡ grid.now.rows) × (length lasts.old ≡ grid.now.borders) × (length stood.old ≡ grid.now.rows) }
    ensures { Worked (flat_of grid.now) margins.old from b result margins.new lasts.new ns.new stood.new }
{
    stood.copy_from_slice(margins);
    grid.count_sharers(ns);
    let end = roundloop::extract_rounds(grid, ns, margins, from, lasts);
    replay::replay(grid, ns, lasts[b], stood);
    end
}
