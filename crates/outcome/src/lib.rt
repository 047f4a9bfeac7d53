// What is left of a border and of a row at the end of the rounds, and the records that the open calls store of them (01, "Extraction"; 02, E7).
#![tactic(auto)]

ghost use Rattle.std.specs.Prelude.{◌≡◌, ℕ, ◌*◌, ◌^◌, ◌<◌, ◌≤◌, length};
ghost use Rattle.numbers.specs.Below.{at, table, over};
ghost use Rattle.types.specs.Ranges.{at_ℤ};
ghost use Rattle.rounds.specs.AllRounds.{stop_by};
ghost use Rattle.walk.specs.Flat.{flat_of};
ghost use Rattle.outcome.specs.Outcome.{StopFits, row_or_dash, border_left, left_of_margin, left_of_row};

use walk::grid::Grid;

// A border at the end of the rounds: its exchange, kW, the last round that raised it, and the row that stopped it.
#[derive(Clone, Copy)]
pub struct BorderResult {
    pub kw: u64,
    pub last: u64,
    pub stop: Option<usize>,
}

// A border's result: ATC, MW; last round; stopping row.
pub type AtcRecord = [i64; BorderResult::ITEMS];

impl BorderResult {
    pub const ITEMS: usize = 3;

    // The columns of an A line after its index: `DASH` is written "-".
    pub const COLUMNS: [u8; BorderResult::ITEMS] = *b"nnr";

    // Stands for the stopping row of a border that is not marked.
    pub const DASH: i64 = -1;

    // The row, or `DASH`.
    fn stop_row(self) -> i64
        requires { StopFits self.stop }
        ensures { result ≡ row_or_dash self.stop }
    {
        match self.stop {
            Some(i) => i as i64,
            None => BorderResult::DASH,
        }
    }

    // The exchange is floored to whole MW, once, here.
    fn as_record(self) -> AtcRecord
        requires { (self.last < 2 ^ 63) × StopFits self.stop }
        ensures { result ≡ border_left self.kw self.last self.stop }
    {
        [(self.kw / 1000) as i64, self.last as i64, self.stop_row()]
    }
}

// A row at the end of the rounds: its state, its RAM and the margin left, grains.
#[derive(Clone, Copy)]
pub struct RowResult {
    pub state: u64,
    pub ram: i64,
    pub margin: u64,
}

// A row's result: state, RAM, margin left.
pub type LeftRecord = [i64; RowResult::ITEMS];

impl RowResult {
    pub const ITEMS: usize = 3;

    // The columns of an M line after its index: `DASH` is written "-".
    pub const COLUMNS: [u8; RowResult::ITEMS] = *b"nsr";

    // Stands for the margin left where the row took no part.
    pub const DASH: i64 = -1;

    // Grains, or `DASH`.
    fn margin_left(self) -> i64
        requires { self.margin < 2 ^ 63 }
        ensures { result ≡ left_of_margin self.state self.margin }
    {
        if self.state == 0 {
            self.margin as i64
        } else {
            RowResult::DASH
        }
    }

    fn as_record(self) -> LeftRecord
        requires { (self.state ≤ 2) × (self.margin < 2 ^ 63) }
        ensures { result ≡ left_of_row self.state self.ram self.margin }
    {
        [self.state as i64, self.ram, self.margin_left()]
    }
}

// Stores the record of each border, whose stopping row is found here by the rows' equal shares of their margins left.
pub fn store_atcs(grid: &Grid, x: &[u64], lasts: &[u64], shares: &[u64], atc: &mut [AtcRecord])
    requires shares_len { (length shares.now ≡ grid.now.rows) × (grid.now.rows < 2 ^ 63) }
    requires x_len { (length x.now ≡ grid.now.borders) × (length lasts.now ≡ grid.now.borders) × (grid.now.borders ≤ length atc.old) }
    requires by_index { (b : ℕ) → b < grid.now.borders → at lasts.now b < 2 ^ 63 }
    ensures { atc.new ≡ over (table grid.now.borders (λ b. border_left (at x.now b) (at lasts.now b) (stop_by (flat_of grid.now) shares.now b))) atc.old }
{
    for b in 0..grid.borders {
        let result = BorderResult {
            kw: x[b],
            last: lasts[b],
            stop: walk::stopping::stop_row(grid, shares, b),
        };
        atc[b] = result.as_record();
    }
}

// Stores the record of each row.
pub fn store_lefts(rams: &[i64], states: &[u64], margins: &[u64], left: &mut [LeftRecord])
    requires rams_len { (length rams.now ≡ length states.now) × (length margins.now ≡ length states.now) × (length states.now ≤ length left.old) }
    requires by_index { (i : ℕ) → i < length states.now → (at states.now i ≤ 2) × (at margins.now i < 2 ^ 63) }
    ensures { left.new ≡ over (table (length states.now) (λ i. left_of_row (at states.now i) (at_ℤ rams.now i) (at margins.now i))) left.old }
{
    for i in 0..states.len() {
        let result = RowResult {
            state: states[i],
            ram: rams[i],
            margin: margins[i],
        };
        left[i] = result.as_record();
    }
}
