// What one row's margin is made of, in grains: each value by the function of crate margin that computes it for the extraction.
ghost use Rattle.std.specs.Prelude.{◌≡◌, true, ◌≤◌, length};
ghost use Rattle.numbers.specs.Ints.{Within};
ghost use Rattle.limits.specs.Limits.{borders_most};
ghost use Rattle.types.specs.LineLimits.{share_most};
ghost use Rattle.types.specs.Ranges.{border_fits, border_of, row_fits, row_of};
ghost use Rattle.marginrules.specs.Magnitudes.{RowInRange, FactorsInRange, NetsInRange, BordersInRange, f0core_most, s_most};
ghost use Rattle.marginrules.specs.Margin.{p_of, f0core_of, s_of};
ghost use Rattle.partrules.specs.Parts.{n_of, start_from, record_of};
ghost use Rattle.parts.specs.Stored.{parts_by};

use partrules::PartsRecord;
use types::{BorderRecord, Row, RowRecord};

// The record of a judged row, whose state, RAM and starting margin are at hand.
pub fn row_parts(
    default: i64,
    raw: RowRecord,
    factors: &[i64],
    z: &[i64],
    b: &[BorderRecord],
    state: u64,
    ram: i64,
    start: i64,
) -> PartsRecord
    requires within { Within share_most default }
    requires raw_value { row_fits raw ≡ true }
    requires factors_in_range { FactorsInRange factors.now }
    requires nets_in_range { NetsInRange (length factors.now) z.now }
    requires borders_in_range { BordersInRange (length factors.now) b.now }
    requires state_bound { state ≤ 2 }
    ensures { result ≡ record_of (parts_by default (row_of raw) (f0core_of (row_of raw) factors.now z.now) (s_of factors.now b.now) (n_of factors.now b.now) state ram start) }
{
    let row = Row::of_good(raw);
    let f0core = margin::f0core(row, factors, z);
    let s = margin::s(factors, b);
    let n = count_loading(factors, b);
    as_record(default, row, f0core, s, n, state, ram, start)
}

// The record: the given values, and those that are computed from F0core and S.
fn as_record(
    default: i64,
    row: Row,
    f0core: i64,
    s: u64,
    n: u64,
    state: u64,
    ram: i64,
    start: i64,
) -> PartsRecord
    requires within { Within share_most default }
    requires row_in_range { RowInRange row }
    requires within_2 { Within f0core_most f0core }
    requires s_le_s_most { (s ≤ s_most) × (n ≤ borders_most) × (state ≤ 2) }
    ensures { result ≡ record_of (parts_by default row f0core s n state ram start) }
{
    let fuaf = margin::fuaf(row, f0core);
    let base = margin::base(row, f0core);
    let amr = margin::amr(default, row, f0core);
    let lta_margin = margin::lta_margin(row, f0core, amr, s);
    let cva = margin::grains(row.cva);
    let iva = margin::grains(row.iva);
    [
        state as i64,
        n as i64,
        f0core,
        fuaf,
        base,
        amr,
        s as i64,
        lta_margin,
        cva,
        iva,
        ram,
        start,
    ]
}

// n: how many borders have p > 0 on the row.
fn count_loading(factors: &[i64], b: &[BorderRecord]) -> u64
    requires factors_in_range { FactorsInRange factors.now }
    requires borders_in_range { BordersInRange (length factors.now) b.now }
    ensures { result ≡ n_of factors.now b.now }
{
    let mut n: u64 = 0;
    for k in 0..b.len() {
        if p_at(factors, b[k]) > 0 {
            n += 1;
        }
    }
    n
}

// p of the row at a judged border.
fn p_at(factors: &[i64], raw: BorderRecord) -> u64
    requires factors_in_range { FactorsInRange factors.now }
    requires raw_value { border_fits (length factors.now) raw ≡ true }
    ensures { result ≡ p_of factors.now (border_of raw) }
{
    margin::p(factors, types::Border::of_good(factors.len(), raw))
}

// The starting margin, from where the margin starts: in the intraday profile a remainder below 0 counts as 0.
pub fn start_from(intraday: bool, margin: i64) -> i64
    ensures { result ≡ start_from intraday margin }
{
    if intraday {
        return numbers::larger(margin, 0);
    }
    margin
}
