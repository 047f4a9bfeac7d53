// Scales and the places of values on them, in whole numbers (docs/DECISIONS.md has the formulas). A value is a figure: from 2^63 on it is below 0.
#![tactic(auto)]

pub mod scale;

ghost use Rattle.std.specs.Prelude.{◌≤◌};

use pageform::Figures;

// Units of the longest bar of a border, and of a row.
pub const BORDER_UNITS: u64 = 460;

pub const ROW_UNITS: u64 = 320;

// Values up to here stand on a scale: a row's margin is under 2^48 grains.
const MOST: u64 = 18014398509481984;

const UNITS_MOST: u64 = 512;

pub const BELOW_0: u64 = 9223372036854775808;

// Where a value stands on a bar of so many units, which is worth `end`: never behind its end, and at 0 where the value is below 0.
pub fn place(v: u64, end: u64, units: u64) -> u64
    ensures { result ≤ units }
{
    if BELOW_0 <= v {
        0
    } else if end <= v {
        units
    } else {
        v.min(MOST) * units.min(UNITS_MOST) / end
    }
}

// A figure that is below 0 counts as 0.
pub fn positive(v: u64) -> u64 {
    if BELOW_0 <= v { 0 } else { v }
}

// The end of a scale in grains. No scale ends behind 32 x 10^10 MW, and none of rows behind 2^48 grains.
pub fn grains(mw: u64) -> u64 {
    mw.min(10000000000) * 100000000
}

// The places of figures b to j of a row's record, which are grains until then.
pub fn places(mut row: Figures, end: u64) -> Figures {
    for value in &mut row[1..10] {
        *value = place(*value, end, ROW_UNITS);
    }
    row
}
