// What a page shows of an hour, as records of figures that its pieces print: one for each border, behind them one for each row, and one for the hour. The comment at each place gives
// the letter by which pieces name it (crate pageform); a figure from 2^63 on is below 0.
#![tactic(auto)]

ghost use Rattle.std.specs.Prelude.{◌<◌};

pub mod border;
pub mod hour;
pub mod row;

use pageform::Figures;

// The record of border b stands at b, that of row i at ROWS + i.
pub const ROWS: usize = limits::BORDERS_MOST;

pub const RECORDS: usize = limits::BORDERS_MOST + limits::ROWS_MOST;

// An empty record.
pub fn blank() -> Figures {
    [0; pageform::NAMES]
}

// How many records have a figure that is not 0.
pub fn count(name: usize, records: &[Figures]) -> u64
    requires { name < 52 }
{
    records.iter().filter(|r| r[name] != 0).count() as u64
}
