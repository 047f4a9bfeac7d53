// The front of a day's page: a strip with a box for each hour, and the sheet of capacities, with a small line for each border over the day. What a cell of the sheet says is
// promised in crate daysheet; the drawing is held by a stored page and by a test that takes every figure out of a page again (second/pages.rs).
#![tactic(auto)]

pub mod facts;
mod line;
mod sheet;
pub mod strip;
pub mod sums;

ghost use Rattle.std.specs.Prelude.{◌≤◌, length};
ghost use Rattle.daysheet.specs.Sheet.{hours_most};

use daysheet::Sheet;
use pageform::Figures;
use system::System;

// Prints the front of a day from the records of its hours, and its sheet.
pub fn print(sys: &System, day: &[Figures], sheet: Sheet) -> bool
    requires { length sheet.hours.now ≤ hours_most }
{
    let all = sheet::with_hubs(facts::counted(day), sheet.ways);
    strip::print(sys, &all, day) && sheet::print(sys, all, day, sheet)
}
