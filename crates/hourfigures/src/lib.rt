// The figures of an hour for a day's sheet, from its table and its result: what came of it, where each border goes, and each ATC. They are kept in tables that hold
// all hours, each hour's items at its own place.
#![tactic(auto)]

mod items;

ghost use Rattle.std.specs.Prelude.{◌≡◌, true, ◌*◌, ◌<◌, ◌≤◌, length, take};
ghost use Rattle.limits.specs.Limits.{borders_most};
ghost use Rattle.types.specs.Ranges.{header_fits};
ghost use Rattle.marginrules.specs.Magnitudes.{BordersInRange};
ghost use Rattle.daysheet.specs.Sheet.{hours_most};
ghost use Rattle.hourfigures.specs.Figures.{found_in, figures, figures_by, kept_of};

use daysheet::{Answer, Hour};
use outcome::AtcRecord;
use refusals::Refusal;
use types::{BorderRecord, Header};

// Stores what was found of hour k.
pub fn store(
    h: Header,
    b: &[BorderRecord],
    extracted: Result<u64, Refusal>,
    atc: &[AtcRecord],
    k: usize,
    ways: &mut [u64],
    atcs: &mut [u64],
) -> Hour
    requires h_value { (header_fits h ≡ true) × BordersInRange h.zones (take h.borders b.now) }
    requires borders_most_in_bounds { (borders_most ≤ length b.now) × (borders_most ≤ length atc.now) }
    requires k_lt_hours_most { (k < hours_most) × (length ways.old ≡ hours_most * borders_most) × (length atcs.old ≡ hours_most * borders_most) }
    ensures { figures result ways.new atcs.new ≡ kept_of (figures_by h (take h.borders b.now) (found_in h.borders extracted atc.now)) k ways.old atcs.old }
{
    match extracted {
        Ok(rounds) => {
            let borders = h.borders;
            let place = k * limits::BORDERS_MOST;
            items::keep_ways(h.zones, &b[..borders], place, ways);
            items::keep_atcs(&atc[..borders], place, atcs);
            Hour::Answered(Answer {
                rounds,
                borders,
                intraday: h.intraday != 0,
            })
        }
        Err(w) => Hour::Refused {
            number: w.number() as u64,
            place: w.place() as u64,
            byte: w.byte() as u64,
        },
    }
}
