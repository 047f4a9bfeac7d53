// The open calls `extract`, `bound` and, in its own file, `why` on lent tables, each for every border and with marks: what is lent is judged here, once, and all inside works on a good table.
#![tactic(auto)]

pub mod reasons;

ghost use Rattle.std.specs.Prelude.{◌≡◌, true, false, []};
ghost use Rattle.marks.specs.Marks.{every, listed};
ghost use Rattle.tablerules.specs.Table.{lent_view};
ghost use Rattle.extractrules.specs.Extraction.{leaves, extract_for, extract_left, extract_marked_left};
ghost use Rattle.boundrules.specs.Bound.{bound_for};

use outcome::{AtcRecord, LeftRecord};
use refusals::Refusal;
use tablerules::TableView;
use tightrules::RoundsMost;

// ATCs, states, RAMs and margins left of a lent table, and p of each row at each border.
// Any input has an answer; where that is a refusal, nothing is written.
pub fn extract(
    view: &TableView,
    p: &mut [u64],
    atc: &mut [AtcRecord],
    left: &mut [LeftRecord],
) -> Result<u64, Refusal>
    ensures { leaves result p.new atc.new left.new ≡ extract_left (lent_view view.now) p.old atc.old left.old }
{
    extract_for(view, None, p, atc, left)
}

// The extraction where only the borders of a list of marks rise (02, E13).
pub fn extract_marked(
    view: &TableView,
    p: &mut [u64],
    marks: &[u64],
    atc: &mut [AtcRecord],
    left: &mut [LeftRecord],
) -> Result<u64, Refusal>
    ensures { leaves result p.new atc.new left.new ≡ extract_marked_left (lent_view view.now) marks.now p.old atc.old left.old }
{
    extract_for(view, Some(marks), p, atc, left)
}

// The extraction for every border, or with marks. Room for p is judged with the table, before any record.
pub fn extract_for(
    view: &TableView,
    marks: Option<&[u64]>,
    p: &mut [u64],
    atc: &mut [AtcRecord],
    left: &mut [LeftRecord],
) -> Result<u64, Refusal>
    ensures { leaves result p.new atc.new left.new ≡ extract_for (every marks.entry) (listed marks.entry) (lent_view view.now) p.old atc.old left.old }
{
    table::judge(view, Some(p.len()))?;
    extraction::extract_good(view, marks, p, atc, left)
}

// The bound of a lent table. Any input has an answer: there is no `requires`.
pub fn bound(view: &TableView) -> Result<RoundsMost, Refusal>
    ensures { result ≡ bound_for true [] (lent_view view.now) }
{
    bound_for(view, None)
}

// The bound where only the borders of a list of marks rise (02, E13).
pub fn bound_marked(view: &TableView, marks: &[u64]) -> Result<RoundsMost, Refusal>
    ensures { result ≡ bound_for false marks.now (lent_view view.now) }
{
    bound_for(view, Some(marks))
}

// The bound for every border, or with marks.
pub fn bound_for(view: &TableView, marks: Option<&[u64]>) -> Result<RoundsMost, Refusal>
    ensures { result ≡ bound_for (every marks.entry) (listed marks.entry) (lent_view view.now) }
{
    table::judge(view, None)?;
    bound::bound_good(view, marks)
}
