// The open call `why` on a lent table, for every border and with marks (02, E13).
ghost use Rattle.std.specs.Prelude.{◌≡◌};
ghost use Rattle.marks.specs.Marks.{every, listed};
ghost use Rattle.tablerules.specs.Table.{lent_view};
ghost use Rattle.why.specs.Why.{leaves, why_for, why_left, why_marked_left};

use holding::{EndRecord, HoldRecord, Reasons};
use refusals::Refusal;
use tablerules::TableView;

// Why a border of a lent table got no more, and p of each row at each border. Any input has an answer; where that is a refusal, nothing is written.
pub fn why(
    view: &TableView,
    border: u64,
    p: &mut [u64],
    ends: &mut [EndRecord],
    rows: &mut [HoldRecord],
) -> Result<Reasons, Refusal>
    ensures { leaves result p.new ends.new rows.new ≡ why_left (lent_view view.now) border p.old ends.old rows.old }
{
    why_for(view, None, border, p, ends, rows)
}

// The same where only the borders of a list of marks rise (02, E13).
pub fn why_marked(
    view: &TableView,
    marks: &[u64],
    border: u64,
    p: &mut [u64],
    ends: &mut [EndRecord],
    rows: &mut [HoldRecord],
) -> Result<Reasons, Refusal>
    ensures { leaves result p.new ends.new rows.new ≡ why_marked_left (lent_view view.now) marks.now border p.old ends.old rows.old }
{
    why_for(view, Some(marks), border, p, ends, rows)
}

// Both, as asked: for every border, or with marks. Room for p is judged at the door, before any record.
pub fn why_for(
    view: &TableView,
    marks: Option<&[u64]>,
    border: u64,
    p: &mut [u64],
    ends: &mut [EndRecord],
    rows: &mut [HoldRecord],
) -> Result<Reasons, Refusal>
    ensures { leaves result p.new ends.new rows.new ≡ why_for (every marks.entry) (listed marks.entry) (lent_view view.now) border p.old ends.old rows.old }
{
    table::judge(view, Some(p.len()))?;
    why::why_good(view, marks, border, p, ends, rows)
}
