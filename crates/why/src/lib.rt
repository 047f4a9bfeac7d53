// Why a border of a good table got no more (01, "Extraction"; 02, E7), where with marks only the marked borders rise (02, E13). The open calls `why` and `why_marked` stand in crate doors.
// The result names the first row that stops a border at the end; this tells besides which row ended its rise, and of every border and row what took part in it.
#![tactic(auto)]

pub mod tell;

ghost use Rattle.std.specs.Prelude.{◌≡◌, ◌*◌, ◌<◌, ◌≤◌, length};
ghost use Rattle.marks.specs.Marks.{flagged, every, listed};
ghost use Rattle.tablerules.specs.Table.{front, lent_view};
ghost use Rattle.tablerules.specs.Good.{Good};
ghost use Rattle.why.specs.Why.{reasons_marked, reasons_for, leaves, judged_left};

use holding::{EndRecord, HoldRecord, Reasons};
use refusals::Refusal;
use tablerules::TableView;

// A good table, with room to work in: 5, 6, 7, room for the records, and only then p of the marked borders, the rounds, what is stored, and p of the others.
fn why_in(
    view: &TableView,
    flags: &[u64],
    border: usize,
    rams: &mut [i64],
    starts: &mut [i64],
    states: &mut [u64],
    margins: &mut [u64],
    p: &mut [u64],
    ends: &mut [EndRecord],
    rows: &mut [HoldRecord],
) -> Result<Reasons, Refusal>
    requires good { Good (front (lent_view view.now)) }
    requires flags_len { (length flags.now ≡ view.now.header.borders) × (border < view.now.header.borders) }
    requires rams_len { (length rams.old ≡ view.now.header.rows) × (length starts.old ≡ view.now.header.rows) }
    requires states_len { (length states.old ≡ view.now.header.rows) × (length margins.old ≡ view.now.header.rows) }
    requires p_len { length p.old ≡ view.now.header.rows * view.now.header.borders }
    ensures { leaves result p.new ends.new rows.new ≡ judged_left (reasons_marked (flagged flags.now) (front (lent_view view.now)) border) p.old ends.old rows.old }
{
    start::prepare(view, flags, rams, starts, states)?;
    let header = view.header;
    if ends.len() < header.borders {
        return Err(Refusal::TooShort(header.borders));
    }
    if rows.len() < header.rows {
        return Err(Refusal::TooShort(header.rows));
    }
    let given = &view.borders[..header.borders];
    let factors = &view.factors[..header.rows * header.zones];
    start::lay_out(header, given, factors, flags, starts, states, p, margins);
    let reasons = tell::explain(header, given, states, p, border, margins, ends, rows);
    start::complete(header, given, factors, flags, states, p);
    Ok(reasons)
}

// A good table, as it was lent: 13, 14, and then the reasons. The room to work in is made here, and not in `why_in`, whose goals would spell it out.
pub fn why_good(
    view: &TableView,
    marks: Option<&[u64]>,
    border: u64,
    p: &mut [u64],
    ends: &mut [EndRecord],
    rows: &mut [HoldRecord],
) -> Result<Reasons, Refusal>
    requires good { Good (front (lent_view view.now)) }
    requires borders_in_bounds { view.now.header.rows * view.now.header.borders ≤ length p.old }
    ensures { leaves result p.new ends.new rows.new ≡ judged_left (reasons_for (every marks.entry) (listed marks.entry) (front (lent_view view.now)) border) p.old ends.old rows.old }
{
    let borders = view.header.borders;
    marks::judge_asked(borders, marks)?;
    if borders as u64 <= border {
        return Err(Refusal::NoBorder(borders));
    }
    let mut flags: [u64; limits::BORDERS_MOST] = [0; limits::BORDERS_MOST];
    marks::choose(marks, &mut flags);
    let n = view.header.rows;
    let cells = n * borders;
    let mut rams: [i64; limits::ROWS_MOST] = [0; limits::ROWS_MOST];
    let mut starts: [i64; limits::ROWS_MOST] = [0; limits::ROWS_MOST];
    let mut states: [u64; limits::ROWS_MOST] = [0; limits::ROWS_MOST];
    let mut margins: [u64; limits::ROWS_MOST] = [0; limits::ROWS_MOST];
    why_in(
        view,
        &flags[..borders],
        border as usize,
        &mut rams[..n],
        &mut starts[..n],
        &mut states[..n],
        &mut margins[..n],
        &mut p[..cells],
        ends,
        rows,
    )
}
