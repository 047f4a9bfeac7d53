// How many rounds the hour of a good table can take at most, known before the first round. What is done beyond starting the margins (tight::measure) costs less than one
// round (docs/BENCH.md). What judges lent tables first is crate doors'.
#![tactic(auto)]

ghost use Rattle.std.specs.Prelude.{◌≡◌, ◌*◌, length};
ghost use Rattle.marks.specs.Marks.{flagged, every, listed};
ghost use Rattle.tablerules.specs.Table.{front, lent_view};
ghost use Rattle.tablerules.specs.Good.{Good};
ghost use Rattle.boundrules.specs.Bound.{bound_marked, bound_asked};

use refusals::Refusal;
use tablerules::TableView;
use tightrules::RoundsMost;
use walk::grid::Grid;

// The bound of a good table: 13, and then the bound. The room to work in is made here, and not in `bound_in`, whose goals would spell it out.
pub fn bound_good(view: &TableView, marks: Option<&[u64]>) -> Result<RoundsMost, Refusal>
    requires { Good (front (lent_view view.now)) }
    ensures { result ≡ bound_asked (every marks.entry) (listed marks.entry) (front (lent_view view.now)) }
{
    let borders = view.header.borders;
    marks::judge_asked(borders, marks)?;
    let flags = marks::chosen(marks);
    let rows = view.header.rows;
    let cells = rows * borders;
    let mut rams: [i64; limits::ROWS_MOST] = [0; limits::ROWS_MOST];
    let mut starts: [i64; limits::ROWS_MOST] = [0; limits::ROWS_MOST];
    let mut states: [u64; limits::ROWS_MOST] = [0; limits::ROWS_MOST];
    let mut margins: [u64; limits::ROWS_MOST] = [0; limits::ROWS_MOST];
    let mut ns: [u64; limits::ROWS_MOST] = [0; limits::ROWS_MOST];
    let mut p: [u64; limits::ROWS_MOST * limits::BORDERS_MOST] = [0; limits::ROWS_MOST
        * limits::BORDERS_MOST];
    bound_in(
        view,
        &flags[..borders],
        &mut rams[..rows],
        &mut starts[..rows],
        &mut states[..rows],
        &mut margins[..rows],
        &mut ns[..rows],
        &mut p[..cells],
    )
}

// 5, 6, 7, and only then p, the margins that the rounds would start from, and the bound that both give.
fn bound_in(
    view: &TableView,
    flags: &[u64],
    rams: &mut [i64],
    starts: &mut [i64],
    states: &mut [u64],
    margins: &mut [u64],
    ns: &mut [u64],
    p: &mut [u64],
) -> Result<RoundsMost, Refusal>
    requires good { Good (front (lent_view view.now)) }
    requires flags_len { length flags.now ≡ view.now.header.borders }
    requires rams_len { (length rams.old ≡ view.now.header.rows) × (length starts.old ≡ view.now.header.rows) }
    requires states_len { (length states.old ≡ view.now.header.rows) × (length margins.old ≡ view.now.header.rows) }
    requires ns_len { (length ns.old ≡ view.now.header.rows) × (length p.old ≡ view.now.header.rows * view.now.header.borders) }
    ensures { result ≡ bound_marked (flagged flags.now) (front (lent_view view.now)) }
{
    start::prepare(view, flags, rams, starts, states)?;
    let borders = view.header.borders;
    let rows = view.header.rows;
    let ends = &view.borders[..borders];
    let factors = &view.factors[..rows * view.header.zones];
    start::lay_out(
        view.header,
        ends,
        factors,
        flags,
        starts,
        states,
        p,
        margins,
    );
    Ok(tight::measure(&Grid { rows, borders, p }, margins, ns))
}
