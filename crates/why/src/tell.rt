// The rounds of a table that may start, and what they tell of one border.
ghost use Rattle.std.specs.Prelude.{◌≡◌, ◌<◌, ◌≤◌, length, Ok};
ghost use Rattle.extractrules.specs.Inner.{Runnable, grid_with, start_with};
ghost use Rattle.why.specs.Why.{why_by, leaves};
ghost use Rattle.why.specs.Told.{told};

use holding::{EndRecord, HoldRecord, Reasons};
use types::{BorderRecord, Header};
use walk::grid::Grid;

// The reasons of border `border`, its records stored. The room is made here, and not in `explain_in`, whose goals would spell it out.
pub fn explain(
    h: Header,
    b: &[BorderRecord],
    states: &[u64],
    p: &[u64],
    border: usize,
    margins: &mut [u64],
    ends: &mut [EndRecord],
    out: &mut [HoldRecord],
) -> Reasons
    requires runnable { Runnable h b.now p.now margins.old }
    requires states_len { (length states.now ≡ h.rows) × (border < h.borders) }
    requires borders_in_bounds { (h.borders ≤ length ends.old) × (h.rows ≤ length out.old) }
    ensures { leaves (Ok result) p.now ends.new out.new ≡ told ends.old out.old (why_by h states.now p.now (grid_with h p.now) (start_with h b.now margins.old) border) }
{
    let rows = h.rows;
    let borders = h.borders;
    let mut ns: [u64; limits::ROWS_MOST] = [0; limits::ROWS_MOST];
    let mut stood: [u64; limits::ROWS_MOST] = [0; limits::ROWS_MOST];
    let mut lasts: [u64; limits::BORDERS_MOST] = [0; limits::BORDERS_MOST];
    explain_in(
        h,
        b,
        states,
        p,
        border,
        &mut ns[..rows],
        &mut lasts[..borders],
        margins,
        &mut stood[..rows],
        ends,
        out,
    )
}

fn explain_in(
    h: Header,
    b: &[BorderRecord],
    states: &[u64],
    p: &[u64],
    border: usize,
    ns: &mut [u64],
    lasts: &mut [u64],
    margins: &mut [u64],
    stood: &mut [u64],
    ends: &mut [EndRecord],
    out: &mut [HoldRecord],
) -> Reasons
    requires runnable { Runnable h b.now p.now margins.old }
    requires states_len { (length states.now ≡ h.rows) × (border < h.borders) }
    requires ns_len { (length ns.old ≡ h.rows) × (length lasts.old ≡ h.borders) × (length stood.old ≡ h.rows) }
    requires borders_in_bounds { (h.borders ≤ length ends.old) × (h.rows ≤ length out.old) }
    ensures { leaves (Ok result) p.now ends.new out.new ≡ told ends.old out.old (why_by h states.now p.now (grid_with h p.now) (start_with h b.now margins.old) border) }
{
    let borders = h.borders;
    let grid = Grid {
        rows: h.rows,
        borders,
        p,
    };
    let from = start::exchanges(h, b);
    let end = holding::work(&grid, from, border, ns, lasts, margins, stood);
    let to = end.x;
    holding::store_ends(&from[..borders], &to[..borders], ends);
    holding::store_holds(&grid, states, ns, margins, border, out);
    let stops = holding::find_stops(&grid, ns, margins, stood, border);
    Reasons {
        rounds: end.rounds,
        last: lasts[border],
        named: stops.named,
        ended: stops.ended,
    }
}
