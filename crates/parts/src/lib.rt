// What each row's margin is made of (01, "Margin of a row"), for those who set the margins and publish them: the open call `margins`.
// It asks no more of a table than writing does, so it answers for tables that the extraction refuses.
#![tactic(auto)]

mod row;

ghost use Rattle.std.specs.Prelude.{◌≡◌, ◌≤◌, length};
ghost use Rattle.numbers.specs.Below.{table, over};
ghost use Rattle.refusals.specs.Answers.{said_judgement};
ghost use Rattle.tablerules.specs.Table.{front, lent_view};
ghost use Rattle.tablerules.specs.Good.{Good};
ghost use Rattle.partrules.specs.Parts.{record_of, records_of, leaves, margins_left};
ghost use Rattle.parts.specs.Stored.{parts_at, Storable};

use partrules::PartsRecord;
use refusals::Refusal;
use tablerules::TableView;
use types::{BorderRecord, Header, RowRecord};

// The record of each row. Any input has an answer; where that is a refusal, nothing is written.
pub fn margins(view: &TableView, out: &mut [PartsRecord]) -> Result<(), Refusal>
    ensures { leaves (said_judgement result tt) out.new ≡ margins_left (lent_view view.now) out.old }
{
    table::judge(view, None)?;
    let rows = view.header.rows;
    if out.len() < rows {
        return Err(Refusal::TooShort(rows));
    }
    margins_good(view, out);
    Ok(())
}

// The records of a good table's rows. Allocates the arrays here so that the proof goals of `fill_parts` do not contain them.
pub fn margins_good(view: &TableView, out: &mut [PartsRecord])
    requires good { Good (front (lent_view view.now)) }
    requires rows_in_bounds { view.now.header.rows ≤ length out.old }
    ensures { out.new ≡ over (records_of (front (lent_view view.now))) out.old }
{
    let rows = view.header.rows;
    let mut rams: [i64; limits::ROWS_MOST] = [0; limits::ROWS_MOST];
    let mut starts: [i64; limits::ROWS_MOST] = [0; limits::ROWS_MOST];
    let mut states: [u64; limits::ROWS_MOST] = [0; limits::ROWS_MOST];
    fill_parts(
        view,
        &mut rams[..rows],
        &mut starts[..rows],
        &mut states[..rows],
        out,
    );
}

// RAMs, starting margins and states, by the functions that the extraction calls, and then the records.
fn fill_parts(
    view: &TableView,
    rams: &mut [i64],
    starts: &mut [i64],
    states: &mut [u64],
    out: &mut [PartsRecord],
)
    requires good { Good (front (lent_view view.now)) }
    requires rams_len { (length rams.old ≡ view.now.header.rows) × (length starts.old ≡ view.now.header.rows) }
    requires states_len { (length states.old ≡ view.now.header.rows) × (view.now.header.rows ≤ length out.old) }
    ensures { out.new ≡ over (records_of (front (lent_view view.now))) out.old }
{
    states::fill_rows(view, rams, starts, states);
    let h = view.header;
    store_parts(
        h,
        &view.nets[..h.zones],
        &view.borders[..h.borders],
        &view.rows[..h.rows],
        &view.factors[..h.rows * h.zones],
        rams,
        starts,
        states,
        out,
    );
}

fn store_parts(
    h: Header,
    z: &[i64],
    b: &[BorderRecord],
    c: &[RowRecord],
    f: &[i64],
    rams: &[i64],
    starts: &[i64],
    states: &[u64],
    out: &mut [PartsRecord],
)
    requires storable { Storable h z.now b.now c.now f.now states.now }
    requires rams_len { (length rams.now ≡ h.rows) × (length starts.now ≡ h.rows) }
    requires states_len { (length states.now ≡ h.rows) × (h.rows ≤ length out.old) }
    ensures { out.new ≡ over (table h.rows (λ i. record_of (parts_at h z.now b.now c.now f.now rams.now starts.now states.now i))) out.old }
{
    let default = h.default_share();
    let intraday = h.is_intraday();
    for i in 0..h.rows {
        let factors = margin::row_factors(h, f, i);
        let state = states[i];
        let ram = rams[i];
        let start = row::start_from(intraday, starts[i]);
        out[i] = row::row_parts(default, c[i], factors, z, b, state, ram, start);
    }
}
