// The open calls `read` and `read_corrected`: the texts are read into room for the largest table, then the lengths of the lent tables are judged, and only then is
// anything written to them.
#![tactic(auto)]

ghost use Rattle.std.specs.Prelude.{◌≡◌, true, ◌*◌, ◌≤◌, length, Ok};
ghost use Rattle.limits.specs.Limits.{zones_most, borders_most, rows_most};
ghost use Rattle.types.specs.Ranges.{header_fits};
ghost use Rattle.tablerules.specs.Table.{lent_view, front};
ghost use Rattle.reading.specs.Places.{Roomy, read_said};
ghost use Rattle.reading.specs.Reading.{tables_left, read_left, read_corrected_left};

use refusals::Refusal;
use sections::put::put_front;
use tablerules::TableView;
use types::{Border, BorderRecord, Header, Row, RowRecord};

// Reads a table from its text into lent tables. Any input has an answer: there is no `requires`.
pub fn read(
    text: &[u8],
    z: &mut [i64],
    t: &mut [i64],
    b: &mut [BorderRecord],
    c: &mut [RowRecord],
    f: &mut [i64],
) -> Result<Header, Refusal>
    ensures { read_said result z.new t.new b.new c.new f.new ≡ read_left text.now z.old t.old b.old c.old f.old }
{
    read_corrected(text, b"", z, t, b, c, f)
}

// Reads a table from its text and a correction sheet (02, E2). An empty sheet changes nothing.
pub fn read_corrected<'a>(
    text: &'a [u8],
    sheet: &'a [u8],
    z: &mut [i64],
    t: &mut [i64],
    b: &mut [BorderRecord],
    c: &mut [RowRecord],
    f: &mut [i64],
) -> Result<Header, Refusal>
    ensures { read_said result z.new t.new b.new c.new f.new ≡ read_corrected_left text.now sheet.now z.old t.old b.old c.old f.old }
{
    let mut nets: [i64; limits::ZONES_MOST] = [0; limits::ZONES_MOST];
    let mut allocated: [i64; limits::ZONES_MOST] = [0; limits::ZONES_MOST];
    let mut borders: [BorderRecord; limits::BORDERS_MOST] =
        [[0; Border::ITEMS]; limits::BORDERS_MOST];
    let mut rows: [RowRecord; limits::ROWS_MOST] = [[0; Row::ITEMS]; limits::ROWS_MOST];
    let mut factors: [i64; limits::ROWS_MOST * limits::ZONES_MOST] = [0; limits::ROWS_MOST
        * limits::ZONES_MOST];
    read_with(
        text,
        sheet,
        &mut nets,
        &mut allocated,
        &mut borders,
        &mut rows,
        &mut factors,
        z,
        t,
        b,
        c,
        f,
    )
}

// The working tables are made in `read_corrected`, and not here, where goals would spell them out.
fn read_with<'a>(
    text: &'a [u8],
    sheet: &'a [u8],
    nets: &mut [i64],
    allocated: &mut [i64],
    borders: &mut [BorderRecord],
    rows: &mut [RowRecord],
    factors: &mut [i64],
    z: &mut [i64],
    t: &mut [i64],
    b: &mut [BorderRecord],
    c: &mut [RowRecord],
    f: &mut [i64],
) -> Result<Header, Refusal>
    requires { (zones_most ≤ length nets.old) × (zones_most ≤ length allocated.old) × (borders_most ≤ length borders.old) × (rows_most ≤ length rows.old) × (rows_most * zones_most ≤ length factors.old) }
    ensures { read_said result z.new t.new b.new c.new f.new ≡ read_corrected_left text.now sheet.now z.old t.old b.old c.old f.old }
{
    let header = reading::read_into(text, sheet, nets, allocated, borders, rows, factors)?;
    let view = TableView {
        header,
        nets,
        allocated,
        borders,
        rows,
        factors,
    };
    put_table(&view, z, t, b, c, f)
}

// A table that was read: 8, and then it is put in front of the lent tables.
fn put_table(
    view: &TableView,
    z: &mut [i64],
    t: &mut [i64],
    b: &mut [BorderRecord],
    c: &mut [RowRecord],
    f: &mut [i64],
) -> Result<Header, Refusal>
    requires fits { header_fits view.now.header ≡ true }
    requires roomy { Roomy view.now.nets.now view.now.allocated.now view.now.borders.now view.now.rows.now view.now.factors.now }
    ensures { read_said result z.new t.new b.new c.new f.new ≡ tables_left (Ok (front (lent_view view.now))) z.old t.old b.old c.old f.old }
{
    let h = view.header;
    table::judge_room(h, z.len(), t.len(), b.len(), c.len(), f.len())?;
    put_front(h.zones, view.nets, z);
    put_front(h.allocated_items(), view.allocated, t);
    put_front(h.borders, view.borders, b);
    put_front(h.rows, view.rows, c);
    put_front(h.rows * h.zones, view.factors, f);
    Ok(h)
}
