// Why a border got no more, in words: at most ten lines, from the record of its reasons (crate why) and from what the margins of the rows are made of (crates parts
// and states). The figures are those of proved calls; the words are held by stored texts and by the second program.
ghost use Rattle.std.specs.Prelude.{◌≡◌, ◌*◌, ◌≤◌, length};
ghost use Rattle.limits.specs.Limits.{zones_most, borders_most, rows_most};
ghost use Rattle.tablerules.specs.Table.{front, lent_view};
ghost use Rattle.tablerules.specs.Good.{Good};

use holding::{EndRecord, HoldRecord};
use partrules::PartsRecord;
use refusals::Refusal;
use tablerules::TableView;
use types::{Border, BorderRecord, Row, RowRecord};

// Tells of a border of a text's table, as the sheet corrects it. Where no marks are given, all borders may rise.
pub fn put<'a>(
    border: u64,
    marks: Option<&[u64]>,
    text: &'a [u8],
    sheet: &'a [u8],
    out: &mut [u8],
) -> Result<usize, Refusal> {
    let mut z: [i64; limits::ZONES_MOST] = [0; limits::ZONES_MOST];
    let mut t: [i64; limits::ZONES_MOST] = [0; limits::ZONES_MOST];
    let mut b: [BorderRecord; limits::BORDERS_MOST] = [[0; Border::ITEMS]; limits::BORDERS_MOST];
    let mut c: [RowRecord; limits::ROWS_MOST] = [[0; Row::ITEMS]; limits::ROWS_MOST];
    let mut f: [i64; limits::ROWS_MOST * limits::ZONES_MOST] = [0; limits::ROWS_MOST
        * limits::ZONES_MOST];
    put_in(
        border, marks, text, sheet, &mut z, &mut t, &mut b, &mut c, &mut f, out,
    )
}

// Apart from `put`, so that proof goals do not contain its arrays.
fn put_in<'a>(
    border: u64,
    marks: Option<&[u64]>,
    text: &'a [u8],
    sheet: &'a [u8],
    z: &mut [i64],
    t: &mut [i64],
    b: &mut [BorderRecord],
    c: &mut [RowRecord],
    f: &mut [i64],
    out: &mut [u8],
) -> Result<usize, Refusal>
    requires { (zones_most ≤ length z.old) × (zones_most ≤ length t.old) × (borders_most ≤ length b.old) × (rows_most ≤ length c.old) × (rows_most * zones_most ≤ length f.old) }
{
    let h = reading::read_into(text, sheet, z, t, b, c, f)?;
    put_good(
        border,
        marks,
        &TableView {
            header: h,
            nets: z,
            allocated: t,
            borders: b,
            rows: c,
            factors: f,
        },
        out,
    )
}

// Tells of a border of a good table.
fn put_good(
    border: u64,
    marks: Option<&[u64]>,
    view: &TableView,
    out: &mut [u8],
) -> Result<usize, Refusal>
    requires { Good (front (lent_view view.now)) }
{
    let count = view.header.rows;
    let mut p: [u64; limits::ROWS_MOST * limits::BORDERS_MOST] = [0; limits::ROWS_MOST
        * limits::BORDERS_MOST];
    let mut ends: [EndRecord; limits::BORDERS_MOST] =
        [[0; holding::END_ITEMS]; limits::BORDERS_MOST];
    let mut rows: [HoldRecord; limits::ROWS_MOST] = [[0; holding::HOLD_ITEMS]; limits::ROWS_MOST];
    let reasons = why::why_good(view, marks, border, &mut p, &mut ends, &mut rows)?;
    let margin = margin_of(reasons.ended, view);
    Ok(whywords::put(
        border as usize,
        reasons,
        margin,
        view.header,
        view.borders,
        &p,
        &ends,
        &rows[..count],
        out,
    ))
}

// What the margin of a row is made of.
fn margin_of(row: i64, view: &TableView) -> PartsRecord
    requires { Good (front (lent_view view.now)) }
{
    let count = view.header.rows;
    let mut rams: [i64; limits::ROWS_MOST] = [0; limits::ROWS_MOST];
    let mut starts: [i64; limits::ROWS_MOST] = [0; limits::ROWS_MOST];
    let mut states: [u64; limits::ROWS_MOST] = [0; limits::ROWS_MOST];
    let mut margins: [PartsRecord; limits::ROWS_MOST] = [[0; partrules::ITEMS]; limits::ROWS_MOST];
    states::fill_rows(
        view,
        &mut rams[..count],
        &mut starts[..count],
        &mut states[..count],
    );
    parts::margins_good(view, &mut margins);
    with_start(row, &margins, &starts)
}

// As an array, which part of it was lent before: a slice would ask for its length.
fn with_start(row: i64, margins: &[PartsRecord], starts: &[i64; limits::ROWS_MOST]) -> PartsRecord {
    whywords::margin_of(row, margins, starts)
}
