// A row's line: it is parsed once, and what it holds is judged as it stands in the caller's memory.
// A C line and a line of the planners' sheet (02, E11) differ in the byte that parts the fields, in the head and in the columns.
ghost use Rattle.std.specs.Prelude.{◌≡◌, ◌++◌, ◌<◌, ◌≤◌, length};
ghost use Rattle.limits.specs.Limits.{zones_most};
ghost use Rattle.types.specs.LineColumns.{columns_of};
ghost use Rattle.columns.specs.Columns.{stored};
ghost use Rattle.lines.specs.RowKinds.{sep_by, head_by, columns_by, values_by, bad_by, out_by};
ghost use Rattle.lines.specs.SaidRow.{judged_of, said_row, line_by};

use columns::Head;
use text::LineFault;
use types::{Row, RowRecord};

// The kinds of line that hold a row: the table's, which is a C line, and the planners' sheet's.
#[derive(Clone, Copy)]
pub enum RowKind {
    Table,
    Sheet,
}

// Judges a row's line that is not kept.
pub fn row_judged(kind: RowKind, zones: usize, line: &[u8], i: usize) -> Result<(), LineFault>
    requires { (0 < zones) × (zones ≤ zones_most) }
    ensures { result ≡ judged_of (line_by kind zones line.now i) }
{
    let mut factors = [0i64; limits::ZONES_MOST];
    row_read(kind, line, i, &mut factors[..zones])?;
    Ok(())
}

// Reads a row's line, its factors into f: the form of all fields, then the ranges.
pub fn row_read(kind: RowKind, line: &[u8], i: usize, f: &mut [i64]) -> Result<RowRecord, LineFault>
    requires { (0 < length f.old) × (length f.old ≤ zones_most) }
    ensures { said_row result f.new ≡ line_by kind (length f.old) line.now i }
{
    let zones = f.len();
    let mut raw: RowRecord = [0; Row::ITEMS];
    let Ok(_) = row_at(kind, line, i, &mut raw, f) else {
        return Err(LineFault::Form(row_bad(kind, zones, line, i)));
    };
    if table::row_good(raw, f) {
        Ok(raw)
    } else {
        Err(LineFault::Range(row_out(kind, raw, f, line)))
    }
}

// The byte to blame in a line of wrong form.
fn row_bad(kind: RowKind, zones: usize, line: &[u8], i: usize) -> usize
    requires { zones ≤ zones_most }
    ensures { result ≡ bad_by kind zones line.now i }
{
    let n = Row::ITEMS + zones;
    blame::line_byte(sep_of(kind), head_of(kind, i), &columns_of(kind)[..n], line)
}

// The byte to blame in a line with a value outside its range.
fn row_out(kind: RowKind, raw: RowRecord, f: &[i64], line: &[u8]) -> usize
    requires { length f.now ≤ zones_most }
    ensures { result ≡ out_by kind line.now raw f.now }
{
    let k = columns::write::head_seps(head_of(kind, 0));
    blame::range::row_range(sep_of(kind), k, raw, f, line)
}

// The seven values, and one factor for each item of f.
fn row_at(
    kind: RowKind,
    line: &[u8],
    i: usize,
    raw: &mut [i64],
    f: &mut [i64],
) -> Result<usize, usize>
    requires { (length raw.old ≡ 7) × (0 < length f.old) × (length f.old ≤ zones_most) }
    ensures { stored result (raw.new ++ f.new) ≡ values_by kind (length f.old) line.now i }
{
    let n = Row::ITEMS + f.len();
    columns::read::parts_at(
        sep_of(kind),
        head_of(kind, i),
        &columns_of(kind)[..Row::ITEMS],
        &columns_of(kind)[Row::ITEMS..n],
        line,
        raw,
        f,
    )
}

// The byte that parts the fields, by the kind of line.
pub fn sep_of(kind: RowKind) -> u8
    ensures { result ≡ sep_by kind }
{
    match kind {
        RowKind::Table => b'\t',
        RowKind::Sheet => b';',
    }
}

// The head of row i's line, by the kind of line.
pub fn head_of(kind: RowKind, i: usize) -> Head
    ensures { result ≡ head_by kind i }
{
    match kind {
        RowKind::Table => Head::Indexed(b'C', i),
        RowKind::Sheet => Head::Bare(i),
    }
}

// The columns of a row's line with the most zones, by the kind of line.
pub fn columns_of(kind: RowKind) -> [u8; Row::ITEMS + limits::ZONES_MOST]
    ensures { columns_of result ≡ columns_by kind zones_most }
{
    match kind {
        RowKind::Table => Row::COLUMNS,
        RowKind::Sheet => Row::SHEET_COLUMNS,
    }
}
