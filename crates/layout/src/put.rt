// Writes a line into lent bytes at a place. There is room for it: its length was counted before.
ghost use Rattle.std.specs.Prelude.{◌≡◌, true, ◌+◌, ◌*◌, ◌<◌, ◌≤◌, length};
ghost use Rattle.limits.specs.Limits.{zones_most};
ghost use Rattle.types.specs.Ranges.{header_fits};
ghost use Rattle.text.specs.Put.{Put};
ghost use Rattle.lines.specs.RowKinds.{row_text_by};
ghost use Rattle.layout.specs.Layout.{header_text, position_text, border_text, rows_text_by};

use columns::Head;
use lines::row::{RowKind, columns_of, head_of, sep_of};
use types::{Border, BorderRecord, Header, Row, RowRecord, Zone};

pub fn put_header(h: Header, out: &mut [u8], at: usize) -> usize
    requires { (header_fits h ≡ true) × (at + length (header_text h) ≤ length out.old) }
    ensures { Put (header_text h) at out.old result out.new }
{
    let raw = [h.zones as i64, h.borders as i64, h.rows as i64, h.share];
    columns::optional::put_optional(
        b'\t',
        Head::Lettered(b'H'),
        &Header::COLUMNS,
        Header::ALWAYS,
        &raw,
        out,
        at,
    )
}

// A Z line, or a T line, by its letter.
pub fn put_zone(letter: u8, i: usize, net: i64, out: &mut [u8], at: usize) -> usize
    requires { at + length (position_text letter i net) ≤ length out.old }
    ensures { Put (position_text letter i net) at out.old result out.new }
{
    columns::write::put_line(
        b'\t',
        Head::Indexed(letter, i),
        &Zone::COLUMNS,
        &[net],
        out,
        at,
    )
}

pub fn put_border(i: usize, raw: BorderRecord, out: &mut [u8], at: usize) -> usize
    requires { at + length (border_text i raw) ≤ length out.old }
    ensures { Put (border_text i raw) at out.old result out.new }
{
    columns::optional::put_optional(
        b'\t',
        Head::Indexed(b'B', i),
        &Border::COLUMNS,
        Border::ALWAYS,
        &raw,
        out,
        at,
    )
}

// The lines of lent rows, of either kind: the table's or the planners' sheet's.
pub fn put_rows(
    kind: RowKind,
    zones: usize,
    c: &[RowRecord],
    f: &[i64],
    out: &mut [u8],
    at: usize,
) -> usize
    requires { (length f.now ≡ length c.now * zones) × (0 < zones) × (zones ≤ zones_most) × (at + length (rows_text_by kind zones c.now f.now) ≤ length out.old) }
    ensures { Put (rows_text_by kind zones c.now f.now) at out.old result out.new }
{
    let mut next = at;
    for i in 0..c.len() {
        let start = i * zones;
        next = put_row(kind, i, c[i], &f[start..start + zones], out, next);
    }
    next
}

fn put_row(kind: RowKind, i: usize, raw: RowRecord, f: &[i64], out: &mut [u8], at: usize) -> usize
    requires { (0 < length f.now) × (length f.now ≤ zones_most) × (at + length (row_text_by kind i raw f.now) ≤ length out.old) }
    ensures { Put (row_text_by kind i raw f.now) at out.old result out.new }
{
    let n = Row::ITEMS + f.len();
    columns::write::put_parts(
        sep_of(kind),
        head_of(kind, i),
        &columns_of(kind)[..Row::ITEMS],
        &columns_of(kind)[Row::ITEMS..n],
        &raw,
        f,
        out,
        at,
    )
}
