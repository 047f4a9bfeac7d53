// How many bytes a line has. No good table, and no good sheet, has a text of more than 65,536 bytes, so no count is larger.
ghost use Rattle.std.specs.Prelude.{◌≡◌, true, ◌*◌, ◌<◌, ◌≤◌, length};
ghost use Rattle.limits.specs.Limits.{zones_most, bytes_most};
ghost use Rattle.types.specs.Ranges.{header_fits};
ghost use Rattle.lines.specs.RowKinds.{row_text_by};
ghost use Rattle.layout.specs.Layout.{header_text, zone_text, border_text, rows_text_by};

use columns::Head;
use lines::row::{RowKind, columns_of, head_of};
use types::{Border, BorderRecord, Header, Row, RowRecord, Zone};

pub fn header_length(h: Header) -> usize
    requires { (header_fits h ≡ true) × (length (header_text h) ≤ bytes_most) }
    ensures { result ≡ length (header_text h) }
{
    let raw = [h.zones as i64, h.borders as i64, h.rows as i64, h.share];
    columns::optional::optional_length(Head::Lettered(b'H'), &Header::COLUMNS, Header::ALWAYS, &raw)
}

// A Z line; a T line of the same position is as long.
pub fn zone_length(i: usize, net: i64) -> usize
    requires { length (zone_text i net) ≤ bytes_most }
    ensures { result ≡ length (zone_text i net) }
{
    columns::write::line_length(Head::Indexed(b'Z', i), &Zone::COLUMNS, &[net])
}

pub fn border_length(i: usize, raw: BorderRecord) -> usize
    requires { length (border_text i raw) ≤ bytes_most }
    ensures { result ≡ length (border_text i raw) }
{
    columns::optional::optional_length(
        Head::Indexed(b'B', i),
        &Border::COLUMNS,
        Border::ALWAYS,
        &raw,
    )
}

// The lines of lent rows, of either kind: the table's or the planners' sheet's.
pub fn rows_length(kind: RowKind, zones: usize, c: &[RowRecord], f: &[i64]) -> usize
    requires { (length f.now ≡ length c.now * zones) × (0 < zones) × (zones ≤ zones_most) × (length (rows_text_by kind zones c.now f.now) ≤ bytes_most) }
    ensures { result ≡ length (rows_text_by kind zones c.now f.now) }
{
    let mut sum: usize = 0;
    for i in 0..c.len() {
        let start = i * zones;
        sum += row_length(kind, i, c[i], &f[start..start + zones]);
    }
    sum
}

fn row_length(kind: RowKind, i: usize, raw: RowRecord, f: &[i64]) -> usize
    requires { (0 < length f.now) × (length f.now ≤ zones_most) × (length (row_text_by kind i raw f.now) ≤ bytes_most) }
    ensures { result ≡ length (row_text_by kind i raw f.now) }
{
    let n = Row::ITEMS + f.len();
    columns::write::parts_length(
        head_of(kind, i),
        &columns_of(kind)[..Row::ITEMS],
        &columns_of(kind)[Row::ITEMS..n],
        &raw,
        f,
    )
}
