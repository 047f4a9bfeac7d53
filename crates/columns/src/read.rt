// Reads the fields of columns from left to right: each is taken apart where it is read, and the first bad one leaves at once.
ghost use Rattle.std.specs.Prelude.{◌≡◌, cond, ◌++◌, ◌<◌, leb, length};
ghost use Rattle.types.specs.LineColumns.{column_of, columns_of};
ghost use Rattle.columns.specs.Columns.{field_at, fields_at, stored};
ghost use Rattle.columns.specs.ColumnLine.{index_at, head_at, rest_at, columns_line};

use crate::Head;
use text::Parsed;
use text::field::{number_at, plus, share_at, signed_at};
use text::point::{point_at, signed_point_at};

// The fields of the columns from place `at` on into `out`, parted by `sep`, the last of them ended by `last`.
// They come to the place after them, or to the first place that no good line could have; so do a whole line's.
fn fields_at(
    columns: &[u8],
    sep: u8,
    last: u8,
    line: &[u8],
    at: usize,
    out: &mut [i64],
) -> Result<usize, usize>
    requires { length columns.now ≡ length out.old }
    ensures { stored result out.new ≡ fields_at sep last (columns_of columns.now) line.now at }
{
    let n = columns.len();
    let mut p = at;
    for k in 0..n {
        let (z, next) = field_at(columns[k], line, p, stop_of(n - k, sep, last))?;
        out[k] = z;
        p = next;
    }
    Ok(p)
}

// The decimals of a power, and of a factor, in the planners' sheet.
pub const POWER_DECIMALS: usize = 3;

pub const FACTOR_DECIMALS: usize = 5;

// The field of a column at a place, ended by `stop`.
pub fn field_at(column: u8, line: &[u8], at: usize, stop: u8) -> Parsed<i64>
    ensures { result ≡ field_at (column_of column) line.now at stop }
{
    match column {
        b'r' => share_at(line, at, stop),
        b's' => signed_at(line, at, stop),
        b'p' => plus(point_at(false, POWER_DECIMALS, line, at, stop)),
        b'q' => signed_point_at(POWER_DECIMALS, line, at, stop),
        b'f' => signed_point_at(FACTOR_DECIMALS, line, at, stop),
        _ => plus(number_at(line, at, stop)),
    }
}

// The byte that ends the first of the fields left.
pub fn stop_of(left: usize, sep: u8, last: u8) -> u8
    ensures { result ≡ cond (leb left 1) last sep }
{
    if left <= 1 { last } else { sep }
}

// Head and columns of a line, to its end: the columns' values into `out`.
pub fn line_at(
    sep: u8,
    head: Head,
    columns: &[u8],
    line: &[u8],
    out: &mut [i64],
) -> Result<usize, usize>
    requires { length columns.now ≡ length out.old }
    ensures { stored result out.new ≡ columns_line sep head (columns_of columns.now) line.now }
{
    let (_, at) = head_at(sep, head, line)?;
    rest_at(sep, columns, line, at, out)
}

// A line whose columns are given in two parts, the second not empty: the values of each part into memory of its own.
pub fn parts_at(
    sep: u8,
    head: Head,
    first: &[u8],
    second: &[u8],
    line: &[u8],
    out: &mut [i64],
    more: &mut [i64],
) -> Result<usize, usize>
    requires { (length first.now ≡ length out.old) × (0 < length second.now) × (length second.now ≡ length more.old) }
    ensures { stored result (out.new ++ more.new) ≡ columns_line sep head (columns_of first.now ++ columns_of second.now) line.now }
{
    let (_, at) = head_at(sep, head, line)?;
    both_at(sep, first, second, line, at, out, more)
}

// A line's head, and the place after it.
fn head_at(sep: u8, head: Head, line: &[u8]) -> Parsed<u64>
    ensures { result ≡ head_at sep head line.now }
{
    if !head.begins(sep, line) {
        return Err(0);
    }
    match head {
        Head::Lettered(_) => Ok((0, 2)),
        Head::Indexed(_, i) => index_at(sep, 2, line, i),
        Head::Bare(i) => index_at(sep, 0, line, i),
    }
}

// A line's own index from place `at` on, and the place after it: another line's is bad there.
fn index_at(sep: u8, at: usize, line: &[u8], i: usize) -> Parsed<u64>
    ensures { result ≡ index_at sep at line.now i }
{
    let (index, next) = number_at(line, at, sep)?;
    if index != i as u64 {
        return Err(at);
    }
    Ok((index, next))
}

// The columns from a place on, and then the line's end.
fn rest_at(sep: u8, columns: &[u8], line: &[u8], at: usize, out: &mut [i64]) -> Result<usize, usize>
    requires { length columns.now ≡ length out.old }
    ensures { stored result out.new ≡ rest_at sep (columns_of columns.now) line.now at }
{
    let next = fields_at(columns, sep, b'\n', line, at, out)?;
    if next < line.len() {
        return Err(next);
    }
    Ok(next)
}

// The columns from a place on, given in two parts, the second not empty; and then the line's end.
fn both_at(
    sep: u8,
    first: &[u8],
    second: &[u8],
    line: &[u8],
    at: usize,
    out: &mut [i64],
    more: &mut [i64],
) -> Result<usize, usize>
    requires { (length first.now ≡ length out.old) × (0 < length second.now) × (length second.now ≡ length more.old) }
    ensures { stored result (out.new ++ more.new) ≡ rest_at sep (columns_of first.now ++ columns_of second.now) line.now at }
{
    let next = fields_at(first, sep, sep, line, at, out)?;
    rest_at(sep, second, line, next, more)
}
