// Lines whose columns after the first n may be left out, all of them or none. Where they are left out each of their values is NOT_WRITTEN.
// `columns` are all of them, so that no list stands twice; the first of those that may be left out is a number, never below 0.
ghost use Rattle.std.specs.Prelude.{◌≡◌, cond, ◌++◌, ◌+◌, ◌-◌, ◌<◌, ◌≤◌, pos, length, get_or, take, drop};
ghost use Rattle.std.specs.Int.Signed.{lt_z};
ghost use Rattle.limits.specs.Limits.{bytes_most};
ghost use Rattle.types.specs.LineColumns.{columns_of};
ghost use Rattle.text.specs.Put.{Put};
ghost use Rattle.columns.specs.Columns.{stored};
ghost use Rattle.columns.specs.ColumnText.{line_length};
ghost use Rattle.columns.specs.Optional.{left_out, optional_line, written_by, optional_text};

use crate::Head;
use crate::read::line_at;
use crate::write::{line_length, put_line};
use types::NOT_WRITTEN;

// Head and columns of a line, to its end: the columns' values into `out`.
pub fn optional_at(
    sep: u8,
    head: Head,
    columns: &[u8],
    n: usize,
    line: &[u8],
    out: &mut [i64],
) -> Result<usize, usize>
    requires { (n < length columns.now) × (length columns.now ≡ length out.old) }
    ensures { stored result out.new ≡ optional_line sep head (columns_of (take n columns.now)) (columns_of (drop n columns.now)) line.now }
{
    let Ok(next) = line_at(sep, head, &columns[..n], line, &mut out[..n]) else {
        return line_at(sep, head, columns, line, out);
    };
    leave_out(n, out);
    Ok(next)
}

// The values after the first n are those of columns that were left out.
fn leave_out(n: usize, out: &mut [i64])
    requires { n ≤ length out.old }
    ensures { out.new ≡ take n out.old ++ left_out (length out.old - n) }
{
    out[n..].fill(NOT_WRITTEN);
}

// Writes a line: its head and its columns.
pub fn put_optional(
    sep: u8,
    head: Head,
    columns: &[u8],
    n: usize,
    values: &[i64],
    out: &mut [u8],
    at: usize,
) -> usize
    requires { (n < length columns.now) × (length columns.now ≡ length values.now) × (at + length (optional_text sep head (columns_of (take n columns.now)) (columns_of (drop n columns.now)) values.now) ≤ length out.old) }
    ensures { Put (optional_text sep head (columns_of (take n columns.now)) (columns_of (drop n columns.now)) values.now) at out.old result out.new }
{
    let k = written(n, values);
    put_line(sep, head, &columns[..k], &values[..k], out, at)
}

// How many bytes a line has.
pub fn optional_length(head: Head, columns: &[u8], n: usize, values: &[i64]) -> usize
    requires { (n < length columns.now) × (length columns.now ≡ length values.now) × (line_length head (written_by (columns_of (take n columns.now)) (columns_of (drop n columns.now)) values.now) values.now ≤ bytes_most) }
    ensures { result ≡ line_length head (written_by (columns_of (take n columns.now)) (columns_of (drop n columns.now)) values.now) values.now }
{
    let k = written(n, values);
    line_length(head, &columns[..k], &values[..k])
}

// How many fields of values are written: the first n alone, or all.
fn written(n: usize, values: &[i64]) -> usize
    requires { n < length values.now }
    ensures { result ≡ cond (lt_z (get_or values.now n (pos 0)) (pos 0)) n (length values.now) }
{
    if values[n] < 0 { n } else { values.len() }
}
