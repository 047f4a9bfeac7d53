// Writes the fields of columns into lent bytes at a place, and says how long they are. There is room: the length was counted before.
ghost use Rattle.std.specs.Prelude.{◌≡◌, [], ◌∷◌, ◌++◌, ◌+◌, ◌<◌, ◌≤◌, length};
ghost use Rattle.limits.specs.Limits.{bytes_most};
ghost use Rattle.types.specs.LineColumns.{column_of, columns_of};
ghost use Rattle.text.specs.Put.{Put};
ghost use Rattle.text.specs.Written.{share_text};
ghost use Rattle.columns.specs.ColumnText.{field_text, fields_ended, fields_length, index_text, head_text, head_length, head_seps, columns_text, line_length};

use crate::Head;
use crate::read::{FACTOR_DECIMALS, POWER_DECIMALS};
use text::point::{put_signed_point, signed_point_length};

// A line: its head and its columns.
pub fn put_line(
    sep: u8,
    head: Head,
    columns: &[u8],
    values: &[i64],
    out: &mut [u8],
    at: usize,
) -> usize
    requires { (length columns.now ≡ length values.now) × (at + length (columns_text sep head (columns_of columns.now) values.now) ≤ length out.old) }
    ensures { Put (columns_text sep head (columns_of columns.now) values.now) at out.old result out.new }
{
    let next = put_head(sep, head, out, at);
    put_fields(columns, sep, b'\n', values, out, next)
}

// A line whose columns and values are given in two parts, the second not empty.
pub fn put_parts(
    sep: u8,
    head: Head,
    first: &[u8],
    second: &[u8],
    values: &[i64],
    more: &[i64],
    out: &mut [u8],
    at: usize,
) -> usize
    requires { (length first.now ≡ length values.now) × (0 < length second.now) × (length second.now ≡ length more.now) × (at + length (columns_text sep head (columns_of first.now ++ columns_of second.now) (values.now ++ more.now)) ≤ length out.old) }
    ensures { Put (columns_text sep head (columns_of first.now ++ columns_of second.now) (values.now ++ more.now)) at out.old result out.new }
{
    let next = put_head(sep, head, out, at);
    let next = put_fields(first, sep, sep, values, out, next);
    put_fields(second, sep, b'\n', more, out, next)
}

// The fields of the columns, one for each value, parted by `sep`, the last of them ended by `last`.
fn put_fields(columns: &[u8], sep: u8, last: u8, values: &[i64], out: &mut [u8], at: usize) -> usize
    requires { (length columns.now ≡ length values.now) × (at + length (fields_ended sep last (columns_of columns.now) values.now) ≤ length out.old) }
    ensures { Put (fields_ended sep last (columns_of columns.now) values.now) at out.old result out.new }
{
    let n = columns.len();
    let mut next = at;
    for k in 0..n {
        next = put_field(
            columns[k],
            values[k],
            crate::read::stop_of(n - k, sep, last),
            out,
            next,
        );
    }
    next
}

// A field, and the byte that ends it.
fn put_field(column: u8, z: i64, stop: u8, out: &mut [u8], at: usize) -> usize
    requires { at + length (field_text (column_of column) z ++ (stop ∷ [])) ≤ length out.old }
    ensures { Put (field_text (column_of column) z ++ (stop ∷ [])) at out.old result out.new }
{
    let next = put_value(column, z, out, at);
    text::put::put_byte(stop, out, next)
}

fn put_value(column: u8, z: i64, out: &mut [u8], at: usize) -> usize
    requires { at + length (field_text (column_of column) z) ≤ length out.old }
    ensures { Put (field_text (column_of column) z) at out.old result out.new }
{
    match column {
        b'r' => put_share(z, out, at),
        b'p' => put_signed_point(POWER_DECIMALS, z, out, at),
        b'q' => put_signed_point(POWER_DECIMALS, z, out, at),
        b'f' => put_signed_point(FACTOR_DECIMALS, z, out, at),
        _ => text::put::put_signed(z, out, at),
    }
}

// R as it was written: "-" is the one raw number below 0.
fn put_share(z: i64, out: &mut [u8], at: usize) -> usize
    requires { at + length (share_text z) ≤ length out.old }
    ensures { Put (share_text z) at out.old result out.new }
{
    if z < 0 {
        return text::put::put_byte(b'-', out, at);
    }
    text::put::put_signed(z, out, at)
}

// A line's head.
fn put_head(sep: u8, head: Head, out: &mut [u8], at: usize) -> usize
    requires { at + length (head_text sep head) ≤ length out.old }
    ensures { Put (head_text sep head) at out.old result out.new }
{
    match head {
        Head::Lettered(letter) => put_letter(sep, letter, out, at),
        Head::Indexed(letter, i) => {
            let next = put_letter(sep, letter, out, at);
            put_index(sep, i, out, next)
        }
        Head::Bare(i) => put_index(sep, i, out, at),
    }
}

fn put_letter(sep: u8, letter: u8, out: &mut [u8], at: usize) -> usize
    requires { at + length (letter ∷ sep ∷ []) ≤ length out.old }
    ensures { Put (letter ∷ sep ∷ []) at out.old result out.new }
{
    let next = text::put::put_byte(letter, out, at);
    text::put::put_byte(sep, out, next)
}

fn put_index(sep: u8, i: usize, out: &mut [u8], at: usize) -> usize
    requires { at + length (index_text sep i) ≤ length out.old }
    ensures { Put (index_text sep i) at out.old result out.new }
{
    let next = text::put::put_number(i as u64, out, at);
    text::put::put_byte(sep, out, next)
}

// How many bytes a line has.
pub fn line_length(head: Head, columns: &[u8], values: &[i64]) -> usize
    requires { (length columns.now ≡ length values.now) × (line_length head (columns_of columns.now) values.now ≤ bytes_most) }
    ensures { result ≡ line_length head (columns_of columns.now) values.now }
{
    head_length(head) + fields_length(columns, values)
}

// How many bytes a line has whose columns and values are given in two parts.
pub fn parts_length(head: Head, first: &[u8], second: &[u8], values: &[i64], more: &[i64]) -> usize
    requires { (length first.now ≡ length values.now) × (length second.now ≡ length more.now) × (line_length head (columns_of first.now ++ columns_of second.now) (values.now ++ more.now) ≤ bytes_most) }
    ensures { result ≡ line_length head (columns_of first.now ++ columns_of second.now) (values.now ++ more.now) }
{
    line_length(head, first, values) + fields_length(second, more)
}

fn head_length(head: Head) -> usize
    ensures { result ≡ head_length head }
{
    match head {
        Head::Lettered(_) => 2,
        Head::Indexed(_, i) => 3 + text::put::digit_count(i as u64),
        Head::Bare(i) => 1 + text::put::digit_count(i as u64),
    }
}

// How many of the bytes that part fields a head has: the first column follows the last of them.
pub fn head_seps(head: Head) -> usize
    ensures { result ≡ head_seps head }
{
    match head {
        Head::Lettered(_) | Head::Bare(_) => 1,
        Head::Indexed(_, _) => 2,
    }
}

// How many bytes the fields have, the byte that ends each among them.
fn fields_length(columns: &[u8], values: &[i64]) -> usize
    requires { (length columns.now ≡ length values.now) × (fields_length (columns_of columns.now) values.now ≤ bytes_most) }
    ensures { result ≡ fields_length (columns_of columns.now) values.now }
{
    let mut sum: usize = 0;
    for k in 0..columns.len() {
        sum += field_length(columns[k], values[k]) + 1;
    }
    sum
}

fn field_length(column: u8, z: i64) -> usize
    ensures { result ≡ length (field_text (column_of column) z) }
{
    match column {
        b'r' => share_length(z),
        b'p' => signed_point_length(POWER_DECIMALS, z),
        b'q' => signed_point_length(POWER_DECIMALS, z),
        b'f' => signed_point_length(FACTOR_DECIMALS, z),
        _ => text::put::signed_length(z),
    }
}

fn share_length(z: i64) -> usize
    ensures { result ≡ length (share_text z) }
{
    if z < 0 {
        return 1;
    }
    text::put::signed_length(z)
}
