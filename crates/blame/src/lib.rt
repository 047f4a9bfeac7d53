// The byte to blame in a faulty line (02, E5), from 1; 0 where none is. A line is asked for it only where it was refused, so a good line costs nothing.
// The byte that parts the fields is an argument, `sep`; a line ends in an LF.
#![tactic(auto)]

pub mod range;

ghost use Rattle.std.specs.Prelude.{◌≡◌, ◌≤◌};
ghost use Rattle.types.specs.LineColumns.{column_of, columns_of};
ghost use Rattle.text.specs.Fields.{number_at};
ghost use Rattle.blame.specs.Blame.{good_at, byte_at, fields_byte, other_index, ended_byte, index_byte, line_byte};

use columns::Head;
use columns::read::{field_at, stop_of};
use text::Parsed;
use text::field::number_at;

// A line with its head and its columns, those that may be left out among them.
pub fn line_byte(sep: u8, head: Head, columns: &[u8], line: &[u8]) -> usize
    ensures { result ≡ line_byte sep head (columns_of columns.now) line.now }
{
    if !head.begins(sep, line) {
        return 0;
    }
    match head {
        Head::Lettered(_) => fields_byte(sep, columns, line, 2),
        Head::Indexed(_, i) => index_byte(sep, 2, columns, line, i),
        Head::Bare(i) => index_byte(sep, 0, columns, line, i),
    }
}

// The index, from place `at` on, and the columns after it.
fn index_byte(sep: u8, at: usize, columns: &[u8], line: &[u8], i: usize) -> usize
    requires { at ≤ 2 }
    ensures { result ≡ index_byte sep at (columns_of columns.now) line.now i (number_at line.now at sep) }
{
    match number_at(line, at, sep) {
        Ok((index, next)) if index == i as u64 => fields_byte(sep, columns, line, next),
        Ok(_) => at + 1,
        Err(place) => ended_byte(sep, at, line, i, place),
    }
}

// The byte to blame in an index that `sep` does not end. Where an LF ends it, an index of another line is still blamed.
fn ended_byte(sep: u8, at: usize, line: &[u8], i: usize, place: usize) -> usize
    requires { at ≤ 2 }
    ensures { result ≡ ended_byte sep at line.now i place }
{
    if other_index(i, number_at(line, at, b'\n')) {
        return at + 1;
    }
    byte_at(sep, b'n', line, at, place)
}

fn other_index(i: usize, found: Parsed<u64>) -> bool
    ensures { result ≡ other_index i found }
{
    matches!(found, Ok((index, _)) if index != i as u64)
}

// The fields of the columns from place `at` on: the first that is bad.
fn fields_byte(sep: u8, columns: &[u8], line: &[u8], at: usize) -> usize
    ensures { result ≡ fields_byte sep (columns_of columns.now) line.now at }
{
    let n = columns.len();
    let mut p = at;
    for k in 0..n {
        match field_at(columns[k], line, p, stop_of(n - k, sep, b'\n')) {
            Ok((_, next)) => p = next,
            Err(place) => return byte_at(sep, columns[k], line, p, place),
        }
    }
    0
}

// 0 if the field is well-formed (so the line has too few or too many fields), or if the place is past the line's end.
fn byte_at(sep: u8, column: u8, line: &[u8], at: usize, place: usize) -> usize
    ensures { result ≡ byte_at sep (column_of column) line.now at place }
{
    if good_at(sep, column, line, at) {
        return 0;
    }
    if place < line.len() { place + 1 } else { 0 }
}

// Whether a field is good before `sep` or before an LF.
fn good_at(sep: u8, column: u8, line: &[u8], at: usize) -> bool
    ensures { result ≡ good_at sep (column_of column) line.now at }
{
    field_at(column, line, at, sep).is_ok() || field_at(column, line, at, b'\n').is_ok()
}
