// Which line is due at a place, by the H line of the table, and what is wrong with a line of which no byte is blamed: it is missing or extra, or has another letter or number of fields.
ghost use Rattle.std.specs.Prelude.{◌≤◌};
ghost use Rattle.io.specs.Counts.{IsPrefixLen};

use crate::Blamed;
use crate::words::{self, Count, Words};
use arguments::lists;
use fieldnames::LineKind;

// The kind of the line that is due, where one is; the index it has; how many lines there are.
#[derive(Clone, Copy)]
pub struct Due {
    pub kind: Option<LineKind>,
    pub index: u64,
    pub lines: u64,
    pub zones: u64,
}

// A number of the H line, up to what it may be; 0 for any other.
fn count_at(header: &[u8], field: usize, most: usize) -> u64
    ensures { result ≤ most }
{
    let at = lists::begin(header, field, b'\t');
    let v = match text::field::number_at(header, at, b'\t') {
        Ok((v, _)) => v,
        Err(_) => last_number(header, at),
    };
    if v <= most as u64 { v } else { 0 }
}

// The last number of a line ends with it.
fn last_number(line: &[u8], at: usize) -> u64 {
    text::field::number_at(line, at, b'\n').map_or(0, |(v, _)| v)
}

// The line that is due at a place of the table, or of a sheet that goes with it; lines are counted from 0.
pub fn at(of: Blamed, line: u64, table: &[u8]) -> Due {
    let header = text::line::line_at(table, 0);
    let zones = count_at(header, 1, limits::ZONES_MOST);
    let borders = count_at(header, 2, limits::BORDERS_MOST);
    let rows = count_at(header, 3, limits::ROWS_MOST);
    match of {
        Blamed::Table => of_table(line, zones, allocated(table, zones), borders, rows),
        Blamed::Sheet if rows <= line => Due {
            kind: None,
            index: line,
            lines: rows,
            zones,
        },
        _ => Due {
            kind: Some(LineKind::Row),
            index: line,
            lines: rows,
            zones,
        },
    }
}

// How many T lines there are: one a zone, or none.
fn allocated(table: &[u8], zones: u64) -> u64
    requires { zones ≤ 16 }
    ensures { result ≤ 16 }
{
    let first = lists::begin(table, zones as usize + 1, b'\n');
    if text::field::byte_at(table, first) == b'T' {
        zones
    } else {
        0
    }
}

fn of_table(line: u64, zones: u64, allocated: u64, borders: u64, rows: u64) -> Due
    requires { (zones ≤ 16) × (allocated ≤ 16) × (borders ≤ 64) × (rows ≤ 200) }
{
    let lines = 1 + zones + allocated + borders + rows;
    let before_rows = [
        (LineKind::Header, 1),
        (LineKind::Zone, zones),
        (LineKind::Allocated, allocated),
        (LineKind::Border, borders),
    ];
    let mut index = line;
    for (kind, count) in before_rows {
        if index < count {
            return Due {
                kind: Some(kind),
                index,
                lines,
                zones,
            };
        }
        index -= count;
    }
    Due {
        kind: if index < rows {
            Some(LineKind::Row)
        } else {
            None
        },
        index,
        lines,
        zones,
    }
}

// What is wrong with a line as a whole.
pub fn put(of: Blamed, number: u64, table: &[u8], text: &[u8], out: &mut [u8], at: usize) -> usize
    ensures { IsPrefixLen result out.new }
{
    let line = number.saturating_sub(1);
    let due = crate::due::at(of, line, table);
    if text.is_empty() {
        return words::put(Words::Empty, &[], out, at);
    }
    let from = lists::begin(text, line as usize, b'\n');
    if from == text.len() {
        return words::put_count(missing(of), number, due.lines, out, at);
    }
    let Some(kind) = due.kind else {
        return words::put_count(extra(of), number, due.lines, out, at);
    };
    let row = lists::piece(text, line as usize, b'\n');
    if let Some(wrong) = shape(of, kind.letter(), row) {
        let next = words::put(wrong, &[number], out, at);
        return if wrong == Words::LetterDue {
            forms::put_byte(kind.letter(), out, next)
        } else {
            next
        };
    }
    if lists::find(text, from, b'\n') == text.len() {
        return words::put(Words::NoLf, &[number], out, at);
    }
    put_count(kind, due.zones, number, out, at)
}

fn missing(of: Blamed) -> Count {
    match of {
        Blamed::Table => Count::Missing,
        _ => Count::RowMissing,
    }
}

fn extra(of: Blamed) -> Count {
    match of {
        Blamed::Table => Count::Extra,
        _ => Count::RowExtra,
    }
}

// The words for a line whose begin or separators are wrong.
fn shape(of: Blamed, letter: u8, row: &[u8]) -> Option<Words> {
    let first = text::field::byte_at(row, 0);
    let second = text::field::byte_at(row, 1);
    if first == b'"' {
        return Some(Words::Quoted);
    }
    if !of.is_lettered() {
        return if is_unparted(row, b';', b'\t') {
            Some(Words::Tabs)
        } else {
            None
        };
    }
    if first != letter {
        return if first.is_ascii_alphabetic() && second.is_ascii_alphabetic() {
            Some(Words::Headings)
        } else {
            Some(Words::LetterDue)
        };
    }
    match second {
        b'\t' => None,
        _ if is_unparted(row, b'\t', b';') => Some(Words::Semicolons),
        b' ' => Some(Words::Blanks),
        _ => Some(Words::NoTab),
    }
}

// Whether the line has the other separator and not its own.
fn is_unparted(row: &[u8], own: u8, other: u8) -> bool {
    !row.contains(&own) && row.contains(&other)
}

// How many fields are due behind the letter of a line.
fn put_count(kind: LineKind, zones: u64, number: u64, out: &mut [u8], at: usize) -> usize
    ensures { IsPrefixLen result out.new }
{
    match kind {
        LineKind::Header => put_either(b"3, or 4 with the default of R", number, out, at),
        LineKind::Border => put_either(b"4, or 6 with hubs", number, out, at),
        LineKind::Row => words::put(
            Words::FieldsDue,
            &[number, zones.saturating_add(8)],
            out,
            at,
        ),
        _ => words::put(Words::FieldsDue, &[number, 2], out, at),
    }
}

fn put_either(counts: &[u8], number: u64, out: &mut [u8], at: usize) -> usize
    ensures { IsPrefixLen result out.new }
{
    let next = words::put(Words::FieldsOr, &[number], out, at);
    forms::put_form(counts, &[], out, next)
}
