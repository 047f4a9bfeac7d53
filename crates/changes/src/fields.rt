// What differs between two texts of good tables, in words, a line for each field. The calculator accepts a table only as it would write it, so each field of one stands where that
// field of the other stands.
ghost use Rattle.io.specs.Counts.{IsPrefixLen};

use arguments::lists;
use fieldnames::{Field, LineKind};
use std::cmp::Ordering;
use system::System;

// No table has more lines than these.
const LINES_MOST: usize = 1 + 2 * limits::ZONES_MOST + limits::BORDERS_MOST + limits::ROWS_MOST;

// No line has more fields, its letter among them.
const FIELDS_MOST: usize = fieldnames::FACTORS_FROM + limits::ZONES_MOST;

// The field of a B line with which its hubs begin: they are told as one.
const HUBS: usize = 5;

// The lines of a text that are still to come, and the number of the first.
#[derive(Clone, Copy)]
struct Lines<'a> {
    rest: &'a [u8],
    number: u64,
}

impl<'a> Lines<'a> {
    fn next(self) -> Lines<'a> {
        let end = lists::find(self.rest, 0, b'\n');
        Lines {
            rest: self.rest.get(end + 1..).unwrap_or(b""),
            number: self.number.saturating_add(1),
        }
    }

    // The first line, without its LF; nothing where there is none.
    fn line(self) -> &'a [u8] {
        lists::line(self.rest, 0)
    }

    fn kind(self) -> Option<LineKind> {
        LineKind::of(text::field::byte_at(self.rest, 0))
    }

    // The number behind the letter.
    fn index(self) -> u64 {
        text::field::number_at(self.line(), 2, b'\t').map_or(0, |(index, _)| index)
    }

    fn begins_allocated(self) -> bool {
        self.kind() == Some(LineKind::Allocated) && self.index() == 0
    }
}

// Which of two kinds comes first in a table: the end of a text comes last.
fn order(first: Option<LineKind>, second: Option<LineKind>) -> Ordering {
    match (first, second) {
        (Some(first), Some(second)) => first.cmp(&second),
        (Some(_), None) => Ordering::Less,
        (None, Some(_)) => Ordering::Greater,
        (None, None) => Ordering::Equal,
    }
}

// Prints what differs between two good tables: false where not all could be written.
// Lines of one kind are compared in their order, so those of one index meet. A line whose kind comes first stands in its own text alone.
pub fn print(sys: &System, old: &[u8], new: &[u8]) -> bool {
    let mut was = Lines {
        rest: old,
        number: 1,
    };
    let mut is = Lines {
        rest: new,
        number: 1,
    };
    let mut written = true;
    // whether one table alone has T lines, and that was told
    let mut allocated = false;
    for _ in 0..2 * LINES_MOST {
        let order = order(was.kind(), is.kind());
        match order {
            Ordering::Equal => written &= compare(sys, was, is),
            Ordering::Greater => {
                written &= alone(sys, is, Words::Added, allocated);
                allocated |= is.begins_allocated();
            }
            Ordering::Less => {
                written &= alone(sys, was, Words::Gone, allocated);
                allocated |= was.begins_allocated();
            }
        }
        if order != Ordering::Greater {
            was = was.next();
        }
        if order != Ordering::Less {
            is = is.next();
        }
    }
    written
}

// Tells a line that stands in one text alone. Where one table alone has T lines, they are told once.
fn alone(sys: &System, lines: Lines, words: Words, told: bool) -> bool {
    if told && lines.kind() == Some(LineKind::Allocated) {
        return true;
    }
    let mut out = [0u8; ROOM];
    let n = put_words(Words::Line, lines.number, &mut out, 0);
    let n = if words == Words::Gone {
        put_words(Words::Before, 0, &mut out, n)
    } else {
        n
    };
    let n = put_letter(lines, &mut out, n);
    let n = if lines.begins_allocated() {
        n
    } else {
        put_words(Words::Index, lines.index(), &mut out, n)
    };
    let n = put_words(words, 0, &mut out, n);
    sys.print(&out[..n])
}

fn compare(sys: &System, was: Lines, is: Lines) -> bool {
    let Some(kind) = is.kind() else {
        return true;
    };
    // Each is looked for once, and not for each field.
    let was_line = was.line();
    let is_line = is.line();
    let mut good = true;
    for j in 1..FIELDS_MOST {
        good &= compare_field(sys, was_line, is_line, is, kind, j);
    }
    good
}

// Where one table has more zones, its rows have more factors: the first line tells that.
fn compare_field(
    sys: &System,
    was_line: &[u8],
    is_line: &[u8],
    is: Lines,
    kind: LineKind,
    j: usize,
) -> bool {
    if kind == LineKind::Border && HUBS < j {
        return true;
    }
    let hubs = kind == LineKind::Border && j == HUBS;
    let a = field(was_line, j, hubs);
    let b = field(is_line, j, hubs);
    if a == b || kind == LineKind::Row && (a.is_empty() || b.is_empty()) {
        return true;
    }
    let mut out = [0u8; ROOM];
    let n = put_words(Words::Line, is.number, &mut out, 0);
    let n = if kind == LineKind::Header {
        n
    } else {
        let n = put_letter(is, &mut out, n);
        put_words(Words::Index, is.index(), &mut out, n)
    };
    let n = put_words(Words::Comma, 0, &mut out, n);
    let n = if hubs {
        put_words(Words::Hubs, 0, &mut out, n)
    } else {
        let field = Field {
            kind: Some(kind),
            number: j,
        };
        field.put(&mut out, n)
    };
    let n = put_words(Words::Colon, 0, &mut out, n);
    let n = put_value(a, &mut out, n);
    let n = put_words(Words::Becomes, 0, &mut out, n);
    let n = put_value(b, &mut out, n);
    let n = put_words(Words::End, 0, &mut out, n);
    sys.print(&out[..n])
}

// The field, or all that is left of the line from it on.
fn field<'a>(line: &'a [u8], j: usize, rest: bool) -> &'a [u8] {
    if rest {
        &line[lists::begin(line, j, b'\t')..]
    } else {
        lists::piece(line, j, b'\t')
    }
}

// Room for a line of words: none has half as many bytes.
const ROOM: usize = 256;

fn put_letter(lines: Lines, out: &mut [u8], at: usize) -> usize
    ensures { IsPrefixLen result out.new }
{
    let next = put_words(Words::Comma, 0, out, at);
    forms::put_byte(text::field::byte_at(lines.rest, 0), out, next)
}

// The words, in the order of the list in `put_words`.
#[derive(Clone, Copy, PartialEq, Eq)]
enum Words {
    Line,
    Before,
    Comma,
    Index,
    Added,
    Gone,
    Colon,
    Becomes,
    End,
    Hubs,
    NoValue,
}

fn put_words(words: Words, figure: u64, out: &mut [u8], at: usize) -> usize
    ensures { IsPrefixLen result out.new }
{
    forms::put(
        b"line $0\n\
        \x20before\n\
        , \n\
        \x20$0\n\
        : new|\n\
        : gone|\n\
        : \n\
        \x20becomes \n\
        |\n\
        hubs\n\
        none\n",
        words as usize,
        &[figure],
        out,
        at,
    )
}

// A field's value as it stands, the two hubs with a blank between; a field that is left out has none.
fn put_value(value: &[u8], out: &mut [u8], at: usize) -> usize
    ensures { IsPrefixLen result out.new }
{
    if value.is_empty() {
        return put_words(Words::NoValue, 0, out, at);
    }
    let second = lists::piece(value, 1, b'\t');
    let next = forms::put_form(lists::piece(value, 0, b'\t'), &[], out, at);
    if second.is_empty() {
        return next;
    }
    let next = forms::put_byte(b' ', out, next);
    forms::put_form(second, &[], out, next)
}
