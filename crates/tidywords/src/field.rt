// What was changed in a field, and what is left of it to people.
ghost use Rattle.io.specs.Counts.{IsPrefixLen};

use crate::count;
use crate::words::{ROOM, Teller, Words, put};
use fieldnames::{Field, LineKind};
use tidyfields::{bared, lacking, quoted, trimmed, wanted};

// Where a field stands: its line and its number, each from 0; the kind of its line, where it is one of the table's (a row for one of the planners' sheet);
// whether the line is such a row; and whether the text has commas or quotes, so that points may part thousands.
#[derive(Clone, Copy)]
pub struct At {
    pub line: usize,
    pub kind: Option<LineKind>,
    pub field: usize,
    pub row: bool,
    pub doubt: bool,
}

pub fn kind_of(line: &[u8], row: bool) -> Option<LineKind> {
    if row {
        Some(LineKind::Row)
    } else {
        LineKind::of(text::field::byte_at(line, 0))
    }
}

pub fn tell(teller: &mut Teller, f: &[u8], last: bool, at: At) {
    let t = trimmed(f, last);
    let g = bared(f, last);
    if count(t, b' ') < count(f, b' ') {
        tell_change(teller, at, Words::Blanks);
    }
    if quoted(t) {
        tell_change(teller, at, Words::Quotes);
    }
    let zeros = lacking(wanted(at.row, at.field), g);
    if 0 < zeros {
        tell_decimals(teller, at, g, zeros);
    }
    if let Some(left) = doubtful(at, g) {
        tell_change(teller, at, left);
    }
}

fn tell_change(teller: &mut Teller, at: At, words: Words) {
    let mut out = [0u8; ROOM];
    let n = put_place(at, &mut out);
    let n = put(words, &[], &mut out, n);
    teller.tell(&out[..n])
}

// A number before and after zeros are put. It has digits, a sign and a point alone, so that it is a form of itself.
fn tell_decimals(teller: &mut Teller, at: At, g: &[u8], zeros: usize) {
    let mut out = [0u8; ROOM];
    let n = put_place(at, &mut out);
    let n = put(Words::Value, &[], &mut out, n);
    let n = forms::put_form(g, &[], &mut out, n);
    let n = put(Words::Written, &[], &mut out, n);
    let n = forms::put_form(g, &[], &mut out, n);
    let n = put(Words::zeros(zeros), &[], &mut out, n);
    teller.tell(&out[..n])
}

// The line, from 1, and the field's name. `fieldnames` counts the letter as field 0: a row of the planners' sheet has none.
fn put_place(at: At, out: &mut [u8]) -> usize
    ensures { IsPrefixLen result out.new }
{
    let n = put(Words::Line, &[told(at.line)], out, 0);
    if at.kind.is_none() {
        return put(Words::Field, &[told(at.field)], out, n);
    }
    let number = if at.row {
        at.field.saturating_add(1)
    } else {
        at.field
    };
    let field = Field {
        kind: at.kind,
        number,
    };
    field.put(out, n)
}

// What is counted from 0 is told from 1.
fn told(n: usize) -> u64 {
    n.saturating_add(1) as u64
}

// What is not certain in a field.
fn doubtful(at: At, g: &[u8]) -> Option<Words> {
    if is_figure(g) {
        return doubtful_figure(at, g);
    }
    if at.line == 0 && at.field == 0 && at.row && g.iter().any(|b| (b'A'..=b'z').contains(b)) {
        return Some(Words::Headings);
    }
    None
}

fn doubtful_figure(at: At, g: &[u8]) -> Option<Words> {
    if g.contains(&b',') {
        return Some(Words::Comma);
    }
    if 1 < count(g, b'.') {
        return Some(Words::Points);
    }
    // Exactly three decimals: of four wanted one is lacking.
    if at.doubt && wanted(at.row, at.field) == 3 && lacking(4, g) == 1 {
        return Some(Words::Thousands);
    }
    None
}

// Digits, signs, points and commas alone, or the byte that no text in UTF-8 has.
fn is_figure(g: &[u8]) -> bool {
    !g.is_empty()
        && g.iter()
            .all(|&b| matches!(b, b',' | b'-' | b'.' | b'0'..=b'9' | 0xFF))
}
