// A byte that is blamed: the field that it stands in, what it is, and what is wanted there.
ghost use Rattle.std.specs.Prelude.{◌≤◌, length};
ghost use Rattle.io.specs.Counts.{IsPrefixLen};

use crate::Blamed;
use crate::due::Due;
use crate::words::{self, Found, Wanted, Words};
use arguments::lists;
use fieldnames::{Field, Name};

// Which field of the line the byte stands in.
fn field_of(line: &[u8], stop: u8, place: usize) -> usize
    ensures { result ≤ length line.now }
{
    line.iter().take(place).filter(|b| **b == stop).count()
}

// The number of a refusal by range.
const RANGE: u64 = 3;

pub fn put(
    of: Blamed,
    number: u64,
    line: u64,
    told: u64,
    due: Due,
    row: &[u8],
    out: &mut [u8],
    at: usize,
) -> usize
    ensures { IsPrefixLen result out.new }
{
    let place = told.saturating_sub(1) as usize;
    let stop = of.separator();
    let own = field_of(row, stop, place);
    let first = lists::begin(row, own, stop) == place;
    let field = Field {
        kind: due.kind,
        number: if of.is_lettered() {
            own
        } else {
            own.saturating_add(1)
        },
    };
    let byte = text::field::byte_at(row, place);
    let name = field.name();
    if line == 1 && first && name == Name::Index && byte.is_ascii_alphabetic() {
        return words::put(Words::Headings, &[1], out, at);
    }
    let next = words::put(Words::Line, &[line], out, at);
    let next = field.put(out, next);
    let next = words::put(Words::Byte, &[told], out, next);
    if name == Name::Index && first && byte.is_ascii_digit() {
        return put_index(of, due.index, out, next);
    }
    if number == RANGE || first && begins_number(name, byte) {
        let next = words::put(Words::Range, &[], out, next);
        return words::put_range(name, !of.is_lettered(), out, next);
    }
    put_form(of, name, byte, out, next)
}

fn put_index(of: Blamed, index: u64, out: &mut [u8], at: usize) -> usize
    ensures { IsPrefixLen result out.new }
{
    match of {
        Blamed::Corrections | Blamed::Rows => words::put(Words::IndexRises, &[], out, at),
        Blamed::Table | Blamed::Sheet => words::put(Words::IndexDue, &[index], out, at),
    }
}

// Whether a good number of the field could begin so: then its value is blamed, and not its form.
fn begins_number(name: Name, byte: u8) -> bool {
    byte.is_ascii_digit() || byte == b'-' && is_signed(name)
}

fn is_signed(name: Name) -> bool {
    matches!(
        name,
        Name::NetPosition | Name::Fref | Name::F0all | Name::Factor
    )
}

// What stands there, and what is wanted.
fn put_form(of: Blamed, name: Name, byte: u8, out: &mut [u8], at: usize) -> usize
    ensures { IsPrefixLen result out.new }
{
    let whole = of.is_lettered();
    let next = put_found(byte, of.separator(), out, at);
    let next = words::put_wanted(wanted(name, whole), out, next);
    match byte {
        b' ' | b'\r' | b'"' => words::put(Words::Tidy, &[], out, next),
        // A comma is written for a point where numbers have one.
        b',' if !whole => words::put(Words::WritePoint, &[], out, next),
        _ => next,
    }
}

fn put_found(byte: u8, stop: u8, out: &mut [u8], at: usize) -> usize
    ensures { IsPrefixLen result out.new }
{
    let found = found(byte, stop);
    let next = words::put_found(found, byte, out, at);
    if found == Found::Shown {
        let next = forms::put_byte(byte, out, next);
        return forms::put_byte(b'\'', out, next);
    }
    next
}

// Which of the words say what a byte is. A line without its LF ends with none: 0 stands for that.
fn found(byte: u8, stop: u8) -> Found {
    match byte {
        _ if byte == stop => Found::FieldEnd,
        b' ' => Found::Blank,
        b'\r' => Found::Cr,
        b',' => Found::Comma,
        b'.' => Found::Point,
        b';' => Found::Semicolon,
        b'"' => Found::Quote,
        b'+' => Found::Plus,
        b'-' => Found::Minus,
        0 | b'\n' => Found::FieldEnd,
        b'0'..=b'9' => Found::Digit,
        33..=126 => Found::Shown,
        _ => Found::Hidden,
    }
}

// Which of the words say what a field holds.
fn wanted(name: Name, whole: bool) -> Wanted {
    match name {
        Name::R => Wanted::ROrNone,
        Name::Factor if !whole => Wanted::Factor,
        Name::Fmax | Name::Frm | Name::Fref | Name::F0all | Name::Cva | Name::Iva if !whole => {
            Wanted::Power
        }
        _ if is_signed(name) => Wanted::SignedDigits,
        _ => Wanted::Digits,
    }
}
