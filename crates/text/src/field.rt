// The fields of a line: each is read once, byte by byte, from a given place on.
ghost use Rattle.std.specs.Prelude.{◌≡◌, ◌&&◌, ◌||◌, ◌<◌, ◌^◌, leb, ltb, eqb, get_or};
ghost use Rattle.text.specs.Class.{class_of};
ghost use Rattle.text.specs.Fields.{dash, digits_most, with_number, positive, negative, number_at, signed_at, share_at};

use crate::{Class, Parsed};

// What a byte of a field is.
pub fn class_of(byte: u8) -> Class
    ensures { result ≡ class_of byte }
{
    match byte {
        b'0'..=b'9' => Class::Digit((byte - b'0') as u64),
        b'-' => Class::Minus,
        b'\t' => Class::Tab,
        b'\n' => Class::Feed,
        _ => Class::Other,
    }
}

// The number at a place, ended by `stop`: 1 to 10 digits, no leading zero except "0" itself.
pub fn number_at(line: &[u8], at: usize, stop: u8) -> Parsed<u64>
    ensures { result ≡ number_at line.now at stop }
{
    let mut v: u64 = 0;
    for i in at..line.len() {
        let Class::Digit(d) = class_of(line[i]) else {
            if at < i && line[i] == stop {
                return Ok((v, i + 1));
            }
            return Err(i);
        };
        if full(i - at, v) {
            return Err(i);
        }
        v = v * 10 + d;
    }
    Err(at.max(line.len()))
}

// No digit may follow those that were read: they are ten, or "0".
fn full(read: usize, v: u64) -> bool
    ensures { result ≡ (leb digits_most read || (ltb 0 read && eqb v 0)) }
{
    10 <= read || (0 < read && v == 0)
}

// The signed number at a place: a number, or a minus before a number that is not 0.
pub fn signed_at(line: &[u8], at: usize, stop: u8) -> Parsed<i64>
    ensures { result ≡ signed_at line.now at stop }
{
    if has_minus(line, at) {
        return minus(byte_at(line, at + 1), at + 1, number_at(line, at + 1, stop));
    }
    plus(number_at(line, at, stop))
}

// R at a place: a number, or "-" alone, which is kept as -1.
pub fn share_at(line: &[u8], at: usize, stop: u8) -> Parsed<i64>
    ensures { result ≡ share_at line.now at stop }
{
    if has_minus(line, at) {
        if byte_at(line, at + 1) == stop {
            return Ok((-1, at + 2));
        }
        return Err(at + 1);
    }
    plus(number_at(line, at, stop))
}

pub fn has_minus(line: &[u8], at: usize) -> bool
    ensures { result ≡ eqb (get_or line.now at 0) dash }
{
    byte_at(line, at) == b'-'
}

// The byte at a place, 0 past the line's end.
pub fn byte_at(line: &[u8], at: usize) -> u8
    ensures { result ≡ get_or line.now at 0 }
{
    line.get(at).copied().unwrap_or(0)
}

// A number as a signed one. One that was read is below 10^10.
pub fn plus(number: Parsed<u64>) -> Parsed<i64>
    requires { with_number number 0 (λ v next. v) < 10 ^ 10 }
    ensures { result ≡ positive number }
{
    let (v, next) = number?;
    Ok((v as i64, next))
}

// What a minus makes of the number after it, which begins at place `at` with the byte `first`: a zero there is itself the bad byte.
fn minus(first: u8, at: usize, number: Parsed<u64>) -> Parsed<i64>
    requires { with_number number 0 (λ v next. v) < 10 ^ 10 }
    ensures { result ≡ negative first at number }
{
    match number {
        Ok((0, _)) => Err(at),
        Ok((v, next)) => Ok((-(v as i64), next)),
        Err(place) => Err(if first == b'0' { at } else { place }),
    }
}
