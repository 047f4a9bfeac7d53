// Numbers with a point and exactly k decimals, as the planners' sheet has them (02, E11): read at a place, and written at one.
ghost use Rattle.std.specs.Prelude.{◌≡◌, ◌+◌, ◌-◌, ◌/◌, ◌^◌, ◌<◌, ◌≤◌, min, length};
ghost use Rattle.text.specs.Fields.{digits_most, with_number};
ghost use Rattle.text.specs.Point.{decimals_at, point_at, negated, signed_point_at, last_digits, pointed, pointed_ℤ};
ghost use Rattle.text.specs.Put.{Put};

use crate::field::{byte_at, class_of, has_minus, number_at, plus};
use crate::put::{digit, digit_count, magnitude, put_byte, put_number};
use crate::{Class, Parsed};

// The signed number at a place, ended by `stop`.
pub fn signed_point_at(k: usize, line: &[u8], at: usize, stop: u8) -> Parsed<i64>
    requires { k < digits_most }
    ensures { result ≡ signed_point_at k line.now at stop }
{
    if has_minus(line, at) {
        return negated(point_at(true, k, line, at + 1, stop));
    }
    plus(point_at(false, k, line, at, stop))
}

// A number as the one below 0. One that was read is below 10^10.
fn negated(number: Parsed<u64>) -> Parsed<i64>
    requires { with_number number 0 (λ v next. v) < 10 ^ 10 }
    ensures { result ≡ negated number }
{
    let (v, next) = number?;
    Ok((-(v as i64), next))
}

// The number at a place, ended by `stop`; where a minus stands before it, it is not 0.
pub fn point_at(minus: bool, k: usize, line: &[u8], at: usize, stop: u8) -> Parsed<u64>
    requires { k < digits_most }
    ensures { result ≡ point_at minus k line.now at stop }
{
    let most = 10 - k;
    match number_at(line, at, b'.') {
        Ok((v, next)) if next - at <= most + 1 => decimals_at(minus, k, line, next, v, stop),
        Ok(_) => Err(at + most),
        Err(place) => Err(at + most.min(place - at)),
    }
}

// Exactly k decimals from a place on, after digits worth v, and then `stop`.
fn decimals_at(minus: bool, k: usize, line: &[u8], at: usize, v: u64, stop: u8) -> Parsed<u64>
    requires { (k < digits_most) × (v < 10 ^ (digits_most - k)) × (0 < at) × (at ≤ length line.now) }
    ensures { result ≡ decimals_at minus k line.now at v stop }
{
    let mut worth = v;
    for p in at..at + k {
        let Class::Digit(d) = class_of(byte_at(line, p)) else {
            return Err(p);
        };
        worth = worth * 10 + d;
    }
    ended(minus, line, at + k, worth, stop)
}

// What follows the last decimal.
fn ended(minus: bool, line: &[u8], at: usize, v: u64, stop: u8) -> Parsed<u64>
    requires { (0 < at) × (at ≤ length line.now) }
    ensures { result ≡ decimals_at minus 0 line.now at v stop }
{
    if minus & (v == 0) {
        return Err(at - 1);
    }
    if byte_at(line, at) == stop {
        return Ok((v, at + 1));
    }
    Err(at)
}

// Writes z with its point.
pub fn put_signed_point(k: usize, z: i64, out: &mut [u8], at: usize) -> usize
    requires { at + length (pointed_ℤ k z) ≤ length out.old }
    ensures { Put (pointed_ℤ k z) at out.old result out.new }
{
    let digits = magnitude(z);
    if z < 0 {
        let first = put_byte(b'-', out, at);
        return put_point(k, digits, out, first);
    }
    put_point(k, digits, out, at)
}

fn put_point(k: usize, n: u64, out: &mut [u8], at: usize) -> usize
    requires { at + length (pointed k n) ≤ length out.old }
    ensures { Put (pointed k n) at out.old result out.new }
{
    let whole = shifted(n, k);
    let next = put_number(whole, out, at);
    let next = put_byte(b'.', out, next);
    put_decimals(k, n, out, next)
}

// The last k digits, the first of them first.
fn put_decimals(k: usize, n: u64, out: &mut [u8], at: usize) -> usize
    requires { at + length (last_digits k n) ≤ length out.old }
    ensures { Put (last_digits k n) at out.old result out.new }
{
    let mut next = at;
    for after in (0..k).rev() {
        next = put_byte(digit(shifted(n, after) % 10), out, next);
    }
    next
}

// n without its last k digits.
fn shifted(n: u64, k: usize) -> u64
    ensures { result ≡ n / 10 ^ k }
{
    let mut rest = n;
    for _ in 0..k {
        rest /= 10;
    }
    rest
}

// How many bytes z has with its point, its minus among them.
pub fn signed_point_length(k: usize, z: i64) -> usize
    requires { k < digits_most }
    ensures { result ≡ length (pointed_ℤ k z) }
{
    let count = digit_count(shifted(magnitude(z), k)) + 1 + k;
    if z < 0 { count + 1 } else { count }
}
