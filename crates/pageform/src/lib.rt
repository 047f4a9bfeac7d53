// Pieces of a page: HTML with figures in it, printed to standard output. A piece is a line of a list, and its figures stand in one record and have names: a to z, then A to Z;
// a digit is the name of its own number.
//   $x ~x ^x       figure x: whole; grains as MW with one decimal; with three
//   {x .. | .. }   the first part where figure x is not 0, else the second, which may be missing
//   ?xy .. | .. }  the first part where figure x is less than figure y
//   `              an LF
// A figure is never HTML, and text from outside goes by `put_safe`: what the page is made of stands in the lists alone.
#![tactic(auto)]

pub mod safe;
mod step;

ghost use Rattle.io.specs.Counts.{IsPrefixLen};

use step::State;
use system::System;

// The figures of a piece.
pub const NAMES: usize = 52;

pub type Figures = [u64; NAMES];

// Room for a piece: the longest, a row of a table with every part of its bar, has under 3,000 bytes.
const ROOM: usize = 8192;

// Prints line k of the list with its figures. False where not all could be written.
pub fn say(sys: &System, list: &[u8], k: usize, figures: &[u64]) -> bool {
    let mut out = [0u8; ROOM];
    let n = put(list, k, figures, &mut out, 0);
    sys.print(&out[..n])
}

// Writes line k of the list with its figures.
pub fn put(list: &[u8], k: usize, figures: &[u64], out: &mut [u8], at: usize) -> usize
    ensures { IsPrefixLen result out.new }
{
    let mut state = State::new(at);
    for &byte in arguments::lists::line(list, k) {
        state = state.take(byte, figures, out);
    }
    state.at.min(out.len())
}

// Prints a text from outside.
pub fn say_safe(sys: &System, text: &[u8]) -> bool {
    let mut out = [0u8; ROOM];
    let n = put_safe(text, &mut out, 0);
    sys.print(&out[..n])
}

// Writes a text from outside.
pub fn put_safe(text: &[u8], out: &mut [u8], at: usize) -> usize
    ensures { IsPrefixLen result out.new }
{
    safe::put(text, out, at).min(out.len())
}
