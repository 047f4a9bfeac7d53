// One line, repaired field by field.
ghost use Rattle.std.specs.Prelude.{◌≡◌, ◌+◌, ◌≤◌, length};
ghost use Rattle.text.specs.Fields.{tab};
ghost use Rattle.tidyrules.specs.Cut.{cut};
ghost use Rattle.tidyrules.specs.Fields.{repaired};
ghost use Rattle.tidyrules.specs.Tidied.{semicolon, is_row, line_tidied};
ghost use Rattle.tidy.specs.Clip.{places_most, Clip, LinePut};

use crate::put::{copy, put, zeros};
use tidyfields::{bared, lacking, piece_end, wanted};

// What a line was written as: the place after it, and whether it has a byte but tabs and semicolons.
#[derive(Clone, Copy)]
pub struct Placed {
    pub next: usize,
    pub some: bool,
}

pub fn write_line(line: &[u8], out: &mut [u8], at: usize) -> Placed
    requires { at + length (line_tidied line.now) ≤ places_most }
    ensures { LinePut line.now at out.old result out.new }
{
    let row = is_row(line);
    let mut p = 0;
    let mut k = 0;
    let mut next = at;
    let mut e = piece_end(line, 0, b'\t', b';');
    while e < line.len() {
        next = write_field(&line[p..e], false, wanted(row, k), out, next);
        next = put(line[e], out, next);
        p = e + 1;
        k += 1;
        e = piece_end(line, p, b'\t', b';');
    }
    let end = write_field(&line[p..e], true, wanted(row, k), out, next);
    // Each of the k fields before the last has left its tab or semicolon: what is more is a byte of a field.
    Placed {
        next: end,
        some: at + k < end,
    }
}

// Whether the line's fields are parted by semicolons and by no tab.
pub fn is_row(line: &[u8]) -> bool
    ensures { result ≡ is_row (cut tab semicolon line.now) }
{
    line.contains(&b';') && !line.contains(&b'\t')
}

// A field, repaired; `want` decimals are wanted of it where it is a number with a point.
fn write_field(f: &[u8], last: bool, want: usize, out: &mut [u8], at: usize) -> usize
    requires { at + length (repaired last want f.now) ≤ places_most }
    ensures { Clip (repaired last want f.now) at out.old result out.new }
{
    let g = bared(f, last);
    let next = copy(g, out, at);
    zeros(lacking(want, g), out, next)
}
