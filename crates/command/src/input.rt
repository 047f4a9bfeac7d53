// What a program is given to read, each read whole: standard input, or a file that an argument names. That one cannot be read is said on standard error.
ghost use Rattle.std.specs.Prelude.{◌≡◌, length, IfSome};
ghost use Rattle.io.specs.Counts.{IsPrefixLen};

use arguments::Piece;
use std::io::Read;
use system::System;

// Room for a text, one byte more than it may have, so that a longer one is seen.
const ROOM: usize = text::BYTES_MOST + 1;

// The memory for a text. The array is written out only here: each place that has it costs the check a second.
pub fn room() -> [u8; ROOM]
    ensures { 65537 ≡ length result }
{
    [0; ROOM]
}

// The table: the file that an argument names, or standard input, whose name is -, where none does. How many bytes stand at the front of the text then; none
// where it cannot be read. No contract can say which bytes are read.
pub fn table(sys: &System, at: Option<usize>, text: &mut [u8]) -> Option<usize>
    ensures { IfSome result (λ n. IsPrefixLen n text.new) }
{
    match at.map(Piece::whole) {
        Some(name) if !name.is_standard_input(sys) => named(sys, Some(name), text),
        _ => standard(sys, text),
    }
}

fn standard(sys: &System, text: &mut [u8]) -> Option<usize>
    ensures { IfSome result (λ n. IsPrefixLen n text.new) }
{
    let mut input = sys.stdin();
    let read = read_text(sys, &mut input, text);
    if read.is_none() {
        sys.fail(b"keravnoth: reading");
    }
    read
}

// The file that a piece of an argument names, or nothing where none is given. An argument that cannot be read names none.
pub fn named(sys: &System, piece: Option<Piece>, text: &mut [u8]) -> Option<usize>
    ensures { IfSome result (λ n. IsPrefixLen n text.new) }
{
    let Some(piece) = piece else {
        return Some(0);
    };
    let mut own = arguments::room();
    let name = piece.read(sys, &mut own);
    let read = read_by_name(sys, name, text);
    if read.is_none() {
        messages::unread(sys, name);
    }
    read
}

// Reads a file, and says nothing where it cannot be read.
pub fn read_by_name(sys: &System, name: &[u8], text: &mut [u8]) -> Option<usize>
    ensures { IfSome result (λ n. IsPrefixLen n text.new) }
{
    let mut file = sys.open(name)?;
    read_text(sys, &mut file, text)
}

// Reads until the input ends or the text is full.
fn read_text<R: Read>(sys: &System, from: &mut R, text: &mut [u8]) -> Option<usize>
    ensures { IfSome result (λ n. IsPrefixLen n text.new) }
{
    let mut done = 0;
    while done < text.len() {
        let more = sys.read(from, &mut text[done..])?;
        if more == 0 {
            break;
        }
        done += more;
    }
    Some(done)
}
