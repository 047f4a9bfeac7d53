// Standard output: a text is printed, and what came of it is heard from the text itself; a refusal as the text that is printed for it; and bytes put into a text that is.
#![tactic(auto)]

ghost use Rattle.std.specs.Prelude.{◌≡◌, ◌+◌, ◌≤◌, length};
ghost use Rattle.io.specs.Counts.{IsPrefixLen};
ghost use Rattle.text.specs.Put.{Put};
ghost use Rattle.result.specs.Refusal.{refusal_text, refusal_most};
ghost use Rattle.output.specs.Buffer.{bytes_of, Printed, Told};
ghost use Rattle.output.specs.Heard.{refusal_in, heard_of};

use refusals::Refusal;
use system::System;

// What came of printing.
#[derive(Clone, Copy)]
pub enum Ended {
    Answered,
    // A line E stands there: its number, place and byte.
    Refused(u64, u64, u64),
    // Not all could be written.
    Failed,
}

// Prints a text.
pub fn put(sys: &System, printed: &[u8]) -> Ended {
    if !sys.print(printed) {
        return Ended::Failed;
    }
    heard(printed)
}

// Whether a text that is printed is a refusal, and which.
pub fn heard(printed: &[u8]) -> Ended
    ensures { result ≡ heard_of printed.now }
{
    match printed {
        [b'E', ..] => refusal_in(printed),
        _ => Ended::Answered,
    }
}

fn refusal_in(line: &[u8]) -> Ended
    ensures { result ≡ refusal_in line.now }
{
    let Ok((number, at)) = text::field::number_at(line, 2, b'\t') else {
        return Ended::Refused(0, 0, 0);
    };
    let Ok((place, next)) = text::field::number_at(line, at, b'\t') else {
        return Ended::Refused(0, 0, 0);
    };
    let Ok((byte, _)) = text::field::number_at(line, next, b'\n') else {
        return Ended::Refused(0, 0, 0);
    };
    Ended::Refused(number, place, byte)
}

// How many bytes a call wrote, or if it was refused the E line, written here.
pub fn told(said: Result<usize, Refusal>, out: &mut [u8]) -> usize
    requires { refusal_most ≤ length out.old }
    ensures { Told said out.old result out.new }
{
    match said {
        Ok(n) => n,
        Err(w) => refusal_line(w, out),
    }
}

// The E line. There is room for it, so that it is never refused.
pub fn refusal_line(w: Refusal, out: &mut [u8]) -> usize
    requires { refusal_most ≤ length out.old }
    ensures { Printed result (refusal_text w) out.new }
{
    bytes_of(result::refusal::write_refusal(w.number(), w.place(), w.byte(), out))
}

fn bytes_of(said: Result<usize, Refusal>) -> usize
    ensures { result ≡ bytes_of said }
{
    match said {
        Ok(n) => n,
        Err(_) => 0,
    }
}

// The bytes of another text.
pub fn put_bytes(bytes: &[u8], out: &mut [u8], at: usize) -> usize
    requires { at + length bytes.now ≤ length out.old }
    ensures { Put bytes.now at out.old result out.new }
{
    let end = at + bytes.len();
    out[at..end].copy_from_slice(bytes);
    end
}

// How many bytes of a text are printed of which a call says that it wrote so many. It never says more than it was lent: asking spares a proof of it.
pub fn cut(n: usize, out: &[u8]) -> usize
    ensures { IsPrefixLen result out.now }
{
    n.min(out.len())
}
