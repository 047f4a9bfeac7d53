// A refusal as text: the E line (01, "Result text").
ghost use Rattle.std.specs.Prelude.{◌≡◌, ◌≤◌, length, Ok};
ghost use Rattle.numbers.specs.Below.{over};
ghost use Rattle.text.specs.Left.{text_left, text_said};
ghost use Rattle.result.specs.Asked.{bytes_asked};
ghost use Rattle.result.specs.Refusal.{refusal_line, refusal_most};

use refusals::Refusal;

// Judges the room for the E line (8), and only then writes it. Any three numbers have a line, and not only those of a refusal.
pub fn write_refusal(
    number: u32,
    place: usize,
    byte: usize,
    out: &mut [u8],
) -> Result<usize, Refusal>
    ensures { (text_said result out.new ≡ text_left (Ok (refusal_line number place byte)) out.old) × (bytes_asked result ≤ refusal_most) }
{
    let needed = refusal_length(number, place, byte);
    if out.len() < needed {
        return Err(Refusal::TooShort(needed));
    }
    Ok(put_refusal(number, place, byte, out))
}

// How many bytes the E line has: the letter, three tabs and the LF, and the numbers.
fn refusal_length(number: u32, place: usize, byte: usize) -> usize
    ensures { (result ≡ length (refusal_line number place byte)) × (result ≤ refusal_most) }
{
    5 + text::put::digit_count(number as u64)
        + text::put::digit_count(place as u64)
        + text::put::digit_count(byte as u64)
}

// Writes the E line from the start of `out`.
fn put_refusal(number: u32, place: usize, byte: usize, out: &mut [u8]) -> usize
    requires { length (refusal_line number place byte) ≤ length out.old }
    ensures { (result ≡ length (refusal_line number place byte)) × (out.new ≡ over (refusal_line number place byte) out.old) }
{
    let number_at = text::put::put_byte(b'E', out, 0);
    let place_at = text::put::put_number_field(number as u64, out, number_at);
    let byte_at = text::put::put_number_field(place as u64, out, place_at);
    let feed_at = text::put::put_number_field(byte as u64, out, byte_at);
    text::put::put_byte(b'\n', out, feed_at)
}
