// The Z lines, and the T lines (02, E12), by their letter.
ghost use Rattle.std.specs.Prelude.{◌≡◌, ◌+◌, ◌^◌, ◌≤◌, ◌<◌, length};
ghost use Rattle.sections.specs.Section.{lines_at};
ghost use Rattle.lines.specs.Lines.{position_line};
ghost use Rattle.sections.specs.Stored.{stored_section};

use refusals::Refusal;

// Reads the lines of this letter that begin at place `at`, one for each item of z: their positions and where they end, or the first refusal.
// The line of index 0 is line `first` of the text.
pub fn zones_read(
    letter: u8,
    text: &[u8],
    at: usize,
    first: usize,
    z: &mut [i64],
) -> Result<usize, Refusal>
    requires { (at ≤ length text.now) × (first + length z.old < 2 ^ 64) }
    ensures { stored_section result z.new ≡ lines_at (position_line letter) first (length z.old) text.now at 0 }
{
    let mut p = at;
    for i in 0..z.len() {
        let line = text::line::line_at(text, p);
        match lines::zone::zone_line(letter, line, i) {
            Ok(net) => z[i] = net,
            Err(fault) => return Err(fault.refusal(first + i)),
        }
        p += line.len();
    }
    Ok(p)
}
