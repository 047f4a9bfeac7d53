// The B lines: each is read once, into memory that the caller lends, so that borders given twice can be judged before a table is written.
ghost use Rattle.std.specs.Prelude.{◌≡◌, ◌+◌, ◌^◌, ◌≤◌, ◌<◌, length};
ghost use Rattle.sections.specs.Section.{lines_at};
ghost use Rattle.lines.specs.Lines.{border_line};
ghost use Rattle.sections.specs.Stored.{stored_section};

use refusals::Refusal;
use types::{Border, BorderRecord};

// Reads the B lines that begin at place `at`, one for each item of b: their raw records and where they end, or the first refusal.
// The line of index 0 is line `first` of the text.
pub fn borders_read(
    text: &[u8],
    at: usize,
    zones: usize,
    first: usize,
    b: &mut [BorderRecord],
) -> Result<usize, Refusal>
    requires { (at ≤ length text.now) × (first + length b.old < 2 ^ 64) }
    ensures { stored_section result b.new ≡ lines_at (border_line zones) first (length b.old) text.now at 0 }
{
    let mut p = at;
    for i in 0..b.len() {
        let line = text::line::line_at(text, p);
        let mut raw: BorderRecord = [0; Border::ITEMS];
        match lines::border::border_line(zones, line, i, &mut raw) {
            Ok(()) => b[i] = raw,
            Err(fault) => return Err(fault.refusal(first + i)),
        }
        p += line.len();
    }
    Ok(p)
}
