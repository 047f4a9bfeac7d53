// The word `why`: prints why a border got no more, for the texts that were read, and says what people are told of it.
#![tactic(auto)]

mod words;

ghost use Rattle.std.specs.Prelude.{◌≤◌, length};
ghost use Rattle.result.specs.Refusal.{refusal_most};

use output::Ended;
use refusals::Refusal;
use system::System;

// Room for the words: ten lines of fewer than 400 bytes each.
const ROOM: usize = 4096;

// Prints the words of a border of the table as the sheet corrects it; where one of them is refused, the E line. That the table has no such border is said. Where no list of marks
// is given, all borders may rise.
pub fn print<'a>(
    sys: &System,
    border: u64,
    marks: Option<&[u64]>,
    text: &'a [u8],
    sheet: &'a [u8],
) -> Ended {
    let mut out = [0u8; ROOM];
    print_lent(sys, border, marks, text, sheet, &mut out)
}

// Apart from `print`, so that goals do not contain its room. A border that is not there (`NoBorder`) is no fault of the table.
fn print_lent<'a>(
    sys: &System,
    border: u64,
    marks: Option<&[u64]>,
    text: &'a [u8],
    sheet: &'a [u8],
    out: &mut [u8],
) -> Ended
    requires { refusal_most ≤ length out.old }
{
    let said = words::put(border, marks, text, sheet, out);
    if let Err(Refusal::NoBorder(borders)) = said {
        messages::no_border(border, borders);
        return Ended::Failed;
    }
    let n = output::told(said, out);
    let m = output::cut(n, out);
    let ended = output::put(sys, &out[..m]);
    telling::explain(sys, b"", ended, text, sheet);
    ended
}
