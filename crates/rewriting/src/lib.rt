// Writing a table that stands in a text again: the open call `rewrite_corrected`, of a text with a correction sheet (02, E2).
#![tactic(auto)]

mod rewritten;

ghost use Rattle.std.specs.Prelude.{◌≡◌};
ghost use Rattle.text.specs.Left.{text_said};
ghost use Rattle.rewriting.specs.Rewriting.{rewrite_corrected_left};

use refusals::Refusal;
use types::{Border, BorderRecord, Row, RowRecord};

// The table of a text as a correction sheet corrects it (02, E2), written again. Any input has an answer: there is no `requires`.
pub fn rewrite_corrected<'a>(
    text: &'a [u8],
    sheet: &'a [u8],
    out: &mut [u8],
) -> Result<usize, Refusal>
    ensures { text_said result out.new ≡ rewrite_corrected_left text.now sheet.now out.old }
{
    let mut z: [i64; limits::ZONES_MOST] = [0; limits::ZONES_MOST];
    let mut t: [i64; limits::ZONES_MOST] = [0; limits::ZONES_MOST];
    let mut b: [BorderRecord; limits::BORDERS_MOST] = [[0; Border::ITEMS]; limits::BORDERS_MOST];
    let mut c: [RowRecord; limits::ROWS_MOST] = [[0; Row::ITEMS]; limits::ROWS_MOST];
    let mut f: [i64; limits::ROWS_MOST * limits::ZONES_MOST] = [0; limits::ROWS_MOST
        * limits::ZONES_MOST];
    rewritten::rewrite_in(text, sheet, &mut z, &mut t, &mut b, &mut c, &mut f, out)
}
