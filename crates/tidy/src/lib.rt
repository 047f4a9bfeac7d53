// `tidy`: a text repaired where that is certain (tidyrules: specs/Tidied.antt). All that is not certain stays as it is.
#![tactic(auto)]

pub mod line;
mod put;

ghost use Rattle.std.specs.Prelude.{◌≡◌, ◌<◌, ◌≤◌, length, drop, MatchOption, Ok};
ghost use Rattle.std.proofs.lemmas.List.Edits.{sets};
ghost use Rattle.limits.specs.Limits.{bytes_most};
ghost use Rattle.text.specs.Fields.{feed};
ghost use Rattle.text.specs.Left.{text_left, text_said};
ghost use Rattle.tidyrules.specs.Cut.{cut};
ghost use Rattle.tidyrules.specs.Tidied.{mark, unmarked, lines_tidied, tidy_left};
ghost use Rattle.tidy.specs.Lines.{lines_all};

use refusals::Refusal;
use tidyfields::piece_end;

// The most bytes that `tidy` writes: twice as many as a text may have, and one.
pub const BYTES_MOST: usize = 2 * text::BYTES_MOST + 1;

// Writes the text, repaired. Any input has an answer: there is no `requires`.
pub fn tidy(text: &[u8], out: &mut [u8]) -> Result<usize, Refusal>
    ensures { text_said result out.new ≡ tidy_left text.now out.old }
{
    if text.len() > text::BYTES_MOST {
        return Err(Refusal::TooLong);
    }
    let lines = unmarked(text);
    let needed = write_lines(lines, &mut [0u8; 1]);
    if out.len() < needed {
        return Err(Refusal::TooShort(needed));
    }
    write_lines(lines, &mut out[..needed]);
    Ok(needed)
}

// The text without the BOMs and blanks that it begins with.
pub fn unmarked(text: &[u8]) -> &[u8]
    ensures { result.now ≡ unmarked text.now }
{
    let mut rest = text;
    while let Some(after) = after_mark(rest) {
        rest = after;
    }
    rest
}

// The text without the BOM or the blank that it begins with, where it does.
fn after_mark(text: &[u8]) -> Option<&[u8]>
    ensures { MatchOption result (mark text.now ≡ 0) (λ rest. (0 < mark text.now) × (rest.now ≡ drop (mark text.now) text.now)) }
{
    match text {
        [b' ', rest @ ..] => Some(rest),
        [0xEF, 0xBB, 0xBF, rest @ ..] => Some(rest),
        _ => None,
    }
}

// Writes all lines, as far as there is room, and answers where the last one that stays ends.
fn write_lines(text: &[u8], out: &mut [u8]) -> usize
    requires { length text.now ≤ bytes_most }
    ensures { (result ≡ length (lines_tidied (cut feed feed text.now))) × (out.new ≡ sets out.old 0 (lines_all (cut feed feed text.now))) }
{
    let mut p = 0;
    let mut at = 0;
    let mut kept = 0;
    while p < text.len() {
        let e = piece_end(text, p, b'\n', b'\n');
        let w = line::write_line(&text[p..e], out, at);
        at = put::put(b'\n', out, w.next);
        if w.some {
            kept = at;
        }
        p = e + 1;
    }
    kept
}
