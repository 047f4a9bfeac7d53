// What each refusal means, in words (01, "When the table is turned away"; 02): one list, for the program and for C.
// A # stands where the refusal's place belongs.
#![tactic(auto)]

ghost use Rattle.std.specs.Prelude.{◌≡◌, ◌≤◌, ◌-◌, length, take, Ok};
ghost use Rattle.numbers.specs.Below.{over};
ghost use Rattle.text.specs.Left.{text_left, text_said};
ghost use Rattle.meanings.specs.Meanings.{line_begin, words_at, line_for, meaning_left};

use refusals::Refusal;

// A line for each number, from 0 on, and one for every other.
pub const LINES: [u8; 1562] = *b"no refusal\n\
    a text has more than 65,536 bytes: send one hour alone\n\
    line # has the wrong form, kind, index or field count, is missing, has no LF, or is extra: look at its letter, index, tabs, LF and stray bytes (a CR, a BOM, a blank)\n\
    line # has a value outside its range (also a zone or hub that does not exist, or two equal ones; in line 1 a count or the default of R): compare its fields with the ranges in docs/RULES.md\n\
    border # has the same from, to and hubs as an earlier border: leave one of the two out\n\
    no row is kept: in every row the factors lie less than 5000 apart, so nothing limits the capacities: look at the factors\n\
    border # loads no kept row, so nothing limits it: leave it out, or add the row that does\n\
    row # has a starting margin (RAM - S) below 0: look at its CVA and IVA\n\
    a lent buffer is too short: it needs # items\n\
    no corner sheet: the table has more than 12 borders, or no such row: #\n\
    the correction sheet: line # has the wrong form or value, an index that is not above the one before, or one that the table has no row for: look at it as at a C line of the table\n\
    claim # (from 0) is malformed or out of range: look at its line's form, at D and the multipliers (1 to 1000), that its row and those it cites are kept (state 0), and that no row is claimed twice or cited and claimed\n\
    claim # (from 0) is not borne out: the rows that it cites do not make the claimed row redundant\n\
    no border is marked, or mark # of the list is no border of the table or was given before\n\
    no such border: the table has # borders, from 0 on\n\
    no refusal has this number\n";

// The last number that a refusal has.
pub const LAST: u64 = 14;

// The words for a number. Any input has an answer: there is no `requires`.
pub fn refusal_text(number: u64, out: &mut [u8]) -> Result<usize, Refusal>
    ensures { text_said result out.new ≡ meaning_left number out.old }
{
    write_line(&LINES, line_for(number), out)
}

fn line_for(number: u64) -> usize
    ensures { result ≡ line_for number }
{
    number.min(LAST + 1) as usize
}

// Line k of a list, without its LF. Judges the room for it (8), and only then writes it.
fn write_line(list: &[u8], k: usize, out: &mut [u8]) -> Result<usize, Refusal>
    ensures { text_said result out.new ≡ text_left (Ok (words_at list.now k)) out.old }
{
    let line = text::line::line_at(list, line_begin(list, k));
    let n = line.len().saturating_sub(1);
    if out.len() < n {
        return Err(Refusal::TooShort(n));
    }
    out[..n].copy_from_slice(&line[..n]);
    Ok(n)
}

// The place where line k begins.
fn line_begin(list: &[u8], k: usize) -> usize
    ensures { (result ≡ line_begin list.now k) × (result ≤ length list.now) }
{
    let mut at = 0;
    for _ in 0..k {
        at += text::line::line_at(list, at).len();
    }
    at
}
