// The open calls that answer in text (01, "Result text"): `result_text` of lent tables, and `answer` of a table's text; each with marks too (02, E13),
// and `answer` with a correction sheet (02, E2).
// They differ in what becomes of a refusal: `result_text` tells it, and `answer` writes it as the E line.
#![tactic(auto)]

ghost use Rattle.std.specs.Prelude.{◌≡◌, true, false, List, [], ℕ, ◌*◌, ◌≤◌, length, Ok};
ghost use Rattle.limits.specs.Limits.{zones_most, borders_most, rows_most};
ghost use Rattle.marks.specs.Marks.{every, listed};
ghost use Rattle.text.specs.Left.{text_left, text_said};
ghost use Rattle.tablerules.specs.Table.{front, lent_view};
ghost use Rattle.tablerules.specs.Good.{Good};
ghost use Rattle.extractrules.specs.Extraction.{outcome_for};
ghost use Rattle.result.specs.Asked.{bytes_asked};
ghost use Rattle.result.specs.Refusal.{refusal_text, refusal_most};
ghost use Rattle.answer.specs.Result.{result_text_for, result_text_left, result_text_marked_left, answer_left, answer_marked_left, answer_with_left, answer_corrected_left};
ghost use Rattle.answer.specs.Printed.{outcome_said, answer_most};
ghost use Rattle.answer.specs.Told.{told_of, told_for, told_with};

use outcome::{AtcRecord, BorderResult, LeftRecord, RowResult};
use refusals::Refusal;
use tablerules::TableView;
use types::{Border, BorderRecord, Row, RowRecord};

// What an answer in text comes to: the bytes that were written, or that there was no room for them; and what the text tells, a result or why there is none.
#[derive(Clone, Copy)]
pub struct Answered {
    pub written: Result<usize, Refusal>,
    pub told: Result<(), Refusal>,
}

// The result text of lent tables. Any input has an answer: there is no `requires`.
pub fn result_text(view: &TableView, out: &mut [u8]) -> Result<usize, Refusal>
    ensures { text_said result out.new ≡ result_text_left (lent_view view.now) out.old }
{
    result_text_for(view, None, out)
}

// The result text of lent tables where only the borders of a list of marks rise (02, E13).
pub fn result_text_marked(view: &TableView, marks: &[u64], out: &mut [u8]) -> Result<usize, Refusal>
    ensures { text_said result out.new ≡ result_text_marked_left (lent_view view.now) marks.now out.old }
{
    result_text_for(view, Some(marks), out)
}

fn result_text_for(
    view: &TableView,
    marks: Option<&[u64]>,
    out: &mut [u8],
) -> Result<usize, Refusal>
    ensures { text_said result out.new ≡ result_text_for (every marks.entry) (listed marks.entry) (lent_view view.now) out.old }
{
    table::judge(view, None)?;
    answer_good(view, marks, false, out)
}

// The answer to a table's text: the result text, or the E line. Any input has an answer: there is no `requires`.
pub fn answer(text: &[u8], out: &mut [u8]) -> Answered
    ensures out_after { text_said result.written out.new ≡ answer_left text.now out.old }
    ensures told_value { result.told ≡ told_for true [] text.now }
{
    answer_with(text, b"", None, out)
}

// The answer where only the borders of a list of marks rise (02, E13).
pub fn answer_marked(text: &[u8], marks: &[u64], out: &mut [u8]) -> Answered
    ensures out_after { text_said result.written out.new ≡ answer_marked_left text.now marks.now out.old }
    ensures told_value { result.told ≡ told_for false marks.now text.now }
{
    answer_with(text, b"", Some(marks), out)
}

// The answer to a table's text with a correction sheet (02, E2). An empty sheet changes nothing.
pub fn answer_corrected<'a>(text: &'a [u8], sheet: &'a [u8], out: &mut [u8]) -> Answered
    ensures out_after { text_said result.written out.new ≡ answer_corrected_left text.now sheet.now out.old }
    ensures told_value { result.told ≡ told_with true [] text.now sheet.now }
{
    answer_with(text, sheet, None, out)
}

// The general call: with a correction sheet, which may be empty; every border, or the marked ones. It says besides how many bytes it asks for at most.
pub fn answer_with<'a>(
    text: &'a [u8],
    sheet: &'a [u8],
    marks: Option<&[u64]>,
    out: &mut [u8],
) -> Answered
    ensures out_after { text_said result.written out.new ≡ answer_with_left (every marks.entry) (listed marks.entry) text.now sheet.now out.old }
    ensures written_bound { (bytes_asked result.written ≤ answer_most) × (result.told ≡ told_with (every marks.entry) (listed marks.entry) text.now sheet.now) }
{
    let mut z: [i64; limits::ZONES_MOST] = [0; limits::ZONES_MOST];
    let mut t: [i64; limits::ZONES_MOST] = [0; limits::ZONES_MOST];
    let mut b: [BorderRecord; limits::BORDERS_MOST] = [[0; Border::ITEMS]; limits::BORDERS_MOST];
    let mut c: [RowRecord; limits::ROWS_MOST] = [[0; Row::ITEMS]; limits::ROWS_MOST];
    let mut f: [i64; limits::ROWS_MOST * limits::ZONES_MOST] = [0; limits::ROWS_MOST
        * limits::ZONES_MOST];
    answer_in(
        text, sheet, marks, &mut z, &mut t, &mut b, &mut c, &mut f, out,
    )
}

// The tables are allocated in `answer_with` so that the proof goals here do not contain them.
fn answer_in<'a>(
    text: &'a [u8],
    sheet: &'a [u8],
    marks: Option<&[u64]>,
    z: &mut [i64],
    t: &mut [i64],
    b: &mut [BorderRecord],
    c: &mut [RowRecord],
    f: &mut [i64],
    out: &mut [u8],
) -> Answered
    requires { (zones_most ≤ length z.old) × (zones_most ≤ length t.old) × (borders_most ≤ length b.old) × (rows_most ≤ length c.old) × (rows_most * zones_most ≤ length f.old) }
    ensures out_after { text_said result.written out.new ≡ answer_with_left (every marks.entry) (listed marks.entry) text.now sheet.now out.old }
    ensures written_bound { (bytes_asked result.written ≤ answer_most) × (result.told ≡ told_with (every marks.entry) (listed marks.entry) text.now sheet.now) }
{
    match reading::read_into(text, sheet, z, t, b, c, f) {
        Ok(h) => answer_told(
            &TableView {
                header: h,
                nets: z,
                allocated: t,
                borders: b,
                rows: c,
                factors: f,
            },
            marks,
            true,
            out,
        ),
        Err(w) => tell_refusal(w, out),
    }
}

// The answer to a good table, as it was lent; where it writes a text, also how many bytes it asks for at most.
pub fn answer_good(
    view: &TableView,
    marks: Option<&[u64]>,
    line: bool,
    out: &mut [u8],
) -> Result<usize, Refusal>
    requires { Good (front (lent_view view.now)) }
    ensures out_after { text_said result out.new ≡ text_left (outcome_said line (outcome_for (every marks.entry) (listed marks.entry) (front (lent_view view.now)))) out.old }
    ensures by_index { (text : List ℕ) → outcome_said line (outcome_for (every marks.entry) (listed marks.entry) (front (lent_view view.now))) ≡ Ok text → bytes_asked result ≤ answer_most }
{
    answer_told(view, marks, line, out).written
}

// The answer to a good table, as it was lent, with what it tells.
fn answer_told(view: &TableView, marks: Option<&[u64]>, line: bool, out: &mut [u8]) -> Answered
    requires { Good (front (lent_view view.now)) }
    ensures out_after { text_said result.written out.new ≡ text_left (outcome_said line (outcome_for (every marks.entry) (listed marks.entry) (front (lent_view view.now)))) out.old }
    ensures by_index { (text : List ℕ) → outcome_said line (outcome_for (every marks.entry) (listed marks.entry) (front (lent_view view.now))) ≡ Ok text → bytes_asked result.written ≤ answer_most }
    ensures told_value { result.told ≡ told_of (outcome_for (every marks.entry) (listed marks.entry) (front (lent_view view.now))) }
{
    let mut p: [u64; limits::ROWS_MOST * limits::BORDERS_MOST] = [0; limits::ROWS_MOST
        * limits::BORDERS_MOST];
    let mut atc: [AtcRecord; limits::BORDERS_MOST] =
        [[0; BorderResult::ITEMS]; limits::BORDERS_MOST];
    let mut left: [LeftRecord; limits::ROWS_MOST] = [[0; RowResult::ITEMS]; limits::ROWS_MOST];
    answer_from(view, marks, line, &mut p, &mut atc, &mut left, out)
}

// The table of p and the records are allocated in `answer_told` so that the proof goals here do not contain them.
fn answer_from(
    view: &TableView,
    marks: Option<&[u64]>,
    line: bool,
    p: &mut [u64],
    atc: &mut [AtcRecord],
    left: &mut [LeftRecord],
    out: &mut [u8],
) -> Answered
    requires good { Good (front (lent_view view.now)) }
    requires borders_most_in_bounds { (rows_most * borders_most ≤ length p.old) × (borders_most ≤ length atc.old) × (rows_most ≤ length left.old) }
    ensures out_after { text_said result.written out.new ≡ text_left (outcome_said line (outcome_for (every marks.entry) (listed marks.entry) (front (lent_view view.now)))) out.old }
    ensures by_index { (text : List ℕ) → outcome_said line (outcome_for (every marks.entry) (listed marks.entry) (front (lent_view view.now))) ≡ Ok text → bytes_asked result.written ≤ answer_most }
    ensures told_value { result.told ≡ told_of (outcome_for (every marks.entry) (listed marks.entry) (front (lent_view view.now))) }
{
    match extraction::extract_good(view, marks, p, atc, left) {
        Ok(rounds) => {
            let borders = view.header.borders;
            let rows = view.header.rows;
            Answered {
                written: result::records::write_records(
                    &atc[..borders],
                    &left[..rows],
                    rounds,
                    out,
                ),
                told: Ok(()),
            }
        }
        Err(w) => {
            if line {
                tell_refusal(w, out)
            } else {
                Answered {
                    written: Err(w),
                    told: Err(w),
                }
            }
        }
    }
}

// The E line, and the refusal that it tells.
fn tell_refusal(w: Refusal, out: &mut [u8]) -> Answered
    ensures out_after { text_said result.written out.new ≡ text_left (Ok (refusal_text w)) out.old }
    ensures written_bound { (bytes_asked result.written ≤ refusal_most) × (result.told ≡ Err w) }
{
    Answered {
        written: result::refusal::write_refusal(w.number(), w.place(), w.byte(), out),
        told: Err(w),
    }
}
