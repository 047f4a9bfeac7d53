// The open calls for C and everything that speaks C: include/keravnoth.h. Each calls its namesake and codes the answer. Crate cabi_c gives them out as symbols,
// each with the clauses that stand here. Any input has an answer: there is no `requires`.
#![tactic(auto)]

ghost use Rattle.std.specs.Prelude.{◌≡◌, true, false, []};
ghost use Rattle.tablerules.specs.Table.{lent};
ghost use Rattle.reading.specs.Reading.{read_left, read_corrected_left};
ghost use Rattle.writing.specs.Writing.{write_left};
ghost use Rattle.rewriting.specs.Rewriting.{rewrite_corrected_left};
ghost use Rattle.extractrules.specs.Extraction.{extract_left, extract_marked_left};
ghost use Rattle.cornerrules.specs.Corners.{corners_left};
ghost use Rattle.cornertext.specs.CornerText.{corner_text_left};
ghost use Rattle.claimrules.specs.Claims.{claims_answer};
ghost use Rattle.claimtext.specs.Published.{published_left};
ghost use Rattle.rowsheet.specs.RowSheet.{read_rows_left, write_rows_left};
ghost use Rattle.boundrules.specs.Bound.{bound_for};
ghost use Rattle.partrules.specs.Parts.{margins_left};
ghost use Rattle.why.specs.Why.{why_left, why_marked_left};
ghost use Rattle.answer.specs.Result.{result_text_left, result_text_marked_left, answer_left, answer_marked_left, answer_corrected_left};
ghost use Rattle.answer.specs.Told.{told_for, told_with};
ghost use Rattle.meanings.specs.Meanings.{meaning_left};
ghost use Rattle.coded.specs.Version.{version};
ghost use Rattle.coded.specs.Coded.{coded_judged, coded_bounded, read_found, read_coded, text_found, text_coded, answered_found, answered_coded, extract_found, extract_coded, flows_found, flows_coded, rows_found, rows_coded, margins_found, margins_coded, explained_found, explained_coded};

use claims::ClaimRecord;
use coded::{
    KeravnothAnswered, KeravnothBounded, KeravnothExplained, KeravnothExtracted, KeravnothFlows,
    KeravnothJudged, KeravnothRead, KeravnothWritten,
};
use holding::{EndRecord, HoldRecord};
use outcome::{AtcRecord, LeftRecord};
use partrules::PartsRecord;
use tablerules::TableView;
use types::{BorderRecord, Header, RowRecord};

// The interface's version.
pub fn keravnoth_version() -> u32
    ensures { result ≡ version }
{
    10000
}

// Reads a table's text into z, t, b, c and f.
pub fn keravnoth_1_read(
    text: &[u8],
    z: &mut [i64],
    t: &mut [i64],
    b: &mut [BorderRecord],
    c: &mut [RowRecord],
    f: &mut [i64],
) -> KeravnothRead
    ensures { read_found result z.new t.new b.new c.new f.new ≡ read_coded (read_left text.now z.old t.old b.old c.old f.old) }
{
    coded::code_read(lending::read(text, z, t, b, c, f))
}

// Reads a table's text, as a sheet of corrected rows corrects it, into z, t, b, c and f.
pub fn keravnoth_1_read_corrected<'a>(
    text: &'a [u8],
    sheet: &'a [u8],
    z: &mut [i64],
    t: &mut [i64],
    b: &mut [BorderRecord],
    c: &mut [RowRecord],
    f: &mut [i64],
) -> KeravnothRead
    ensures { read_found result z.new t.new b.new c.new f.new ≡ read_coded (read_corrected_left text.now sheet.now z.old t.old b.old c.old f.old) }
{
    coded::code_read(lending::read_corrected(text, sheet, z, t, b, c, f))
}

// Writes the tables as text.
pub fn keravnoth_1_write(
    h: Header,
    z: &[i64],
    t: &[i64],
    b: &[BorderRecord],
    c: &[RowRecord],
    f: &[i64],
    out: &mut [u8],
) -> KeravnothWritten
    ensures { text_found result out.new ≡ text_coded (write_left (lent h z.now t.now b.now c.now f.now) out.old) }
{
    let view = TableView {
        header: h,
        nets: z,
        allocated: t,
        borders: b,
        rows: c,
        factors: f,
    };
    coded::code_written(writing::write(&view, out))
}

// From text to text: the table as the sheet corrects it, written again.
pub fn keravnoth_1_rewrite_corrected<'a>(
    text: &'a [u8],
    sheet: &'a [u8],
    out: &mut [u8],
) -> KeravnothWritten
    ensures { text_found result out.new ≡ text_coded (rewrite_corrected_left text.now sheet.now out.old) }
{
    coded::code_written(rewriting::rewrite_corrected(text, sheet, out))
}

// Capacities and margins from the tables, and p of each row at each border.
pub fn keravnoth_1_extract(
    h: Header,
    z: &[i64],
    t: &[i64],
    b: &[BorderRecord],
    c: &[RowRecord],
    f: &[i64],
    p: &mut [u64],
    atc: &mut [AtcRecord],
    left: &mut [LeftRecord],
) -> KeravnothExtracted
    ensures { extract_found result p.new atc.new left.new ≡ extract_coded (extract_left (lent h z.now t.now b.now c.now f.now) p.old atc.old left.old) }
{
    let view = TableView {
        header: h,
        nets: z,
        allocated: t,
        borders: b,
        rows: c,
        factors: f,
    };
    coded::code_extracted(doors::extract(&view, p, atc, left))
}

// Capacities and margins where only the marked borders may rise.
pub fn keravnoth_1_extract_marked(
    h: Header,
    z: &[i64],
    t: &[i64],
    b: &[BorderRecord],
    c: &[RowRecord],
    f: &[i64],
    p: &mut [u64],
    marks: &[u64],
    atc: &mut [AtcRecord],
    left: &mut [LeftRecord],
) -> KeravnothExtracted
    ensures { extract_found result p.new atc.new left.new ≡ extract_coded (extract_marked_left (lent h z.now t.now b.now c.now f.now) marks.now p.old atc.old left.old) }
{
    let view = TableView {
        header: h,
        nets: z,
        allocated: t,
        borders: b,
        rows: c,
        factors: f,
    };
    coded::code_extracted(doors::extract_marked(&view, p, marks, atc, left))
}

// The extraction as text.
pub fn keravnoth_1_result_text(
    h: Header,
    z: &[i64],
    t: &[i64],
    b: &[BorderRecord],
    c: &[RowRecord],
    f: &[i64],
    out: &mut [u8],
) -> KeravnothWritten
    ensures { text_found result out.new ≡ text_coded (result_text_left (lent h z.now t.now b.now c.now f.now) out.old) }
{
    let view = TableView {
        header: h,
        nets: z,
        allocated: t,
        borders: b,
        rows: c,
        factors: f,
    };
    coded::code_written(answer::result_text(&view, out))
}

// The extraction as text, where only the marked borders may rise.
pub fn keravnoth_1_result_text_marked(
    h: Header,
    z: &[i64],
    t: &[i64],
    b: &[BorderRecord],
    c: &[RowRecord],
    f: &[i64],
    marks: &[u64],
    out: &mut [u8],
) -> KeravnothWritten
    ensures { text_found result out.new ≡ text_coded (result_text_marked_left (lent h z.now t.now b.now c.now f.now) marks.now out.old) }
{
    let view = TableView {
        header: h,
        nets: z,
        allocated: t,
        borders: b,
        rows: c,
        factors: f,
    };
    coded::code_written(answer::result_text_marked(&view, marks, out))
}

// From text to text: the result text, or the E line; and which of them it is.
pub fn keravnoth_1_answer(text: &[u8], out: &mut [u8]) -> KeravnothAnswered
    ensures { answered_found result out.new ≡ answered_coded (answer_left text.now out.old) (told_for true [] text.now) }
{
    coded::code_answered(answer::answer(text, out))
}

// From text to text, where only the marked borders may rise.
pub fn keravnoth_1_answer_marked(text: &[u8], marks: &[u64], out: &mut [u8]) -> KeravnothAnswered
    ensures { answered_found result out.new ≡ answered_coded (answer_marked_left text.now marks.now out.old) (told_for false marks.now text.now) }
{
    coded::code_answered(answer::answer_marked(text, marks, out))
}

// From text to text, of the table as the sheet corrects it.
pub fn keravnoth_1_answer_corrected<'a>(
    text: &'a [u8],
    sheet: &'a [u8],
    out: &mut [u8],
) -> KeravnothAnswered
    ensures { answered_found result out.new ≡ answered_coded (answer_corrected_left text.now sheet.now out.old) (told_with true [] text.now sheet.now) }
{
    coded::code_answered(answer::answer_corrected(text, sheet, out))
}

// The flows of all corners on one row.
pub fn keravnoth_1_corner_flows(
    h: Header,
    z: &[i64],
    t: &[i64],
    b: &[BorderRecord],
    c: &[RowRecord],
    f: &[i64],
    row: usize,
    out: &mut [i64],
) -> KeravnothFlows
    ensures { flows_found result out.new ≡ flows_coded (corners_left (lent h z.now t.now b.now c.now f.now) row out.old) }
{
    let view = TableView {
        header: h,
        nets: z,
        allocated: t,
        borders: b,
        rows: c,
        factors: f,
    };
    coded::code_flows(corners::corner_flows(&view, row, out))
}

// The flows of all corners on one row, as text.
pub fn keravnoth_1_corner_text(
    h: Header,
    z: &[i64],
    t: &[i64],
    b: &[BorderRecord],
    c: &[RowRecord],
    f: &[i64],
    row: usize,
    out: &mut [u8],
) -> KeravnothWritten
    ensures { text_found result out.new ≡ text_coded (corner_text_left (lent h z.now t.now b.now c.now f.now) row out.old) }
{
    let view = TableView {
        header: h,
        nets: z,
        allocated: t,
        borders: b,
        rows: c,
        factors: f,
    };
    coded::code_written(cornertext::corner_text(&view, row, out))
}

// Whether each claim is well formed and borne out.
pub fn keravnoth_1_claims(
    h: Header,
    z: &[i64],
    t: &[i64],
    b: &[BorderRecord],
    c: &[RowRecord],
    f: &[i64],
    claims: &[ClaimRecord],
) -> KeravnothJudged
    ensures { result ≡ coded_judged (claims_answer (lent h z.now t.now b.now c.now f.now) claims.now) }
{
    let view = TableView {
        header: h,
        nets: z,
        allocated: t,
        borders: b,
        rows: c,
        factors: f,
    };
    coded::code_judged(claims::judge_claims(&view, claims))
}

// The published list of the claims that a text holds.
pub fn keravnoth_1_published_text(
    h: Header,
    z: &[i64],
    t: &[i64],
    b: &[BorderRecord],
    c: &[RowRecord],
    f: &[i64],
    list: &[u8],
    out: &mut [u8],
) -> KeravnothWritten
    ensures { text_found result out.new ≡ text_coded (published_left (lent h z.now t.now b.now c.now f.now) list.now out.old) }
{
    let view = TableView {
        header: h,
        nets: z,
        allocated: t,
        borders: b,
        rows: c,
        factors: f,
    };
    coded::code_written(claimtext::published_text(&view, list, out))
}

// Reads the rows of the planners' sheet into c and f.
pub fn keravnoth_1_read_rows(
    h: Header,
    sheet: &[u8],
    c: &mut [RowRecord],
    f: &mut [i64],
) -> KeravnothJudged
    ensures { rows_found result c.new f.new ≡ rows_coded (read_rows_left h sheet.now c.old f.old) }
{
    coded::code_judged(rowsheet::read_rows(h, sheet, c, f))
}

// Writes rows as the planners' sheet.
pub fn keravnoth_1_write_rows(
    h: Header,
    c: &[RowRecord],
    f: &[i64],
    out: &mut [u8],
) -> KeravnothWritten
    ensures { text_found result out.new ≡ text_coded (write_rows_left h c.now f.now out.old) }
{
    coded::code_written(rowsheet::write_rows(h, c, f, out))
}

// How many rounds the tables can take at most.
pub fn keravnoth_1_bound(
    h: Header,
    z: &[i64],
    t: &[i64],
    b: &[BorderRecord],
    c: &[RowRecord],
    f: &[i64],
) -> KeravnothBounded
    ensures { result ≡ coded_bounded (bound_for true [] (lent h z.now t.now b.now c.now f.now)) }
{
    let view = TableView {
        header: h,
        nets: z,
        allocated: t,
        borders: b,
        rows: c,
        factors: f,
    };
    coded::code_bounded(doors::bound(&view))
}

// How many rounds the tables can take at most where only the marked borders rise.
pub fn keravnoth_1_bound_marked(
    h: Header,
    z: &[i64],
    t: &[i64],
    b: &[BorderRecord],
    c: &[RowRecord],
    f: &[i64],
    marks: &[u64],
) -> KeravnothBounded
    ensures { result ≡ coded_bounded (bound_for false marks.now (lent h z.now t.now b.now c.now f.now)) }
{
    let view = TableView {
        header: h,
        nets: z,
        allocated: t,
        borders: b,
        rows: c,
        factors: f,
    };
    coded::code_bounded(doors::bound_marked(&view, marks))
}

// What the margin of each row is made of.
pub fn keravnoth_1_margins(
    h: Header,
    z: &[i64],
    t: &[i64],
    b: &[BorderRecord],
    c: &[RowRecord],
    f: &[i64],
    out: &mut [PartsRecord],
) -> KeravnothJudged
    ensures { margins_found result out.new ≡ margins_coded (margins_left (lent h z.now t.now b.now c.now f.now) out.old) }
{
    let view = TableView {
        header: h,
        nets: z,
        allocated: t,
        borders: b,
        rows: c,
        factors: f,
    };
    coded::code_judged(parts::margins(&view, out))
}

// Why a border got no more, and p of each row at each border.
pub fn keravnoth_1_why(
    h: Header,
    z: &[i64],
    t: &[i64],
    b: &[BorderRecord],
    c: &[RowRecord],
    f: &[i64],
    border: u64,
    p: &mut [u64],
    ends: &mut [EndRecord],
    rows: &mut [HoldRecord],
) -> KeravnothExplained
    ensures { explained_found result p.new ends.new rows.new ≡ explained_coded (why_left (lent h z.now t.now b.now c.now f.now) border p.old ends.old rows.old) }
{
    let view = TableView {
        header: h,
        nets: z,
        allocated: t,
        borders: b,
        rows: c,
        factors: f,
    };
    coded::code_explained(doors::reasons::why(&view, border, p, ends, rows))
}

// The same where only marked borders rise.
pub fn keravnoth_1_why_marked(
    h: Header,
    z: &[i64],
    t: &[i64],
    b: &[BorderRecord],
    c: &[RowRecord],
    f: &[i64],
    marks: &[u64],
    border: u64,
    p: &mut [u64],
    ends: &mut [EndRecord],
    rows: &mut [HoldRecord],
) -> KeravnothExplained
    ensures { explained_found result p.new ends.new rows.new ≡ explained_coded (why_marked_left (lent h z.now t.now b.now c.now f.now) marks.now border p.old ends.old rows.old) }
{
    let view = TableView {
        header: h,
        nets: z,
        allocated: t,
        borders: b,
        rows: c,
        factors: f,
    };
    coded::code_explained(doors::reasons::why_marked(&view, marks, border, p, ends, rows))
}

// What a refusal's number means, in words.
pub fn keravnoth_1_refusal_text(number: u64, out: &mut [u8]) -> KeravnothWritten
    ensures { text_found result out.new ≡ text_coded (meaning_left number out.old) }
{
    coded::code_written(meanings::refusal_text(number, out))
}
