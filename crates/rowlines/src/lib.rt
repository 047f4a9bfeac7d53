// The rows' lines of a text, read into records and factors.
#![tactic(auto)]

ghost use Rattle.std.specs.Prelude.{◌≡◌, ◌+◌, ◌*◌, ◌^◌, ◌≤◌, ◌<◌, length, Ok};
ghost use Rattle.limits.specs.Limits.{zones_most};
ghost use Rattle.sections.specs.Section.{lines_at};
ghost use Rattle.lines.specs.SaidRow.{said_row, line_by};
ghost use Rattle.corrections.specs.Corrections.{piece, row_in, handed_by, judge_corrections};
ghost use Rattle.corrections.specs.Alongside.{piece_for};
ghost use Rattle.rowlines.specs.Rows.{cut, instead, corrected_by};
ghost use Rattle.sections.specs.Stored.{stored_section};

use lines::row::RowKind;
use refusals::Refusal;
use text::LineFault;
use types::RowRecord;

// Reads the rows' lines from place `at` on, one for each item of c, of which the first is line `first` of the text: the first faulty line decides. What is
// stored for a row is what the sheet's line holds where the sheet has one (02, E2), its factors at the row's own stretch of f. Both texts are walked once,
// since the sheet's indices rise.
pub fn rows_read<'a>(
    kind: RowKind,
    text: &'a [u8],
    sheet: &'a [u8],
    at: usize,
    zones: usize,
    first: usize,
    c: &mut [RowRecord],
    f: &mut [i64],
) -> Result<usize, Refusal>
    requires at_in_bounds { (at ≤ length text.now) × (first + length c.old < 2 ^ 64) × (length f.old ≡ length c.old * zones) × (0 < zones) × (zones ≤ zones_most) }
    requires sheet_value { judge_corrections zones (length c.old) sheet.now ≡ Ok tt }
    ensures { stored_section result (cut zones c.new f.new) ≡ lines_at (corrected_by kind zones (handed_by sheet.now)) first (length c.old) text.now at 0 }
{
    let by = corrections::kind::sheet_kind(sheet);
    let mut p = at;
    let mut s = 0;
    for i in 0..c.len() {
        let given = text::line::line_at(text, p);
        let next = text::line::line_at(sheet, s);
        let start = i * zones;
        match row_corrected(kind, by, next, given, i, &mut f[start..start + zones]) {
            Ok(raw) => c[i] = raw,
            Err(fault) => return Err(fault.refusal(first + i)),
        }
        s = corrections::handed::sheet_after(by, next, s, i);
        p += given.len();
    }
    Ok(p)
}

// Reads the line that is handed on for row i, by its kind: that of the day's text, or `by`, the sheet's. Where it is the sheet's, the day's is judged before:
// what it holds is written over.
fn row_corrected<'a>(
    kind: RowKind,
    by: RowKind,
    next: &'a [u8],
    day: &'a [u8],
    i: usize,
    f: &mut [i64],
) -> Result<RowRecord, LineFault>
    requires { (0 < length f.old) × (length f.old ≤ zones_most) }
    ensures { said_row result f.new ≡ instead (line_by kind (length f.old) day.now i) (row_in (length f.old) (piece_for by next.now (piece kind day.now) i) i) }
{
    let line = corrections::handed::row_line(by, next, day, i);
    if !corrections::handed::of_row(by, next, i) {
        return lines::row::row_read(kind, line, i, f);
    }
    lines::row::row_read(kind, day, i, f)?;
    lines::row::row_read(by, line, i, f)
}
