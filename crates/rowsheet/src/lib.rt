// The planners' semicolon sheet (02, E11): the open calls `read_rows` and `write_rows`.
// All is judged before the first record or byte is stored.
#![tactic(auto)]

mod read;
mod write;

ghost use Rattle.std.specs.Prelude.{◌≡◌, true, ◌*◌, ◌≤◌, length, Ok};
ghost use Rattle.limits.specs.Limits.{zones_most, rows_most};
ghost use Rattle.refusals.specs.Answers.{said_judgement};
ghost use Rattle.types.specs.Ranges.{header_fits};
ghost use Rattle.text.specs.Left.{text_said};
ghost use Rattle.rowsheet.specs.RowSheet.{row_room, rows_said, read_rows_left, write_rows_left};

use refusals::Refusal;
use types::{Header, Row, RowRecord};

// The line of row 0. The sheet has no header line; a bad header is refused as line 1 of its table.
pub const FIRST_LINE_NO: usize = 1;

// Reads the rows of a header from its sheet into lent records and factors. Any input has an answer: there is no `requires`.
pub fn read_rows(h: Header, sheet: &[u8], c: &mut [RowRecord], f: &mut [i64]) -> Result<(), Refusal>
    ensures { rows_said result c.new f.new ≡ read_rows_left h sheet.now c.old f.old }
{
    let mut rows: [RowRecord; limits::ROWS_MOST] = [[0; Row::ITEMS]; limits::ROWS_MOST];
    let mut factors: [i64; limits::ROWS_MOST * limits::ZONES_MOST] = [0; limits::ROWS_MOST
        * limits::ZONES_MOST];
    read_with(h, sheet, &mut rows, &mut factors, c, f)
}

// The working memory is made in `read_rows`, and not here, where goals would spell it out.
fn read_with(
    h: Header,
    sheet: &[u8],
    rows: &mut [RowRecord],
    factors: &mut [i64],
    c: &mut [RowRecord],
    f: &mut [i64],
) -> Result<(), Refusal>
    requires { (rows_most ≤ length rows.old) × (rows_most * zones_most ≤ length factors.old) }
    ensures { rows_said result c.new f.new ≡ read_rows_left h sheet.now c.old f.old }
{
    read::read_sheet(h, sheet, rows, factors)?;
    judge_room(h, c.len(), f.len())?;
    sections::put::put_front(h.rows, rows, c);
    sections::put::put_front(h.rows * h.zones, factors, f);
    Ok(())
}

// Writes the rows of a header as its sheet. Any input has an answer: there is no `requires`.
pub fn write_rows(h: Header, c: &[RowRecord], f: &[i64], out: &mut [u8]) -> Result<usize, Refusal>
    ensures { text_said result out.new ≡ write_rows_left h c.now f.now out.old }
{
    if !h.fits() {
        return Err(Refusal::OutOfRange(table::HEADER_LINE_NO, 0));
    }
    judge_room(h, c.len(), f.len())?;
    write::write_front(h.zones, &c[..h.rows], &f[..h.rows * h.zones], out)
}

// Whether so many records and factors hold the rows of this header.
fn judge_room(h: Header, c: usize, f: usize) -> Result<(), Refusal>
    requires { header_fits h ≡ true }
    ensures { said_judgement result h ≡ row_room h c f (Ok h) }
{
    if c < h.rows {
        return Err(Refusal::TooShort(h.rows));
    }
    let factors = h.rows * h.zones;
    if f < factors {
        return Err(Refusal::TooShort(factors));
    }
    Ok(())
}
