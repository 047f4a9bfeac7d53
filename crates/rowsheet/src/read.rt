// Reading a sheet into room for the most rows: each line is parsed once, and judged as it is parsed.
ghost use Rattle.std.specs.Prelude.{◌≡◌, ◌*◌, ◌≤◌, length};
ghost use Rattle.limits.specs.Limits.{zones_most, rows_most};
ghost use Rattle.refusals.specs.Answers.{said_judgement};
ghost use Rattle.rowsheet.specs.RowSheet.{front_rows, read_sheet};

use crate::FIRST_LINE_NO;
use lines::row::RowKind;
use refusals::Refusal;
use types::{Header, RowRecord};

// Its length, the header, the lines one by one; nothing follows them. Where it is refused, nothing is said of the records and factors.
pub fn read_sheet(
    h: Header,
    sheet: &[u8],
    c: &mut [RowRecord],
    f: &mut [i64],
) -> Result<(), Refusal>
    requires { (rows_most ≤ length c.old) × (rows_most * zones_most ≤ length f.old) }
    ensures { said_judgement result (front_rows h c.new f.new) ≡ read_sheet h sheet.now }
{
    if text::BYTES_MOST < sheet.len() {
        return Err(Refusal::TooLong);
    }
    if !h.fits() {
        return Err(Refusal::OutOfRange(table::HEADER_LINE_NO, 0));
    }
    let end = rowlines::rows_read(
        RowKind::Sheet,
        sheet,
        b"",
        0,
        h.zones,
        FIRST_LINE_NO,
        &mut c[..h.rows],
        &mut f[..h.rows * h.zones],
    )?;
    if end < sheet.len() {
        return Err(Refusal::WrongForm(FIRST_LINE_NO + h.rows, 0));
    }
    Ok(())
}
