// Writing rows as a sheet: records and factors exactly as many as there are rows are judged, the text is measured, and then it is put.
ghost use Rattle.std.specs.Prelude.{◌≡◌, true, [], ℕ, ◌+◌, ◌*◌, ◌<◌, ◌≤◌, length, get_or, Ok};
ghost use Rattle.limits.specs.Limits.{zones_most, rows_most};
ghost use Rattle.refusals.specs.Refusals.{then};
ghost use Rattle.text.specs.Left.{text_left, text_said};
ghost use Rattle.tablerules.specs.Table.{row_good, stretch};
ghost use Rattle.rowsheet.specs.RowSheet.{sheet_of, rows_in_range};

use crate::FIRST_LINE_NO;
use lines::row::RowKind;
use refusals::Refusal;
use types::RowRecord;

pub fn write_front(
    zones: usize,
    c: &[RowRecord],
    f: &[i64],
    out: &mut [u8],
) -> Result<usize, Refusal>
    requires { (length f.now ≡ length c.now * zones) × (0 < zones) × (zones ≤ zones_most) × (length c.now ≤ rows_most) }
    ensures { text_said result out.new ≡ text_left (then (rows_in_range zones (record { rows = c.now; factors = f.now })) (λ t. Ok (sheet_of zones t))) out.old }
{
    if let Some(i) = table::first_row_out(zones, c, f) {
        return Err(Refusal::OutOfRange(FIRST_LINE_NO + i, 0));
    }
    write_good(zones, c, f, out)
}

// Rows in range: only the room for their text is left to judge.
fn write_good(zones: usize, c: &[RowRecord], f: &[i64], out: &mut [u8]) -> Result<usize, Refusal>
    requires { (length f.now ≡ length c.now * zones) × (0 < zones) × (zones ≤ zones_most) × (length c.now ≤ rows_most) × ((i : ℕ) → i < length c.now → row_good (get_or c.now i []) (stretch zones f.now i) ≡ true) }
    ensures { text_said result out.new ≡ text_left (Ok (sheet_of zones (record { rows = c.now; factors = f.now }))) out.old }
{
    let needed = layout::length::rows_length(RowKind::Sheet, zones, c, f);
    if out.len() < needed {
        return Err(Refusal::TooShort(needed));
    }
    Ok(layout::put::put_rows(RowKind::Sheet, zones, c, f, out, 0))
}
