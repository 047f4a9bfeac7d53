// Reads a text with a correction sheet into tables with room for the largest, and writes what was read.
ghost use Rattle.std.specs.Prelude.{◌≡◌, ◌*◌, ◌≤◌, length};
ghost use Rattle.limits.specs.Limits.{zones_most, borders_most, rows_most};
ghost use Rattle.text.specs.Left.{text_said};
ghost use Rattle.rewriting.specs.Rewriting.{rewrite_corrected_left};

use refusals::Refusal;
use tablerules::TableView;
use types::{BorderRecord, RowRecord};

// The tables are allocated in `rewrite_corrected` so that the proof goals here do not contain them.
pub fn rewrite_in<'a>(
    text: &'a [u8],
    sheet: &'a [u8],
    z: &mut [i64],
    t: &mut [i64],
    b: &mut [BorderRecord],
    c: &mut [RowRecord],
    f: &mut [i64],
    out: &mut [u8],
) -> Result<usize, Refusal>
    requires { (zones_most ≤ length z.old) × (zones_most ≤ length t.old) × (borders_most ≤ length b.old) × (rows_most ≤ length c.old) × (rows_most * zones_most ≤ length f.old) }
    ensures { text_said result out.new ≡ rewrite_corrected_left text.now sheet.now out.old }
{
    let header = reading::read_into(text, sheet, z, t, b, c, f)?;
    let view = TableView {
        header,
        nets: z,
        allocated: t,
        borders: b,
        rows: c,
        factors: f,
    };
    writing::write_good(&view, out)
}
