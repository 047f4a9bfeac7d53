// The B line.
ghost use Rattle.std.specs.Prelude.{◌≡◌, length};
ghost use Rattle.types.specs.LineColumns.{border_items};
ghost use Rattle.lines.specs.Lines.{border_line};
ghost use Rattle.lines.specs.Said.{said_border};

use columns::Head;
use text::LineFault;
use types::Border;

// Index, from zone, to zone, LTA, and the hubs where the line has them: their raw numbers into `raw`.
pub fn border_line(zones: usize, line: &[u8], i: usize, raw: &mut [i64]) -> Result<(), LineFault>
    requires { length raw.old ≡ border_items }
    ensures { said_border result raw.new ≡ border_line zones line.now i }
{
    let head = Head::Indexed(b'B', i);
    let Ok(_) = columns::optional::optional_at(
        b'\t',
        head,
        &Border::COLUMNS,
        Border::ALWAYS,
        line,
        raw,
    ) else {
        return Err(LineFault::Form(blame::line_byte(b'\t', head, &Border::COLUMNS, line)));
    };
    if Border::fits(zones, raw) {
        return Ok(());
    }
    let tests = Border::tests(zones, raw);
    Err(LineFault::Range(blame::range::range_byte(b'\t', &tests, 2, line)))
}
