// The H line.
ghost use Rattle.std.specs.Prelude.{◌≡◌};
ghost use Rattle.lines.specs.Lines.{header_line};

use columns::Head;
use text::LineFault;
use types::Header;

// Zones, borders, rows, and the default of R, which may be left out; it has no index. Whether T lines follow the Z lines is seen later.
pub fn header_line(line: &[u8]) -> Result<Header, LineFault>
    ensures { result ≡ header_line line.now }
{
    let head = Head::Lettered(b'H');
    let mut raw: [i64; Header::ITEMS] = [0; Header::ITEMS];
    let Ok(_) = columns::optional::optional_at(
        b'\t',
        head,
        &Header::COLUMNS,
        Header::ALWAYS,
        line,
        &mut raw,
    ) else {
        return Err(LineFault::Form(blame::line_byte(b'\t', head, &Header::COLUMNS, line)));
    };
    let zones = raw[0] as usize;
    let borders = raw[1] as usize;
    let rows = raw[2] as usize;
    let share = raw[3];
    let h = Header {
        zones,
        borders,
        rows,
        share,
        intraday: Header::DAY_AHEAD,
    };
    if h.fits() {
        return Ok(h);
    }
    let tests = h.tests();
    Err(LineFault::Range(blame::range::range_byte(b'\t', &tests, 1, line)))
}
