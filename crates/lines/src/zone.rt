// The lines of a net position: Z, the reference one, and T, the allocated one (02, E12). They differ by their letter alone.
ghost use Rattle.std.specs.Prelude.{◌≡◌};
ghost use Rattle.lines.specs.Lines.{position_line};

use columns::Head;
use text::LineFault;
use types::Zone;

// Index, net position.
pub fn zone_line(letter: u8, line: &[u8], i: usize) -> Result<i64, LineFault>
    ensures { result ≡ position_line letter line.now i }
{
    let head = Head::Indexed(letter, i);
    let mut raw: [i64; 1] = [0; 1];
    let Ok(_) = columns::read::line_at(b'\t', head, &Zone::COLUMNS, line, &mut raw) else {
        return Err(LineFault::Form(blame::line_byte(b'\t', head, &Zone::COLUMNS, line)));
    };
    let net = raw[0];
    let Some(_) = Zone::of(net) else {
        let tests = Zone::tests(net);
        return Err(LineFault::Range(blame::range::range_byte(b'\t', &tests, 2, line)));
    };
    Ok(net)
}
