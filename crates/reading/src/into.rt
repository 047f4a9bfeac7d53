// Reading texts that are not too long, into room for the largest table: each line of the day's text is parsed once, and judged as it is parsed. Where a text is
// refused, the tables hold what was read before.
ghost use Rattle.std.specs.Prelude.{◌≡◌, true, ◌≤◌, length, take};
ghost use Rattle.limits.specs.Limits.{borders_most};
ghost use Rattle.types.specs.Ranges.{header_fits};
ghost use Rattle.reading.specs.Places.{Roomy, Headed, Netted, Allocated, Bordered, read_short, used_of, judged_last};
ghost use Rattle.reading.specs.Reading.{intraday_at, balance_byte, read_into};

use lines::row::RowKind;
use refusals::Refusal;
use types::{BorderRecord, Header, RowRecord};

// The H line, and then the others.
pub fn read_lines<'a>(
    text: &'a [u8],
    sheet: &'a [u8],
    z: &mut [i64],
    t: &mut [i64],
    b: &mut [BorderRecord],
    c: &mut [RowRecord],
    f: &mut [i64],
) -> Result<Header, Refusal>
    requires { Roomy z.old t.old b.old c.old f.old }
    ensures { read_into result z.new t.new b.new c.new f.new ≡ read_short text.now sheet.now }
{
    let line = text::line::line_at(text, 0);
    match lines::header::header_line(line) {
        Ok(h) => read_zones(text, sheet, h, line.len(), z, t, b, c, f),
        Err(fault) => Err(fault.refusal(table::HEADER_LINE_NO)),
    }
}

// All Z lines, which begin at place `at`, and then the others, of the profile that the letter after them tells.
fn read_zones<'a>(
    text: &'a [u8],
    sheet: &'a [u8],
    counts: Header,
    at: usize,
    z: &mut [i64],
    t: &mut [i64],
    b: &mut [BorderRecord],
    c: &mut [RowRecord],
    f: &mut [i64],
) -> Result<Header, Refusal>
    requires headed { Headed text.now counts at }
    requires roomy { Roomy z.old t.old b.old c.old f.old }
    ensures { read_into result z.new t.new b.new c.new f.new ≡ read_short text.now sheet.now }
{
    let first = table::ZONE_LINE_NO;
    let end = sections::zones::zones_read(b'Z', text, at, first, &mut z[..counts.zones])?;
    let h = counts.profiled(is_allocated(text, end));
    read_allocated(text, sheet, h, end, z, t, b, c, f)
}

// Whether the line at this place is a T line, by its letter.
fn is_allocated(text: &[u8], at: usize) -> bool
    ensures { result ≡ intraday_at text.now at }
{
    at < text.len() && text[at] == b'T'
}

// All T lines, which begin at place `at`, where the header says that there are such; their sum; and then the others.
fn read_allocated<'a>(
    text: &'a [u8],
    sheet: &'a [u8],
    h: Header,
    at: usize,
    z: &mut [i64],
    t: &mut [i64],
    b: &mut [BorderRecord],
    c: &mut [RowRecord],
    f: &mut [i64],
) -> Result<Header, Refusal>
    requires netted { Netted text.now h z.old at }
    requires roomy { Roomy z.old t.old b.old c.old f.old }
    ensures { read_into result z.new t.new b.new c.new f.new ≡ read_short text.now sheet.now }
{
    let items = h.allocated_items();
    let first = table::ZONE_LINE_NO + h.zones;
    let end = sections::zones::zones_read(b'T', text, at, first, &mut t[..items])?;
    if !table::balanced(&t[..items]) {
        let last = table::HEADER_LINE_NO + h.zones + items;
        return Err(Refusal::OutOfRange(last, balance_byte(h.zones)));
    }
    read_borders(text, sheet, h, end, z, t, b, c, f)
}

// Where the position of the last T line begins: its index has one digit, or from eleven zones on two.
fn balance_byte(zones: usize) -> usize
    ensures { result ≡ balance_byte zones }
{
    if zones <= 10 { 5 } else { 6 }
}

// All B lines, which begin at place `at`, and then the C lines.
fn read_borders<'a>(
    text: &'a [u8],
    sheet: &'a [u8],
    h: Header,
    at: usize,
    z: &mut [i64],
    t: &mut [i64],
    b: &mut [BorderRecord],
    c: &mut [RowRecord],
    f: &mut [i64],
) -> Result<Header, Refusal>
    requires allocated { Allocated text.now h z.old t.old at }
    requires roomy { Roomy z.old t.old b.old c.old f.old }
    ensures { read_into result z.new t.new b.new c.new f.new ≡ read_short text.now sheet.now }
{
    let first = table::ZONE_LINE_NO + h.zones + h.allocated_items();
    let end = sections::borders::borders_read(text, at, h.zones, first, &mut b[..h.borders])?;
    read_rows(text, sheet, h, end, z, t, b, c, f)
}

// All C lines, which begin at place `at`, or the sheet's lines for them; nothing follows. What the sheet is refused for is held back until the day's text is judged.
fn read_rows<'a>(
    text: &'a [u8],
    sheet: &'a [u8],
    h: Header,
    at: usize,
    z: &mut [i64],
    t: &mut [i64],
    b: &mut [BorderRecord],
    c: &mut [RowRecord],
    f: &mut [i64],
) -> Result<Header, Refusal>
    requires bordered { Bordered text.now h z.old t.old b.old at }
    requires roomy { Roomy z.old t.old b.old c.old f.old }
    ensures { read_into result z.new t.new b.new c.new f.new ≡ read_short text.now sheet.now }
{
    let first = table::ZONE_LINE_NO + h.zones + h.allocated_items() + h.borders;
    let held = corrections::judged::sheet_judged(sheet, h.zones, h.rows);
    let used = used_of(sheet, held);
    let end = rowlines::rows_read(
        RowKind::Table,
        text,
        used,
        at,
        h.zones,
        first,
        &mut c[..h.rows],
        &mut f[..h.rows * h.zones],
    )?;
    if end < text.len() {
        return Err(Refusal::WrongForm(first + h.rows, 0));
    }
    judged_last(h, held, b)
}

// The sheet whose lines are handed on: none of its lines, where it is refused.
fn used_of<'a>(sheet: &'a [u8], held: Result<(), Refusal>) -> &'a [u8]
    ensures { result.now ≡ used_of held sheet.now }
{
    match held {
        Ok(()) => sheet,
        Err(_) => &sheet[..0],
    }
}

// After the last line: borders given twice, each of which is compared with those before it, and then what was held back.
fn judged_last(h: Header, held: Result<(), Refusal>, b: &[BorderRecord]) -> Result<Header, Refusal>
    requires { (header_fits h ≡ true) × (borders_most ≤ length b.now) }
    ensures { result ≡ judged_last h held (take h.borders b.now) }
{
    if let Some(i) = table::first_twice(&b[..h.borders]) {
        return Err(Refusal::GivenTwice(i));
    }
    held?;
    Ok(h)
}
