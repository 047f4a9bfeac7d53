// Texts with figures in them. A form is a text in which `$` and the byte behind it stand for a figure, and `|` for a line break:
//   $0 .. $5   a number with so many decimals, counted in units of the last: 1500 kW are 1.500 MW by $3, 150000 grains are 1.50000 kW by $5
//   $-         a figure that is passed over
//   $t, $m     grains as MW with one decimal, with three: cut, never rounded, and "<0.1" or "<0.001" for a power that would be shown as 0
// Forms stand in one long byte string, a form to a line: a function with many literals is slow to check, one with a long literal is not.
#![tactic(auto)]

ghost use Rattle.std.specs.Prelude.{◌<◌, ◌≤◌};
ghost use Rattle.io.specs.Counts.{IsPrefixLen};

// Where the next byte goes, and which figure is next.
#[derive(Clone, Copy)]
struct Spot {
    at: usize,
    figure: usize,
}

// Writes form k of a list with its figures, in their order: one that is missing is 0, and one of 2^63 or more is below 0 (`signed`).
// The answer is the place behind it. What does not fit is cut at its end.
pub fn put(list: &[u8], k: usize, figures: &[u64], out: &mut [u8], at: usize) -> usize
    ensures { IsPrefixLen result out.new }
{
    put_form(arguments::lists::line(list, k), figures, out, at)
}

// A form that stands in no list.
pub fn put_form(form: &[u8], figures: &[u64], out: &mut [u8], at: usize) -> usize
    ensures { IsPrefixLen result out.new }
{
    put_from(form, figures, Spot { at, figure: 0 }, out).at
}

// Writes several forms of a list, one behind the other: each takes the figures behind those of the one before it.
pub fn put_all(list: &[u8], lines: &[usize], figures: &[u64], out: &mut [u8], at: usize) -> usize
    ensures { IsPrefixLen result out.new }
{
    let mut spot = Spot { at, figure: 0 };
    for &k in lines {
        spot = put_from(arguments::lists::line(list, k), figures, spot, out);
    }
    spot.at.min(out.len())
}

fn put_from(form: &[u8], figures: &[u64], from: Spot, out: &mut [u8]) -> Spot
    ensures { IsPrefixLen result.at out.new }
{
    let Spot { at, mut figure } = from;
    let mut at = at.min(out.len());
    let mut before = 0;
    for &byte in form {
        let value = figures.get(figure).copied().unwrap_or(0);
        at = put_part(before, byte, value, out, at);
        if before == b'$' {
            figure = figure.saturating_add(1);
        }
        before = byte;
    }
    Spot { at, figure }
}

// A byte of a form, which the byte before it may make a figure.
fn put_part(before: u8, byte: u8, value: u64, out: &mut [u8], at: usize) -> usize
    requires { IsPrefixLen at out.old }
    ensures { IsPrefixLen result out.new }
{
    match (before, byte) {
        (b'$', b'-') => at,
        (b'$', kind) => put_figure(kind, value, out, at),
        (_, b'$') => at,
        (_, b'|') => put_byte(b'\n', out, at),
        _ => put_byte(byte, out, at),
    }
}

fn put_figure(kind: u8, value: u64, out: &mut [u8], at: usize) -> usize
    requires { IsPrefixLen at out.old }
    ensures { IsPrefixLen result out.new }
{
    let z = value.cast_signed();
    let next = put_if(z < 0, b'-', out, at);
    let size = z.unsigned_abs();
    let steps = size / step(kind);
    let cut = steps == 0 && 0 < size;
    let next = put_if(cut, b'<', out, next);
    put_number(if cut { 1 } else { steps }, scale(kind), out, next)
}

// What the last decimal stands for, in units of the figure: 0.1 or 0.001 MW are so many grains.
fn step(kind: u8) -> u64
    ensures { 0 < result }
{
    match kind {
        b't' => 10000000,
        b'm' => 100000,
        _ => 1,
    }
}

// How many of the last decimal make one.
fn scale(kind: u8) -> u64
    ensures { 0 < result }
{
    match kind {
        b'1' | b't' => 10,
        b'2' => 100,
        b'3' | b'm' => 1000,
        b'4' => 10000,
        b'5' => 100000,
        _ => 1,
    }
}

// A number of steps, of which `scale` make one: the point and decimals where that is more than one.
fn put_number(n: u64, scale: u64, out: &mut [u8], at: usize) -> usize
    requires { (0 < scale) × (IsPrefixLen at out.old) }
    ensures { IsPrefixLen result out.new }
{
    let next = put_digits(n, first_unit(n, scale), scale, out, at);
    let next = put_if(scale != 1, b'.', out, next);
    put_digits(n, scale / 10, 1, out, next)
}

// The worth of the first digit of n that is written, which is that of one or more.
fn first_unit(n: u64, scale: u64) -> u64
    requires { 0 < scale }
{
    let mut unit = scale;
    while unit <= n / 10 {
        unit *= 10;
    }
    unit
}

// The digits of n from the one worth `from` to the one worth `to`.
fn put_digits(n: u64, from: u64, to: u64, out: &mut [u8], at: usize) -> usize
    requires { (0 < to) × (IsPrefixLen at out.old) }
    ensures { IsPrefixLen result out.new }
{
    let mut next = at;
    let mut unit = from;
    while to <= unit {
        next = put_byte(text::put::digit(n / unit % 10), out, next);
        unit /= 10;
    }
    next
}

fn put_if(wanted: bool, byte: u8, out: &mut [u8], at: usize) -> usize
    requires { IsPrefixLen at out.old }
    ensures { IsPrefixLen result out.new }
{
    if wanted { put_byte(byte, out, at) } else { at }
}

// A byte as it is, where there is room.
pub fn put_byte(byte: u8, out: &mut [u8], at: usize) -> usize
    ensures { IsPrefixLen result out.new }
{
    if at < out.len() {
        out[at] = byte;
        at + 1
    } else {
        out.len()
    }
}
