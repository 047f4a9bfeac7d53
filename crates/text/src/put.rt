// Writes text into lent bytes at a place (01, "The table as text", "Result text"), and says how long a number's text is.
// A writer answers the place after what it wrote, and leaves all other bytes as they were.
ghost use Rattle.std.specs.Prelude.{◌≡◌, [], ◌∷◌, ◌+◌, ◌<◌, ◌≤◌, nat_abs, length};
ghost use Rattle.text.specs.Fields.{tab};
ghost use Rattle.text.specs.Written.{decimal, decimal_ℤ};
ghost use Rattle.text.specs.Put.{Put};

// How many digits n has.
pub fn digit_count(n: u64) -> usize
    ensures { result ≡ length (decimal n) }
{
    n.max(1).ilog10() as usize + 1
}

// How many bytes z has, its minus among them.
pub fn signed_length(z: i64) -> usize
    ensures { result ≡ length (decimal_ℤ z) }
{
    let count = digit_count(magnitude(z));
    if z < 0 { count + 1 } else { count }
}

// z without its sign.
pub fn magnitude(z: i64) -> u64
    ensures { result ≡ nat_abs z }
{
    z.unsigned_abs()
}

pub fn put_byte(b: u8, out: &mut [u8], at: usize) -> usize
    requires { at < length out.old }
    ensures { Put (b ∷ []) at out.old result out.new }
{
    out[at] = b;
    at + 1
}

// The last digit first: its place is known from the count.
pub fn put_number(n: u64, out: &mut [u8], at: usize) -> usize
    requires { at + length (decimal n) ≤ length out.old }
    ensures { Put (decimal n) at out.old result out.new }
{
    let next = at + digit_count(n);
    let mut left = n;
    let mut i = next;
    while 10 <= left {
        i -= 1;
        out[i] = digit(left % 10);
        left /= 10;
    }
    out[at] = digit(left);
    next
}

pub fn digit(d: u64) -> u8
    requires { d < 10 }
    ensures { result ≡ 48 + d }
{
    b'0' + d as u8
}

pub fn put_signed(z: i64, out: &mut [u8], at: usize) -> usize
    requires { at + length (decimal_ℤ z) ≤ length out.old }
    ensures { Put (decimal_ℤ z) at out.old result out.new }
{
    let digits = magnitude(z);
    if z < 0 {
        let first = put_byte(b'-', out, at);
        return put_number(digits, out, first);
    }
    put_number(digits, out, at)
}

// A field of a line: a tab, and the number.
pub fn put_number_field(n: u64, out: &mut [u8], at: usize) -> usize
    requires { at + length (tab ∷ decimal n) ≤ length out.old }
    ensures { Put (tab ∷ decimal n) at out.old result out.new }
{
    let first = put_byte(b'\t', out, at);
    put_number(n, out, first)
}
