// One field as `tidy` repairs it: where it ends, what is left of it when its ends and its quotes are off, how many decimals it wants, and how many it lacks.
#![tactic(auto)]

ghost use Rattle.std.specs.Prelude.{◌≡◌, false, not, ◌&&◌, eqb, leb, ltb, ◌+◌, length, drop};
ghost use Rattle.std.specs.List.{prefix_len, list_all};
ghost use Rattle.text.specs.Fields.{is_digit};
ghost use Rattle.tidyrules.specs.Fields.{edge, trimmed, quoted, decimals_past, decimals_of, lacking, bared};
ghost use Rattle.tidyrules.specs.Tidied.{wanted};
ghost use Rattle.tidyfields.specs.Pieces.{leading};

// Where the piece ends that begins at place `at`: at the first of two bytes, or at the text's end.
pub fn piece_end(text: &[u8], at: usize, stop: u8, other: u8) -> usize
    ensures { result ≡ at + length (leading stop other (drop at text.now)) }
{
    match text.get(at..) {
        Some(rest) => at + count_before(rest, stop, other),
        None => at,
    }
}

// How many bytes a text has before the first of two.
fn count_before(text: &[u8], stop: u8, other: u8) -> usize
    ensures { result ≡ prefix_len (λ b. not (eqb b stop) && not (eqb b other)) text.now }
{
    text.iter()
        .take_while(|&&b| b != stop && b != other)
        .count()
}

// ---- ends and quotes

// What a field holds: no blanks at its ends, no quotes around it. A CR at its end goes too where it is its line's last field.
pub fn bared(f: &[u8], last: bool) -> &[u8]
    ensures { result.now ≡ bared last f.now }
{
    let t = trimmed(f, last);
    if quoted(t) {
        trimmed(&t[1..t.len() - 1], last)
    } else {
        t
    }
}

pub fn trimmed(f: &[u8], last: bool) -> &[u8]
    ensures { result.now ≡ trimmed last f.now }
{
    let mut rest = f;
    while let [before @ .., end] = rest {
        if !edge(*end, last) {
            break;
        }
        rest = before;
    }
    while let [b' ', after @ ..] = rest {
        rest = after;
    }
    rest
}

fn edge(b: u8, last: bool) -> bool
    ensures { result ≡ edge last b }
{
    b == b' ' || last && b == b'\r'
}

// Whether a field stands between two quotes, with only bytes 32..126 and no quote within.
pub fn quoted(f: &[u8]) -> bool
    ensures { result ≡ quoted f.now }
{
    match f {
        [b'"', within @ .., b'"'] => is_plain(within),
        _ => false,
    }
}

// Whether a text has only bytes 32..126, and no quote.
fn is_plain(text: &[u8]) -> bool
    ensures { result ≡ list_all (λ b. not (eqb b 34) && (leb 32 b && ltb b 127)) text.now }
{
    text.iter().all(|&b| b != b'"' && (32..127).contains(&b))
}

// ---- decimals

// How many zeros a field lacks of which so many decimals are wanted, where it is a number with a point.
pub fn lacking(wanted: usize, f: &[u8]) -> usize
    ensures { result ≡ lacking wanted f.now }
{
    match decimals_of(f) {
        0 => 0,
        has => wanted.saturating_sub(has),
    }
}

fn decimals_of(f: &[u8]) -> usize
    ensures { result ≡ decimals_of f.now }
{
    match f {
        [b'-', number @ ..] => decimals_past(number),
        _ => decimals_past(f),
    }
}

// The digits behind the point, in a text that has digits, a point and digits.
fn decimals_past(f: &[u8]) -> usize
    ensures { result ≡ decimals_past false f.now }
{
    let (whole, rest) = f.split_at(count_digits(f));
    match rest {
        [b'.', decimals @ ..] if !whole.is_empty() && count_digits(decimals) == decimals.len() => {
            decimals.len()
        }
        _ => 0,
    }
}

// How many digits a text begins with.
fn count_digits(text: &[u8]) -> usize
    ensures { result ≡ prefix_len is_digit text.now }
{
    text.iter().take_while(|b| b.is_ascii_digit()).count()
}

// How many decimals field k wants: a power three, a factor five; index and R none.
pub fn wanted(row: bool, k: usize) -> usize
    ensures { result ≡ wanted row k }
{
    match k {
        _ if !row => 0,
        0 | 5 => 0,
        1..=7 => 3,
        _ => 5,
    }
}
