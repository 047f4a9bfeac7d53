// The hour's own bound as text: the `U` line. Its length is counted before the first byte is stored.
#![tactic(auto)]

ghost use Rattle.std.specs.Prelude.{◌≡◌, ◌≤◌, length, Ok};
ghost use Rattle.marks.specs.Marks.{every, listed};
ghost use Rattle.text.specs.Left.{text_left, text_said};
ghost use Rattle.text.specs.Put.{Put};
ghost use Rattle.tablerules.specs.Table.{front, lent_view};
ghost use Rattle.tablerules.specs.Good.{Good};
ghost use Rattle.boundrules.specs.Bound.{bound_asked};
ghost use Rattle.boundtext.specs.BoundText.{bound_line, bound_most, bound_text_of};

use refusals::Refusal;
use tablerules::TableView;

// A line's letter, tabs and LF.
const MARKS: usize = 6;

// No line has more bytes: its marks, and four machine numbers of at most 20 bytes each.
pub const TEXT_MOST: usize = MARKS + 4 * 20;

// The bound of a good table as text, for every border or with marks.
pub fn bound_text_good(
    view: &TableView,
    marks: Option<&[u64]>,
    out: &mut [u8],
) -> Result<usize, Refusal>
    requires { Good (front (lent_view view.now)) }
    ensures { text_said result out.new ≡ text_left (bound_text_of (bound_asked (every marks.entry) (listed marks.entry) (front (lent_view view.now)))) out.old }
{
    let most = bound::bound_good(view, marks)?;
    write_bound(most.sharers, most.bits, most.rounds, most.sharp, out)
}

// Only the room for the text is left to judge.
fn write_bound(n: u64, l: u64, rounds: u64, sharp: u64, out: &mut [u8]) -> Result<usize, Refusal>
    ensures { text_said result out.new ≡ text_left (Ok (bound_line n l rounds sharp)) out.old }
{
    let needed = line_length(n, l, rounds, sharp);
    if out.len() < needed {
        return Err(Refusal::TooShort(needed));
    }
    Ok(put_bound(n, l, rounds, sharp, out))
}

// The letter, a tab before each field, the LF; and the fields.
fn line_length(n: u64, l: u64, rounds: u64, sharp: u64) -> usize
    ensures { (result ≡ length (bound_line n l rounds sharp)) × (result ≤ bound_most) }
{
    let n_digits = text::put::digit_count(n);
    let l_digits = text::put::digit_count(l);
    let rounds_digits = text::put::digit_count(rounds);
    MARKS + n_digits + l_digits + rounds_digits + text::put::digit_count(sharp)
}

fn put_bound(n: u64, l: u64, rounds: u64, sharp: u64, out: &mut [u8]) -> usize
    requires { length (bound_line n l rounds sharp) ≤ length out.old }
    ensures { Put (bound_line n l rounds sharp) 0 out.old result out.new }
{
    let next = text::put::put_byte(b'U', out, 0);
    let next = text::put::put_number_field(n, out, next);
    let next = text::put::put_number_field(l, out, next);
    let next = text::put::put_number_field(rounds, out, next);
    let next = text::put::put_number_field(sharp, out, next);
    text::put::put_byte(b'\n', out, next)
}
