// The published list as text: a D line for each kept row that no claim names. The rows that claims name are flagged.
ghost use Rattle.std.specs.Prelude.{◌≡◌, ◌+◌, ◌<◌, ◌≤◌, length, Ok};
ghost use Rattle.limits.specs.Limits.{rows_most};
ghost use Rattle.text.specs.Left.{text_left, text_said};
ghost use Rattle.text.specs.Put.{Put};
ghost use Rattle.staterules.specs.Standings.{standings_with};
ghost use Rattle.claimtext.specs.Published.{row_line, line_most, published_line, published_text};
ghost use Rattle.claims.specs.Unflagged.{unflagged};

use columns::Head;
use refusals::Refusal;

// The columns of a D line after its row: the RAM.
const COLUMNS: [u8; 1] = *b"s";

// A line's letter, tabs and LF, and two machine numbers of at most 20 bytes each.
pub const LINE_MOST: usize = 4 + 2 * 20;

// Only the room for the text is left to judge.
pub fn write_rows(
    rams: &[i64],
    states: &[u64],
    named: &[bool],
    out: &mut [u8],
) -> Result<usize, Refusal>
    requires { (length rams.now ≡ length states.now) × (length states.now ≤ rows_most) }
    ensures { text_said result out.new ≡ text_left (Ok (published_text (standings_with rams.now states.now) (unflagged states.now named.now))) out.old }
{
    let needed = text_length(rams, states, named);
    if out.len() < needed {
        return Err(Refusal::TooShort(needed));
    }
    Ok(put_rows(rams, states, named, out))
}

fn text_length(rams: &[i64], states: &[u64], named: &[bool]) -> usize
    requires { (length rams.now ≡ length states.now) × (length states.now ≤ rows_most) }
    ensures { result ≡ length (published_text (standings_with rams.now states.now) (unflagged states.now named.now)) }
{
    let mut sum: usize = 0;
    for i in 0..states.len() {
        sum += line_length(rams, states, named, i);
    }
    sum
}

fn line_length(rams: &[i64], states: &[u64], named: &[bool], row: usize) -> usize
    requires { (length rams.now ≡ length states.now) × (length states.now ≤ rows_most) × (row < length states.now) }
    ensures { (result ≡ length (published_line (standings_with rams.now states.now) (unflagged states.now named.now) row)) × (result ≤ line_most) }
{
    if claims::is_published(states, named, row) {
        return row_length(row, rams[row]);
    }
    0
}

fn row_length(row: usize, ram: i64) -> usize
    ensures { (result ≡ length (row_line row ram)) × (result ≤ line_most) }
{
    let raw = [ram];
    columns::write::line_length(Head::Indexed(b'D', row), &COLUMNS, &raw)
}

fn put_rows(rams: &[i64], states: &[u64], named: &[bool], out: &mut [u8]) -> usize
    requires rams_len { (length rams.now ≡ length states.now) × (length states.now ≤ rows_most) }
    requires named_in_bounds { length (published_text (standings_with rams.now states.now) (unflagged states.now named.now)) ≤ length out.old }
    ensures { Put (published_text (standings_with rams.now states.now) (unflagged states.now named.now)) 0 out.old result out.new }
{
    let mut next: usize = 0;
    for i in 0..states.len() {
        next = put_line(rams, states, named, i, out, next);
    }
    next
}

fn put_line(
    rams: &[i64],
    states: &[u64],
    named: &[bool],
    row: usize,
    out: &mut [u8],
    at: usize,
) -> usize
    requires rams_len { (length rams.now ≡ length states.now) × (length states.now ≤ rows_most) × (row < length states.now) }
    requires row_in_bounds { at + length (published_line (standings_with rams.now states.now) (unflagged states.now named.now) row) ≤ length out.old }
    ensures { Put (published_line (standings_with rams.now states.now) (unflagged states.now named.now) row) at out.old result out.new }
{
    if claims::is_published(states, named, row) {
        return put_row(row, rams[row], out, at);
    }
    at
}

fn put_row(row: usize, ram: i64, out: &mut [u8], at: usize) -> usize
    requires { at + length (row_line row ram) ≤ length out.old }
    ensures { Put (row_line row ram) at out.old result out.new }
{
    let raw = [ram];
    columns::write::put_line(b'\t', Head::Indexed(b'D', row), &COLUMNS, &raw, out, at)
}
