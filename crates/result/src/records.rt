// The result text from result records: A lines, M lines, and the R line (01, "Result text").
// A border record is its ATC in MW, last round and stopping row (02, E7); a row record is state, RAM and margin left, the last two in grains.
// A writer answers the place after what it wrote, and leaves all other bytes as they were.
ghost use Rattle.std.specs.Prelude.{◌≡◌, [], ◌∷◌, ℕ, ◌+◌, ◌*◌, ◌≤◌, length, Ok};
ghost use Rattle.numbers.specs.Below.{over};
ghost use Rattle.limits.specs.Limits.{borders_most, rows_most};
ghost use Rattle.types.specs.LineColumns.{columns_of};
ghost use Rattle.text.specs.Fields.{tab};
ghost use Rattle.text.specs.Left.{text_left, text_said};
ghost use Rattle.text.specs.Put.{Put};
ghost use Rattle.columns.specs.declared.Head.TheVariants.{Indexed};
ghost use Rattle.columns.specs.ColumnText.{columns_text};
ghost use Rattle.result.specs.Asked.{bytes_asked};
ghost use Rattle.result.specs.Records.{ResultColumns, record_length, record_lines, rounds_line, records_text, result_line_most, records_most};

use columns::Head;
use outcome::{AtcRecord, BorderResult, LeftRecord, RowResult};
use refusals::Refusal;

// What a border's record and a row's have in common: three numbers.
type ResultRecord = [i64; 3];

// Judges the room for the result text (8), and only then writes it.
pub fn write_records(
    atc: &[AtcRecord],
    left: &[LeftRecord],
    rounds: u64,
    out: &mut [u8],
) -> Result<usize, Refusal>
    requires { (length atc.now ≤ borders_most) × (length left.now ≤ rows_most) }
    ensures { (text_said result out.new ≡ text_left (Ok (records_text atc.now left.now rounds)) out.old) × (bytes_asked result ≤ records_most) }
{
    let needed = records_length(atc, left, rounds);
    if out.len() < needed {
        return Err(Refusal::TooShort(needed));
    }
    Ok(put_records(atc, left, rounds, out))
}

// How many bytes the result text has.
fn records_length(atc: &[AtcRecord], left: &[LeftRecord], rounds: u64) -> usize
    requires { (length atc.now ≤ borders_most) × (length left.now ≤ rows_most) }
    ensures { (result ≡ length (records_text atc.now left.now rounds)) × (result ≤ records_most) }
{
    lines_length(&BorderResult::COLUMNS, atc)
        + lines_length(&RowResult::COLUMNS, left)
        + rounds_length(rounds)
}

// How many bytes the A lines or the M lines have: the letter does not matter.
fn lines_length(columns: &[u8], records: &[ResultRecord]) -> usize
    requires { ResultColumns (columns_of columns.now) × (length records.now ≤ rows_most) }
    ensures { ((letter : ℕ) → result ≡ length (record_lines letter (columns_of columns.now) records.now)) × (result ≤ length records.now * result_line_most) }
{
    let mut sum: usize = 0;
    for i in 0..records.len() {
        sum += line_length(columns, i, records[i][0], records[i][1], records[i][2]);
    }
    sum
}

// The numbers of a record are passed one by one: each is known to fit where it is read, so the line's length is bounded. An M line is as long as an A line of these numbers.
fn line_length(columns: &[u8], i: usize, first: i64, second: i64, third: i64) -> usize
    requires { ResultColumns (columns_of columns.now) }
    ensures { (result ≡ record_length (columns_of columns.now) i (first ∷ second ∷ third ∷ [])) × (result ≤ result_line_most) }
{
    let raw = [first, second, third];
    columns::write::line_length(Head::Indexed(b'A', i), columns, &raw)
}

fn rounds_length(rounds: u64) -> usize
    ensures { result ≡ length (rounds_line rounds) }
{
    3 + text::put::digit_count(rounds)
}

// Writes the result text from the start of `out`.
fn put_records(atc: &[AtcRecord], left: &[LeftRecord], rounds: u64, out: &mut [u8]) -> usize
    requires { length (records_text atc.now left.now rounds) ≤ length out.old }
    ensures { (result ≡ length (records_text atc.now left.now rounds)) × (out.new ≡ over (records_text atc.now left.now rounds) out.old) }
{
    let margins_at = put_lines(b'A', &BorderResult::COLUMNS, atc, out, 0);
    let rounds_at = put_lines(b'M', &RowResult::COLUMNS, left, out, margins_at);
    put_rounds(rounds, out, rounds_at)
}

fn put_lines(
    letter: u8,
    columns: &[u8],
    records: &[ResultRecord],
    out: &mut [u8],
    at: usize,
) -> usize
    requires { (length columns.now ≡ 3) × (at + length (record_lines letter (columns_of columns.now) records.now) ≤ length out.old) }
    ensures { Put (record_lines letter (columns_of columns.now) records.now) at out.old result out.new }
{
    let mut next = at;
    for i in 0..records.len() {
        next = put_line(letter, columns, i, records[i], out, next);
    }
    next
}

fn put_line(
    letter: u8,
    columns: &[u8],
    i: usize,
    raw: ResultRecord,
    out: &mut [u8],
    at: usize,
) -> usize
    requires { (length columns.now ≡ 3) × (at + length (columns_text tab (Indexed letter i) (columns_of columns.now) raw) ≤ length out.old) }
    ensures { Put (columns_text tab (Indexed letter i) (columns_of columns.now) raw) at out.old result out.new }
{
    columns::write::put_line(b'\t', Head::Indexed(letter, i), columns, &raw, out, at)
}

fn put_rounds(rounds: u64, out: &mut [u8], at: usize) -> usize
    requires { at + length (rounds_line rounds) ≤ length out.old }
    ensures { Put (rounds_line rounds) at out.old result out.new }
{
    let rounds_at = text::put::put_byte(b'R', out, at);
    let feed_at = text::put::put_number_field(rounds, out, rounds_at);
    text::put::put_byte(b'\n', out, feed_at)
}
