// What each row's margin is made of, as text: a `V` line for each row.
// The text's length is counted before the first byte is stored.
#![tactic(auto)]

ghost use Rattle.std.specs.Prelude.{◌≡◌, ℕ, ◌+◌, ◌<◌, ◌≤◌, length, Ok};
ghost use Rattle.limits.specs.Limits.{rows_most};
ghost use Rattle.text.specs.Left.{text_left, text_said};
ghost use Rattle.text.specs.Put.{Put};
ghost use Rattle.tablerules.specs.Table.{front, lent_view};
ghost use Rattle.tablerules.specs.Good.{Good};
ghost use Rattle.partrules.specs.Parts.{records_of};
ghost use Rattle.partstext.specs.PartsText.{parts_line, parts_line_at, parts_line_most, parts_text};

use columns::Head;
use partrules::PartsRecord;
use refusals::Refusal;
use tablerules::TableView;

// The columns of a V line after its index: n a number, s a signed number.
pub const COLUMNS: [u8; partrules::ITEMS] = *b"nnsssnnnnnss";

// No line has more bytes: a letter, an index of up to 3 digits, numbers of up to 15 digits and a minus, and a tab or the LF after each.
const LINE_MOST: usize = 2 + 4 + partrules::ITEMS * 17;

// No text has more bytes: a caller that lends so many has room for any.
pub const TEXT_MOST: usize = limits::ROWS_MOST * LINE_MOST;

// What the margins of a good table's rows are made of, as text. The records stand in working memory, which has room for every table.
pub fn margins_text_good(view: &TableView, out: &mut [u8]) -> Result<usize, Refusal>
    requires { Good (front (lent_view view.now)) }
    ensures { text_said result out.new ≡ text_left (Ok (parts_text (records_of (front (lent_view view.now))))) out.old }
{
    let mut records = [[0i64; partrules::ITEMS]; limits::ROWS_MOST];
    parts::margins_good(view, &mut records);
    write_parts(&records[..view.header.rows], out)
}

// Only the room for the text is left to judge.
fn write_parts(records: &[PartsRecord], out: &mut [u8]) -> Result<usize, Refusal>
    requires records_len_bound { length records.now ≤ rows_most }
    requires by_index { (i : ℕ) → i < length records.now → length (parts_line_at records.now i) ≤ parts_line_most }
    ensures { text_said result out.new ≡ text_left (Ok (parts_text records.now)) out.old }
{
    let needed = text_length(records);
    if out.len() < needed {
        return Err(Refusal::TooShort(needed));
    }
    Ok(put_parts(records, out))
}

fn text_length(records: &[PartsRecord]) -> usize
    requires records_len_bound { length records.now ≤ rows_most }
    requires by_index { (i : ℕ) → i < length records.now → length (parts_line_at records.now i) ≤ parts_line_most }
    ensures { result ≡ length (parts_text records.now) }
{
    let mut sum: usize = 0;
    for i in 0..records.len() {
        sum += line_length(i, records[i]);
    }
    sum
}

fn line_length(i: usize, raw: PartsRecord) -> usize
    requires { length (parts_line i raw) ≤ parts_line_most }
    ensures { result ≡ length (parts_line i raw) }
{
    columns::write::line_length(Head::Indexed(b'V', i), &COLUMNS, &raw)
}

fn put_parts(records: &[PartsRecord], out: &mut [u8]) -> usize
    requires { length (parts_text records.now) ≤ length out.old }
    ensures { Put (parts_text records.now) 0 out.old result out.new }
{
    let mut next: usize = 0;
    for i in 0..records.len() {
        next = put_line(i, records[i], out, next);
    }
    next
}

fn put_line(i: usize, raw: PartsRecord, out: &mut [u8], at: usize) -> usize
    requires { at + length (parts_line i raw) ≤ length out.old }
    ensures { Put (parts_line i raw) at out.old result out.new }
{
    columns::write::put_line(b'\t', Head::Indexed(b'V', i), &COLUMNS, &raw, out, at)
}
