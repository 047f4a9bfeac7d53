// One row's corner sheet as text (02, E1): a `K` line for each corner.
// The text's length is counted before the first byte is stored. A sheet may pass 65,536 bytes: that limit is for input.
#![tactic(auto)]

ghost use Rattle.std.specs.Prelude.{◌≡◌, ◌+◌, ◌<◌, ◌≤◌, length, Ok};
ghost use Rattle.text.specs.Left.{text_left, text_said};
ghost use Rattle.text.specs.Put.{Put};
ghost use Rattle.tablerules.specs.Table.{front, lent_view};
ghost use Rattle.tablerules.specs.Good.{Good};
ghost use Rattle.cornerrules.specs.Corners.{judge_corner_sheet};
ghost use Rattle.cornertext.specs.CornerText.{sheet_most, line_most, corner_line, corners_text, sheet_text_of, corner_text_left};

use columns::Head;
use refusals::Refusal;
use tablerules::TableView;

// The columns of a K line after its row: the corner's number, and its signed flow.
const COLUMNS: [u8; 2] = *b"ns";

// The corners of twelve borders.
pub const SHEET_MOST: usize = 1 << cornerrules::BORDERS_MOST;

// The corner sheet of a row of a lent table, as text. Any input has an answer: there is no `requires`.
pub fn corner_text(view: &TableView, row: usize, out: &mut [u8]) -> Result<usize, Refusal>
    ensures { text_said result out.new ≡ corner_text_left (lent_view view.now) row out.old }
{
    table::judge(view, None)?;
    corner_text_good(view, row, out)
}

// The corner sheet of a row of a good table, as text. The flows stand in working memory, which has room for every sheet.
pub fn corner_text_good(view: &TableView, row: usize, out: &mut [u8]) -> Result<usize, Refusal>
    requires { Good (front (lent_view view.now)) }
    ensures { text_said result out.new ≡ text_left (sheet_text_of (judge_corner_sheet (front (lent_view view.now)) row) row) out.old }
{
    let mut flows = [0i64; SHEET_MOST];
    let count = corners::corner_flows_good(view, row, &mut flows)?;
    write_corners(row, &flows[..count], out)
}

// The table was judged: only the room for the text is left to judge.
fn write_corners(row: usize, flows: &[i64], out: &mut [u8]) -> Result<usize, Refusal>
    requires { length flows.now ≤ sheet_most }
    ensures { text_said result out.new ≡ text_left (Ok (corners_text row flows.now)) out.old }
{
    let needed = text_length(row, flows);
    if out.len() < needed {
        return Err(Refusal::TooShort(needed));
    }
    Ok(put_corners(row, flows, out))
}

fn text_length(row: usize, flows: &[i64]) -> usize
    requires { length flows.now ≤ sheet_most }
    ensures { result ≡ length (corners_text row flows.now) }
{
    let mut sum: usize = 0;
    for k in 0..flows.len() {
        sum += line_length(row, k, flows[k]);
    }
    sum
}

fn line_length(row: usize, corner: usize, flow: i64) -> usize
    requires { corner < sheet_most }
    ensures { (result ≡ length (corner_line row corner flow)) × (result ≤ line_most) }
{
    let raw = [corner as i64, flow];
    columns::write::line_length(Head::Indexed(b'K', row), &COLUMNS, &raw)
}

fn put_corners(row: usize, flows: &[i64], out: &mut [u8]) -> usize
    requires { (length flows.now ≤ sheet_most) × (length (corners_text row flows.now) ≤ length out.old) }
    ensures { Put (corners_text row flows.now) 0 out.old result out.new }
{
    let mut next: usize = 0;
    for k in 0..flows.len() {
        next = put_corner(row, k, flows[k], out, next);
    }
    next
}

fn put_corner(row: usize, corner: usize, flow: i64, out: &mut [u8], at: usize) -> usize
    requires { (corner < sheet_most) × (at + length (corner_line row corner flow) ≤ length out.old) }
    ensures { Put (corner_line row corner flow) at out.old result out.new }
{
    let raw = [corner as i64, flow];
    columns::write::put_line(b'\t', Head::Indexed(b'K', row), &COLUMNS, &raw, out, at)
}
