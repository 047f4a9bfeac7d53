// Claims as text, and the published list as text (02, E10). The text's length is counted before the first byte is stored.
#![tactic(auto)]

mod judge;
mod published;

ghost use Rattle.std.specs.Prelude.{◌≡◌, length};
ghost use Rattle.text.specs.Left.{text_left, text_said};
ghost use Rattle.tablerules.specs.Table.{front, lent_view};
ghost use Rattle.tablerules.specs.Good.{Good};
ghost use Rattle.claims.specs.Named.{none_named};
ghost use Rattle.claimline.specs.ClaimText.{claims_in};
ghost use Rattle.claimtext.specs.Published.{published_of, published_left};

use refusals::Refusal;
use tablerules::TableView;

// No published list has more bytes: so many suffice a caller that lends room for any.
pub const PUBLISHED_MOST: usize = limits::ROWS_MOST * published::LINE_MOST;

// The published list of a lent table, by the text of a list of claims. Any input has an answer: there is no `requires`.
pub fn published_text(view: &TableView, list: &[u8], out: &mut [u8]) -> Result<usize, Refusal>
    ensures { text_said result out.new ≡ published_left (lent_view view.now) list.now out.old }
{
    if text::BYTES_MOST < list.len() {
        return Err(Refusal::TooLong);
    }
    table::judge(view, None)?;
    published_text_good(view, list, out)
}

// The published list of a good table. Allocates the arrays here so that the proof goals of `publish_in` do not contain them.
pub fn published_text_good(view: &TableView, list: &[u8], out: &mut [u8]) -> Result<usize, Refusal>
    requires { Good (front (lent_view view.now)) }
    ensures { text_said result out.new ≡ text_left (published_of (front (lent_view view.now)) (claims_in list.now)) out.old }
{
    let rows = view.header.rows;
    let mut rams: [i64; limits::ROWS_MOST] = [0; limits::ROWS_MOST];
    let mut starts: [i64; limits::ROWS_MOST] = [0; limits::ROWS_MOST];
    let mut states: [u64; limits::ROWS_MOST] = [0; limits::ROWS_MOST];
    let mut named: [bool; limits::ROWS_MOST] = [false; limits::ROWS_MOST];
    let mut earlier: [bool; limits::ROWS_MOST] = [false; limits::ROWS_MOST];
    publish_in(
        view,
        list,
        &mut rams[..rows],
        &mut starts[..rows],
        &mut states[..rows],
        &mut named,
        &mut earlier,
        out,
    )
}

// The RAM and the state of each row, the rows that claims name, what the claims come to, and then the list.
fn publish_in(
    view: &TableView,
    list: &[u8],
    rams: &mut [i64],
    starts: &mut [i64],
    states: &mut [u64],
    named: &mut [bool],
    earlier: &mut [bool],
    out: &mut [u8],
) -> Result<usize, Refusal>
    requires good { Good (front (lent_view view.now)) }
    requires rams_len { (length rams.old ≡ view.now.header.rows) × (length starts.old ≡ view.now.header.rows) }
    requires states_len { length states.old ≡ view.now.header.rows }
    requires named_value { (named.old ≡ none_named) × (earlier.old ≡ none_named) }
    ensures { text_said result out.new ≡ text_left (published_of (front (lent_view view.now)) (claims_in list.now)) out.old }
{
    states::fill_rows(view, rams, starts, states);
    judge::name_lines(list, named);
    let h = view.header;
    let factors = &view.factors[..h.rows * h.zones];
    judge::judge_lines(h, factors, rams, states, list, named, earlier)?;
    published::write_rows(rams, states, named, out)
}
