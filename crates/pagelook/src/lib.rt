// What the proved calls answer about an hour, gathered in the records of its page: for each border why it got no more (crate why), which also tells every row what it stops,
// and for each row what its margin is made of (crates states and parts).
#![tactic(auto)]

mod look;

ghost use Rattle.std.specs.Prelude.{◌≡◌, ◌≤◌, length};
ghost use Rattle.tablerules.specs.Table.{front, lent_view};
ghost use Rattle.tablerules.specs.Good.{Good};

use pageform::Figures;
use partrules::PartsRecord;
use tablerules::TableView;

// Where the next words go, and how many rounds there were.
#[derive(Clone, Copy)]
pub struct Seen {
    pub at: usize,
    pub rounds: u64,
}

// Fills the records of a good table's borders and rows, and writes the reasons of all borders, one paragraph each, to `whys`. Where the hour is refused, the rows are
// filled all the same. The room to work in is made here, and not in `survey_with`, whose goals would spell it out.
pub fn survey(
    marks: Option<&[u64]>,
    view: &TableView,
    records: &mut [Figures],
    whys: &mut [u8],
) -> Seen
    requires { Good (front (lent_view view.now)) }
{
    let count = view.header.rows;
    let mut rams: [i64; limits::ROWS_MOST] = [0; limits::ROWS_MOST];
    let mut starts: [i64; limits::ROWS_MOST] = [0; limits::ROWS_MOST];
    let mut states: [u64; limits::ROWS_MOST] = [0; limits::ROWS_MOST];
    let mut margins: [PartsRecord; limits::ROWS_MOST] = [[0; partrules::ITEMS]; limits::ROWS_MOST];
    survey_with(
        marks,
        view,
        &mut rams[..count],
        &mut starts[..count],
        &mut states[..count],
        &mut margins,
        records,
        whys,
    )
}

// What the margins are made of, and then border by border.
fn survey_with(
    marks: Option<&[u64]>,
    view: &TableView,
    rams: &mut [i64],
    starts: &mut [i64],
    states: &mut [u64],
    margins: &mut [PartsRecord],
    records: &mut [Figures],
    whys: &mut [u8],
) -> Seen
    requires good { Good (front (lent_view view.now)) }
    requires rams_len { (length rams.old ≡ view.now.header.rows) × (length starts.old ≡ view.now.header.rows) }
    requires states_len { (length states.old ≡ view.now.header.rows) × (view.now.header.rows ≤ length margins.old) }
{
    states::fill_rows(view, rams, starts, states);
    parts::margins_good(view, margins);
    look::fill_rows(margins, starts, records);
    each_border(marks, view, margins, starts, records, whys)
}

// A refusal is the same for every border.
fn each_border(
    marks: Option<&[u64]>,
    view: &TableView,
    margins: &[PartsRecord],
    starts: &[i64],
    records: &mut [Figures],
    whys: &mut [u8],
) -> Seen
    requires { Good (front (lent_view view.now)) }
{
    let mut seen = Seen { at: 0, rounds: 0 };
    for k in 0..view.header.borders {
        let Some(next) = look::look(k, marks, view, margins, starts, records, whys, seen.at) else {
            break;
        };
        seen = next;
    }
    seen
}
