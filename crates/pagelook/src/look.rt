// One border: its reasons, in its record and in those of the rows, and in words.
ghost use Rattle.std.specs.Prelude.{◌≡◌, ◌*◌, ◌≤◌, length};
ghost use Rattle.tablerules.specs.Table.{front, lent_view};
ghost use Rattle.tablerules.specs.Good.{Good};

use crate::Seen;
use holding::{EndRecord, HoldRecord, Reasons};
use pagefacts::{ROWS, border, row};
use pageform::Figures;
use partrules::PartsRecord;
use tablerules::TableView;
use types::{BorderRecord, Header};
use whywords::rows::Held;

// The records of the rows, before any border is looked at.
pub fn fill_rows(margins: &[PartsRecord], starts: &[i64], records: &mut [Figures]) {
    if let Some(rows) = records.get_mut(ROWS..) {
        for (i, (r, (margin, start))) in rows
            .iter_mut()
            .zip(margins.iter().zip(starts))
            .enumerate()
        {
            *r = row::made(*r, i, *margin, *start);
        }
    }
}

// What is seen of a border, none where the hour is refused.
pub fn look(
    border: usize,
    marks: Option<&[u64]>,
    view: &TableView,
    margins: &[PartsRecord],
    starts: &[i64],
    records: &mut [Figures],
    whys: &mut [u8],
    at: usize,
) -> Option<Seen>
    requires { Good (front (lent_view view.now)) }
{
    let count = view.header.rows;
    let mut p: [u64; limits::ROWS_MOST * limits::BORDERS_MOST] = [0; limits::ROWS_MOST
        * limits::BORDERS_MOST];
    let mut ends: [EndRecord; limits::BORDERS_MOST] =
        [[0; holding::END_ITEMS]; limits::BORDERS_MOST];
    let mut rows: [HoldRecord; limits::ROWS_MOST] = [[0; holding::HOLD_ITEMS]; limits::ROWS_MOST];
    match why::why_good(view, marks, border as u64, &mut p, &mut ends, &mut rows) {
        Ok(reasons) => Some(note(
            border,
            reasons,
            view.header,
            view.borders,
            margins,
            starts,
            &p,
            &ends,
            &rows[..count],
            records,
            whys,
            at,
        )),
        Err(_) => None,
    }
}

fn note(
    border: usize,
    reasons: Reasons,
    h: Header,
    b: &[BorderRecord],
    margins: &[PartsRecord],
    starts: &[i64],
    p: &[u64],
    ends: &[EndRecord],
    rows: &[HoldRecord],
    records: &mut [Figures],
    whys: &mut [u8],
    at: usize,
) -> Seen
    requires { h.rows * h.borders ≤ length p.now }
{
    let mut text = io::buffer();
    let margin = whywords::margin_of(reasons.ended, margins, starts);
    let n = whywords::put(border, reasons, margin, h, b, p, ends, rows, &mut text);
    let held = whywords::rows::holders(rows, Some(reasons.named.unsigned_abs() as usize));
    let r = border_record(border, reasons, held, b, ends, records);
    note_rows(rows, held.count == 0, records);
    Seen {
        at: put_why(&r, &text[..n], whys, at),
        rounds: reasons.rounds,
    }
}

// The border's record, which is stored too.
fn border_record(
    border: usize,
    reasons: Reasons,
    held: Held,
    b: &[BorderRecord],
    ends: &[EndRecord],
    records: &mut [Figures],
) -> Figures {
    let (Some(raw), Some(end), Some(r)) = (b.get(border), ends.get(border), records.get_mut(border))
    else {
        return pagefacts::blank();
    };
    let placed = border::placed(*r, border, *raw);
    *r = border::risen(placed, *end, reasons, held.count, held.first[0]);
    *r
}

// Each row learns whether it stops the border.
fn note_rows(rows: &[HoldRecord], alone: bool, records: &mut [Figures]) {
    if let Some(records) = records.get_mut(ROWS..) {
        for (r, hold) in records.iter_mut().zip(rows) {
            *r = row::counted(*r, *hold, alone);
        }
    }
}

// A paragraph: the words are lines, the first of them the border and its ATC.
fn put_why(figures: &Figures, text: &[u8], whys: &mut [u8], at: usize) -> usize {
    let list = b"<p id=\"{Hh$H}w$a\"><b>\n</b>\n</p>`\n";
    let (title, words) = text.split_at(arguments::lists::find(text, 0, b'\n'));
    let next = pageform::put(list, 0, figures, whys, at);
    let next = pageform::put_safe(title, whys, next);
    let next = pageform::put(list, 1, figures, whys, next);
    let next = pageform::put_safe(words, whys, next);
    pageform::put(list, 2, figures, whys, next)
}
