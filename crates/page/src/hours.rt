// An hour's part of a page: its heading, and what is known of it.
ghost use Rattle.std.specs.Prelude.{◌≡◌, ◌*◌, ◌≤◌, length};
ghost use Rattle.limits.specs.Limits.{zones_most, borders_most, rows_most};
ghost use Rattle.tablerules.specs.Table.{front, lent_view};
ghost use Rattle.tablerules.specs.Good.{Good};

use output::Ended;
use pagefacts::{RECORDS, hour};
use pageform::Figures;
use system::System;
use tablerules::TableView;
use types::{Border, BorderRecord, Row, RowRecord};

// Room for the reasons of 64 borders, each of fewer than 4,096 bytes.
const WHYS: usize = 262144;

// Prints hour `number` of a page of several, or the only one, which is 0.
pub fn print(
    sys: &System,
    number: u64,
    label: &[u8],
    marks: Option<&[u64]>,
    text: &[u8],
    sheet: &[u8],
) -> Ended {
    if !print_heading(sys, number, label) {
        return Ended::Failed;
    }
    let mut z: [i64; limits::ZONES_MOST] = [0; limits::ZONES_MOST];
    let mut t: [i64; limits::ZONES_MOST] = [0; limits::ZONES_MOST];
    let mut b: [BorderRecord; limits::BORDERS_MOST] = [[0; Border::ITEMS]; limits::BORDERS_MOST];
    let mut c: [RowRecord; limits::ROWS_MOST] = [[0; Row::ITEMS]; limits::ROWS_MOST];
    let mut f: [i64; limits::ROWS_MOST * limits::ZONES_MOST] = [0; limits::ROWS_MOST
        * limits::ZONES_MOST];
    let blank = hour::numbered(pagefacts::blank(), number);
    let mut records: [Figures; RECORDS] = [blank; RECORDS];
    let mut whys: [u8; WHYS] = [0; WHYS];
    print_in(
        sys,
        marks,
        text,
        sheet,
        &mut z,
        &mut t,
        &mut b,
        &mut c,
        &mut f,
        &mut records,
        &mut whys,
    )
}

pub fn print_heading(sys: &System, number: u64, label: &[u8]) -> bool {
    let r = hour::numbered(pagefacts::blank(), number);
    say(sys, Piece::Heading, &r)
        && pageform::say_safe(sys, label)
        && say(sys, Piece::HeadingEnd, &r)
}

// Apart from `print`, so that proof goals do not contain its arrays.
fn print_in(
    sys: &System,
    marks: Option<&[u64]>,
    text: &[u8],
    sheet: &[u8],
    z: &mut [i64],
    t: &mut [i64],
    b: &mut [BorderRecord],
    c: &mut [RowRecord],
    f: &mut [i64],
    records: &mut [Figures],
    whys: &mut [u8],
) -> Ended
    requires { (zones_most ≤ length z.old) × (zones_most ≤ length t.old) × (borders_most ≤ length b.old) × (rows_most ≤ length c.old) × (rows_most * zones_most ≤ length f.old) }
{
    match reading::read_into(text, sheet, z, t, b, c, f) {
        Ok(h) => {
            let view = TableView {
                header: h,
                nets: z,
                allocated: t,
                borders: b,
                rows: c,
                factors: f,
            };
            print_table(sys, marks, &view, text, sheet, records, whys)
        }
        Err(w) => print_unread(sys, hour::refused(first_of(records), w), text, sheet),
    }
}

fn print_table(
    sys: &System,
    marks: Option<&[u64]>,
    view: &TableView,
    text: &[u8],
    sheet: &[u8],
    records: &mut [Figures],
    whys: &mut [u8],
) -> Ended
    requires { Good (front (lent_view view.now)) }
{
    let measured = measure(marks, view, records, whys);
    pagesame::note(view.header.zones, view.factors, records);
    let r = pagedraw::draw(measured, records);
    print_hour(sys, r, text, sheet, records, whys)
}

// The hour's record, with that of its borders and rows: what was surveyed, and the bound of the rounds.
fn measure(
    marks: Option<&[u64]>,
    view: &TableView,
    records: &mut [Figures],
    whys: &mut [u8],
) -> Figures
    requires { Good (front (lent_view view.now)) }
{
    let r = hour::headed(first_of(records), view.header, marks.is_none());
    let seen = pagelook::survey(marks, view, records, whys);
    match bound::bound_good(view, marks) {
        Ok(most) => hour::bounded(r, seen.rounds, most, seen.at),
        Err(w) => hour::refused(r, w),
    }
}

fn first_of(records: &[Figures]) -> Figures {
    records.first().copied().unwrap_or(pagefacts::blank())
}

// A table that was read: its capacities and reasons, or why it is refused; and its rows.
fn print_hour(
    sys: &System,
    r: Figures,
    text: &[u8],
    sheet: &[u8],
    records: &[Figures],
    whys: &[u8],
) -> Ended {
    if r[hour::ANSWERED] != 0 {
        let n = r[hour::WHYS] as usize;
        return written(
            pagehour::print_head(sys, r)
                && pagehour::print(sys, r, records, whys.get(..n).unwrap_or(whys))
                && print_foot(sys, r, text),
            Ended::Answered,
        );
    }
    let row = row_at(r[hour::PLACE] as usize, records);
    written(
        pagehour::print_head(sys, r)
            && pagerefused::print(sys, r, row, text, sheet)
            && pagehour::print_rows(sys, r, records)
            && print_foot(sys, r, text),
        refusal(r),
    )
}

// A text that is no table.
fn print_unread(sys: &System, r: Figures, text: &[u8], sheet: &[u8]) -> Ended {
    written(
        say(sys, Piece::Unread, &r)
            && pagerefused::print(sys, r, r, text, sheet)
            && print_foot(sys, r, text),
        refusal(r),
    )
}

fn written(all: bool, ended: Ended) -> Ended {
    if all { ended } else { Ended::Failed }
}

fn refusal(r: Figures) -> Ended {
    Ended::Refused(r[hour::NUMBER], r[hour::PLACE], r[hour::BYTE])
}

fn row_at(i: usize, records: &[Figures]) -> Figures {
    let row = records.get(pagefacts::ROWS.saturating_add(i)).copied();
    row.unwrap_or(pagefacts::blank())
}

// A longer text than a table may have is not read to its end, so its length is not known.
fn print_foot(sys: &System, mut r: Figures, text: &[u8]) -> bool {
    if text.len() <= text::BYTES_MOST {
        r[hour::BYTES] = text.len() as u64;
    }
    say(sys, Piece::Foot, &r)
}

// W: the foot is that of a day
const DAY: usize = 48;

// The foot of a day's page, which speaks of what an answered hour shows.
pub fn print_day_foot(sys: &System) -> bool {
    let mut r = pagefacts::blank();
    r[hour::ANSWERED] = 1;
    r[hour::KEPT] = 1;
    r[DAY] = 1;
    say(sys, Piece::Foot, &r)
}

// The pieces, in the order of their lines.
#[derive(Clone, Copy)]
enum Piece {
    Heading,
    HeadingEnd,
    Unread,
    Foot,
}

fn say(sys: &System, piece: Piece, figures: &Figures) -> bool {
    pageform::say(
        sys,
        b"{H<h2 class=\"hr\" id=\"h$H\">|<h1>}\n\
        {H</h2>`<p class=\"screen\"><a href=\"#strip\">All hours</a></p>|</h1>}`\n\
        <p class=\"sub\">Capacities (ATCs) of one hour</p>`\n\
        {H{t<p class=\"foot\">From a table of $t bytes.</p>`}|<p class=\"foot\">{AA row stops a border when its equal share of what is left is under one kW for that border; the result names the first such row. Where the page says that another row was first, that row had nothing for the border in the round after its last. What a border uses of a row is its ATC times its factor on the row. }{kFigures in MW with decimals are cut after the last decimal, not rounded; &lt;0.1 is more than nothing and less than 0.1. }{ALong-term nominations are not taken off. Closed lists are not printed: open them first. }Made by keravnoth {Wday --page; the same tables give|page{t from a table of $t bytes}; the same table gives} the same page.</p>`}\n",
        piece as usize,
        figures,
    )
}
