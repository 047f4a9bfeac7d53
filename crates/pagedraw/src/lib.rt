// Draws the records of an hour: the sums of the rows' bars, how many rows there are of each kind, both scales, and where everything stands on them.
#![tactic(auto)]

use pagebars::{BORDER_UNITS, place, scale};
use pagefacts::row::Kind;
use pagefacts::{RECORDS, ROWS, border, count, hour, row};
use pageform::Figures;

// Grains in one MW.
const MW: u64 = 100000000;

pub fn draw(mut r: Figures, records: &mut [Figures]) -> Figures {
    let (borders, rows) = records.split_at_mut(ROWS.min(records.len()));
    let answered = r[hour::ANSWERED] != 0;
    for row in rows.iter_mut() {
        *row = row::summed(*row, answered);
    }
    let stop = number(Kind::Stops, rows);
    let kept = number(Kind::Kept, rows);
    let small = number(Kind::Small, rows);
    let same = number(Kind::SaysTheSame, rows);
    r = hour::sorted(r, stop, kept, small, same);
    r = scaled(r, borders, rows);
    r[hour::CABLES] = count(border::HUBS, borders);
    r[hour::MARKED] = count(border::MARKED, borders);
    r[hour::SOONER] = count(border::SOONER, borders);
    r[hour::SEVERAL] = count(border::OTHERS, borders);
    r[hour::OVER] = count(row::OVER, rows);
    for border in borders.iter_mut() {
        *border = place_border(*border, &r);
    }
    for row in rows.iter_mut() {
        *row = place_row(*row, &r);
    }
    r[hour::LONGER] = count(border::LONGER, borders);
    r
}

// Numbers the rows of a kind, from 1 on: how many there are.
fn number(kind: Kind, rows: &mut [Figures]) -> u64 {
    let mut count: u64 = 0;
    for r in rows {
        if row::is(r, kind) {
            count = count.saturating_add(1);
            r[row::ORDINAL] = count;
        }
    }
    count
}

// The scales: of the ATCs, and of how far the bars of kept rows go.
fn scaled(r: Figures, borders: &[Figures], rows: &[Figures]) -> Figures {
    let mut atcs = [0; ROWS];
    for (atc, r) in atcs.iter_mut().zip(borders) {
        *atc = r[border::ATC];
    }
    let mut reaches = [0; RECORDS - ROWS];
    for (reach, r) in reaches.iter_mut().zip(rows) {
        if row::is_kept(r) {
            // MW, rounded up
            *reach = r[row::REACH].wrapping_add(MW - 1) / MW;
        }
    }
    hour::scaled(
        r,
        scale::end_of(&atcs, r[hour::BORDERS]),
        scale::end_of(&reaches, r[hour::KEPT]),
    )
}

fn place_border(mut r: Figures, hour: &Figures) -> Figures {
    let end = hour[hour::STEPS + 2];
    let atc = r[border::ATC];
    r[border::START_AT] = place(r[border::START], end, BORDER_UNITS);
    r[border::ATC_AT] = place(atc, end, BORDER_UNITS).max(u64::from(0 < atc));
    r[border::END] = end;
    r[border::LONGER] = u64::from(end < atc);
    r[border::CABLES] = hour[hour::CABLES];
    r
}

fn place_row(mut r: Figures, hour: &Figures) -> Figures {
    let end = pagebars::grains(hour[hour::ROW_STEPS + 2]);
    r = pagebars::places(r, end);
    r[row::END] = end;
    r[row::ANSWERED] = hour[hour::ANSWERED];
    r[row::INTRADAY] = hour[hour::INTRADAY];
    r
}
