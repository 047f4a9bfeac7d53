// The figures of an hour for a day's sheet, from the text of the hour's own table.
#![tactic(auto)]

ghost use Rattle.std.specs.Prelude.{◌≡◌, ◌*◌, ◌<◌, ◌≤◌, length};
ghost use Rattle.limits.specs.Limits.{zones_most, borders_most, rows_most};
ghost use Rattle.marks.specs.Marks.{every, listed};
ghost use Rattle.tablerules.specs.Table.{front, lent_view};
ghost use Rattle.tablerules.specs.Good.{Good};
ghost use Rattle.daysheet.specs.Sheet.{hours_most};
ghost use Rattle.hourfigures.specs.Figures.{found_in, figures, kept_of};
ghost use Rattle.hourtables.specs.Hour.{found_for, hour_of};

use daysheet::Hour;
use outcome::{AtcRecord, BorderResult, LeftRecord, RowResult};
use refusals::Refusal;
use tablerules::TableView;
use types::{Border, BorderRecord, Row, RowRecord};

// Keeps the figures of a table's text as those of hour k. A text that is refused has no items.
pub fn keep(
    marks: Option<&[u64]>,
    text: &[u8],
    k: usize,
    ways: &mut [u64],
    atcs: &mut [u64],
) -> Hour
    requires { (k < hours_most) × (length ways.old ≡ hours_most * borders_most) × (length atcs.old ≡ hours_most * borders_most) }
    ensures { figures result ways.new atcs.new ≡ kept_of (hour_of (every marks.entry) (listed marks.entry) text.now) k ways.old atcs.old }
{
    let mut z: [i64; limits::ZONES_MOST] = [0; limits::ZONES_MOST];
    let mut t: [i64; limits::ZONES_MOST] = [0; limits::ZONES_MOST];
    let mut b: [BorderRecord; limits::BORDERS_MOST] = [[0; Border::ITEMS]; limits::BORDERS_MOST];
    let mut c: [RowRecord; limits::ROWS_MOST] = [[0; Row::ITEMS]; limits::ROWS_MOST];
    let mut f: [i64; limits::ROWS_MOST * limits::ZONES_MOST] = [0; limits::ROWS_MOST
        * limits::ZONES_MOST];
    let mut atc: [AtcRecord; limits::BORDERS_MOST] =
        [[0; BorderResult::ITEMS]; limits::BORDERS_MOST];
    keep_in(
        marks, text, k, &mut z, &mut t, &mut b, &mut c, &mut f, &mut atc, ways, atcs,
    )
}

// Apart from `keep`, so that proof goals do not contain its arrays.
fn keep_in(
    marks: Option<&[u64]>,
    text: &[u8],
    k: usize,
    z: &mut [i64],
    t: &mut [i64],
    b: &mut [BorderRecord],
    c: &mut [RowRecord],
    f: &mut [i64],
    atc: &mut [AtcRecord],
    ways: &mut [u64],
    atcs: &mut [u64],
) -> Hour
    requires zones_most_in_bounds { (zones_most ≤ length z.old) × (zones_most ≤ length t.old) × (borders_most ≤ length b.old) × (rows_most ≤ length c.old) × (rows_most * zones_most ≤ length f.old) }
    requires borders_most_in_bounds { borders_most ≤ length atc.old }
    requires k_lt_hours_most { (k < hours_most) × (length ways.old ≡ hours_most * borders_most) × (length atcs.old ≡ hours_most * borders_most) }
    ensures { figures result ways.new atcs.new ≡ kept_of (hour_of (every marks.entry) (listed marks.entry) text.now) k ways.old atcs.old }
{
    match reading::read_into(text, b"", z, t, b, c, f) {
        Ok(h) => {
            let extracted = extract(
                &TableView {
                    header: h,
                    nets: z,
                    allocated: t,
                    borders: b,
                    rows: c,
                    factors: f,
                },
                marks,
                atc,
            );
            hourfigures::store(h, b, extracted, atc, k, ways, atcs)
        }
        Err(w) => Hour::Refused {
            number: w.number() as u64,
            place: w.place() as u64,
            byte: w.byte() as u64,
        },
    }
}

// The extraction of a good table, of which the records of its borders are wanted.
fn extract(view: &TableView, marks: Option<&[u64]>, atc: &mut [AtcRecord]) -> Result<u64, Refusal>
    requires good { Good (front (lent_view view.now)) }
    requires borders_most_in_bounds { borders_most ≤ length atc.old }
    ensures { found_in view.now.header.borders result atc.new ≡ found_for (every marks.entry) (listed marks.entry) (front (lent_view view.now)) }
{
    let mut p: [u64; limits::ROWS_MOST * limits::BORDERS_MOST] = [0; limits::ROWS_MOST
        * limits::BORDERS_MOST];
    let mut left: [LeftRecord; limits::ROWS_MOST] = [[0; RowResult::ITEMS]; limits::ROWS_MOST];
    extraction::extract_good(view, marks, &mut p, atc, &mut left)
}
