// How many rounds an hour can take at most, by the sharper bound (crate bound).
ghost use Rattle.std.specs.Prelude.{◌≡◌, ◌*◌, ◌≤◌, length};
ghost use Rattle.limits.specs.Limits.{zones_most, borders_most, rows_most};
ghost use Rattle.tablerules.specs.Table.{front, lent_view};
ghost use Rattle.tablerules.specs.Good.{Good};

use tablerules::TableView;
use types::{Border, BorderRecord, Row, RowRecord};

// Of the table that the text holds; 0 where it is refused. The tables are made here, and not where goals would spell them out.
pub fn most(marks: Option<&[u64]>, text: &[u8]) -> u64 {
    let mut z: [i64; limits::ZONES_MOST] = [0; limits::ZONES_MOST];
    let mut t: [i64; limits::ZONES_MOST] = [0; limits::ZONES_MOST];
    let mut b: [BorderRecord; limits::BORDERS_MOST] = [[0; Border::ITEMS]; limits::BORDERS_MOST];
    let mut c: [RowRecord; limits::ROWS_MOST] = [[0; Row::ITEMS]; limits::ROWS_MOST];
    let mut f: [i64; limits::ROWS_MOST * limits::ZONES_MOST] = [0; limits::ROWS_MOST
        * limits::ZONES_MOST];
    most_in(marks, text, &mut z, &mut t, &mut b, &mut c, &mut f)
}

fn most_in(
    marks: Option<&[u64]>,
    text: &[u8],
    z: &mut [i64],
    t: &mut [i64],
    b: &mut [BorderRecord],
    c: &mut [RowRecord],
    f: &mut [i64],
) -> u64
    requires { (zones_most ≤ length z.old) × (zones_most ≤ length t.old) × (borders_most ≤ length b.old) × (rows_most ≤ length c.old) × (rows_most * zones_most ≤ length f.old) }
{
    match reading::read_into(text, b"", z, t, b, c, f) {
        Ok(h) => sharp(
            &TableView {
                header: h,
                nets: z,
                allocated: t,
                borders: b,
                rows: c,
                factors: f,
            },
            marks,
        ),
        Err(_) => 0,
    }
}

fn sharp(view: &TableView, marks: Option<&[u64]>) -> u64
    requires { Good (front (lent_view view.now)) }
{
    match bound::bound_good(view, marks) {
        Ok(most) => most.sharp,
        Err(_) => 0,
    }
}
