// For each row that says the same as a kept one: which one that is, and its RAM (01, "Row states": the factors of the two differ by one and the same number).
#![tactic(auto)]

use pagefacts::row::Kind;
use pagefacts::{ROWS, row};
use pageform::Figures;

// `f` has the factors of row i from i x zones on.
pub fn note(zones: usize, f: &[i64], records: &mut [Figures]) {
    let Some(rows) = records.get_mut(ROWS..) else {
        return;
    };
    for i in 0..rows.len() {
        if row::is(&rows[i], Kind::SaysTheSame) {
            let same = like(i, zones, f, rows).unwrap_or(0);
            let ram = rows.get(same).map_or(0, |r| r[row::RAM]);
            rows[i][row::SAME] = same as u64;
            rows[i][row::SAME_RAM] = ram;
        }
    }
}

// The first kept row whose factors differ from those of row i by one number.
fn like(i: usize, zones: usize, f: &[i64], rows: &[Figures]) -> Option<usize> {
    (0..rows.len()).find(|&j| {
        row::is_kept(&rows[j]) && are_alike(factors(i, zones, f), factors(j, zones, f))
    })
}

fn are_alike(a: &[i64], b: &[i64]) -> bool {
    let mut apart = a.iter().zip(b).map(|(x, y)| x.wrapping_sub(*y));
    let first = apart.next();
    apart.all(|difference| Some(difference) == first)
}

fn factors(i: usize, zones: usize, f: &[i64]) -> &[i64] {
    let from = i.saturating_mul(zones);
    f.get(from..from.saturating_add(zones)).unwrap_or(&[])
}
