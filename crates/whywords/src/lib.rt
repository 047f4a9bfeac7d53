// The sentences that say why a border got no more: numbers come in, words go out. What the numbers are is crate why's.
// Every list of forms has a line for what is left out, and each line of a choice takes as many figures as the others (`$-` passes over one).
#![tactic(auto)]

mod border;
pub mod rows;
mod users;

ghost use Rattle.std.specs.Prelude.{◌*◌, ◌≤◌, length};
ghost use Rattle.io.specs.Counts.{IsPrefixLen};

use crate::users::Users;
use holding::{EndRecord, HoldRecord, Reasons};
use partrules::PartsRecord;
use types::{BorderRecord, Header};
use walk::grid::Grid;

// All sentences about a border, one after the other. `margin` is what the margin of the row that ended its rise is made of (`margin_of`).
pub fn put(
    border: usize,
    reasons: Reasons,
    margin: PartsRecord,
    h: Header,
    b: &[BorderRecord],
    p: &[u64],
    ends: &[EndRecord],
    rows: &[HoldRecord],
    out: &mut [u8],
) -> usize
    requires { h.rows * h.borders ≤ length p.now }
    ensures { IsPrefixLen result out.new }
{
    let (Some(raw), Some(end)) = (b.get(border), ends.get(border)) else {
        return 0;
    };
    let next = border::put(border as u64, *raw, *end, reasons, h.is_intraday(), out);
    if reasons.ended < 0 {
        return next;
    }
    let grid = Grid {
        rows: h.rows,
        borders: h.borders,
        p,
    };
    let row = reasons.ended.unsigned_abs() as usize;
    let case = Case {
        border,
        row,
        intraday: h.is_intraday(),
        factor: users::factor_at(&grid, row, border),
        atc: users::atc_at(ends, border),
    };
    let users = users::users_of(&grid, ends, row);
    put_row(case, reasons, margin, users, b, rows, out, next)
}

// What the margin of a row is made of. Where it starts is not taken as 0 where the allocated positions take more than RAM, since the words say how much.
pub fn margin_of(row: i64, margins: &[PartsRecord], starts: &[i64]) -> PartsRecord {
    let i = row.unsigned_abs() as usize;
    let (Some(margin), Some(start)) = (margins.get(i), starts.get(i)) else {
        return [0; partrules::ITEMS];
    };
    let mut margin = *margin;
    margin[partrules::ITEMS - 1] = *start;
    margin
}

// A border, the row that ended its rise, p of it there, and its capacity, MW.
#[derive(Clone, Copy)]
pub struct Case {
    pub border: usize,
    pub row: usize,
    pub intraday: bool,
    pub factor: u64,
    pub atc: u64,
}

fn put_row(
    case: Case,
    reasons: Reasons,
    margin: PartsRecord,
    users: Users,
    b: &[BorderRecord],
    rows: &[HoldRecord],
    out: &mut [u8],
    at: usize,
) -> usize
    ensures { IsPrefixLen result out.new }
{
    let Some(hold) = rows.get(case.row) else {
        return rows::put_next(case.border, rows, out, at);
    };
    let next = rows::put_stop(case, reasons, rows, out, at);
    let next = rows::put_ram(case, margin, out, next);
    let next = rows::put_taken(case, margin, out, next);
    let next = rows::put_left(case, margin[11], *hold, out, next);
    let next = users::put(case, users, b, out, next);
    rows::put_next(case.border, rows, out, next)
}
