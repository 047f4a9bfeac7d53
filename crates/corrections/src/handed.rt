// Which line gives a row: the correction sheet is walked along with the day's text. Both texts have one lifetime, since the line is a piece of one or the other.
ghost use Rattle.std.specs.Prelude.{◌≡◌, ◌+◌, ◌^◌, ◌<◌, length};
ghost use Rattle.corrections.specs.Corrections.{of_row};
ghost use Rattle.corrections.specs.Alongside.{line_for, sheet_after};

use crate::kind::index_at;
use lines::row::RowKind;

// Row i's line, as the piece of the sheet that holds it, or else the piece of the day's text. `next` is the sheet's next line, `day` the day's; `kind` is the sheet's.
pub fn row_line<'a>(kind: RowKind, next: &'a [u8], day: &'a [u8], i: usize) -> &'a [u8]
    ensures { result.now ≡ line_for kind next.now day.now i }
{
    if of_row(kind, next, i) { next } else { day }
}

// The place of the sheet's next line after row i; before, it is `next`, at place s.
pub fn sheet_after(kind: RowKind, next: &[u8], s: usize, i: usize) -> usize
    requires { s + length next.now < 2 ^ 64 }
    ensures { result ≡ sheet_after kind next.now s i }
{
    if of_row(kind, next, i) {
        s + next.len()
    } else {
        s
    }
}

// Whether a line gives itself the index i.
pub fn of_row(kind: RowKind, line: &[u8], i: usize) -> bool
    ensures { result ≡ of_row kind line.now i }
{
    let Ok((index, _)) = index_at(kind, line, lines::row::sep_of(kind)) else {
        return false;
    };
    index == i as u64
}
