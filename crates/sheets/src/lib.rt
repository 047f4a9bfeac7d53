// Corner sheets (02, E1), row by row, so that no buffer holds more than one row's sheet.
// Here it is promised what each row's bytes are; that together they are the sheet of the text is proved in proofs/SheetLaws.
#![tactic(auto)]

ghost use Rattle.std.specs.Prelude.{◌≡◌, ◌*◌, ◌≤◌, length};
ghost use Rattle.limits.specs.Limits.{zones_most, borders_most, rows_most};
ghost use Rattle.tablerules.specs.Table.{front, lent_view};
ghost use Rattle.tablerules.specs.Good.{Good};
ghost use Rattle.output.specs.Buffer.{Printed};
ghost use Rattle.sheets.specs.Sheets.{sheet_at, sheet_rows};
ghost use Rattle.sheets.specs.Room.{sheet_room};

use output::Ended;
use system::System;
use tablerules::TableView;
use types::{Border, BorderRecord, Header, Row, RowRecord};

// The letter, the three tabs and the LF of a sheet's line.
const MARKS: usize = 5;

// The most digits that a row's index has.
const ROW_DIGITS: usize = 3;

// The most digits that a corner's number has.
const CORNER_DIGITS: usize = 4;

// The most bytes that a flow has, its minus among them.
const FLOW_BYTES: usize = 15;

const LINE_MOST: usize = MARKS + ROW_DIGITS + CORNER_DIGITS + FLOW_BYTES;

// No row's sheet is longer, nor any other text that is printed at once.
const ROOM: usize = cornertext::SHEET_MOST * LINE_MOST;

// Room for what is printed at once. It is written out here alone: where it is, a check takes a second.
pub fn room() -> [u8; ROOM]
    ensures { sheet_room ≡ length result }
{
    [0; ROOM]
}

// For how many rows to call `sheet_row`, from row 0 on: the E line of a table that has no sheet stands for all.
pub fn sheet_rows(h: Header) -> usize
    ensures { result ≡ sheet_rows h }
{
    if h.borders <= cornerrules::BORDERS_MOST {
        return h.rows;
    }
    1
}

// One row's corner sheet, or the E line.
pub fn sheet_row(view: &TableView, row: usize, out: &mut [u8]) -> usize
    requires { Good (front (lent_view view.now)) × (sheet_room ≤ length out.old) }
    ensures { Printed result (sheet_at (front (lent_view view.now)) row) out.new }
{
    output::told(cornertext::corner_text_good(view, row, out), out)
}

// The sheets of the table that the text holds, as the correction sheet corrects it, or the E line.
pub fn print<'a>(
    sys: &System,
    text: &'a [u8],
    sheet: &'a [u8],
    row: Option<usize>,
    out: &mut [u8],
) -> Ended
    requires { sheet_room ≤ length out.old }
{
    let mut z: [i64; limits::ZONES_MOST] = [0; limits::ZONES_MOST];
    let mut t: [i64; limits::ZONES_MOST] = [0; limits::ZONES_MOST];
    let mut b: [BorderRecord; limits::BORDERS_MOST] = [[0; Border::ITEMS]; limits::BORDERS_MOST];
    let mut c: [RowRecord; limits::ROWS_MOST] = [[0; Row::ITEMS]; limits::ROWS_MOST];
    let mut f: [i64; limits::ROWS_MOST * limits::ZONES_MOST] = [0; limits::ROWS_MOST
        * limits::ZONES_MOST];
    print_in(
        sys, text, sheet, row, &mut z, &mut t, &mut b, &mut c, &mut f, out,
    )
}

// Reads into tables that were made in `print`, and not here, where goals would spell them out.
fn print_in<'a>(
    sys: &System,
    text: &'a [u8],
    sheet: &'a [u8],
    row: Option<usize>,
    z: &mut [i64],
    t: &mut [i64],
    b: &mut [BorderRecord],
    c: &mut [RowRecord],
    f: &mut [i64],
    out: &mut [u8],
) -> Ended
    requires { (zones_most ≤ length z.old) × (zones_most ≤ length t.old) × (borders_most ≤ length b.old) × (rows_most ≤ length c.old) × (rows_most * zones_most ≤ length f.old) × (sheet_room ≤ length out.old) }
{
    match reading::read_into(text, sheet, z, t, b, c, f) {
        Ok(h) => print_rows(
            sys,
            &TableView {
                header: h,
                nets: z,
                allocated: t,
                borders: b,
                rows: c,
                factors: f,
            },
            row,
            out,
        ),
        Err(w) => {
            let n = output::refusal_line(w, out);
            output::put(sys, &out[..n])
        }
    }
}

// From row 0 on, or the row that is asked for.
fn print_rows(sys: &System, view: &TableView, row: Option<usize>, out: &mut [u8]) -> Ended
    requires { Good (front (lent_view view.now)) × (sheet_room ≤ length out.old) }
{
    let count = if row.is_some() {
        1
    } else {
        sheet_rows(view.header)
    };
    for k in 0..count {
        let n = sheet_row(view, row.unwrap_or(k), out);
        let ended = output::put(sys, &out[..n]);
        let Ended::Answered = ended else {
            return ended;
        };
    }
    Ended::Answered
}
