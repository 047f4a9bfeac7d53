// Tells what differs between two tables, or between a table and the same as a correction sheet corrects it. Both are judged first: a table that is refused has its E line.
#![tactic(auto)]

mod fields;

use arguments::Piece;
use command::input;
use command::options::{Command, OptionName};
use messages::{Fault, Misuse};
use output::Ended;
use system::System;

// The tables that two arguments name; where the second is not there, the first as it is corrected.
pub fn obey(
    sys: &System,
    command: &Command,
    old: usize,
    new: Option<usize>,
) -> Result<Ended, Misuse> {
    command.check_names(sys, None, Some(old))?;
    command.check_names(sys, None, new)?;
    let corrections = command.value(OptionName::Corrections);
    let about = command.plain.word;
    match new.map(Piece::whole) {
        None if corrections.is_none() => {
            return Err(Misuse {
                about,
                wrong: None,
                fault: Fault::TableMissing,
            });
        }
        Some(second) if Piece::whole(old).is_standard_input(sys) && second.is_standard_input(sys) =>
            {
                return Err(Misuse {
                    about,
                    wrong: Some(second),
                    fault: Fault::Twice,
                });
            }
        _ => {}
    }
    let mut rows = input::room();
    let mut before = input::room();
    let mut after = input::room();
    Ok(obey_in(
        sys,
        old,
        new,
        corrections,
        &mut rows,
        &mut before,
        &mut after,
    ))
}

fn obey_in(
    sys: &System,
    old: usize,
    new: Option<usize>,
    corrections: Option<Piece>,
    rows: &mut [u8],
    before: &mut [u8],
    after: &mut [u8],
) -> Ended {
    let sheet = input::named(sys, corrections, rows);
    let first = input::table(sys, Some(old), before);
    let (Some(k), Some(n)) = (sheet, first) else {
        return Ended::Failed;
    };
    if new.is_none() {
        return compare_corrected(sys, &before[..n], &rows[..k]);
    }
    let Some(m) = input::table(sys, new, after) else {
        return Ended::Failed;
    };
    compare(
        sys,
        b"the first table",
        b"the second table",
        &before[..n],
        &after[..m],
        &rows[..k],
    )
}

// Apart, since a part of a slice cannot be lent twice in one call.
fn compare_corrected<'a>(sys: &System, table: &'a [u8], sheet: &'a [u8]) -> Ended {
    compare(sys, b"", b"", table, table, sheet)
}

// Room for a table that is written again.
const ROOM: usize = text::BYTES_MOST;

// The first table stands as it would be written, where it is good. Of which table a refusal is said where two are named.
fn compare<'a>(
    sys: &System,
    first: &[u8],
    second: &[u8],
    before: &'a [u8],
    after: &'a [u8],
    sheet: &'a [u8],
) -> Ended {
    let mut out = [0u8; ROOM];
    match rewriting::rewrite_corrected(before, b"", &mut out) {
        Ok(_) => compare_good(sys, second, before, after, sheet),
        Err(w) => telling::refuse(sys, first, w, before, b""),
    }
}

// The second table is written again as it is corrected.
fn compare_good<'a>(
    sys: &System,
    second: &[u8],
    before: &[u8],
    after: &'a [u8],
    sheet: &'a [u8],
) -> Ended {
    let mut out = [0u8; ROOM];
    match rewriting::rewrite_corrected(after, sheet, &mut out) {
        Ok(k) => {
            let m = output::cut(k, &out);
            telling::told(sys, fields::print(sys, before, &out[..m]), Ended::Answered)
        }
        Err(w) => telling::refuse(sys, second, w, after, sheet),
    }
}
