// Judging a correction sheet: its lines one by one, against the table that the day's text has.
ghost use Rattle.std.specs.Prelude.{◌≡◌, ◌≤◌, ◌<◌};
ghost use Rattle.limits.specs.Limits.{zones_most};
ghost use Rattle.refusals.specs.Answers.{said_judgement};
ghost use Rattle.corrections.specs.Corrections.{ended_index, given_index, due_index, judge_corrections};

use crate::kind::index_at;
use lines::row::RowKind;
use refusals::Refusal;

// The first faulty line decides (10), with its byte. All lines are of the kind that the first byte tells.
pub fn sheet_judged(sheet: &[u8], zones: usize, rows: usize) -> Result<(), Refusal>
    requires { (0 < zones) × (zones ≤ zones_most) }
    ensures { said_judgement result tt ≡ judge_corrections zones rows sheet.now }
{
    let kind = crate::kind::sheet_kind(sheet);
    let mut s = 0;
    let mut least = 0;
    let mut number = 1;
    while s < sheet.len() {
        let line = text::line::line_at(sheet, s);
        let i = due_index(kind, line, rows, least);
        if let Err(fault) = lines::row::row_judged(kind, zones, line, i) {
            return Err(Refusal::WrongCorrection(number, fault.byte()));
        }
        least = i + 1;
        number += 1;
        s += line.len();
    }
    Ok(())
}

// The index due in a line: its own, if that is in least..rows; else another, so that the line fails by its index.
fn due_index(kind: RowKind, line: &[u8], rows: usize, least: usize) -> usize
    ensures { result ≡ due_index kind rows least line.now }
{
    let given = given_index(kind, line);
    if least <= given && given < rows {
        given
    } else {
        given + 1
    }
}

// The index that a line gives itself, before the byte between fields or else before an LF; 0 where it gives none.
fn given_index(kind: RowKind, line: &[u8]) -> usize
    ensures { result ≡ given_index kind line.now }
{
    match index_at(kind, line, lines::row::sep_of(kind)) {
        Ok((index, _)) => index as usize,
        Err(_) => ended_index(kind, line),
    }
}

fn ended_index(kind: RowKind, line: &[u8]) -> usize
    ensures { result ≡ ended_index kind line.now }
{
    match index_at(kind, line, b'\n') {
        Ok((index, _)) => index as usize,
        Err(_) => 0,
    }
}
