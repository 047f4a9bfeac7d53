// The part of a page that says why an hour is refused: the words, the line, the byte that is blamed, and the program's own answer.
#![tactic(auto)]

mod line;

use faultwords::Blamed;
use pagefacts::hour;
use pageform::Figures;
use system::System;

// The numbers of refusals (01): of a text or a sheet that is too long, by form, range, twin, limit and margin, and of a sheet.
const TOO_LONG: u64 = 1;

const FORM: u64 = 2;

const RANGE: u64 = 3;

const GIVEN_TWICE: u64 = 4;

const UNLIMITED: u64 = 6;

const BELOW_0: u64 = 7;

const CORRECTION: u64 = 10;

// The pieces that are of no refusal, and the other one of a text that is too long.
const BEGIN: usize = 0;

const SHEET_TOO_LONG: usize = 14;

const ANSWER: usize = 15;

const WORDS_END: usize = 16;

// The record of the hour; that of the row that is blamed, where one is; both texts.
pub fn print(sys: &System, r: Figures, row: Figures, table: &[u8], sheet: &[u8]) -> bool {
    say(sys, BEGIN, &r)
        && print_words(sys, &r, &row, table, sheet)
        && say(sys, WORDS_END, &r)
        && print_line(sys, &r, table, sheet)
        && say(sys, ANSWER, &r)
}

fn print_words(sys: &System, r: &Figures, row: &Figures, table: &[u8], sheet: &[u8]) -> bool {
    match r[hour::NUMBER] {
        FORM | RANGE => print_fault(sys, Blamed::Table, r, table, table),
        CORRECTION => print_fault(sys, Blamed::Corrections, r, table, sheet),
        TOO_LONG if text::BYTES_MOST < sheet.len() => say(sys, SHEET_TOO_LONG, r),
        BELOW_0 => say(sys, BELOW_0 as usize, row),
        number => say(sys, number as usize, r),
    }
}

fn print_fault(sys: &System, of: Blamed, r: &Figures, table: &[u8], text: &[u8]) -> bool {
    let mut out = io::buffer();
    let n = faultwords::put(
        of,
        r[hour::NUMBER],
        r[hour::PLACE],
        r[hour::BYTE],
        table,
        text,
        &mut out,
    );
    pageform::say_safe(sys, &out[..n])
}

// The line that the words are about. Its number and the byte to blame are counted from 1 on; a border or a row is counted from 0.
fn print_line(sys: &System, r: &Figures, table: &[u8], sheet: &[u8]) -> bool {
    let place = r[hour::PLACE];
    let line = place.saturating_sub(1);
    let byte = r[hour::BYTE].checked_sub(1).map(|byte| byte as usize);
    match r[hour::NUMBER] {
        FORM | RANGE => line::print(sys, None, line, byte, table),
        CORRECTION => line::print(sys, None, line, byte, sheet),
        GIVEN_TWICE | UNLIMITED => line::print(sys, Some(b'B'), place, None, table),
        BELOW_0 => line::print(sys, Some(b'C'), place, None, table),
        _ => true,
    }
}

// The pieces, by the number of the refusal where it has one.
fn say(sys: &System, line: usize, figures: &Figures) -> bool {
    pageform::say(
        sys,
        b"<div class=\"no\"><h{H3|2}>Refused: this hour has no ATCs</h{H3|2}>`<p>\n\
        The text has more than 65536 bytes, and a table has no more: send one hour at a time.\n\
        .\n\
        .\n\
        Border $Y has the same from zone, to zone and hubs as an earlier border: take one of the two out.\n\
        No row is kept: in each of the $r rows the factors are less than 0.05000 apart, so nothing limits the borders.\n\
        Border $Y loads no kept row, so nothing limits it: leave it out, or add the row that does.\n\
        <a href=\"#{Hh$H}r$a\">Row $a</a> starts below 0: its RAM is ^R MW = Base ^B{C + AMR ^C}{D + LTA margin ^D}{E &#8722; CVA ^E}{F &#8722; IVA ^F}, and the rights of all borders take ^T MW, ^Q MW more than there are. Lower CVA or IVA of the row.\n\
        The table is refused.\n\
        The table is refused.\n\
        .\n\
        The table is refused.\n\
        The table is refused.\n\
        {YMark $Y of the list is no border of this table, or was given before.|No border is marked, so none may rise.}\n\
        The correction sheet has more than 65536 bytes: give the changed rows of one hour alone.\n\
        <p class=\"sub\">The answer of the program: <code>E $X $Y $Z</code></p></div>`\n\
        </p>`\n",
        line,
        figures,
    )
}
