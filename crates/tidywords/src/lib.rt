// Prints a text as `tidy` repairs it, and tells on standard error what was changed and what is left to people because it is not certain.
// Of the words nothing is promised. Lines are counted as in the text that was given.
#![tactic(auto)]

mod field;
mod words;

use crate::words::{Teller, Words};
use command::input;
use command::options::Command;
use messages::Misuse;
use output::Ended;
use system::System;
use tidyfields::trimmed;

// Room for the longest text that `tidy` writes.
const ROOM: usize = tidy::BYTES_MOST;

// Obeys the word `tidy`: the text that an argument names, where no table has to stand.
pub fn obey(sys: &System, command: &Command, at: Option<usize>) -> Result<Ended, Misuse> {
    command.check_names(sys, None, at)?;
    let mut text = input::room();
    let mut out = [0u8; ROOM];
    Ok(print(sys, at, &mut text, &mut out))
}

fn print(sys: &System, at: Option<usize>, text: &mut [u8], out: &mut [u8]) -> Ended {
    match input::table(sys, at, text) {
        Some(n) => print_tidy(sys, &text[..n], out),
        None => Ended::Failed,
    }
}

fn print_tidy(sys: &System, text: &[u8], out: &mut [u8]) -> Ended {
    match tidy::tidy(text, out) {
        Ok(k) => {
            let n = output::cut(k, out);
            if !telling::written(sys, &out[..n]) {
                return Ended::Failed;
            }
            tell(text, &out[..n]);
            Ended::Answered
        }
        Err(w) => telling::refuse(sys, b"", w, text, b""),
    }
}

// No text that the calculator takes has more lines, and no line more fields: what follows is not looked at.
const LINES_MOST: usize = 512;

const FIELDS_MOST: usize = 32;

fn tell(text: &[u8], tidied: &[u8]) {
    let mut teller = Teller { told: 0 };
    if is_utf16(text) {
        teller.tell_words(Words::Utf16, &[]);
        return;
    }
    let rest = tidy::unmarked(text);
    tell_whole(&mut teller, text, rest, tidied);
    tell_lines(&mut teller, rest);
    teller.end()
}

// Two bytes for each character: a mark of that at the begin, or zeros between bytes.
fn is_utf16(text: &[u8]) -> bool {
    match text {
        [0xFF, 0xFE, ..] | [0xFE, 0xFF, ..] => true,
        [0xFE..=0xFF, ..] => false,
        [0, _, ..] | [_, 0, ..] => true,
        _ => false,
    }
}

// What was changed in the text as a whole: at its begin, in CR, at its end.
fn tell_whole(teller: &mut Teller, text: &[u8], rest: &[u8], tidied: &[u8]) {
    if count(rest, 0xEF) < count(text, 0xEF) {
        teller.tell_words(Words::Bom, &[]);
    }
    let returns = lines_with_cr(rest);
    if 0 < returns {
        teller.tell_words(Words::Cr, &[returns as u64]);
    }
    // Lines that went at the text's end, or an LF that came there.
    let lines = line_count(rest);
    let kept = count(tidied, b'\n');
    if kept < lines {
        teller.tell_words(Words::Empty, &[(lines - kept) as u64]);
    } else if count(rest, b'\n') < lines {
        teller.tell_words(Words::NoLf, &[]);
    }
}

// How many lines a text has: what follows the last LF is one where it is not empty.
fn line_count(text: &[u8]) -> usize {
    let feeds = count(text, b'\n');
    match text {
        [] | [.., b'\n'] => feeds,
        _ => feeds.saturating_add(1),
    }
}

// How many of them are looked at.
fn looked_at(text: &[u8]) -> usize {
    line_count(text).min(LINES_MOST)
}

fn lines_with_cr(text: &[u8]) -> usize {
    text.split(|&b| b == b'\n')
        .take(looked_at(text))
        .filter(|line| count(trimmed(line, true), b'\r') < count(line, b'\r'))
        .count()
}

// How many of a text's bytes are this one.
fn count(text: &[u8], byte: u8) -> usize {
    text.iter().filter(|b| **b == byte).count()
}

// What was changed field by field, and what is left of it.
fn tell_lines(teller: &mut Teller, text: &[u8]) {
    let doubt = text.contains(&b',') || text.contains(&b'"');
    for (k, line) in text
        .split(|&b| b == b'\n')
        .take(looked_at(text))
        .enumerate()
    {
        tell_line(teller, line, k, doubt);
    }
}

// Line k, counted from 0: its fields end at semicolons where it is a row of the planners' sheet, else at tabs.
fn tell_line(teller: &mut Teller, line: &[u8], k: usize, doubt: bool) {
    let row = tidy::line::is_row(line);
    let kind = field::kind_of(line, row);
    let sep = if row { b';' } else { b'\t' };
    let last = count(line, sep);
    for (i, f) in line.split(|&b| b == sep).take(FIELDS_MOST).enumerate() {
        let at = field::At {
            line: k,
            kind,
            field: i,
            row,
            doubt,
        };
        field::tell(teller, f, i == last, at);
    }
}
