// The page of an hour: one HTML file that shows it all, with no script and nothing from outside. Its figures are those of proved calls; the words and the drawing are
// held by stored pages and by a test that takes every figure out of a page again (second/pages.rs). It is written piece by piece to standard output.
#![tactic(auto)]

pub mod hours;
pub mod word;

use output::Ended;
use pageframe::{BODY, END, STYLE, TITLE, plain};
use system::System;

// Prints the page of the table that the text holds, as the sheet corrects it. Where no marks are given, every border may rise.
pub fn print(
    sys: &System,
    label: &[u8],
    marks: Option<&[u64]>,
    text: &[u8],
    sheet: &[u8],
) -> Ended {
    if !begin(sys, label) {
        return Ended::Failed;
    }
    let ended = hours::print(sys, 0, label, marks, text, sheet);
    if !plain(sys, END) {
        return Ended::Failed;
    }
    ended
}

fn begin(sys: &System, label: &[u8]) -> bool {
    plain(sys, TITLE) && pageform::say_safe(sys, label) && plain(sys, STYLE) && plain(sys, BODY)
}
