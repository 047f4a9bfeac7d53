// What a refused text has at the place that is blamed, in words: the line, the field by its name, what stands there and what is wanted. Which place is blamed is proved; these are
// words over the text, and stored ones hold them.
#![tactic(auto)]

mod due;
mod found;
mod words;

ghost use Rattle.io.specs.Counts.{IsPrefixLen};

use arguments::lists;
use words::Words;

// The texts that can be blamed: the table; a correction sheet of C lines, and one of semicolon rows; the sheet of all rows.
#[derive(Clone, Copy, PartialEq, Eq)]
pub enum Blamed {
    Table,
    Corrections,
    Rows,
    Sheet,
}

impl Blamed {
    // Whether lines have a letter: those of a sheet of semicolons have none.
    fn is_lettered(self) -> bool {
        matches!(self, Blamed::Table | Blamed::Corrections)
    }

    // The byte that parts fields.
    fn separator(self) -> u8 {
        if self.is_lettered() { b'\t' } else { b';' }
    }

    // The words that begin with the text.
    fn words(self) -> Words {
        match self {
            Blamed::Table => Words::TheTable,
            Blamed::Corrections => Words::TheCorrections,
            Blamed::Rows => Words::TheRows,
            Blamed::Sheet => Words::TheSheet,
        }
    }
}

// Writes the words for a refusal by form or range, with its number, place and byte, of a text that goes with a table. The place behind them.
pub fn put(
    of: Blamed,
    number: u64,
    place: u64,
    byte: u64,
    table: &[u8],
    text: &[u8],
    out: &mut [u8],
) -> usize
    ensures { IsPrefixLen result out.new }
{
    let at = words::put(of.words(), &[], out, 0);
    if place == 1
        && let Some(encoding) = encoding(text)
    {
        return words::put(encoding, &[], out, at);
    }
    if byte == 0 {
        return due::put(of, place, table, text, out, at);
    }
    // Lines and bytes are counted from 1 where they are told, and from 0 where they are looked up.
    let line = place.saturating_sub(1);
    let row = lists::piece(text, line as usize, b'\n');
    found::put(
        of,
        number,
        place,
        byte,
        due::at(of, line, table),
        row,
        out,
        at,
    )
}

// Whether the text begins as UTF-16 does, or with a BOM: the words for it.
fn encoding(text: &[u8]) -> Option<Words> {
    match text {
        [254..=255, 254..=255, ..] | [0, _, ..] | [_, 0, ..] => Some(Words::Utf16),
        [239, 187, ..] => Some(Words::Bom),
        _ => None,
    }
}
