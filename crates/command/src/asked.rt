// What the arguments ask for: the words, with what may stand after each and what goes with it.
use crate::options::OptionName;
use arguments::Piece;
use messages::{Fault, Misuse};
use system::System;

// The first arguments that belong to no option, by their places: the word, and what stands after it (a row, a file, the table).
#[derive(Clone, Copy, Default)]
pub struct Plain {
    pub word: Option<usize>,
    pub first: Option<usize>,
    pub second: Option<usize>,
    pub third: Option<usize>,
}

// The words whose text is printed at once.
#[derive(Clone, Copy)]
pub enum Word {
    Answer,
    Rewrite,
    // the published list of the claims in a file (02, E10)
    Claims,
    // the hour's own bound of the rounds
    Bound,
    // what each row's margin is made of
    Margins,
    // the rows as the planners' sheet (02, E11)
    Rows,
    // the table with all its rows taken from the sheet in a file
    Filled,
}

#[derive(Clone, Copy)]
pub enum Task {
    Text(Word),
    // the corner sheet of one row, or of every row, printed row by row
    Corners(Option<usize>),
}

// Which arguments name what is read: the file that goes with a word, and the table, which is standard input where none names it.
#[derive(Clone, Copy)]
pub struct Names {
    pub file: Option<usize>,
    pub table: Option<usize>,
}

#[derive(Clone, Copy)]
pub enum Asked {
    Task(Task, Names),
    // why a border got no more, and which argument names the table
    Why(u64, Option<usize>),
    // what differs between two tables, and which arguments name them
    Changes(usize, Option<usize>),
    // a text repaired where that is certain, and which argument names it
    Tidy(Option<usize>),
    // the page of the table that an argument names
    Page(Option<usize>),
    // the hours of a day, whose tables the arguments after the word name (`Command::is_file`)
    Day,
    Help,
    Version,
}

impl Asked {
    // Whether a word asks for it. The answer of a table needs none.
    pub fn has_word(self) -> bool {
        !matches!(self, Asked::Task(Task::Text(Word::Answer), _))
    }

    // The options that go with it, beside those of whoever starts the program.
    pub fn options(self) -> &'static [OptionName] {
        match self {
            Asked::Task(Task::Text(Word::Answer | Word::Bound), _) | Asked::Why(_, _) => {
                &[OptionName::Corrections, OptionName::Marks]
            }
            Asked::Task(_, _) | Asked::Changes(_, _) => &[OptionName::Corrections],
            Asked::Page(_) => &[
                OptionName::Corrections,
                OptionName::Marks,
                OptionName::Label,
            ],
            Asked::Day => &[
                OptionName::Marks,
                OptionName::Expect,
                OptionName::Sheet,
                OptionName::Page,
            ],
            Asked::Tidy(_) | Asked::Help | Asked::Version => &[],
        }
    }
}

// What the word asks for, with the arguments after it. One that is no word names a table that is to be answered.
pub fn understand(sys: &System, plain: Plain) -> Result<Asked, Misuse> {
    let Some(at) = plain.word else {
        return text(Word::Answer, None, None, None);
    };
    let mut own = arguments::room();
    match Piece::whole(at).read(sys, &mut own) {
        b"rewrite" => text(Word::Rewrite, None, plain.first, plain.second),
        b"bound" => text(Word::Bound, None, plain.first, plain.second),
        b"margins" => text(Word::Margins, None, plain.first, plain.second),
        b"rows" => text(Word::Rows, None, plain.first, plain.second),
        b"claims" => with_file(Word::Claims, at, plain),
        b"fill" => with_file(Word::Filled, at, plain),
        b"corners" => corners(sys, plain),
        b"why" => why(sys, at, plain),
        b"help" | b"--help" | b"-h" => alone(Asked::Help, plain.first),
        b"--version" => alone(Asked::Version, plain.first),
        b"changes" => changes(at, plain),
        b"tidy" => alone(Asked::Tidy(plain.first), plain.second),
        b"page" => alone(Asked::Page(plain.first), plain.second),
        b"day" => Ok(Asked::Day),
        _ => text(Word::Answer, None, plain.word, plain.first),
    }
}

// Nothing more may stand there.
fn alone(asked: Asked, more: Option<usize>) -> Result<Asked, Misuse> {
    match more {
        Some(at) => Err(Misuse::argument(at, Fault::OneTooMany)),
        None => Ok(asked),
    }
}

// A file has to stand after the word, and then a table may.
fn with_file(word: Word, at: usize, plain: Plain) -> Result<Asked, Misuse> {
    if plain.first.is_none() {
        return Err(Misuse::about(at, Fault::FileMissing));
    }
    text(word, plain.first, plain.second, plain.third)
}

fn text(
    word: Word,
    file: Option<usize>,
    table: Option<usize>,
    more: Option<usize>,
) -> Result<Asked, Misuse> {
    alone(Asked::Task(Task::Text(word), Names { file, table }), more)
}

// A row may stand after the word, and then a table. A file whose name is a number is named with its folder.
fn corners(sys: &System, plain: Plain) -> Result<Asked, Misuse> {
    let row = plain.first.and_then(|at| Piece::whole(at).number(sys));
    let (table, more) = match row {
        Some(_) => (plain.second, plain.third),
        None => (plain.first, plain.second),
    };
    let rows = row.map(|row| row as usize);
    alone(
        Asked::Task(Task::Corners(rows), Names { file: None, table }),
        more,
    )
}

// A border has to stand after the word, and then a table may.
fn why(sys: &System, at: usize, plain: Plain) -> Result<Asked, Misuse> {
    let Some(first) = plain.first else {
        return Err(Misuse::about(at, Fault::BorderMissing));
    };
    let wrong = Piece::whole(first);
    let Some(border) = wrong.number(sys) else {
        return Err(Misuse {
            about: Some(at),
            wrong: Some(wrong),
            fault: Fault::NoBorder,
        });
    };
    alone(Asked::Why(border, plain.second), plain.third)
}

// A table has to stand after the word, and then another may.
fn changes(at: usize, plain: Plain) -> Result<Asked, Misuse> {
    let Some(old) = plain.first else {
        return Err(Misuse::about(at, Fault::FileMissing));
    };
    alone(Asked::Changes(old, plain.second), plain.third)
}
