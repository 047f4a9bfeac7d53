// What the program says to people: what is wrong with the arguments, what a refusal means and what to look at. Each is one line.
// On a refusal standard output holds the E line alone (01, "Result text"), so its meaning goes to standard error.
#![tactic(auto)]

pub mod day;
pub mod usage;

ghost use Rattle.io.specs.Counts.{IsPrefixLen};

use arguments::{Piece, lists};
use system::{STDERR, System, say};

// The ways in which arguments can be wrong.
#[derive(Clone, Copy)]
pub enum Fault {
    TooLong,
    Unknown,
    Twice,
    NoList,
    NoDescriptor,
    OneTooMany,
    NoNumber,
    FileMissing,
    ListMissing,
    DescriptorMissing,
    TextMissing,
    NotWith,
    NameEmpty,
    StandardInput,
    NoBorder,
    BorderMissing,
    NumberMissing,
    NoWord,
    TableMissing,
    OtherProgram,
}

impl Fault {
    fn words(self) -> &'static str {
        match self {
            Fault::TooLong => "is too long to be read",
            Fault::Unknown => "is not known",
            Fault::Twice => "given twice",
            Fault::NoList => "is no list of borders, as 0,3,7 is",
            Fault::NoDescriptor => "is no descriptor",
            Fault::OneTooMany => "is one word too many",
            Fault::NoNumber => "is no number",
            Fault::FileMissing => "the file is missing",
            Fault::ListMissing => "the list is missing",
            Fault::DescriptorMissing => "the descriptor is missing",
            Fault::TextMissing => "the text is missing",
            Fault::NotWith => "does not go with it",
            Fault::NameEmpty => "the file's name is empty",
            Fault::StandardInput => "is standard input, which is for the table alone",
            Fault::NoBorder => "is no border",
            Fault::BorderMissing => "the border is missing",
            Fault::NumberMissing => "the number is missing",
            Fault::NoWord => "is no word either",
            Fault::TableMissing => "the second table is missing, or --corrections",
            Fault::OtherProgram => "the program beside this one answers that",
        }
    }
}

// A misuse: the argument whose option or word it is about, the piece of an argument that is wrong, and in which way.
#[derive(Clone, Copy)]
pub struct Misuse {
    pub about: Option<usize>,
    pub wrong: Option<Piece>,
    pub fault: Fault,
}

impl Misuse {
    // An option or a word lacks something, or may not stand there.
    pub fn about(argument: usize, fault: Fault) -> Misuse {
        Misuse {
            about: Some(argument),
            wrong: None,
            fault,
        }
    }

    // An argument is wrong by itself.
    pub fn argument(at: usize, fault: Fault) -> Misuse {
        Misuse {
            about: None,
            wrong: Some(Piece::whole(at)),
            fault,
        }
    }

    pub fn tell(self, sys: &System) {
        say(b"keravnoth: ");
        if let Some(at) = self.about {
            show(sys, Piece::whole(at), b'=');
            say(b": ");
        }
        if let Some(piece) = self.wrong {
            quote(sys, piece);
        }
        say(self.fault.words().as_bytes());
        say(b"; see keravnoth --help\n");
    }
}

fn quote(sys: &System, piece: Piece) {
    say(b"'");
    show(sys, piece, 0);
    say(b"' ");
}

// So many bytes of an argument are shown at most.
const SHOWN_MOST: usize = 64;

// The piece up to a byte that ends it. One that is long, or that would not stay on the line, is cut.
fn show(sys: &System, piece: Piece, stop: u8) {
    let mut own = arguments::room();
    sys.arg(piece.at, &mut own);
    show_text(arguments::tail(&own, piece.from), stop);
}

fn show_text(text: &[u8], stop: u8) {
    let n = shown(text, stop);
    say(&text[..n]);
    let next = text::field::byte_at(text, n);
    if next != 0 && next != stop {
        say(b"..");
    }
}

// How many bytes are shown.
fn shown(text: &[u8], stop: u8) -> usize
    ensures { IsPrefixLen result text.now }
{
    let most = text.len().min(SHOWN_MOST);
    let ends = |&byte: &u8| byte < b' ' || byte == stop;
    text[..most].iter().position(ends).unwrap_or(most)
}

// Says that a file cannot be read, and why.
pub fn unread(sys: &System, name: &[u8]) {
    say(b"keravnoth: ");
    sys.fail(name);
}

// The texts that are answered together: a table, the sheet that corrects it, and the file that goes with a word; empty where there is none.
#[derive(Clone, Copy)]
pub struct Texts<'a> {
    pub table: &'a [u8],
    pub sheet: &'a [u8],
    pub file: &'a [u8],
}

// One line for a refusal, by its number, place and byte (01, "When the table is turned away"; 02, E2, E3, E5, E6, E10 and E13), and the texts that were read:
// 1, 9 and 13 have more than one meaning. Before it stands what it is about where that is named.
pub fn refusal(of: &[u8], number: u64, place: u64, byte: u64, texts: &Texts) {
    begin(of);
    say_line(meaning(number, place, texts), place, byte);
}

// What a refusal means: the words that C has too (crate meanings) where they say enough.
fn meaning(number: u64, place: u64, texts: &Texts) -> &'static [u8] {
    match number {
        1 => too_long(texts).as_bytes(),
        2..=7 | 10..=12 => lists::line(&meanings::LINES, number as usize),
        9 => no_corners(texts.table).as_bytes(),
        13 => bad_mark(place).as_bytes(),
        _ => b"the table is refused (#): see docs/REFUSALS.md",
    }
}

// 1: which text is too long. The others are looked at before the table.
fn too_long(texts: &Texts) -> &'static str {
    if texts.file.len() > text::BYTES_MOST {
        "the file has more than 65,536 bytes: give the rows, or the claims, of one hour alone"
    } else if texts.sheet.len() > text::BYTES_MOST {
        "the correction sheet has more than 65,536 bytes: give the changed rows of one hour alone"
    } else {
        "the table has more than 65,536 bytes: send one hour alone"
    }
}

// 9: which of its two causes it is (02, E1): whether the second number of a good table's first line is too large for a sheet.
fn no_corners(text: &[u8]) -> &'static str {
    match borders_of(text) {
        Some(borders) if borders > cornerrules::BORDERS_MOST as u64 => {
            "no corner sheet: the table has # borders, and a sheet has 12 at most: take borders out"
        }
        _ => "no corner sheet: the table has no row #: ask for a row that it has, from 0 on",
    }
}

fn borders_of(text: &[u8]) -> Option<u64> {
    let (_, next) = text::field::number_at(text, 2, b'\t').ok()?;
    let (borders, _) = text::field::number_at(text, next, b'\t').ok()?;
    Some(borders)
}

// 13: whether there is a mark to blame.
fn bad_mark(place: u64) -> &'static str {
    if place == 0 {
        "no border is marked, so none may rise: name one at least after --marks, or leave the option out"
    } else {
        "mark # of the list is no border of the table, or was given before: look at what follows --marks"
    }
}

// A table has not the border that is asked for, but so many.
pub fn no_border(border: u64, borders: usize) {
    say(b"keravnoth: there is no border ");
    io::print_decimal(STDERR, border);
    say(b": the table has borders 0 to ");
    io::print_decimal(STDERR, borders.saturating_sub(1) as u64);
    say(b"\n");
}

// Says words as a line, and before them what they are about where that is named.
pub fn line(of: &[u8], words: &[u8]) {
    begin(of);
    say(words);
    say(b"\n");
}

fn begin(of: &[u8]) {
    say(b"keravnoth: ");
    if !of.is_empty() {
        say(of);
        say(b": ");
    }
}

// A line of words, with the place where it has a #, and the byte after the place where one is to blame.
fn say_line(line: &[u8], place: u64, byte: u64) {
    let n = lists::find(line, 0, b'#');
    say(&line[..n]);
    if n < line.len() {
        say_place(place, byte);
        say(&line[n + 1..]);
    }
    say(b"\n");
}

fn say_place(place: u64, byte: u64) {
    io::print_decimal(STDERR, place);
    if byte > 0 {
        say(b", byte ");
        io::print_decimal(STDERR, byte);
        say(b",");
    }
}
