// The words, one form to a line, and how many are told.
ghost use Rattle.io.specs.Counts.{IsPrefixLen};

use system::STDERR;

// The words, in the order of the list in `put`.
#[derive(Clone, Copy)]
pub enum Words {
    Utf16,
    Bom,
    Cr,
    Empty,
    NoLf,
    More,
    Line,
    Field,
    Blanks,
    Quotes,
    Value,
    Written,
    Comma,
    Points,
    Thousands,
    Headings,
    OneZero,
    TwoZeros,
    ThreeZeros,
    FourZeros,
}

impl Words {
    // So many zeros: no number lacks more than four.
    pub fn zeros(n: usize) -> Words {
        match n {
            1 => Words::OneZero,
            2 => Words::TwoZeros,
            3 => Words::ThreeZeros,
            _ => Words::FourZeros,
        }
    }
}

pub fn put(words: Words, figures: &[u64], out: &mut [u8], at: usize) -> usize
    ensures { IsPrefixLen result out.new }
{
    forms::put(
        b"keravnoth: left: the text looks like UTF-16: save it as UTF-8 and give it again|\n\
        keravnoth: a BOM at the begin taken off|\n\
        keravnoth: CR before LF taken off in $0 lines|\n\
        keravnoth: empty lines at the end taken off: $0|\n\
        keravnoth: an LF put behind the last line|\n\
        keravnoth: and $0 more|\n\
        keravnoth: line $0, \n\
        field $0\n\
        : blanks taken off|\n\
        : quotes taken off|\n\
        : \n\
        \x20written \n\
        : left: a comma: write a point, or take it out where it parts thousands|\n\
        : left: several points: write one, before the decimals|\n\
        : left: a point and three digits, in a text with commas or quotes: it is read as decimals; take the point out where it parts thousands|\n\
        : left: letters where a number belongs: take the line out where it is a row of headings|\n\
        0|\n\
        00|\n\
        000|\n\
        0000|\n",
        words as usize,
        figures,
        out,
        at,
    )
}

// So many lines are told; the last says how many more there are.
const TOLD_MOST: usize = 200;

// Room for a line of words.
pub const ROOM: usize = 256;

// Tells lines on standard error, as long as not too many were told.
#[derive(Clone, Copy)]
pub struct Teller {
    pub told: usize,
}

impl Teller {
    pub fn tell(&mut self, line: &[u8]) {
        if self.told < TOLD_MOST {
            io::write_all(STDERR, line);
        }
        self.told = self.told.saturating_add(1);
    }

    pub fn tell_words(&mut self, words: Words, figures: &[u64]) {
        let mut out = [0u8; ROOM];
        let n = put(words, figures, &mut out, 0);
        self.tell(&out[..n])
    }

    // How many more there were.
    pub fn end(self) {
        if TOLD_MOST < self.told {
            let mut last = Teller { told: 0 };
            last.tell_words(Words::More, &[(self.told - TOLD_MOST) as u64]);
        }
    }
}
