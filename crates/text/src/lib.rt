// One line of text: its bytes, its fields, where it ends, and how it is written.
#![tactic(auto)]

ghost use Rattle.std.specs.Prelude.{◌≡◌};
ghost use Rattle.text.specs.Line.{byte_of, refusal_of};

pub mod field;
pub mod line;
pub mod point;
pub mod put;

use refusals::Refusal;

// Bytes of a text that is read (01, refusal 1).
pub const BYTES_MOST: usize = 65536;

// What a byte of a field is; a digit with its value.
#[derive(Clone, Copy)]
pub enum Class {
    Digit(u64),
    Minus,
    Tab,
    Feed,
    Other,
}

// What a field comes to: its value and the place after the byte that ends it, or the place in the line of the first byte that no good field could have.
pub type Parsed<T> = Result<(T, usize), usize>;

// What is wrong with a line: its form, or a value outside its range. With the byte to blame, counted from 1, or 0 where there is none (02, E5).
#[derive(Clone, Copy)]
pub enum LineFault {
    Form(usize),
    Range(usize),
}

impl LineFault {
    pub fn byte(self) -> usize
        ensures { result ≡ byte_of self }
    {
        match self {
            LineFault::Form(byte) => byte,
            LineFault::Range(byte) => byte,
        }
    }

    // The refusal of a faulty line of a text, by its number there.
    pub fn refusal(self, line: usize) -> Refusal
        ensures { result ≡ refusal_of self line }
    {
        match self {
            LineFault::Form(byte) => Refusal::WrongForm(line, byte),
            LineFault::Range(byte) => Refusal::OutOfRange(line, byte),
        }
    }
}
