// Lines as a head and a list of columns: one reader, one writer and one count for every kind of line.
// The lists are `COLUMNS` of the types that carry the values (crate types), one byte for each field: n a number, s a signed number, r R, which is a number or "-";
// p a power in MW with three decimals, q one that may be below 0, f a factor with five decimals.
// The byte that parts the fields is an argument, `sep`; a line ends in an LF.
#![tactic(auto)]

ghost use Rattle.std.specs.Prelude.{◌≡◌};
ghost use Rattle.columns.specs.ColumnLine.{begun};

pub mod optional;
pub mod read;
pub mod write;

// What stands before a line's columns: its letter, its letter and its index, or its index alone.
#[derive(Clone, Copy)]
pub enum Head {
    Lettered(u8),
    Indexed(u8, usize),
    Bare(usize),
}

impl Head {
    // Whether a line begins with the head's letter, where the head has one.
    pub fn begins(self, sep: u8, line: &[u8]) -> bool
        ensures { result ≡ begun sep self line.now }
    {
        match self {
            Head::Lettered(letter) => text::line::headed(line, letter, sep),
            Head::Indexed(letter, _) => text::line::headed(line, letter, sep),
            Head::Bare(_) => true,
        }
    }
}
