// Why a table is turned away.
#![tactic(auto)]

ghost use Rattle.std.specs.Prelude.{◌≡◌};
ghost use Rattle.refusals.specs.Refusals.{number_of, place_of, byte_of};

// Why a table is turned away, a kind for each line of 01's table, with what is to be told: a line of the text and the byte to blame in it, counted from 1
// (02, E5; 0 where no byte is to blame), or the index or the count that the refusal names.
#[derive(Clone, Copy, PartialEq, Eq, Debug)]
pub enum Refusal {
    TooLong,
    WrongForm(usize, usize),
    OutOfRange(usize, usize),
    GivenTwice(usize),
    NoRow,
    Unlimited(usize),
    BelowZero(usize),
    TooShort(usize),
    NoCorners(usize),
    WrongCorrection(usize, usize),
    MalformedClaim(usize),
    NotBorneOut(usize),
    BadMark(usize),
    NoBorder(usize),
}

impl Refusal {
    // The number in 01's table.
    pub fn number(self) -> u32
        ensures { result ≡ number_of self }
    {
        match self {
            Refusal::TooLong => 1,
            Refusal::WrongForm(_, _) => 2,
            Refusal::OutOfRange(_, _) => 3,
            Refusal::GivenTwice(_) => 4,
            Refusal::NoRow => 5,
            Refusal::Unlimited(_) => 6,
            Refusal::BelowZero(_) => 7,
            Refusal::TooShort(_) => 8,
            Refusal::NoCorners(_) => 9,
            Refusal::WrongCorrection(_, _) => 10,
            Refusal::MalformedClaim(_) => 11,
            Refusal::NotBorneOut(_) => 12,
            Refusal::BadMark(_) => 13,
            Refusal::NoBorder(_) => 14,
        }
    }

    // The place that 01's table names, 0 where there is none.
    pub fn place(self) -> usize
        ensures { result ≡ place_of self }
    {
        match self {
            Refusal::TooLong | Refusal::NoRow => 0,
            Refusal::WrongForm(line, _)
            | Refusal::OutOfRange(line, _)
            | Refusal::WrongCorrection(line, _) => line,
            Refusal::GivenTwice(place)
            | Refusal::Unlimited(place)
            | Refusal::BelowZero(place)
            | Refusal::TooShort(place)
            | Refusal::NoCorners(place)
            | Refusal::MalformedClaim(place)
            | Refusal::NotBorneOut(place)
            | Refusal::BadMark(place)
            | Refusal::NoBorder(place) => place,
        }
    }

    // The byte to blame in the line that the place names, 0 where no byte is to blame.
    pub fn byte(self) -> usize
        ensures { result ≡ byte_of self }
    {
        match self {
            Refusal::WrongForm(_, byte)
            | Refusal::OutOfRange(_, byte)
            | Refusal::WrongCorrection(_, byte) => byte,
            _ => 0,
        }
    }
}
