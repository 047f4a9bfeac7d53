// The kinds of lines and the names of their fields, of a table and of the planners' sheet: one list for everything that speaks of a field.
// Field 0 is the letter. A row of the planners' sheet has no letter: its index is field 1, as in a C line.
#![tactic(auto)]

ghost use Rattle.io.specs.Counts.{IsPrefixLen};

// The kinds of lines, in their order in a table.
#[derive(Clone, Copy, PartialEq, Eq, PartialOrd, Ord)]
pub enum LineKind {
    Header,
    Zone,
    Allocated,
    Border,
    Row,
}

impl LineKind {
    // The kind of the lines that begin with this letter.
    pub fn of(letter: u8) -> Option<LineKind> {
        match letter {
            b'H' => Some(LineKind::Header),
            b'Z' => Some(LineKind::Zone),
            b'T' => Some(LineKind::Allocated),
            b'B' => Some(LineKind::Border),
            b'C' => Some(LineKind::Row),
            _ => None,
        }
    }

    pub fn letter(self) -> u8 {
        match self {
            LineKind::Header => b'H',
            LineKind::Zone => b'Z',
            LineKind::Allocated => b'T',
            LineKind::Border => b'B',
            LineKind::Row => b'C',
        }
    }
}

// The names of fields, in the order of the list in `put`. The last is that of a field that no line of its kind has.
#[derive(Clone, Copy, PartialEq, Eq)]
pub enum Name {
    Letter,
    Zones,
    Borders,
    Rows,
    DefaultR,
    Index,
    NetPosition,
    From,
    To,
    Lta,
    SendingHub,
    ReceivingHub,
    Fmax,
    Frm,
    Fref,
    F0all,
    R,
    Cva,
    Iva,
    Factor,
    Other,
}

const HEADER: [Name; 5] = [
    Name::Letter,
    Name::Zones,
    Name::Borders,
    Name::Rows,
    Name::DefaultR,
];

const ZONE: [Name; 3] = [Name::Letter, Name::Index, Name::NetPosition];

const BORDER: [Name; 7] = [
    Name::Letter,
    Name::Index,
    Name::From,
    Name::To,
    Name::Lta,
    Name::SendingHub,
    Name::ReceivingHub,
];

const ROW: [Name; FACTORS_FROM] = [
    Name::Letter,
    Name::Index,
    Name::Fmax,
    Name::Frm,
    Name::Fref,
    Name::F0all,
    Name::R,
    Name::Cva,
    Name::Iva,
];

// Fields before the first factor of a C line.
pub const FACTORS_FROM: usize = 9;

// A field of a line, by the kind of the line and its number. A line of no kind has the fields of a zone's.
#[derive(Clone, Copy)]
pub struct Field {
    pub kind: Option<LineKind>,
    pub number: usize,
}

impl Field {
    pub fn name(self) -> Name {
        let number = self.number;
        match self.kind {
            Some(LineKind::Header) => HEADER.get(number).copied().unwrap_or(Name::Other),
            Some(LineKind::Border) => BORDER.get(number).copied().unwrap_or(Name::Other),
            Some(LineKind::Row) => ROW.get(number).copied().unwrap_or(Name::Factor),
            _ => ZONE.get(number).copied().unwrap_or(Name::Other),
        }
    }

    // Writes the name, and gives the place behind it.
    pub fn put(self, out: &mut [u8], at: usize) -> usize
        ensures { IsPrefixLen result out.new }
    {
        let name = self.name();
        let number = match name {
            Name::Factor => self.number.saturating_sub(FACTORS_FROM),
            _ => self.number,
        };
        forms::put(
            b"letter\n\
            zones\n\
            borders\n\
            rows\n\
            default of R\n\
            index\n\
            net position\n\
            from\n\
            to\n\
            LTA\n\
            sending hub\n\
            receiving hub\n\
            Fmax\n\
            FRM\n\
            Fref\n\
            F0all\n\
            R\n\
            CVA\n\
            IVA\n\
            factor of zone $0\n\
            field $0\n",
            name as usize,
            &[number as u64],
            out,
            at,
        )
    }
}
