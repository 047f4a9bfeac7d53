// All words of a fault as one list: a function with many literals is slow to check, one with a long literal is not.
ghost use Rattle.io.specs.Counts.{IsPrefixLen};

use fieldnames::Name;

// The words, in the order of the list in `put`.
#[derive(Clone, Copy, PartialEq, Eq)]
pub enum Words {
    TheTable,
    TheCorrections,
    TheRows,
    TheSheet,
    Utf16,
    Bom,
    Empty,
    NoLf,
    Headings,
    Quoted,
    Semicolons,
    Blanks,
    Tabs,
    LetterDue,
    NoTab,
    FieldsDue,
    FieldsOr,
    Line,
    Byte,
    IndexDue,
    IndexRises,
    Range,
    Tidy,
    WritePoint,
}

// What is wrong with the number of lines, in the order of the list in `put_count`.
#[derive(Clone, Copy)]
pub enum Count {
    Missing,
    Extra,
    RowMissing,
    RowExtra,
}

// What a byte is, in the order of the list in `put_found`.
#[derive(Clone, Copy, PartialEq, Eq)]
pub enum Found {
    Blank,
    Cr,
    Comma,
    Point,
    Semicolon,
    Quote,
    Plus,
    Minus,
    FieldEnd,
    Digit,
    Shown,
    Hidden,
}

// What a field holds, in the order of the list in `put_wanted`.
#[derive(Clone, Copy)]
pub enum Wanted {
    Digits,
    SignedDigits,
    ROrNone,
    Power,
    Factor,
}

// The words, with their figures.
pub fn put(words: Words, figures: &[u64], out: &mut [u8], at: usize) -> usize
    ensures { IsPrefixLen result out.new }
{
    forms::put(
        b"\n\
        the correction sheet: \n\
        the correction sheet: \n\
        the sheet: \n\
        the text is UTF-16: save it as plain text (UTF-8)\n\
        line 1 begins with a BOM, three bytes that an editor put there: keravnoth tidy takes them out\n\
        the text is empty\n\
        line $0, the last, does not end with LF: keravnoth tidy puts it there\n\
        line $0 is a row of headings: take it out\n\
        line $0 begins with a quote: keravnoth tidy takes quotes out\n\
        line $0 has semicolons where tabs belong\n\
        line $0 has blanks where tabs belong\n\
        line $0 has tabs where semicolons belong\n\
        line $0 does not begin with the letter that is due: \n\
        line $0 has no tab behind its letter\n\
        line $0 has another number of fields than the $0 that are due behind its letter\n\
        line $0 has another number of fields than are due behind its letter: \n\
        line $0, \n\
        , byte $0: \n\
        $0 is due here, the line's own index\n\
        an index is due that is above the one before, and that a row of the table has\n\
        outside its range, which is \n\
        : keravnoth tidy takes it out\n\
        : write a point\n",
        words as usize,
        figures,
        out,
        at,
    )
}

// A line that is missing or extra, of so many.
pub fn put_count(count: Count, line: u64, lines: u64, out: &mut [u8], at: usize) -> usize
    ensures { IsPrefixLen result out.new }
{
    forms::put(
        b"line $0 is missing: by its H line the table has $0 lines, and the text ends before\n\
        this is line $0 of a table of $0, by its H line: nothing may follow\n\
        line $0 is missing: the table has $0 rows, and so has its sheet\n\
        this is line $0 of a sheet for $0 rows: nothing may follow\n",
        count as usize,
        &[line, lines],
        out,
        at,
    )
}

// What a byte is; one that no text has by its number.
pub fn put_found(found: Found, byte: u8, out: &mut [u8], at: usize) -> usize
    ensures { IsPrefixLen result out.new }
{
    forms::put(
        b"a blank\n\
        a CR\n\
        a comma\n\
        a point\n\
        a semicolon\n\
        a quote\n\
        a plus\n\
        a minus\n\
        the field ends\n\
        a digit too many, or one behind a leading zero\n\
        '\n\
        byte $0, which no text has\n",
        found as usize,
        &[byte as u64],
        out,
        at,
    )
}

pub fn put_wanted(wanted: Wanted, out: &mut [u8], at: usize) -> usize
    ensures { IsPrefixLen result out.new }
{
    forms::put(
        b"; a number is digits only\n\
        ; a number is digits only, with a minus before one below 0\n\
        ; R is a number, or - alone\n\
        ; a power is in MW, with a point and three decimals\n\
        ; a factor has a point and five decimals\n",
        wanted as usize,
        &[],
        out,
        at,
    )
}

// The range of a field, by its name (crate fieldnames); in the planners' sheet powers are in MW and factors have a point.
pub fn put_range(name: Name, sheet: bool, out: &mut [u8], at: usize) -> usize
    ensures { IsPrefixLen result out.new }
{
    forms::put(
        b"\n\
        2 to 16\n\
        1 to 64\n\
        1 to 200\n\
        0 to 10000\n\
        \n\
        -100000000 to 100000000 kW (and T lines sum to 0)\n\
        a zone that the table has\n\
        a zone that the table has, and not the from zone\n\
        0 to 10000 MW\n\
        a zone that the table has\n\
        a zone that the table has, and not the sending hub\n\
        1 to 10000000 kW\n\
        0 to Fmax\n\
        -20000000 to 20000000 kW\n\
        -20000000 to 20000000 kW\n\
        0 to 10000\n\
        0 to 10000000 kW\n\
        0 to 10000000 kW\n\
        -100000 to 100000\n\
        0.001 to 10000.000 MW\n\
        0.000 to Fmax\n\
        -20000.000 to 20000.000 MW\n\
        -20000.000 to 20000.000 MW\n\
        0 to 10000\n\
        0.000 to 10000.000 MW\n\
        0.000 to 10000.000 MW\n\
        -1.00000 to 1.00000\n",
        line_of(name, sheet),
        &[],
        out,
        at,
    )
}

// The ranges of the sheet's own units stand behind those of the table.
fn line_of(name: Name, sheet: bool) -> usize {
    match name {
        Name::Fmax
        | Name::Frm
        | Name::Fref
        | Name::F0all
        | Name::R
        | Name::Cva
        | Name::Iva
        | Name::Factor
            if sheet => { name as usize + 8 }
        _ => name as usize,
    }
}
