// What a program prints for a word, a table's text and a correction sheet (02, E2): the text that the word asks for, or the E line where that or a text is refused.
// The lent buffer fits any output, so refusal 8 cannot occur.
ghost use Rattle.std.specs.Prelude.{◌*◌, ◌≤◌, length};
ghost use Rattle.limits.specs.Limits.{zones_most, borders_most, rows_most, bytes_most};
ghost use Rattle.marks.specs.Marks.{every, listed};
ghost use Rattle.tablerules.specs.Table.{lent, front};
ghost use Rattle.tablerules.specs.Good.{Good};
ghost use Rattle.output.specs.Buffer.{Printed};
ghost use Rattle.printing.specs.Printed.{Said, filled_by, said_of, word_said, word_text};

use command::asked::Word;
use refusals::Refusal;
use tablerules::TableView;
use types::{Border, BorderRecord, Header, Row, RowRecord};

pub fn put<'a>(
    word: Word,
    marks: Option<&[u64]>,
    file: &[u8],
    text: &'a [u8],
    sheet: &'a [u8],
    out: &mut [u8],
) -> usize
    requires { bytes_most ≤ length out.old }
    ensures { Printed result (word_text word (every marks.entry) (listed marks.entry) file.now text.now sheet.now) out.new }
{
    if text::BYTES_MOST < file.len() {
        return output::refusal_line(Refusal::TooLong, out);
    }
    let said = read_and_write(word, marks, file, text, sheet, out);
    output::told(said, out)
}

fn read_and_write<'a>(
    word: Word,
    marks: Option<&[u64]>,
    file: &[u8],
    text: &'a [u8],
    sheet: &'a [u8],
    out: &mut [u8],
) -> Result<usize, Refusal>
    requires { bytes_most ≤ length out.old }
    ensures { Said result (word_said word (every marks.entry) (listed marks.entry) file.now text.now sheet.now) out.old out.new }
{
    let mut z: [i64; limits::ZONES_MOST] = [0; limits::ZONES_MOST];
    let mut t: [i64; limits::ZONES_MOST] = [0; limits::ZONES_MOST];
    let mut b: [BorderRecord; limits::BORDERS_MOST] = [[0; Border::ITEMS]; limits::BORDERS_MOST];
    let mut c: [RowRecord; limits::ROWS_MOST] = [[0; Row::ITEMS]; limits::ROWS_MOST];
    let mut f: [i64; limits::ROWS_MOST * limits::ZONES_MOST] = [0; limits::ROWS_MOST
        * limits::ZONES_MOST];
    write_in(
        word, marks, file, text, sheet, &mut z, &mut t, &mut b, &mut c, &mut f, out,
    )
}

// Reads into tables that were made in `read_and_write`, and not here, where goals would spell them out.
fn write_in<'a>(
    word: Word,
    marks: Option<&[u64]>,
    file: &[u8],
    text: &'a [u8],
    sheet: &'a [u8],
    z: &mut [i64],
    t: &mut [i64],
    b: &mut [BorderRecord],
    c: &mut [RowRecord],
    f: &mut [i64],
    out: &mut [u8],
) -> Result<usize, Refusal>
    requires { (zones_most ≤ length z.old) × (zones_most ≤ length t.old) × (borders_most ≤ length b.old) × (rows_most ≤ length c.old) × (rows_most * zones_most ≤ length f.old) × (bytes_most ≤ length out.old) }
    ensures { Said result (word_said word (every marks.entry) (listed marks.entry) file.now text.now sheet.now) out.old out.new }
{
    let h = reading::read_into(text, sheet, z, t, b, c, f)?;
    write_word(word, marks, file, h, z, t, b, c, f, out)
}

// What the word says of lent tables that hold a good one.
fn write_word(
    word: Word,
    marks: Option<&[u64]>,
    file: &[u8],
    h: Header,
    z: &[i64],
    t: &[i64],
    b: &[BorderRecord],
    c: &mut [RowRecord],
    f: &mut [i64],
    out: &mut [u8],
) -> Result<usize, Refusal>
    requires { Good (front (lent h z.now t.now b.now c.old f.old)) × (bytes_most ≤ length out.old) }
    ensures { Said result (said_of word (every marks.entry) (listed marks.entry) file.now (front (lent h z.now t.now b.now c.old f.old))) out.old out.new }
{
    let view = TableView {
        header: h,
        nets: z,
        allocated: t,
        borders: b,
        rows: c,
        factors: f,
    };
    match word {
        Word::Answer => answer::answer_good(&view, marks, false, out),
        Word::Rewrite => writing::write_good(&view, out),
        Word::Claims => claimtext::published_text_good(&view, file, out),
        Word::Bound => boundtext::bound_text_good(&view, marks, out),
        Word::Margins => partstext::margins_text_good(&view, out),
        Word::Rows => rowsheet::write_rows(h, c, f, out),
        Word::Filled => write_filled(file, h, z, t, b, c, f, out),
    }
}

// The rows of the file take the place of those that were read.
fn write_filled(
    file: &[u8],
    h: Header,
    z: &[i64],
    t: &[i64],
    b: &[BorderRecord],
    c: &mut [RowRecord],
    f: &mut [i64],
    out: &mut [u8],
) -> Result<usize, Refusal>
    requires { Good (front (lent h z.now t.now b.now c.old f.old)) × (bytes_most ≤ length out.old) }
    ensures { Said result (filled_by file.now (front (lent h z.now t.now b.now c.old f.old))) out.old out.new }
{
    rowsheet::read_rows(h, file, c, f)?;
    writing::write_good(
        &TableView {
            header: h,
            nets: z,
            allocated: t,
            borders: b,
            rows: c,
            factors: f,
        },
        out,
    )
}
