// A day as one sheet: borders down, hours across, whole MW between semicolons. Here it is promised what each line's front and each cell are; together they are
// the sheet (`sheet_text`).
#![tactic(auto)]

ghost use Rattle.std.specs.Prelude.{◌≡◌, ◌∷◌, ◌+◌, ◌<◌, ◌≤◌, length};
ghost use Rattle.std.specs.List.{position};
ghost use Rattle.limits.specs.Limits.{borders_most};
ghost use Rattle.numbers.specs.Below.{at};
ghost use Rattle.text.specs.Put.{Put};
ghost use Rattle.text.specs.Written.{decimal};
ghost use Rattle.output.specs.Buffer.{Printed};
ghost use Rattle.daysheet.specs.Cell.{refused_cell, own_text};
ghost use Rattle.daysheet.specs.Sheet.{hours_most, place, border_of, name_of, cell_at, own_of, line_cell, hub_field, border_front, front_text, has_border};

// What an hour that is answered came to.
#[derive(Clone, Copy)]
pub struct Answer {
    pub rounds: u64,
    pub borders: usize,
    pub intraday: bool,
}

// What came of an hour, whose table may be one that cannot be read.
#[derive(Clone, Copy)]
pub enum Hour {
    Answered(Answer),
    Refused { number: u64, place: u64, byte: u64 },
    Unread,
}

impl Hour {
    // Whether it is answered, and has border b.
    pub fn has_border(&self, b: usize) -> bool
        ensures { result ≡ has_border b self.now }
    {
        matches!(self, Hour::Answered(answer) if b < answer.borders)
    }
}

// A day has at most 100 quarter-hours.
pub const HOURS_MOST: usize = 100;

// The lines below the labels.
#[derive(Clone, Copy)]
pub enum Line {
    Rounds,
    Profile,
    Border(usize),
}

// What an hour that is answered has in a line.
#[derive(Clone, Copy)]
pub enum Own {
    Number(u64),
    DayAhead,
    Intraday,
    Absent,
    Other,
}

// Room for a cell.
pub const ROOM: usize = 128;

// The hours of a day, and the tables of their items: for each hour as many as a table may have borders, where each border goes, and its ATC.
#[derive(Clone, Copy)]
pub struct Sheet<'a> {
    pub hours: &'a [Hour],
    pub ways: &'a [u64],
    pub atcs: &'a [u64],
}

impl Sheet<'_> {
    // The cell of hour k in a line.
    pub fn cell_at(&self, line: Line, k: usize, out: &mut [u8]) -> usize
        requires { (k < length self.now.hours.now) × (length self.now.hours.now ≤ hours_most) × (border_of line < borders_most) × (128 ≤ length out.old) }
        ensures { Printed result (cell_at line self.now.hours.now self.now.ways.now self.now.atcs.now k) out.new }
    {
        let b = border_of(line);
        let name = self.name_of(b);
        let way = item(self.ways, k, b);
        let atc = item(self.atcs, k, b);
        put_line_cell(line, self.hours[k], way, name, atc, out)
    }

    // Where the border goes that a line names: as in the first hour that has it.
    pub fn name_of(&self, b: usize) -> u64
        requires { (length self.now.hours.now ≤ hours_most) × (b < borders_most) }
        ensures { result ≡ name_of b self.now.hours.now self.now.ways.now }
    {
        let first = self.first_with(b).unwrap_or(self.hours.len());
        item(self.ways, first, b)
    }

    // The first hour that has border b.
    pub fn first_with(&self, b: usize) -> Option<usize>
        ensures { result ≡ position (has_border b) self.now.hours.now }
    {
        self.hours.iter().position(|hour| hour.has_border(b))
    }
}

// A line's first fields: what it is of, and for a border its index and its name.
pub fn put_front(line: Line, name: u64, out: &mut [u8]) -> usize
    requires { 128 ≤ length out.old }
    ensures { Printed result (front_text line name) out.new }
{
    match line {
        Line::Rounds => output::put_bytes(b"rounds;;;;", out, 0),
        Line::Profile => output::put_bytes(b"profile;;;;", out, 0),
        Line::Border(b) => put_border(b, name, out),
    }
}

fn put_border(b: usize, name: u64, out: &mut [u8]) -> usize
    requires { 128 ≤ length out.old }
    ensures { Put (border_front b name) 0 out.old result out.new }
{
    let next = text::put::put_number(b as u64, out, 0);
    let next = put_behind(b';', name / 32768, out, next);
    let next = put_behind(b';', name / 1024 % 32, out, next);
    let next = put_hub(name / 32 % 32, out, next);
    put_hub(name % 32, out, next)
}

fn put_hub(hub: u64, out: &mut [u8], at: usize) -> usize
    requires { at + 21 ≤ length out.old }
    ensures put { Put (hub_field hub) at out.old result out.new }
    ensures upper_bound { result ≤ at + 21 }
{
    if hub == 0 {
        return text::put::put_byte(b';', out, at);
    }
    put_behind(b';', hub - 1, out, at)
}

// The border that a line is of, 0 for one that is of none.
pub fn border_of(line: Line) -> usize
    ensures { result ≡ border_of line }
{
    match line {
        Line::Rounds | Line::Profile => 0,
        Line::Border(b) => b,
    }
}

// Hour k's item of border b, 0 where there is none.
pub fn item(items: &[u64], k: usize, b: usize) -> u64
    requires { (k ≤ hours_most) × (b < borders_most) }
    ensures { result ≡ at items.now (place k b) }
{
    items
        .get(k * limits::BORDERS_MOST + b)
        .copied()
        .unwrap_or(0)
}

// The cell of an hour in a line, behind its semicolon: `way` is where the hour's border goes, `name` where the border goes that the line names.
fn put_line_cell(line: Line, hour: Hour, way: u64, name: u64, atc: u64, out: &mut [u8]) -> usize
    requires { 128 ≤ length out.old }
    ensures { Printed result (line_cell line hour way name atc) out.new }
{
    let at = text::put::put_byte(b';', out, 0);
    match hour {
        Hour::Answered(answer) => put_own(own_of(line, answer, way, name, atc), out, at),
        Hour::Refused {
            number,
            place,
            byte,
        } => put_refused(number, place, byte, out, at),
        Hour::Unread => text::put::put_byte(b'X', out, at),
    }
}

fn own_of(line: Line, answer: Answer, way: u64, name: u64, atc: u64) -> Own
    ensures { result ≡ own_of line answer way name atc }
{
    match line {
        Line::Rounds => Own::Number(answer.rounds),
        Line::Profile if answer.intraday => Own::Intraday,
        Line::Profile => Own::DayAhead,
        Line::Border(b) if answer.borders <= b => Own::Absent,
        Line::Border(_) if way == name => Own::Number(atc),
        Line::Border(_) => Own::Other,
    }
}

fn put_own(own: Own, out: &mut [u8], at: usize) -> usize
    requires { at + 20 ≤ length out.old }
    ensures { Put (own_text own) at out.old result out.new }
{
    match own {
        Own::Number(number) => text::put::put_number(number, out, at),
        Own::DayAhead => output::put_bytes(b"day-ahead", out, at),
        Own::Intraday => output::put_bytes(b"intraday", out, at),
        Own::Absent => output::put_bytes(b"-", out, at),
        Own::Other => output::put_bytes(b"other", out, at),
    }
}

// An E line, with blanks for tabs.
fn put_refused(number: u64, place: u64, byte: u64, out: &mut [u8], at: usize) -> usize
    requires { at + 64 ≤ length out.old }
    ensures { Put (refused_cell number place byte) at out.old result out.new }
{
    let next = text::put::put_byte(b'E', out, at);
    let next = put_behind(b' ', number, out, next);
    let next = put_behind(b' ', place, out, next);
    put_behind(b' ', byte, out, next)
}

// A number behind the byte that parts it from what stands before.
fn put_behind(sep: u8, n: u64, out: &mut [u8], at: usize) -> usize
    requires { at + 21 ≤ length out.old }
    ensures put { Put (sep ∷ decimal n) at out.old result out.new }
    ensures upper_bound { result ≤ at + 21 }
{
    let next = text::put::put_byte(sep, out, at);
    text::put::put_number(n, out, next)
}
