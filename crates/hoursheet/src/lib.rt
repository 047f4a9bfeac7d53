// A day as one sheet (`keravnoth day --sheet`): each hour is read and answered, and its figures are kept; then the lines are printed. What is kept is promised of the
// texts that came (`Day`), and what a cell holds in daysheet.
#![tactic(auto)]

ghost use Rattle.std.specs.Prelude.{◌≡◌, ◌*◌, ◌<◌, ◌≤◌, length};
ghost use Rattle.limits.specs.Limits.{borders_most};
ghost use Rattle.marks.specs.Marks.{every, listed};
ghost use Rattle.daysheet.specs.Sheet.{hours_most, border_of};
ghost use Rattle.hourfigures.specs.Figures.{figures, kept_of};
ghost use Rattle.hourtables.specs.Hour.{hour_of};
ghost use Rattle.hourtables.specs.Day.{Came, Day};

use command::input;
use command::options::Command;
use daylines::label;
use daysheet::{Hour, Line, Sheet};
use messages::day;
use output::Ended;
use system::System;

const ITEMS: usize = daysheet::HOURS_MOST * limits::BORDERS_MOST;

// Prints the sheet of the files that the command names. The tables are made here, and not where goals would spell them out.
pub fn print(sys: &System, command: &Command, marks: Option<&[u64]>) -> Ended {
    let mut name = arguments::room();
    let mut text = input::room();
    let mut hours: [Hour; daysheet::HOURS_MOST] = [Hour::Unread; daysheet::HOURS_MOST];
    let mut ways: [u64; ITEMS] = [0; ITEMS];
    let mut atcs: [u64; ITEMS] = [0; ITEMS];
    print_in(
        sys, command, marks, &mut name, &mut text, &mut hours, &mut ways, &mut atcs,
    )
}

fn print_in(
    sys: &System,
    command: &Command,
    marks: Option<&[u64]>,
    name: &mut [u8],
    text: &mut [u8],
    hours: &mut [Hour],
    ways: &mut [u64],
    atcs: &mut [u64],
) -> Ended
    requires { (length hours.old ≡ hours_most) × (length ways.old ≡ hours_most * borders_most) × (length atcs.old ≡ hours_most * borders_most) }
{
    let count = sys.arg_count();
    let n = read_hours(sys, command, count, marks, name, text, hours, ways, atcs);
    if !print_labels(sys, command, count, name) {
        return Ended::Failed;
    }
    let sheet = Sheet {
        hours: &hours[..n],
        ways,
        atcs,
    };
    print_lines(sys, &sheet)
}

// Hour after hour; no more are named than a sheet may have (crate daylabels).
fn read_hours(
    sys: &System,
    command: &Command,
    count: usize,
    marks: Option<&[u64]>,
    name: &mut [u8],
    text: &mut [u8],
    hours: &mut [Hour],
    ways: &mut [u64],
    atcs: &mut [u64],
) -> usize
    requires { (length hours.old ≡ hours_most) × (length ways.old ≡ hours_most * borders_most) × (length atcs.old ≡ hours_most * borders_most) }
    ensures upper_bound { result ≤ hours_most }
    ensures day { Day (every marks.entry) (listed marks.entry) result hours.new ways.old atcs.old ways.new atcs.new }
{
    let mut k: usize = 0;
    for i in (1..count).filter(|&i| command.is_file(i)) {
        if daysheet::HOURS_MOST <= k {
            return k;
        }
        let n = sys.arg(i, name);
        let hour = read_hour(sys, &name[..n], marks, k, text, ways, atcs);
        hours[k] = hour;
        k += 1;
    }
    k
}

// What came of hour k, which is said where it is not answered.
fn read_hour(
    sys: &System,
    name: &[u8],
    marks: Option<&[u64]>,
    k: usize,
    text: &mut [u8],
    ways: &mut [u64],
    atcs: &mut [u64],
) -> Hour
    requires { (k < hours_most) × (length ways.old ≡ hours_most * borders_most) × (length atcs.old ≡ hours_most * borders_most) }
    ensures { Came (every marks.entry) (listed marks.entry) k result ways.old atcs.old ways.new atcs.new }
{
    let Some(n) = input::read_by_name(sys, name, text) else {
        day::unread(label::label_of(name), name);
        return Hour::Unread;
    };
    keep_hour(sys, name, marks, k, &text[..n], ways, atcs)
}

// What came of hour k, whose table was read. That it is refused is said.
fn keep_hour(
    sys: &System,
    name: &[u8],
    marks: Option<&[u64]>,
    k: usize,
    text: &[u8],
    ways: &mut [u64],
    atcs: &mut [u64],
) -> Hour
    requires { (k < hours_most) × (length ways.old ≡ hours_most * borders_most) × (length atcs.old ≡ hours_most * borders_most) }
    ensures { figures result ways.new atcs.new ≡ kept_of (hour_of (every marks.entry) (listed marks.entry) text.now) k ways.old atcs.old }
{
    let hour = hourtables::keep(marks, text, k, ways, atcs);
    if let Hour::Refused {
        number,
        place,
        byte,
    } = hour
    {
        let ended = Ended::Refused(number, place, byte);
        telling::explain(sys, label::label_of(name), ended, text, b"");
    }
    hour
}

// The first line: each label behind a semicolon.
fn print_labels(sys: &System, command: &Command, count: usize, name: &mut [u8]) -> bool {
    if !telling::written(sys, b"border;from;to;sending hub;receiving hub") {
        return false;
    }
    for i in (1..count).filter(|&i| command.is_file(i)) {
        let n = sys.arg(i, name);
        if !print_label(sys, label::label_of(&name[..n])) {
            return false;
        }
    }
    telling::written(sys, b"\n")
}

fn print_label(sys: &System, label: &[u8]) -> bool {
    telling::written(sys, b";") && telling::written(sys, label)
}

fn print_lines(sys: &System, sheet: &Sheet) -> Ended
    requires { length sheet.now.hours.now ≤ hours_most }
{
    let mut out = [0u8; daysheet::ROOM];
    if !print_lines_in(sys, sheet, &mut out) {
        return Ended::Failed;
    }
    if sheet
        .hours
        .iter()
        .all(|hour| matches!(hour, Hour::Answered(_)))
    {
        Ended::Answered
    } else {
        Ended::Refused(0, 0, 0)
    }
}

// The rounds, the profiles, and a line for each border that any hour has: an hour has every border before one that it has.
fn print_lines_in(sys: &System, sheet: &Sheet, out: &mut [u8]) -> bool
    requires { (length sheet.now.hours.now ≤ hours_most) × (128 ≤ length out.old) }
{
    if !print_line(sys, Line::Rounds, sheet, out) || !print_line(sys, Line::Profile, sheet, out) {
        return false;
    }
    for b in 0..limits::BORDERS_MOST {
        if sheet.first_with(b).is_none() {
            return true;
        }
        if !print_line(sys, Line::Border(b), sheet, out) {
            return false;
        }
    }
    true
}

fn print_line(sys: &System, line: Line, sheet: &Sheet, out: &mut [u8]) -> bool
    requires { (length sheet.now.hours.now ≤ hours_most) × (border_of line < borders_most) × (128 ≤ length out.old) }
{
    let name = sheet.name_of(daysheet::border_of(line));
    let n = daysheet::put_front(line, name, out);
    if !telling::written(sys, &out[..n]) {
        return false;
    }
    for k in 0..sheet.hours.len() {
        let n = sheet.cell_at(line, k, out);
        if !telling::written(sys, &out[..n]) {
            return false;
        }
    }
    telling::written(sys, b"\n")
}
