// The front of a day's page: its hours are read and answered, for the records of the strip and the tables of the sheet, and the front is printed, which tells of all of them.
#![tactic(auto)]

mod bounds;
mod front;

ghost use Rattle.std.specs.Prelude.{◌≡◌, ◌*◌, ◌<◌, ◌≤◌, length};
ghost use Rattle.limits.specs.Limits.{borders_most};
ghost use Rattle.daysheet.specs.Sheet.{hours_most};

use command::input;
use command::options::Command;
use daylines::label;
use daysheet::{Hour, Sheet};
use messages::day;
use output::Ended;
use pagefacts::hour;
use pageform::Figures;
use pagesheet::{facts, sums};
use system::System;

const ITEMS: usize = daysheet::HOURS_MOST * limits::BORDERS_MOST;

// Prints the front of the page of the files that the command names, and leaves the records of the hours: how many there are, or 0 where not all could be written, which is said.
// The tables are made here, and not where goals would spell them out.
pub fn print(sys: &System, command: &Command, marks: Option<&[u64]>, day: &mut [Figures]) -> usize
    requires { length day.old ≡ hours_most }
    ensures { result ≤ length day.new }
{
    let mut hours: [Hour; daysheet::HOURS_MOST] = [Hour::Unread; daysheet::HOURS_MOST];
    let mut ways: [u64; ITEMS] = [0; ITEMS];
    let mut atcs: [u64; ITEMS] = [0; ITEMS];
    print_in(sys, command, marks, day, &mut hours, &mut ways, &mut atcs)
}

fn print_in(
    sys: &System,
    command: &Command,
    marks: Option<&[u64]>,
    day: &mut [Figures],
    hours: &mut [Hour],
    ways: &mut [u64],
    atcs: &mut [u64],
) -> usize
    requires { (length day.old ≡ hours_most) × (length hours.old ≡ hours_most) × (length ways.old ≡ hours_most * borders_most) × (length atcs.old ≡ hours_most * borders_most) }
    ensures { result ≤ length day.new }
{
    let n = name(sys, command, day);
    read(sys, marks, &mut day[..n], &mut hours[..n], ways, atcs);
    let sheet = Sheet {
        hours: &hours[..n],
        ways,
        atcs,
    };
    if front::print(sys, &day[..n], sheet) {
        return n;
    }
    telling::unwritten(sys);
    0
}

// Numbers the hours from 1 on, and notes which argument names each: how many there are. No more are named than there is room for (crate daylabels).
fn name(sys: &System, command: &Command, day: &mut [Figures]) -> usize
    ensures { result ≤ length day.new }
{
    let mut named = 0;
    for i in (1..sys.arg_count()).filter(|&i| command.is_file(i)) {
        if named == day.len() {
            break;
        }
        day[named][facts::ARGUMENT] = i as u64;
        named += 1;
        day[named - 1][hour::HOUR] = named as u64;
    }
    named
}

fn read(
    sys: &System,
    marks: Option<&[u64]>,
    day: &mut [Figures],
    hours: &mut [Hour],
    ways: &mut [u64],
    atcs: &mut [u64],
)
    requires { (length day.old ≤ hours_most) × (length hours.old ≡ length day.old) × (length ways.old ≡ hours_most * borders_most) × (length atcs.old ≡ hours_most * borders_most) }
{
    for k in 0..day.len() {
        let argument = day[k][facts::ARGUMENT] as usize;
        let came = came_of(sys, argument, k, marks, ways, atcs);
        hours[k] = came.hour;
        day[k] = facts::heard(day[k], came.hour, came.bound);
        day[k][facts::SUM] = came.sum;
    }
}

// What came of an hour, the bound of its rounds, and the check sum of its text.
#[derive(Clone, Copy)]
struct Came {
    hour: Hour,
    bound: u64,
    sum: u64,
}

// What came of hour k, which is said where it is not answered.
fn came_of(
    sys: &System,
    argument: usize,
    k: usize,
    marks: Option<&[u64]>,
    ways: &mut [u64],
    atcs: &mut [u64],
) -> Came
    requires { (k < hours_most) × (length ways.old ≡ hours_most * borders_most) × (length atcs.old ≡ hours_most * borders_most) }
{
    let mut name = arguments::room();
    let n = sys.arg(argument, &mut name);
    let mut text = input::room();
    let Some(m) = input::read_by_name(sys, &name[..n], &mut text) else {
        return unread(&name[..n]);
    };
    answered(sys, &name[..n], k, marks, &text[..m], ways, atcs)
}

fn unread(name: &[u8]) -> Came {
    day::unread(label::label_of(name), name);
    Came {
        hour: Hour::Unread,
        bound: 0,
        sum: 0,
    }
}

fn answered(
    sys: &System,
    name: &[u8],
    k: usize,
    marks: Option<&[u64]>,
    text: &[u8],
    ways: &mut [u64],
    atcs: &mut [u64],
) -> Came
    requires { (k < hours_most) × (length ways.old ≡ hours_most * borders_most) × (length atcs.old ≡ hours_most * borders_most) }
{
    let hour = hourtables::keep(marks, text, k, ways, atcs);
    if let Hour::Refused {
        number,
        place,
        byte,
    } = hour
    {
        let ended = Ended::Refused(number, place, byte);
        telling::explain(sys, label::label_of(name), ended, text, b"");
    }
    Came {
        hour,
        bound: bounds::most(marks, text),
        sum: sums::sum(text),
    }
}
