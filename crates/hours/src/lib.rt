// A day as lines (`keravnoth day`): every line of every hour's answer behind the hour's label. An hour that is refused or cannot be read says so itself. What an hour's lines are is promised; that a day is its hours one after another is `day_text`.
#![tactic(auto)]

ghost use Rattle.std.specs.Prelude.{◌≡◌, ◌≤◌, length};
ghost use Rattle.limits.specs.Limits.{bytes_most};
ghost use Rattle.marks.specs.Marks.{every, listed};
ghost use Rattle.answer.specs.Result.{answer_for};
ghost use Rattle.output.specs.Buffer.{Printed};
ghost use Rattle.daylines.specs.Label.{label_of};
ghost use Rattle.daylines.specs.Labelled.{labelled};
ghost use Rattle.daylines.specs.Day.{unread_text};
ghost use Rattle.daylines.specs.Room.{label_most, hour_room};

use command::input;
use command::options::Command;
use daylines::label;
use messages::day;
use output::Ended;
use system::System;

// No hour's lines are longer.
const ROOM: usize = text::BYTES_MOST
    + (limits::BORDERS_MOST + limits::ROWS_MOST + 1) * (daylines::LABEL_MOST + 1);

// Room for an answer, and for an hour's lines. Each is written out only here: where it is, a check takes a second.
fn answer_room() -> [u8; text::BYTES_MOST]
    ensures { bytes_most ≡ length result }
{
    [0; text::BYTES_MOST]
}

fn lines_room() -> [u8; ROOM]
    ensures { hour_room ≡ length result }
{
    [0; ROOM]
}

// Prints the lines of the files that the command names.
pub fn print(sys: &System, command: &Command, marks: Option<&[u64]>) -> Ended {
    let mut name = arguments::room();
    let mut text = input::room();
    let mut answer = answer_room();
    let mut out = lines_room();
    print_hours(
        sys,
        command,
        marks,
        &mut name,
        &mut text,
        &mut answer,
        &mut out,
    )
}

// One hour after another. What was printed before an error stays printed.
fn print_hours(
    sys: &System,
    command: &Command,
    marks: Option<&[u64]>,
    name: &mut [u8],
    text: &mut [u8],
    answer: &mut [u8],
    out: &mut [u8],
) -> Ended
    requires { (length answer.old ≡ bytes_most) × (hour_room ≤ length out.old) }
{
    let mut refused = false;
    for i in (1..sys.arg_count()).filter(|&i| command.is_file(i)) {
        let n = sys.arg(i, name);
        let ended = print_hour(sys, &name[..n], marks, text, answer, out);
        match ended {
            Ended::Answered => {}
            Ended::Refused(_, _, _) => refused = true,
            Ended::Failed => return ended,
        }
    }
    if refused {
        return Ended::Refused(0, 0, 0);
    }
    Ended::Answered
}

// The table is read whole before any line is written. A label that is too long was told before (crate daylabels).
fn print_hour(
    sys: &System,
    name: &[u8],
    marks: Option<&[u64]>,
    text: &mut [u8],
    answer: &mut [u8],
    out: &mut [u8],
) -> Ended
    requires { (length answer.old ≡ bytes_most) × (hour_room ≤ length out.old) }
{
    let label = label::label_of(name);
    if daylines::LABEL_MOST < label.len() {
        return Ended::Failed;
    }
    let Some(n) = input::read_by_name(sys, name, text) else {
        return print_unread(sys, name, out);
    };
    print_answer(sys, name, marks, &text[..n], answer, out)
}

fn print_unread(sys: &System, name: &[u8], out: &mut [u8]) -> Ended
    requires { (length (label_of name.now) ≤ label_most) × (hour_room ≤ length out.old) }
{
    let n = unread_line(name, out);
    if !telling::written(sys, &out[..n]) {
        return Ended::Failed;
    }
    day::unread(label::label_of(name), name);
    Ended::Refused(0, 0, 0)
}

fn print_answer(
    sys: &System,
    name: &[u8],
    marks: Option<&[u64]>,
    text: &[u8],
    answer: &mut [u8],
    out: &mut [u8],
) -> Ended
    requires { (length (label_of name.now) ≤ label_most) × (length answer.old ≡ bytes_most) × (hour_room ≤ length out.old) }
{
    let n = hour_lines(name, marks, text, answer, out);
    if !telling::written(sys, &out[..n]) {
        return Ended::Failed;
    }
    heard(sys, label::label_of(name), &out[..n], text)
}

// What the lines of an hour say of it: its answer begins behind the first label and a tab.
fn heard(sys: &System, label: &[u8], lines: &[u8], text: &[u8]) -> Ended {
    let n = label.len();
    if lines.len() <= n {
        return Ended::Failed;
    }
    let ended = output::heard(arguments::tail(lines, n + 1));
    telling::explain(sys, label, ended, text, b"");
    ended
}

// The lines of an hour whose table was read, under the label of its file.
fn hour_lines(
    name: &[u8],
    marks: Option<&[u64]>,
    text: &[u8],
    answer: &mut [u8],
    out: &mut [u8],
) -> usize
    requires { (length (label_of name.now) ≤ label_most) × (length answer.old ≡ bytes_most) × (hour_room ≤ length out.old) }
    ensures { Printed result (labelled (label_of name.now) (answer_for (every marks.entry) (listed marks.entry) text.now)) out.new }
{
    let n = put_answer(marks, text, answer);
    daylines::put_labelled(label::label_of(name), &answer[..n], out)
}

// The answer to a table's text. There is room for every answer.
fn put_answer(marks: Option<&[u64]>, text: &[u8], out: &mut [u8]) -> usize
    requires { bytes_most ≤ length out.old }
    ensures { Printed result (answer_for (every marks.entry) (listed marks.entry) text.now) out.new }
{
    let answered = answer::answer_with(text, b"", marks, out);
    let said = answered.written;
    output::told(said, out)
}

// The line of an hour whose table cannot be read.
fn unread_line(name: &[u8], out: &mut [u8]) -> usize
    requires { (length (label_of name.now) ≤ label_most) × (hour_room ≤ length out.old) }
    ensures { Printed result (labelled (label_of name.now) unread_text) out.new }
{
    daylines::put_labelled(label::label_of(name), b"X\n", out)
}
