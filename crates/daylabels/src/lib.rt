// Judges the files of a day before anything is printed: how many there are, and that each has a label of its own. A misuse is told where it is seen.
// What a good name is (labels), and when two labels are the same, is promised; of which names the arguments are no contract can speak.
#![tactic(auto)]

ghost use Rattle.std.specs.Prelude.{◌≡◌, ◌<◌};
ghost use Rattle.labels.specs.Labels.{name_good};

use arguments::lists;
use command::options::{Command, OptionName};
use daylines::label;
use messages::day;
use messages::day::NoLabel;
use system::System;

// A sheet or a page has no more hours: a day has at most 100 quarter-hours.
const SHEET_MOST: usize = 100;

pub fn judged(sys: &System, command: &Command) -> bool {
    let count = sys.arg_count();
    let named = (1..count).filter(|&i| command.is_file(i)).count();
    if named == 0 {
        day::no_file();
        return false;
    }
    if !expected(sys, command, named as u64) {
        return false;
    }
    let sheet = command.option(OptionName::Sheet).is_some();
    if (sheet || command.option(OptionName::Page).is_some()) && SHEET_MOST < named {
        day::too_many();
        return false;
    }
    labels_judged(sys, command, count, sheet)
}

// The memory for two names is made here, and not where goals would spell it out.
fn labels_judged(sys: &System, command: &Command, count: usize, sheet: bool) -> bool {
    let mut name = arguments::room();
    let mut other = arguments::room();
    labels_good(sys, command, count, sheet, &mut name, &mut other)
}

// Whether just so many are named as were expected.
fn expected(sys: &System, command: &Command, named: u64) -> bool {
    let Some(value) = command.value(OptionName::Expect) else {
        return true;
    };
    match value.number(sys) {
        Some(n) if n == named => true,
        Some(n) => {
            day::counted(n, named);
            false
        }
        None => false,
    }
}

// Whether each file has a label, and no other file the same.
fn labels_good(
    sys: &System,
    command: &Command,
    count: usize,
    sheet: bool,
    name: &mut [u8],
    other: &mut [u8],
) -> bool {
    for i in 1..count {
        if command.is_file(i) {
            let n = sys.arg(i, name);
            let name = &name[..n];
            if !label_good(name, sheet) || !alone(sys, command, i, count, name, other) {
                return false;
            }
        }
    }
    true
}

fn label_good(name: &[u8], sheet: bool) -> bool
    ensures { result ≡ name_good sheet name.now }
{
    let label = label::label_of(name);
    let why = if lists::same(b"-", name) {
        NoLabel::StandardInput
    } else if !labels::is_label(label, sheet) {
        if sheet {
            NoLabel::WrongByteOfSheet
        } else {
            NoLabel::WrongByte
        }
    } else if daylines::LABEL_MOST < label.len() {
        NoLabel::TooLong
    } else {
        return true;
    };
    day::unlabelled(name, why);
    false
}

// Whether no file after that of argument i has its label.
fn alone(
    sys: &System,
    command: &Command,
    i: usize,
    count: usize,
    name: &[u8],
    other: &mut [u8],
) -> bool
    requires { i < count }
{
    let label = label::label_of(name);
    for j in i + 1..count {
        if command.is_file(j) {
            let n = sys.arg(j, other);
            let other = &other[..n];
            if lists::same(label, label::label_of(other)) {
                day::doubled(label, name, other);
                return false;
            }
        }
    }
    true
}
