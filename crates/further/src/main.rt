// The program of the further words, which need more than an answer. Why a border got no more, what differs between two tables, a text repaired, a page, a day.
// The program that answers (crate keravnoth) understands the arguments and hands these words on, with all arguments as they were given.
#![tactic(auto)]

use command::asked::Asked;
use command::input;
use command::options::{Command, OptionName};
use messages::Misuse;
use output::Ended;
use pageform::Figures;
use system::System;
use telling::Status;

fn main(rt: HostRuntime) {
    let sys = System::new(rt);
    let command = Command::read(&sys);
    telling::finish(&sys, &command, obey(&sys, &command))
}

fn obey(sys: &System, command: &Command) -> Result<Status, Misuse> {
    command.judged()?;
    // What it does not understand is for the program that answers, which tells it.
    let Ok(asked) = command.asked(sys) else {
        return telling::elsewhere(command);
    };
    if let Asked::Task(_, _) | Asked::Help | Asked::Version = asked {
        return telling::elsewhere(command);
    }
    command.check(asked)?;
    let ended = match asked {
        Asked::Why(border, table) => obey_read(sys, command, Of::Border(border), table)?,
        Asked::Page(table) => obey_read(sys, command, Of::Table, table)?,
        Asked::Changes(old, new) => changes::obey(sys, command, old, new)?,
        Asked::Tidy(at) => tidywords::obey(sys, command, at)?,
        _ => obey_day(sys, command),
    };
    Ok(Status::from(ended))
}

fn obey_day(sys: &System, command: &Command) -> Ended {
    if !daylabels::judged(sys, command) {
        return Ended::Failed;
    }
    let listed = command.marks(sys);
    let marks = listed.as_ref().map(|list| list.as_slice());
    // In the form that is asked for: as a page, as a sheet, or as lines.
    if command.option(OptionName::Page).is_some() {
        draw_day(sys, command, marks)
    } else if command.option(OptionName::Sheet).is_some() {
        hoursheet::print(sys, command, marks)
    } else {
        hours::print(sys, command, marks)
    }
}

// The page of a day: its front, and from the records of the hours their parts.
fn draw_day(sys: &System, command: &Command, marks: Option<&[u64]>) -> Ended {
    let mut day: [Figures; daysheet::HOURS_MOST] = [pagefacts::blank(); daysheet::HOURS_MOST];
    let n = dayfront::print(sys, command, marks, &mut day);
    if n == 0 {
        return Ended::Failed;
    }
    dayparts::print(sys, marks, &day[..n])
}

// What a table is read for, as a sheet corrects it: why a border of it got no more, or its page.
#[derive(Clone, Copy)]
enum Of {
    Border(u64),
    Table,
}

fn obey_read(sys: &System, command: &Command, of: Of, at: Option<usize>) -> Result<Ended, Misuse> {
    command.check_names(sys, None, at)?;
    let mut sheet = input::room();
    let mut table = input::room();
    Ok(read_both(sys, command, of, at, &mut sheet, &mut table))
}

// The corrections, and then the table. The label of a page is the one that is given, or the table's name.
fn read_both(
    sys: &System,
    command: &Command,
    of: Of,
    at: Option<usize>,
    sheet: &mut [u8],
    table: &mut [u8],
) -> Ended {
    let corrections = command.value(OptionName::Corrections);
    let Some(k) = input::named(sys, corrections, sheet) else {
        return Ended::Failed;
    };
    let Some(n) = input::table(sys, at, table) else {
        return Ended::Failed;
    };
    let table = &table[..n];
    let sheet = &sheet[..k];
    let listed = command.marks(sys);
    let marks = listed.as_ref().map(|list| list.as_slice());
    match of {
        Of::Border(border) => whytext::print(sys, border, marks, table, sheet),
        Of::Table => {
            let label = command.value(OptionName::Label);
            page::word::print(sys, label, at, marks, table, sheet)
        }
    }
}
