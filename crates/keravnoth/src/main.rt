// The program: a table by name or on standard input, its answer on standard output (01, "Result text"); a word asks for something else (`messages::usage`).
// What a refusal means, and that reading or writing failed, is said on standard error: a table that was not read to its end is not answered.
// Words that need more than an answer are those of another program (crate further): this one understands them, and hands them on.
// Whoever starts the program gives it two options that are not for people: with `--status-fd N` its last word is its status, on descriptor N;
// `--proved TEXT` is what `--version` says that it was proved in.
#![tactic(auto)]

use arguments::Piece;
use command::asked::{Asked, Names, Task};
use command::input;
use command::options::{Command, OptionName};
use messages::{Fault, Misuse, Texts, usage};
use output::Ended;
use printing::tasks;
use system::System;
use telling::Status;

fn main(rt: HostRuntime) {
    let sys = System::new(rt);
    let command = Command::read(&sys);
    telling::finish(&sys, &command, obey(&sys, &command))
}

fn obey(sys: &System, command: &Command) -> Result<Status, Misuse> {
    let asked = command.asked(sys)?;
    let ended = match asked {
        Asked::Task(task, names) => {
            command.check(asked)?;
            obey_task(sys, command, task, names)?
        }
        Asked::Help => {
            command.check(asked)?;
            telling::told(sys, usage::usage(sys), Ended::Answered)
        }
        Asked::Version => {
            command.check(asked)?;
            let proved = command.value(OptionName::Proved);
            telling::told(sys, usage::version(sys, proved), Ended::Answered)
        }
        _ => return telling::elsewhere(command),
    };
    Ok(Status::from(ended))
}

fn obey_task(sys: &System, command: &Command, task: Task, names: Names) -> Result<Ended, Misuse> {
    command.check_names(sys, names.file, names.table)?;
    let mut sheet = input::room();
    let mut file = input::room();
    let mut table = input::room();
    read_all(sys, command, task, names, &mut sheet, &mut file, &mut table)
}

// First the files that arguments name are read, the corrections and what goes with the word, and then the table.
fn read_all(
    sys: &System,
    command: &Command,
    task: Task,
    names: Names,
    sheet: &mut [u8],
    file: &mut [u8],
    table: &mut [u8],
) -> Result<Ended, Misuse> {
    let corrections = command.value(OptionName::Corrections);
    let Some(k) = input::named(sys, corrections, sheet) else {
        return Ok(Ended::Failed);
    };
    let Some(m) = input::named(sys, names.file.map(Piece::whole), file) else {
        return Ok(Ended::Failed);
    };
    let Some(n) = input::table(sys, names.table, table) else {
        return unread(command, names.table);
    };
    let texts = Texts {
        table: &table[..n],
        sheet: &sheet[..k],
        file: &file[..m],
    };
    Ok(answer(sys, command, task, names.file.is_some(), &texts))
}

// What stands in a word's place and cannot be read may have been meant as a word.
fn unread(command: &Command, table: Option<usize>) -> Result<Ended, Misuse> {
    match table {
        Some(at) if table == command.plain.word => Err(Misuse::argument(at, Fault::NoWord)),
        _ => Ok(Ended::Failed),
    }
}

fn answer(sys: &System, command: &Command, task: Task, with_file: bool, texts: &Texts) -> Ended {
    let listed = command.marks(sys);
    let marks = listed.as_ref().map(|list| list.as_slice());
    let ended = tasks::print(sys, task, marks, texts.table, texts.sheet, texts.file);
    let of_file = with_file && blames_file(ended, texts);
    telling::explain_with(sys, b"", of_file, ended, texts);
    ended
}

// Whether a refusal is about the file after the word. The E line does not say so: it is where the table itself is good, as the sheet corrects it.
fn blames_file(ended: Ended, texts: &Texts) -> bool {
    let Ended::Refused(_, _, _) = ended else {
        return false;
    };
    let mut out = input::room();
    rewriting::rewrite_corrected(texts.table, texts.sheet, &mut out).is_ok()
}
