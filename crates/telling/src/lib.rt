// What people are told of what came of printing: nothing of an answer, the meaning of a refusal, and that writing failed; and the status.
#![tactic(auto)]

use command::options::{Command, OptionName};
use faultwords::Blamed;
use messages::{Fault, Misuse, Texts};
use output::Ended;
use refusals::Refusal;
use system::System;

// The program's last word, by its digit.
#[derive(Clone, Copy)]
pub enum Status {
    Answered,
    Refused,
    Failed,
    // the other program is to be asked
    Elsewhere,
}

impl From<Ended> for Status {
    fn from(ended: Ended) -> Status {
        match ended {
            Ended::Answered => Status::Answered,
            Ended::Refused(_, _, _) => Status::Refused,
            Ended::Failed => Status::Failed,
        }
    }
}

// The status that hands a word on to the other program. Where nobody hears it, that is a misuse.
pub fn elsewhere(command: &Command) -> Result<Status, Misuse> {
    match command.option(OptionName::Status) {
        Some(_) => Ok(Status::Elsewhere),
        None => Err(Misuse {
            about: command.plain.word,
            wrong: None,
            fault: Fault::OtherProgram,
        }),
    }
}

// Tells a misuse, and writes the status, a digit on a line, to the descriptor that is given: a program of this language has no exit status, so whoever
// starts it hands this on.
pub fn finish(sys: &System, command: &Command, obeyed: Result<Status, Misuse>) {
    let status = match obeyed {
        Ok(status) => status,
        Err(misuse) => {
            misuse.tell(sys);
            Status::Failed
        }
    };
    let Some(given) = command.value(OptionName::Status) else {
        return;
    };
    let line = [b'0' + status as u8, b'\n'];
    let written = given
        .descriptor(sys)
        .is_some_and(|descriptor| sys.write(descriptor, &line));
    if !written {
        sys.fail(b"keravnoth: status");
    }
}

// Says on standard error what people need to know, of a table as a sheet corrects it. Before it stands what it is about where that is named.
pub fn explain<'a>(sys: &System, of: &[u8], ended: Ended, table: &'a [u8], sheet: &'a [u8]) {
    let texts = Texts {
        table,
        sheet,
        file: b"",
    };
    explain_with(sys, of, false, ended, &texts)
}

// The same where a file went with the word, which is blamed where the caller says so.
pub fn explain_with(sys: &System, of: &[u8], of_file: bool, ended: Ended, texts: &Texts) {
    match ended {
        Ended::Answered => {}
        Ended::Refused(number, place, byte) => match blamed(of_file, number, texts) {
            Some((which, text)) => {
                let mut out = [0; ROOM];
                let n = faultwords::put(which, number, place, byte, texts.table, text, &mut out);
                messages::line(of, &out[..n]);
            }
            None => messages::refusal(of, number, place, byte, texts),
        },
        Ended::Failed => unwritten(sys),
    }
}

// Room for the words of a line that is blamed: none has half as many bytes.
const ROOM: usize = 512;

// The text whose line is blamed, and which of them it is. A correction sheet that begins with a digit has semicolon rows.
fn blamed<'a>(of_file: bool, number: u64, texts: &Texts<'a>) -> Option<(Blamed, &'a [u8])> {
    match number {
        2..=3 if of_file => Some((Blamed::Sheet, texts.file)),
        2..=3 => Some((Blamed::Table, texts.table)),
        10 if text::field::byte_at(texts.sheet, 0).is_ascii_digit() => {
            Some((Blamed::Rows, texts.sheet))
        }
        10 => Some((Blamed::Corrections, texts.sheet)),
        _ => None,
    }
}

// Room for an E line.
const LINE: usize = 64;

// Prints the E line of a refusal, and says what it means.
pub fn refuse<'a>(sys: &System, of: &[u8], w: Refusal, table: &'a [u8], sheet: &'a [u8]) -> Ended {
    let mut line = [0; LINE];
    let n = output::refusal_line(w, &mut line);
    let ended = output::put(sys, &line[..n]);
    explain(sys, of, ended, table, sheet);
    ended
}

// What was written before an error stays written: the message is all that can be said.
pub fn unwritten(sys: &System) {
    sys.fail(b"keravnoth: writing");
}

// What came of it where all was written. That it was not is said.
pub fn told(sys: &System, all: bool, ended: Ended) -> Ended {
    if all {
        return ended;
    }
    unwritten(sys);
    Ended::Failed
}

// Whether a text was written to its end. That it was not is said.
pub fn written(sys: &System, text: &[u8]) -> bool {
    let written = sys.print(text);
    if !written {
        unwritten(sys);
    }
    written
}
