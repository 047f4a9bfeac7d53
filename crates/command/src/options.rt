// The arguments: a word, what stands after it, and options, which stand before or after the word.
use crate::asked::{Asked, Plain};
use arguments::{List, Piece, lists};
use messages::{Fault, Misuse};
use system::System;

#[derive(Clone, Copy, PartialEq, Eq)]
pub enum OptionName {
    // the file of corrections
    Corrections,
    // the borders that may rise
    Marks,
    // what an hour is called on its page
    Label,
    // how many hours a day has
    Expect,
    // a day as one sheet, or as a page
    Sheet,
    Page,
    // the descriptor that the status goes to; whoever starts the program gives it
    Status,
    // what the program was proved in; whoever starts the program gives it
    Proved,
}

// How many options there are.
const OPTIONS: usize = 8;

impl OptionName {
    fn of(name: &[u8]) -> Option<OptionName> {
        match name {
            b"--corrections" => Some(OptionName::Corrections),
            b"--marks" => Some(OptionName::Marks),
            b"--label" => Some(OptionName::Label),
            b"--expect" => Some(OptionName::Expect),
            b"--sheet" => Some(OptionName::Sheet),
            b"--page" => Some(OptionName::Page),
            b"--status-fd" => Some(OptionName::Status),
            b"--proved" => Some(OptionName::Proved),
            _ => None,
        }
    }

    fn takes_value(self) -> bool {
        !matches!(self, OptionName::Sheet | OptionName::Page)
    }

    // That the value is missing.
    fn missing(self) -> Fault {
        match self {
            OptionName::Corrections => Fault::FileMissing,
            OptionName::Marks => Fault::ListMissing,
            OptionName::Expect => Fault::NumberMissing,
            OptionName::Status => Fault::DescriptorMissing,
            _ => Fault::TextMissing,
        }
    }
}

// An option that is given: the argument that names it, and its value, which stands behind a = there, or is the next argument. One without a value has an
// empty one.
#[derive(Clone, Copy)]
pub struct Given {
    pub at: usize,
    pub value: Piece,
}

#[derive(Clone, Copy)]
pub struct Command {
    pub plain: Plain,
    options: [Option<Given>; OPTIONS],
    // an option whose value comes next, and the argument that names it
    due: Option<(usize, OptionName)>,
    // the first misuse
    misuse: Option<Misuse>,
}

impl Command {
    // All arguments are looked at, also after a wrong one: the status has to be told.
    pub fn read(sys: &System) -> Command {
        let mut command = Command {
            plain: Plain::default(),
            options: [None; OPTIONS],
            due: None,
            misuse: None,
        };
        for i in 1..sys.arg_count() {
            if let Err(misuse) = command.take(sys, i) {
                command.note(misuse);
            }
        }
        // The last option may lack its value.
        if let Some((at, option)) = command.due {
            command.note(Misuse::about(at, option.missing()));
        }
        command
    }

    fn note(&mut self, misuse: Misuse) {
        self.misuse = self.misuse.or(Some(misuse));
    }

    fn take(&mut self, sys: &System, i: usize) -> Result<(), Misuse> {
        let due = self.due.take();
        let mut own = arguments::room();
        let Some(n) = sys.try_arg(i, &mut own) else {
            return Err(Misuse::argument(i, Fault::TooLong));
        };
        match due {
            Some((at, option)) => self.take_value(sys, option, at, Piece::whole(i)),
            None => self.take_word(sys, i, &own[..n]),
        }
    }

    fn take_word(&mut self, sys: &System, i: usize, word: &[u8]) -> Result<(), Misuse> {
        let end = lists::find(word, 0, b'=');
        match OptionName::of(&word[..end]) {
            Some(option) if option.takes_value() || end == word.len() => {
                self.take_option(sys, option, i, word, end)
            }
            _ => self.take_plain(i, word),
        }
    }

    fn take_option(
        &mut self,
        sys: &System,
        option: OptionName,
        i: usize,
        word: &[u8],
        end: usize,
    ) -> Result<(), Misuse> {
        if self.option(option).is_some() {
            return Err(Misuse::about(i, Fault::Twice));
        }
        if end < word.len() {
            let from = end + 1;
            return self.take_value(sys, option, i, Piece { at: i, from });
        }
        if option.takes_value() {
            self.due = Some((i, option));
        } else {
            let value = Piece { at: i, from: end };
            self.options[option as usize] = Some(Given { at: i, value });
        }
        Ok(())
    }

    // A value that cannot be taken leaves its option without one.
    fn take_value(
        &mut self,
        sys: &System,
        option: OptionName,
        at: usize,
        value: Piece,
    ) -> Result<(), Misuse> {
        let fault = match option {
            OptionName::Marks if value.list(sys).is_none() => Some(Fault::NoList),
            OptionName::Expect if value.number(sys).is_none() => Some(Fault::NoNumber),
            OptionName::Status if value.descriptor(sys).is_none() => Some(Fault::NoDescriptor),
            _ => None,
        };
        if let Some(fault) = fault {
            return Err(Misuse {
                about: Some(at),
                wrong: Some(value),
                fault,
            });
        }
        self.options[option as usize] = Some(Given { at, value });
        Ok(())
    }

    // Help or version, asked for by an option, replaces the word and what stood after it. Whether there may be more than these, `asked::understand` knows.
    fn take_plain(&mut self, i: usize, word: &[u8]) -> Result<(), Misuse> {
        let plain = &mut self.plain;
        match word {
            b"--help" | b"-h" | b"--version" => {
                *plain = Plain {
                    word: Some(i),
                    ..Plain::default()
                };
            }
            _ if word.starts_with(b"--") => return Err(Misuse::argument(i, Fault::Unknown)),
            _ if plain.word.is_none() => plain.word = Some(i),
            _ if plain.first.is_none() => plain.first = Some(i),
            _ if plain.second.is_none() => plain.second = Some(i),
            _ if plain.third.is_none() => plain.third = Some(i),
            _ => {}
        }
        Ok(())
    }

    // The option, where it is given.
    pub fn option(&self, option: OptionName) -> Option<Given> {
        self.options[option as usize]
    }

    // Its value.
    pub fn value(&self, option: OptionName) -> Option<Piece> {
        self.option(option).map(|given| given.value)
    }

    // The borders that may rise, where they are listed.
    pub fn marks(&self, sys: &System) -> Option<List> {
        self.value(OptionName::Marks)?.list(sys)
    }

    // The first misuse of an argument by itself, where there is one.
    pub fn judged(&self) -> Result<(), Misuse> {
        match self.misuse {
            Some(misuse) => Err(misuse),
            None => Ok(()),
        }
    }

    // What is asked for, where the arguments are good. Whether the options go with it, `check` says.
    pub fn asked(&self, sys: &System) -> Result<Asked, Misuse> {
        self.judged()?;
        crate::asked::understand(sys, self.plain)
    }

    // Whether each option that is given goes with what is asked for.
    pub fn check(&self, asked: Asked) -> Result<(), Misuse> {
        // A table in the place of a word is none.
        let word = if asked.has_word() {
            self.plain.word
        } else {
            None
        };
        let ruled = [
            OptionName::Corrections,
            OptionName::Marks,
            OptionName::Label,
            OptionName::Expect,
            OptionName::Sheet,
            OptionName::Page,
        ];
        for option in ruled {
            if !asked.options().contains(&option) {
                self.without(word, option)?;
            }
        }
        match self.option(OptionName::Sheet) {
            Some(sheet) => self.without(Some(sheet.at), OptionName::Page),
            None => Ok(()),
        }
    }

    // The option does not go with a word or another option.
    fn without(&self, about: Option<usize>, option: OptionName) -> Result<(), Misuse> {
        match self.option(option) {
            Some(given) => Err(Misuse {
                about,
                wrong: Some(Piece::whole(given.at)),
                fault: Fault::NotWith,
            }),
            None => Ok(()),
        }
    }

    // Whether an argument is neither the word nor of an option. These are the files of a day.
    pub fn is_file(&self, i: usize) -> bool {
        self.plain.word != Some(i)
            && !self
                .options
                .iter()
                .flatten()
                .any(|given| i == given.at || i == given.value.at)
    }

    // Whether every file that is named has a name that can be read by: the corrections, the one that goes with the word, the table. Standard input is for the
    // table alone, and is known by its names: another file that leads there by another name is read when the table is due, and is empty then.
    pub fn check_names(
        &self,
        sys: &System,
        file: Option<usize>,
        table: Option<usize>,
    ) -> Result<(), Misuse> {
        if let Some(given) = self.option(OptionName::Corrections) {
            check_name(sys, Some(given.at), given.value, false)?;
        }
        if let Some(at) = file {
            check_name(sys, self.plain.word, Piece::whole(at), false)?;
        }
        if let Some(at) = table {
            check_name(sys, None, Piece::whole(at), true)?;
        }
        Ok(())
    }
}

fn check_name(
    sys: &System,
    about: Option<usize>,
    name: Piece,
    is_table: bool,
) -> Result<(), Misuse> {
    let mut own = arguments::room();
    match name.read(sys, &mut own) {
        b"" => Err(Misuse {
            about,
            wrong: None,
            fault: Fault::NameEmpty,
        }),
        b"-" | b"/dev/stdin" | b"/dev/fd/0" | b"/proc/self/fd/0" if !is_table => Err(Misuse {
            about,
            wrong: Some(name),
            fault: Fault::StandardInput,
        }),
        _ => Ok(()),
    }
}
