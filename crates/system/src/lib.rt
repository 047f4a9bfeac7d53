// What the program asks of the system, over the handle that `main` is given: arguments, files, standard input and output; and why the last call that failed did.
#![tactic(auto)]

ghost use Rattle.std.specs.Prelude.{◌≡◌, IfSome};
ghost use Rattle.std.specs.Result.{result_ok};
ghost use Rattle.io.specs.Counts.{IsPrefixLen};

use std::cell::Cell;
use std::env::{Env, FillError};
use std::fs;
use std::fs::File;
use std::io::{Error, Read, Stdin, Write};
use std::os::unix::fs::FileTypeExt;

// The descriptor of standard error.
pub const STDERR: i32 = 2;

// The numbers of the system's errors: none; a descriptor that is not open for it; an argument that is missing; a full disk; a pipe that nobody reads; an argument
// that is too long; a name that is no text, by which `std` opens no file.
const NONE: i32 = 0;

const BAD_DESCRIPTOR: i32 = 9;

const MISSING: i32 = 22;

const FULL: i32 = 28;

const UNREAD: i32 = 32;

const TOO_LONG: i32 = 36;

const NO_TEXT: i32 = 84;

#[derive(Drop)]
pub struct System {
    rt: HostRuntime,
    // of the last call that failed, or that was about an argument
    error: Cell<i32>,
}

impl System {
    pub fn new(rt: HostRuntime) -> System {
        System {
            rt,
            error: Cell::new(NONE),
        }
    }

    // How many arguments there are, the program's name among them.
    pub fn arg_count(&self) -> usize {
        for i in 0..usize::MAX {
            if let Err(FillError::NotPresent) = self.rt.arg(i, &mut []) {
                return i;
            }
        }
        usize::MAX
    }

    // Puts argument i at the start of the buffer: its length, or 0 where it is missing or too long.
    pub fn arg(&self, i: usize, buf: &mut [u8]) -> usize
        ensures { IsPrefixLen result buf.new }
    {
        self.try_arg(i, buf).unwrap_or(0)
    }

    // The same, and whether it is all there. Of one that is too long the first bytes are put.
    pub fn try_arg(&self, i: usize, buf: &mut [u8]) -> Option<usize>
        ensures { IfSome result (λ n. IsPrefixLen n buf.new) }
    {
        let filled = self.rt.arg(i, buf);
        self.error.set(match filled {
            Ok(_) => NONE,
            Err(FillError::TooLong) => TOO_LONG,
            Err(FillError::NotPresent) => MISSING,
        });
        filled.ok()
    }

    // Opens a file for reading.
    pub fn open(&self, name: &[u8]) -> Option<File> {
        let Ok(path) = std::str::from_utf8(name) else {
            self.error.set(NO_TEXT);
            return None;
        };
        self.noted(File::open(&self.rt, path))
    }

    pub fn stdin(&self) -> Stdin {
        self.rt.stdin()
    }

    // Reads once: how many bytes, 0 at the end.
    pub fn read<R: Read>(&self, from: &mut R, buf: &mut [u8]) -> Option<usize>
        ensures { IfSome result (λ n. IsPrefixLen n buf.new) }
    {
        self.noted(from.read(buf))
    }

    // Writes a text to standard output: false where not all could be written.
    pub fn print(&self, text: &[u8]) -> bool {
        self.noted(self.rt.stdout().write_all(text)).is_some()
    }

    // Writes a text to a descriptor: false where not all could be written.
    pub fn write(&self, fd: i32, text: &[u8]) -> bool {
        if io::write_all(fd, text) {
            return true;
        }
        self.error.set(self.why_unwritten(fd));
        false
    }

    // No call of `std` takes a descriptor by its number, so that the error of one is not told: the system's link for it says what it is.
    fn why_unwritten(&self, fd: i32) -> i32 {
        let Ok(path) = format!(in self.rt.alloc(); "/proc/self/fd/{fd}") else {
            return NONE;
        };
        match fs::symlink_metadata(&self.rt, path.as_str()) {
            Ok(link) if !link.permissions().readonly() => {}
            _ => return BAD_DESCRIPTOR,
        }
        match fs::metadata(&self.rt, path.as_str()) {
            Ok(file) if file.file_type().is_fifo() => UNREAD,
            _ => FULL,
        }
    }

    // What a call gave. Why it failed is kept.
    fn noted<T>(&self, done: Result<T, Error>) -> Option<T>
        ensures { result ≡ result_ok done }
    {
        match done {
            Ok(value) => Some(value),
            Err(e) => {
                self.error.set(e.raw_os_error().unwrap_or(NONE));
                None
            }
        }
    }

    // Says on standard error what failed, and why.
    pub fn fail(&self, what: &[u8]) {
        say(what);
        say(b": ");
        self.say_error();
        say(b"\n");
    }

    // The system's words for the error: an `Error` shows its number behind them.
    fn say_error(&self) {
        let error = Error::from_raw_os_error(self.error.get());
        if let Ok(words) = format!(in self.rt.alloc(); "{error}") {
            match words.split_once(" (os error ") {
                Some((text, _)) => say(text.as_bytes()),
                None => say(words.as_bytes()),
            }
        }
    }
}

// Says words on standard error.
pub fn say(words: &[u8]) {
    io::write_all(STDERR, words);
}
