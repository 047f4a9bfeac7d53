// What is said of a day: what is wrong with the files that are named, and what became of an hour, whose label stands in front.
use system::{STDERR, say};

// No file is named.
pub fn no_file() {
    say(b"keravnoth: day: no file is named\n");
}

// More files are named than a sheet or a page has hours.
pub fn too_many() {
    say(b"keravnoth: day: more than 100 files for one sheet or page\n");
}

// Another number of files is named than was expected.
pub fn counted(expected: u64, named: u64) {
    say(b"keravnoth: day: ");
    io::print_decimal(STDERR, expected);
    say(b" tables were expected, and ");
    io::print_decimal(STDERR, named);
    say(b" are named\n");
}

// Why the name of a file gives no label.
#[derive(Clone, Copy)]
pub enum NoLabel {
    StandardInput,
    WrongByte,
    // for a sheet
    WrongByteOfSheet,
    TooLong,
}

impl NoLabel {
    fn words(self) -> &'static str {
        match self {
            NoLabel::StandardInput => "is standard input, which has no label",
            NoLabel::WrongByte => {
                "gives no label: it is empty, or has a tab or another control byte"
            }
            NoLabel::WrongByteOfSheet => {
                "gives no label: it is empty, or has a tab or another control byte, or a semicolon or a quote"
            }
            NoLabel::TooLong => "gives no label: it has more than 255 bytes",
        }
    }
}

// The name of a file gives no label.
pub fn unlabelled(name: &[u8], why: NoLabel) {
    say(b"keravnoth: day: ");
    quote(name);
    say(b" ");
    say(why.words().as_bytes());
    say(b"\n");
}

// Two files have one label.
pub fn doubled(label: &[u8], name: &[u8], other: &[u8]) {
    say(b"keravnoth: day: two files have the label ");
    quote(label);
    say(b": ");
    quote(name);
    say(b" and ");
    quote(other);
    say(b"\n");
}

// The table of an hour cannot be read.
pub fn unread(label: &[u8], name: &[u8]) {
    of_hour(label);
    quote(name);
    say(b" cannot be read\n");
}

// The table of an hour is another when it is read a second time, as for a page.
pub fn changed(label: &[u8], name: &[u8]) {
    of_hour(label);
    quote(name);
    say(b" is not the same when it is read again: a page reads each table twice\n");
}

fn of_hour(label: &[u8]) {
    say(b"keravnoth: ");
    say(label);
    say(b": ");
}

fn quote(text: &[u8]) {
    say(b"'");
    for part in text.chunk_by(|&one, &next| is_plain(one) && is_plain(next)) {
        say_plain(part);
    }
    say(b"'");
}

fn is_plain(byte: u8) -> bool {
    matches!(byte, b' '..=b'~')
}

// Plain characters, or one byte that is none, which is shown as two hex digits in brackets: all stands on one line.
fn say_plain(part: &[u8]) {
    match part {
        [byte] if !is_plain(*byte) => {
            let digits = b"0123456789ABCDEF";
            let high = digits[*byte as usize / 16];
            let low = digits[*byte as usize % 16];
            say(&[b'[', high, low, b']']);
        }
        _ => say(part),
    }
}
