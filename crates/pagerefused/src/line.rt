// A line of a text with one byte marked. Of a long line some bytes around that one are shown.
use system::System;

// The number of a line, from 1 on, and its bytes: none where the text ends before it.
#[derive(Clone, Copy)]
struct Line<'a> {
    number: u64,
    bytes: &'a [u8],
}

// The most bytes that are shown, and how many of them stand before a marked one that is far behind.
const SHOWN: usize = 240;

const BEFORE: usize = 120;

// Prints line `index`, from 0, of all or of those that begin with the letter; byte `marked` of it, from 0, is marked.
pub fn print(
    sys: &System,
    letter: Option<u8>,
    index: u64,
    marked: Option<usize>,
    text: &[u8],
) -> bool {
    let line = line_of(letter, index, text);
    let first = first_shown(marked.unwrap_or(0), line.bytes.len());
    let figures = [
        line.number,
        first as u64,
        line.bytes.len().saturating_sub(first).saturating_sub(SHOWN) as u64,
        u64::from(!line.bytes.ends_with(b"\n")),
        u64::from(line.bytes.is_empty()),
    ];
    let list =
        b"<p class=\"line\"><u>line $a</u> {b<i>$b bytes</i> }\n{e<i>the text ends here</i>|{c <i>$c bytes</i>}{d <i>no LF</i>}}</p>`\n";
    let mut out = [0u8; 8192];
    let mut n = pageform::put(list, 0, &figures, &mut out, 0);
    for (k, &byte) in line.bytes.iter().enumerate().skip(first).take(SHOWN) {
        n = put_shown(byte, marked == Some(k), &mut out, n);
    }
    let n = pageform::put(list, 1, &figures, &mut out, n);
    sys.print(&out[..n])
}

// Where the bytes that are shown begin.
fn first_shown(marked: usize, len: usize) -> usize {
    if marked < SHOWN - BEFORE || len <= marked {
        0
    } else {
        marked - BEFORE
    }
}

fn line_of(letter: Option<u8>, index: u64, text: &[u8]) -> Line<'_> {
    let mut seen: u64 = 0;
    let mut number: u64 = 1;
    for bytes in text.split_inclusive(|&byte| byte == b'\n') {
        if letter.is_none() || bytes.first().copied() == letter {
            if seen == index {
                return Line { number, bytes };
            }
            seen = seen.saturating_add(1);
        }
        if bytes.ends_with(b"\n") {
            number = number.saturating_add(1);
        }
    }
    Line { number, bytes: &[] }
}

fn put_shown(byte: u8, marked: bool, out: &mut [u8], at: usize) -> usize {
    if !marked {
        return put_named(byte, out, at);
    }
    let next = forms::put_form(b"<b>", &[], out, at);
    let next = put_named(byte, out, next);
    forms::put_form(b"</b>", &[], out, next)
}

// Bytes that cannot be seen have names.
fn put_named(byte: u8, out: &mut [u8], at: usize) -> usize {
    match byte {
        b'\t' => forms::put_form(b"<i>TAB</i>", &[], out, at),
        b'\n' => forms::put_form(b"<i>LF</i>", &[], out, at),
        b'\r' => forms::put_form(b"<i>CR</i>", &[], out, at),
        b' ' => forms::put_form(b"<i>blank</i>", &[], out, at),
        b'!'..=b'~' => pageform::safe::put_byte(byte, out, at),
        _ => {
            let next = forms::put_form(b"<i>", &[], out, at);
            let next = pageform::safe::put_hex(byte, out, next);
            forms::put_form(b"</i>", &[], out, next)
        }
    }
}
