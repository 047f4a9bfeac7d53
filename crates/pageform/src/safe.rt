// Text from outside: a byte that means something in HTML is written by its number, a LF as a blank, and what is not plain in brackets, as two hexadecimal digits.
use pagesafe::Shown;

pub fn put(text: &[u8], out: &mut [u8], at: usize) -> usize {
    let mut next = at;
    for &byte in text {
        next = put_byte(byte, out, next);
    }
    next
}

pub fn put_byte(byte: u8, out: &mut [u8], at: usize) -> usize {
    match pagesafe::shown_as(byte) {
        Shown::AsItIs => forms::put_byte(byte, out, at),
        Shown::Numbered => forms::put_form(b"&#$0;", &[u64::from(byte)], out, at),
        Shown::Blank => forms::put_byte(b' ', out, at),
        Shown::Strange => {
            let next = forms::put_byte(b'[', out, at);
            let next = put_hex(byte, out, next);
            forms::put_byte(b']', out, next)
        }
    }
}

const DIGITS: [u8; 16] = *b"0123456789ABCDEF";

// Two hexadecimal digits.
pub fn put_hex(byte: u8, out: &mut [u8], at: usize) -> usize {
    let next = forms::put_byte(DIGITS[usize::from(byte / 16)], out, at);
    forms::put_byte(DIGITS[usize::from(byte % 16)], out, next)
}
