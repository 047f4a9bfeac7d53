// One byte of a piece after the other.
use crate::safe;

// What the next byte is.
#[derive(Clone, Copy)]
enum Next {
    Text,
    // the name of a figure that is written, and its form
    Shown(&'static [u8]),
    // the name of a figure that opens a part where it is not 0
    NotZero,
    // both names of a part that opens where the first figure is less than the second, and the first figure
    Less,
    LessThan(u64),
}

// The place to write at; how many open parts are left out, the byte's own among them; and what the byte is.
#[derive(Clone, Copy)]
pub struct State {
    pub at: usize,
    skip: usize,
    next: Next,
}

impl State {
    pub fn new(at: usize) -> State {
        State {
            at,
            skip: 0,
            next: Next::Text,
        }
    }

    // What one more byte makes of it.
    pub fn take(self, byte: u8, figures: &[u64], out: &mut [u8]) -> State {
        match self.next {
            Next::Text => self.take_text(byte, out),
            Next::Shown(form) => self.show(form, figure(byte, figures), out),
            Next::NotZero => self.open(figure(byte, figures) != 0),
            Next::Less => State {
                next: Next::LessThan(figure(byte, figures)),
                ..self
            },
            Next::LessThan(first) => self.open(first < figure(byte, figures)),
        }
    }

    // At a part's middle what was left out is written from here on, and what was written is left out.
    fn take_text(mut self, byte: u8, out: &mut [u8]) -> State {
        match byte {
            b'$' => self.next = Next::Shown(b"$0"),
            b'~' => self.next = Next::Shown(b"$t"),
            b'^' => self.next = Next::Shown(b"$m"),
            b'{' => self.next = Next::NotZero,
            b'?' => self.next = Next::Less,
            b'|' => self.skip = match self.skip {
                0 => 1,
                1 => 0,
                skip => skip,
            },
            b'}' => self.skip = self.skip.saturating_sub(1),
            _ if self.skip == 0 => {
                let byte = if byte == b'`' { b'\n' } else { byte };
                self.at = forms::put_byte(byte, out, self.at);
            }
            _ => {}
        }
        self
    }

    // At a part's beginning.
    fn open(self, wanted: bool) -> State {
        let skip = if self.skip == 0 && wanted {
            0
        } else {
            self.skip.saturating_add(1)
        };
        State {
            skip,
            next: Next::Text,
            ..self
        }
    }

    // A figure may have a < before it: it is written as a text from outside.
    fn show(mut self, form: &[u8], figure: u64, out: &mut [u8]) -> State {
        self.next = Next::Text;
        if self.skip == 0 {
            let mut own = [0u8; 32];
            let n = forms::put_form(form, &[figure], &mut own, 0);
            self.at = safe::put(&own[..n], out, self.at);
        }
        self
    }
}

// The figure of a name.
fn figure(name: u8, figures: &[u64]) -> u64 {
    let place = match name {
        b'0'..=b'9' => return u64::from(name - b'0'),
        b'a'..=b'z' => name - b'a',
        b'A'..=b'Z' => name - b'A' + 26,
        _ => return 0,
    };
    figures.get(usize::from(place)).copied().unwrap_or(0)
}
