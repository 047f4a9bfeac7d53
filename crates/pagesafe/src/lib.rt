// How a byte of a text from outside stands on a page, so that it is never taken for HTML. Apart from the code that writes it, since this is what is promised.
#![tactic(auto)]

ghost use Rattle.std.specs.Prelude.{◌≡◌};
ghost use Rattle.pagesafe.specs.Shown.{shown_as};

// As it is, by its number, as a blank, or in hexadecimal digits.
#[derive(Clone, Copy)]
pub enum Shown {
    AsItIs,
    Numbered,
    Blank,
    Strange,
}

// No byte that means something in HTML is shown as it is, and none that is not plain.
pub fn shown_as(byte: u8) -> Shown
    ensures { result ≡ shown_as byte }
{
    match byte {
        b'&' | b'<' | b'>' | b'"' | b'\'' => Shown::Numbered,
        b'\n' => Shown::Blank,
        b' '..=b'~' => Shown::AsItIs,
        _ => Shown::Strange,
    }
}
