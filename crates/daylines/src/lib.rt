// The lines of an hour behind its label, as a day has them.
#![tactic(auto)]

pub mod label;

ghost use Rattle.std.specs.Prelude.{true, [], ◌∷◌, ◌++◌, ◌+◌, ◌≤◌, length};
ghost use Rattle.text.specs.Put.{Put};
ghost use Rattle.output.specs.Buffer.{Printed};
ghost use Rattle.daylines.specs.Labelled.{heading, labelled};

// A label has no more bytes: the name of a file has none either.
pub const LABEL_MOST: usize = 255;

// Each line of the text behind the label and a tab.
pub fn put_labelled(label: &[u8], text: &[u8], out: &mut [u8]) -> usize
    requires { length (labelled label.now text.now) ≤ length out.old }
    ensures { Printed result (labelled label.now text.now) out.new }
{
    let mut next: usize = 0;
    let mut begins = true;
    for k in 0..text.len() {
        next = put_heading(label, begins, out, next);
        next = text::put::put_byte(text[k], out, next);
        begins = text[k] == b'\n';
    }
    next
}

// What stands before a byte that begins a line, or goes on in one.
fn put_heading(label: &[u8], begins: bool, out: &mut [u8], at: usize) -> usize
    requires { at + length (heading label.now begins) ≤ length out.old }
    ensures { Put (heading label.now begins) at out.old result out.new }
{
    if !begins {
        return at;
    }
    let next = output::put_bytes(label, out, at);
    text::put::put_byte(b'\t', out, next)
}
