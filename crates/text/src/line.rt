// The line at a place of a text, and the letter that a line begins with.
ghost use Rattle.std.specs.Prelude.{◌≡◌, ◌≤◌, length};
ghost use Rattle.text.specs.Line.{line_at, after, headed};

// The line that begins at place p, its LF with it, as the piece of the text that holds it.
pub fn line_at<'a>(text: &'a [u8], p: usize) -> &'a [u8]
    requires { p ≤ length text.now }
    ensures { result.now ≡ line_at text.now p }
{
    let end = line_end(text, p);
    &text[p..end]
}

// The place after the line that begins at place p: past its first LF, or the end of a text that has none.
fn line_end(text: &[u8], p: usize) -> usize
    requires { p ≤ length text.now }
    ensures { result ≡ after text.now p }
{
    for i in p..text.len() {
        if text[i] == b'\n' {
            return i + 1;
        }
    }
    text.len()
}

// Whether a line begins with its letter and the byte that parts its fields.
pub fn headed(line: &[u8], letter: u8, sep: u8) -> bool
    ensures { result ≡ headed letter sep line.now }
{
    line.starts_with(&[letter, sep])
}
