// The label of an hour: its file's name without folder and ending.
ghost use Rattle.std.specs.Prelude.{◌≡◌, ◌≤◌, length};
ghost use Rattle.daylines.specs.Label.{past_last, without_ending, label_of};

pub fn label_of<'a>(name: &'a [u8]) -> &'a [u8]
    ensures { result.now ≡ label_of name.now }
{
    let base = past_last(name, b'/');
    without_ending(&name[base..])
}

// The ending begins at the last dot, unless that is the first byte.
fn without_ending<'a>(file: &'a [u8]) -> &'a [u8]
    ensures { result.now ≡ without_ending file.now }
{
    let dot = past_last(file, b'.');
    if dot <= 1 {
        return file;
    }
    let end = dot - 1;
    &file[..end]
}

// The place after the last such byte, 0 where there is none.
fn past_last(text: &[u8], byte: u8) -> usize
    ensures value { result ≡ past_last byte text.now }
    ensures upper_bound { result ≤ length text.now }
{
    let mut past: usize = 0;
    for i in 0..text.len() {
        if text[i] == byte {
            past = i + 1;
        }
    }
    past
}
