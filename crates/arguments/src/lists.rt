// Lists as one text: which piece has which place, and where a byte stands.
ghost use Rattle.std.specs.Prelude.{◌≡◌, ◌≤◌, length};
ghost use Rattle.io.specs.Counts.{IsPrefixLen};
ghost use Rattle.arguments.specs.Same.{same_bytes};

// Whether two pieces hold the same bytes.
pub fn same(word: &[u8], other: &[u8]) -> bool
    ensures { result ≡ same_bytes word.now other.now }
{
    word == other
}

// Line k of the list, without its LF; nothing where there is no such line.
pub fn line<'a>(list: &'a [u8], k: usize) -> &'a [u8] {
    piece(list, k, b'\n')
}

// Piece k of a text whose pieces end at a byte, without it; nothing where there is no such piece.
pub fn piece<'a>(text: &'a [u8], k: usize, stop: u8) -> &'a [u8] {
    text.split(|&byte| byte == stop).nth(k).unwrap_or(b"")
}

// Where piece k begins: the text's end where there is none.
pub fn begin(text: &[u8], k: usize, stop: u8) -> usize
    ensures { result ≤ length text.now }
{
    let mut from = 0;
    for _ in 0..k {
        let end = find(text, from, stop);
        if end == text.len() {
            return end;
        }
        from = end + 1;
    }
    from
}

// The first place from there on that has the byte, or the text's end.
pub fn find(text: &[u8], from: usize, byte: u8) -> usize
    requires { from ≤ length text.now }
    ensures lower_bound { from ≤ result }
    ensures prefix_len { IsPrefixLen result text.now }
{
    match text[from..].iter().position(|&found| found == byte) {
        Some(n) => from + n,
        None => text.len(),
    }
}
