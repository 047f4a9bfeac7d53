// Bytes stored as far as there is room: each writer answers the place after its text, also where that is past the room.
ghost use Rattle.std.specs.Prelude.{◌≡◌, [], ◌∷◌, ◌+◌, ◌<◌, ◌≤◌, length, replicate};
ghost use Rattle.tidy.specs.Clip.{places_most, Clip};

pub fn put(b: u8, out: &mut [u8], at: usize) -> usize
    requires { at < places_most }
    ensures { Clip (b ∷ []) at out.old result out.new }
{
    copy(&[b], out, at)
}

pub fn copy(s: &[u8], out: &mut [u8], at: usize) -> usize
    requires { at + length s.now ≤ places_most }
    ensures { Clip s.now at out.old result out.new }
{
    let next = at + s.len();
    let from = at.min(out.len());
    let until = next.min(out.len());
    out[from..until].copy_from_slice(&s[..until - from]);
    next
}

pub fn zeros(n: usize, out: &mut [u8], at: usize) -> usize
    requires { at + n ≤ places_most }
    ensures { Clip (replicate n 48) at out.old result out.new }
{
    let next = at + n;
    let from = at.min(out.len());
    let until = next.min(out.len());
    out[from..until].fill(b'0');
    next
}
