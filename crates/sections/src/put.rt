// What was read, put in front of lent tables.
ghost use Rattle.std.specs.Prelude.{◌≡◌, ◌≤◌, length, take};
ghost use Rattle.numbers.specs.Below.{over};

// So many items, of which there are as many on either side, are copied. The rest stays as it was.
pub fn put_front<T: Copy>(n: usize, from: &[T], to: &mut [T])
    requires { (n ≤ length from.now) × (n ≤ length to.old) }
    ensures { to.new ≡ over (take n from.now) to.old }
{
    to[..n].copy_from_slice(&from[..n]);
}
