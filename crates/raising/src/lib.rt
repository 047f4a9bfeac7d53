// What a round does to the borders: whether it raises one, and the raises themselves (01, "Extraction"; 02, E7), of the borders that `rising` lists.
// A border's cap is its raise, in kW.
#![tactic(auto)]

ghost use Rattle.std.specs.Prelude.{◌≡◌, ltb, length};
ghost use Rattle.numbers.specs.Below.{at, if_zero, count};
ghost use Rattle.walk.specs.Walk.{Listed};
ghost use Rattle.raising.specs.Raising.{Risable, Rose};

// Whether the round raises a border.
pub fn rises(caps: &[u64], rising: &[usize]) -> bool
    requires { Listed (length caps.now) caps.now rising.now }
    ensures { result ≡ ltb 0 (count (length caps.now) (at caps.now)) }
{
    for &b in rising {
        if caps[b] > 0 {
            return true;
        }
    }
    false
}

// Every border rises: its exchange, and what it gained. Those that do have the round noted as their last (02, E7). Borders that are not listed rise by 0.
pub fn rise(
    caps: &[u64],
    rising: &[usize],
    round: u64,
    gained: &mut [u64],
    x: &mut [u64],
    lasts: &mut [u64],
)
    requires { Risable caps.now rising.now gained.old x.old lasts.old }
    ensures { Rose caps.now gained.old x.old lasts.old round gained.new x.new lasts.new }
{
    for &b in rising {
        let raise = caps[b];
        gained[b] += raise;
        x[b] += raise;
        // Always written, which is cheaper than a test.
        lasts[b] = later(raise, lasts[b], round);
    }
}

// The last round of a border: this one if it rises, else the one noted before.
fn later(raise: u64, last: u64, round: u64) -> u64
    ensures { result ≡ if_zero raise last round }
{
    if raise == 0 { last } else { round }
}
