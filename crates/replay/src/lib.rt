// The rules' rounds by the letter, a given number of them, over a flat table of factors p (01, "Extraction"): what the margins were in the midst of the work, which the fast
// loop (roundloop) does not keep. Margins are in grains.
#![tactic(auto)]

ghost use Rattle.std.specs.Prelude.{◌≡◌, ◌*◌, ◌≤◌, length};
ghost use Rattle.limits.specs.Limits.{borders_most};
ghost use Rattle.rounds.specs.AllRounds.{Ready};
ghost use Rattle.walk.specs.Flat.{flat_of};
ghost use Rattle.replay.specs.Replay.{margins_after};

use walk::grid::Grid;

// The margins after so many rounds. The room is made here, and not in `replay_in`, whose goals would spell it out.
pub fn replay(grid: &Grid, ns: &[u64], rounds: u64, margins: &mut [u64])
    requires borders_few { grid.now.borders ≤ borders_most }
    requires ready { Ready (flat_of grid.now) ns.now margins.old }
    ensures { margins.new ≡ margins_after (flat_of grid.now) margins.old rounds }
{
    let mut rising: [usize; limits::BORDERS_MOST] = [0; limits::BORDERS_MOST];
    let mut raises: [u64; limits::BORDERS_MOST] = [0; limits::BORDERS_MOST];
    replay_in(
        grid,
        ns,
        rounds,
        margins,
        &mut rising[..grid.borders],
        &mut raises[..grid.borders],
    )
}

// Each round finds all raises from the margins at its start; then every row loses the sum of p times raise. No margin depends on where the borders stand.
fn replay_in(
    grid: &Grid,
    ns: &[u64],
    rounds: u64,
    margins: &mut [u64],
    rising: &mut [usize],
    raises: &mut [u64],
)
    requires ready { Ready (flat_of grid.now) ns.now margins.old }
    requires rising_len { (length rising.old ≡ grid.now.borders) × (length raises.old ≡ grid.now.borders) }
    ensures { margins.new ≡ margins_after (flat_of grid.now) margins.old rounds }
{
    for k in 0..rounds {
        walk::begin(grid, ns, margins, rising, raises);
        resting::settle(grid, raises, rising, margins);
    }
}
