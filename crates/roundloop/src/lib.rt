// The rounds of the extraction, one after the other (01, "Extraction"), over a flat table of factors p. Margins are in grains, exchanges and raises in kW.
// A round's raises are the caps that the walk of the round before left, and a round is a walk over the rows that do not rest (02, E4).
#![tactic(auto)]

ghost use Rattle.std.specs.Prelude.{◌≡◌, ◌*◌, ◌≤◌, length};
ghost use Rattle.rounds.specs.AllRounds.{Startable, work_left, work_of};
ghost use Rattle.walk.specs.Flat.{flat_of};

use resting::Block;
use rounds::Final;
use walk::grid::Grid;

// All rounds, from any margins and exchanges. `lasts` is left with the last round that raised each border (02, E7).
// Allocates the working arrays here so that the proof goals of `do_rounds` do not contain them.
pub fn extract_rounds(
    grid: &Grid,
    ns: &[u64],
    margins: &mut [u64],
    start: [u64; limits::BORDERS_MOST],
    lasts: &mut [u64],
) -> Final
    requires startable { Startable (flat_of grid.now) ns.now margins.old start }
    requires lasts_len { length lasts.old ≡ grid.now.borders }
    ensures { work_left result margins.new lasts.new ≡ work_of (flat_of grid.now) margins.old start }
{
    let mut gained: [u64; limits::BORDERS_MOST] = [0; limits::BORDERS_MOST];
    let mut caps: [u64; limits::BORDERS_MOST] = [0; limits::BORDERS_MOST];
    let mut rising: [usize; limits::BORDERS_MOST] = [0; limits::BORDERS_MOST];
    let mut near: [usize; limits::ROWS_MOST] = [0; limits::ROWS_MOST];
    let places = grid.rows.min(limits::ROWS_MOST);
    do_rounds(
        grid,
        ns,
        margins,
        start,
        lasts,
        &mut gained[..grid.borders],
        &mut caps[..grid.borders],
        &mut rising[..grid.borders],
        &mut near[..places],
    )
}

// Rounds until one raises nothing; that one is not counted. The slices after `lasts` are working memory: `gained` has what each border rose by since the margins
// were last lowered; the first places of `rising` list the borders that gained or still rise; the first places of `near` list rows that do not rest.
fn do_rounds(
    grid: &Grid,
    ns: &[u64],
    margins: &mut [u64],
    start: [u64; limits::BORDERS_MOST],
    lasts: &mut [u64],
    gained: &mut [u64],
    caps: &mut [u64],
    rising: &mut [usize],
    near: &mut [usize],
) -> Final
    requires startable { Startable (flat_of grid.now) ns.now margins.old start }
    requires lasts_len { length lasts.old ≡ grid.now.borders }
    requires gained_len { (length gained.old ≡ grid.now.borders) × (length caps.old ≡ grid.now.borders) }
    requires rising_len { (length rising.old ≡ grid.now.borders) × (length near.old ≤ grid.now.rows) }
    ensures { work_left result margins.new lasts.new ≡ work_of (flat_of grid.now) margins.old start }
{
    let mut x = start;
    let mut done: u64 = 0;
    let mut block = Block {
        live: grid.borders,
        count: 0,
        wait: 0,
    };
    lasts.fill(0);
    gained.fill(0);
    walk::begin(grid, ns, margins, rising, caps);
    loop {
        block = resting::renew(grid, ns, caps, done, block, margins, gained, rising, near);
        let listed = &rising[..block.live];
        if !raising::rises(caps, listed) {
            resting::settle(grid, gained, listed, margins);
            break Final { x, rounds: done };
        }
        done += 1;
        raising::rise(caps, listed, done, gained, &mut x[..grid.borders], lasts);
        resting::walk_near(grid, ns, margins, gained, listed, near, block.count, caps);
        block.wait -= 1;
    }
}
