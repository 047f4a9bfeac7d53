// The borders that use a row most. Of two that use it alike the one of the lower index comes first.
ghost use Rattle.io.specs.Counts.{IsPrefixLen};

use crate::Case;
use holding::EndRecord;
use types::BorderRecord;
use walk::grid::Grid;

// p of row i at border b.
pub fn factor_at(grid: &Grid, i: usize, b: usize) -> u64 {
    if i < grid.rows && b < grid.borders {
        grid.factor(i, b)
    } else {
        0
    }
}

// A border's capacity, MW.
pub fn atc_at(ends: &[EndRecord], b: usize) -> u64 {
    ends.get(b).map_or(0, |end| end[1].unsigned_abs() / 1000)
}

// What a border of that capacity puts on a row at that factor, grains: p for each kW. A row's margin is under 2^48 grains, so no product is near the limit.
fn load(factor: u64, mw: u64) -> u64 {
    mw.checked_mul(1000)
        .and_then(|kw| factor.checked_mul(kw))
        .unwrap_or(0)
}

// A border that uses a row, and what it uses, grains.
#[derive(Clone, Copy)]
pub struct User {
    border: usize,
    used: u64,
}

// The three borders that use a row most, fewer where no more use it.
pub type Users = [Option<User>; 3];

// Those of row i.
pub fn users_of(grid: &Grid, ends: &[EndRecord], i: usize) -> Users {
    let mut users = [None; 3];
    for border in 0..grid.borders {
        let used = load(factor_at(grid, i, border), atc_at(ends, border));
        if 0 < used {
            add(&mut users, User { border, used });
        }
    }
    users
}

// One more border, at its place among them.
fn add(users: &mut Users, user: User) {
    let [first, second, third] = *users;
    if uses_less(first, user) {
        *users = [Some(user), first, second];
    } else if uses_less(second, user) {
        *users = [first, Some(user), second];
    } else if uses_less(third, user) {
        *users = [first, second, Some(user)];
    }
}

fn uses_less(other: Option<User>, user: User) -> bool {
    other.is_none_or(|other| other.used < user.used)
}

// A user's border, its zones, and what it uses.
fn figures_of(user: Option<User>, b: &[BorderRecord]) -> [u64; 4] {
    let Some(User { border, used }) = user else {
        return [0; 4];
    };
    let zones = b.get(border).map_or([0; 2], |raw| {
        [raw[0].unsigned_abs(), raw[1].unsigned_abs()]
    });
    [border as u64, zones[0], zones[1], used]
}

// Who uses the row: three borders at most, and the border itself where it is none of them.
pub fn put(case: Case, users: Users, b: &[BorderRecord], out: &mut [u8], at: usize) -> usize
    ensures { IsPrefixLen result out.new }
{
    let lines = who(users, case);
    let first = figures_of(users[0], b);
    let second = figures_of(users[1], b);
    let third = figures_of(users[2], b);
    let figures = [
        case.row as u64,
        first[0],
        first[1],
        first[2],
        first[3],
        second[0],
        second[1],
        second[2],
        second[3],
        third[0],
        third[1],
        third[2],
        third[3],
        case.row as u64,
        case.border as u64,
        load(case.factor, case.atc),
        case.atc,
        case.factor,
    ];
    let list = b"\n\
        Only $-border $0, $0 to $0 ($m MW)\n\
        Most of row $0 is used by border $0, $0 to $0 ($m MW)\n\
        $-$-$-$-\n\
        , border $0, $0 to $0 ($m MW)\n\
        \x20and border $0, $0 to $0 ($m MW)\n\
        \x20uses row $0.|\n\
        .|$-\n\
        Border $0 uses $m MW of it: $0 MW times its factor $5.|";
    forms::put_all(list, &lines, &figures, out, at)
}

// Which forms say so.
fn who(users: Users, case: Case) -> [usize; 5] {
    let is_named = users
        .iter()
        .any(|user| user.is_some_and(|user| user.border == case.border));
    let own = if is_named || case.atc == 0 { 0 } else { 8 };
    match users {
        [None, _, _] => [0; 5],
        [_, None, _] => [1, 3, 3, 6, own],
        [_, _, None] => [2, 5, 3, 7, own],
        _ => [2, 4, 5, 7, own],
    }
}
