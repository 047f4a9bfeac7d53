// The sentences about the rows that hold a border at the end, and about the margin of the one that ended its reasons.
ghost use Rattle.io.specs.Counts.{IsPrefixLen};

use crate::Case;
use holding::{HoldRecord, Reasons};
use partrules::PartsRecord;
use walk::grid;

// The first three rows that allow the border no kW more, and how many there are.
#[derive(Clone, Copy)]
pub struct Held {
    pub first: [u64; 3],
    pub count: u64,
}

// Those of all rows but one.
pub fn holders(rows: &[HoldRecord], but: Option<usize>) -> Held {
    let mut first = [0; 3];
    let mut count: u64 = 0;
    for (i, row) in rows.iter().enumerate() {
        if row[2] == 0 && Some(i) != but {
            if let Some(place) = first.get_mut(count as usize) {
                *place = i as u64;
            }
            count = count.saturating_add(1);
        }
    }
    Held { first, count }
}

// How many are named by their count only.
fn more(count: u64) -> u64 {
    count.saturating_sub(3)
}

// Which row stopped the border. At the end others may stop it too, and the result names the first of all by its number.
pub fn put_stop(
    case: Case,
    reasons: Reasons,
    rows: &[HoldRecord],
    out: &mut [u8],
    at: usize,
) -> usize
    ensures { IsPrefixLen result out.new }
{
    let row = case.row as u64;
    let named = reasons.named.unsigned_abs();
    let others = holders(rows, Some(case.row));
    let figures = [
        row,
        reasons.last.saturating_add(1),
        others.first[0],
        others.first[1],
        others.first[2],
        more(others.count),
        named,
    ];
    let stopped = if row == named { 0 } else { 1 };
    let too = match others.count {
        0 => 2,
        1 => 3,
        2 => 4,
        3 => 5,
        _ => 6,
    };
    let lines = [stopped, too, naming(others.count, row == named)];
    let list = b"Row $0 stopped it.$-\n\
        Row $0 stopped it, from round $0 on.\n\
        |$-$-$-$-\n\
        \x20At the end row $0 stops it too$-$-$-\n\
        \x20At the end rows $0 and $0 stop it too$-$-\n\
        \x20At the end rows $0, $0 and $0 stop it too$-\n\
        \x20At the end rows $0, $0, $0 and $0 more stop it too\n\
        \n\
        .|\n\
        , and the result names that row because it comes first.|\n\
        , and the result names row $0 because it comes first.|";
    forms::put_all(list, &lines, &figures, out, at)
}

// Which form says that the result names another row.
fn naming(others: u64, is_named: bool) -> usize {
    match others {
        0 => 7,
        _ if is_named => 8,
        1 => 9,
        _ => 10,
    }
}

// What would hold the border if the rows that hold it did not.
pub fn put_next(border: usize, rows: &[HoldRecord], out: &mut [u8], at: usize) -> usize
    ensures { IsPrefixLen result out.new }
{
    let held = holders(rows, None);
    let behind = next_behind(rows);
    let (row, kw) = behind.unwrap_or((0, 0));
    let figures = [
        held.first[0],
        held.first[1],
        held.first[2],
        more(held.count),
        row,
        border as u64,
        kw,
    ];
    let begins = if behind.is_none() { 1 } else { 0 };
    let names = match held.count {
        1 => 2,
        2 => 3,
        3 => 4,
        _ => 5,
    };
    let limits = if behind.is_none() { 7 } else { 6 };
    let lines = [begins, names, limits];
    let list = b"Next behind \n\
        Behind \n\
        row $0$-$-$-\n\
        rows $0 and $0$-$-\n\
        rows $0, $0 and $0$-\n\
        rows $0, $0, $0 and $0 more\n\
        : row $0, whose equal share would raise border $0 by $3 MW in one round.|\n\
        $- no kept row limits border $0.|";
    forms::put_all(list, &lines, &figures, out, at)
}

// The row that would allow the least of those that allow some, and what it would allow, kW; none where none limits the border.
fn next_behind(rows: &[HoldRecord]) -> Option<(u64, u64)> {
    rows.iter()
        .enumerate()
        .filter(|(_, row)| 0 < row[2])
        .min_by_key(|(_, row)| row[2])
        .map(|(i, row)| (i as u64, row[2].unsigned_abs()))
}

// What a row's RAM is made of: parts that are 0 are left out.
pub fn put_ram(case: Case, margin: PartsRecord, out: &mut [u8], at: usize) -> usize
    ensures { IsPrefixLen result out.new }
{
    let figures = [
        case.row as u64,
        margin[10].cast_unsigned(),
        margin[4].cast_unsigned(),
        margin[5].cast_unsigned(),
        margin[7].cast_unsigned(),
        margin[8].cast_unsigned(),
        margin[9].cast_unsigned(),
    ];
    let lines = [
        0,
        unless_0(figures[3], 1),
        unless_0(figures[4], 2),
        unless_0(figures[5], 3),
        unless_0(figures[6], 4),
        6,
    ];
    let list = b"RAM of row $0 is $m MW = Base $m\n\
        \x20+ AMR $m\n\
        \x20+ LTA margin $m\n\
        \x20- CVA $m\n\
        \x20- IVA $m\n\
        $-\n\
        .|";
    forms::put_all(list, &lines, &figures, out, at)
}

// The line of a part, or that of nothing where the part is 0.
fn unless_0(part: u64, line: usize) -> usize {
    if part == 0 { 5 } else { line }
}

// What was taken of the row's margin before the rounds: by rights, or by the allocated positions of an intraday table.
pub fn put_taken(case: Case, margin: PartsRecord, out: &mut [u8], at: usize) -> usize
    ensures { IsPrefixLen result out.new }
{
    let rights = margin[6];
    let ram = margin[10];
    let start = margin[11];
    let loaded = ram.wrapping_sub(start).cast_unsigned();
    let figures = [
        rights.unsigned_abs(),
        loaded,
        loaded.wrapping_neg(),
        start.unsigned_abs(),
    ];
    let line = taking(case.intraday, rights, ram, start);
    let list = b"No rights load it\n\
        The rights of all borders take $m MW of it\n\
        The allocated positions relieve it by $-$-$m MW\n\
        The allocated positions take $-$m MW of it\n\
        The allocated positions put $-$m MW on it, $-$m MW more than its RAM: it has nothing to give to any border that loads it.|";
    forms::put(list, line, &figures, out, at)
}

// Which form says so.
fn taking(intraday: bool, rights: i64, ram: i64, start: i64) -> usize {
    if start < 0 {
        return 4;
    }
    if intraday {
        return if ram < start { 2 } else { 3 };
    }
    if rights == 0 { 0 } else { 1 }
}

// What the rounds shared out, and why what is left helps nobody: it is shared equally, and the share is under what one kW more on the border takes.
// A margin that starts below 0 has nothing to share out.
pub fn put_left(case: Case, start: i64, hold: HoldRecord, out: &mut [u8], at: usize) -> usize
    ensures { IsPrefixLen result out.new }
{
    let n = hold[0].unsigned_abs();
    let left = hold[1].unsigned_abs();
    let shared = start.unsigned_abs().saturating_sub(left);
    let figures = [
        shared,
        left,
        left,
        n,
        grid::equal_share(left, n),
        case.border as u64,
        case.factor,
    ];
    let lines = leaving(start < 0, shared, left, n);
    let list = b"\n\
        ; nothing was shared out in the rounds, and $-\n\
        ; $m MW were shared out in the rounds, and \n\
        nothing is left.|\n\
        less than 1 kW is left.|$-\n\
        $m MW are left.|\n\
        In kW, $5 are left, and one kW more on border $-$-$0 takes $5.|\n\
        In kW, $5 are left; an equal share for each of its $0 borders is $5, and one kW more on border $0 takes $5.|";
    forms::put_all(list, &lines, &figures, out, at)
}

// Grains in one kW.
const KW: u64 = 100000;

// Which forms say so.
fn leaving(overloaded: bool, shared: u64, left: u64, n: u64) -> [usize; 3] {
    if overloaded {
        return [0; 3];
    }
    let out = if shared == 0 { 1 } else { 2 };
    if left == 0 {
        return [out, 3, 0];
    }
    let few = if left < KW { 4 } else { 5 };
    let each = if n <= 1 { 6 } else { 7 };
    [out, few, each]
}
