// The first two lines: the border, and how far it rose.
ghost use Rattle.io.specs.Counts.{IsPrefixLen};

use holding::{EndRecord, Reasons};
use types::BorderRecord;

pub fn put(
    border: u64,
    raw: BorderRecord,
    end: EndRecord,
    reasons: Reasons,
    intraday: bool,
    out: &mut [u8],
) -> usize
    ensures { IsPrefixLen result out.new }
{
    let start = end[0].unsigned_abs() / 1000;
    let atc = end[1].unsigned_abs() / 1000;
    let raised = atc.saturating_sub(start);
    let lines = lines(raw[3] < 0, intraday, start == 0, rose(reasons, raised));
    let figures = [
        border,
        raw[0].cast_unsigned(),
        raw[1].cast_unsigned(),
        raw[3].cast_unsigned(),
        raw[4].cast_unsigned(),
        atc,
        start,
        raised,
        reasons.last,
        reasons.rounds,
    ];
    let list = b"Border $0, zone $0 to zone $0\n\
        \x20(hubs $0 and $0)\n\
        $-$-\n\
        : ATC $0 MW.|\n\
        : ATC $0 MW in addition to the allocated positions.|\n\
        It starts at \n\
        It is not marked: it stays where it starts, at \n\
        $0 MW\n\
        its rights of $0 MW\n\
        , and no row stopped it.|\n\
        , and there was no round: no border could be raised.|\n\
        , and no round raised it.|\n\
        ; the rounds raised it by less than 1$- MW, last in round $0 of $0.|\n\
        ; the rounds raised it by $0 MW, last in round $0 of $0.|";
    forms::put_all(list, &lines, &figures, out, 0)
}

const UNMARKED: usize = 9;

// Which form says what the rounds raised it by, MW.
fn rose(reasons: Reasons, raised: u64) -> usize {
    if reasons.ended < 0 {
        UNMARKED
    } else if reasons.rounds == 0 {
        10
    } else if reasons.last == 0 {
        11
    } else if raised == 0 {
        12
    } else {
        13
    }
}

// Which forms make up the two lines. Rights are named where there are some.
fn lines(no_hubs: bool, intraday: bool, from_0: bool, rose: usize) -> [usize; 6] {
    let hubs = if no_hubs { 2 } else { 1 };
    let capacity = if intraday { 4 } else { 3 };
    let begins = if rose == UNMARKED { 6 } else { 5 };
    let rights = if intraday || from_0 { 7 } else { 8 };
    [0, hubs, capacity, begins, rights, rose]
}
