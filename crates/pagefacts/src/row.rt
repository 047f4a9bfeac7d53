// A row's record. Powers in grains.
use holding::HoldRecord;
use pagebars::positive;
use pageform::Figures;
use partrules::PartsRecord;

// a
pub const INDEX: usize = 0;

// b to j, running sums that become places on the bar: what is taken within RAM; all that is taken; with what was shared out; with what is left;
// Base; with AMR; with the LTA margin; the bar's end; RAM
pub const WITHIN: usize = 1;

pub const TAKEN_AT: usize = 2;

pub const SHARED_AT: usize = 3;

pub const LEFT_AT: usize = 4;

pub const BASE_AT: usize = 5;

pub const AMR_AT: usize = 6;

pub const MADE_AT: usize = 7;

pub const REACH_AT: usize = 8;

pub const RAM_AT: usize = 9;

// K: why it is shown; O: its number among those shown for the same reason
pub const KIND: usize = 36;

pub const ORDINAL: usize = 40;

// n, s, l: how many borders load it, how many it stops, and how many it alone stops
pub const SHARERS: usize = 13;

pub const STOPPED: usize = 18;

pub const ALONE: usize = 11;

// T, S, L: taken by the rights or the allocated positions, shared out, left; M: the starting margin
pub const TAKEN: usize = 45;

pub const SHARED: usize = 44;

pub const LEFT: usize = 37;

pub const START: usize = 38;

// B, C, D, E, F, R: Base, AMR, LTA margin, CVA, IVA, RAM
pub const BASE: usize = 27;

pub const AMR: usize = 28;

pub const LTA_MARGIN: usize = 29;

pub const CVA: usize = 30;

pub const IVA: usize = 31;

pub const RAM: usize = 43;

// G, U: how far the bar goes, and the end of the scale
pub const REACH: usize = 32;

pub const END: usize = 46;

// x, Q: more is taken than RAM, and how much
pub const SHORT: usize = 42;

pub const OVER: usize = 23;

// Z, z: the kept row that says the same, and its RAM
pub const SAME: usize = 51;

pub const SAME_RAM: usize = 25;

// A, I, H: the hour is answered; it is intraday; its number on a page of several
pub const ANSWERED: usize = 26;

pub const INTRADAY: usize = 34;

pub const HOUR: usize = 33;

// Why a row is shown.
#[derive(Clone, Copy)]
pub enum Kind {
    Stops = 1,
    Kept,
    Small,
    SaysTheSame,
}

// Whether the row is shown for that reason.
pub fn is(r: &Figures, kind: Kind) -> bool {
    r[KIND] == kind as u64
}

pub fn is_kept(r: &Figures) -> bool {
    is(r, Kind::Stops) || is(r, Kind::Kept)
}

// What its RAM is made of, and where its margin starts: below 0 where more is taken than RAM.
pub fn made(mut r: Figures, index: usize, margin: PartsRecord, start: i64) -> Figures {
    let state = margin[0];
    let ram = margin[10];
    r[INDEX] = index as u64;
    r[SHARERS] = margin[1].cast_unsigned();
    r[BASE] = margin[4].cast_unsigned();
    r[AMR] = margin[5].cast_unsigned();
    r[LTA_MARGIN] = margin[7].cast_unsigned();
    r[CVA] = margin[8].cast_unsigned();
    r[IVA] = margin[9].cast_unsigned();
    r[RAM] = ram.cast_unsigned();
    r[START] = margin[11].cast_unsigned();
    r[TAKEN] = ram.wrapping_sub(start).cast_unsigned();
    r[SHORT] = start.wrapping_neg().cast_unsigned();
    r[OVER] = u64::from(start < 0 && state == 0);
    r[KIND] = match state {
        0 => Kind::Kept,
        1 => Kind::Small,
        _ => Kind::SaysTheSame,
    } as u64;
    r
}

// What a border's reasons tell of the row, which may be the only one that stops that border.
pub fn counted(mut r: Figures, hold: HoldRecord, alone: bool) -> Figures {
    let [sharers, left, allows] = hold;
    if allows == 0 {
        r[STOPPED] = r[STOPPED].wrapping_add(1);
        r[ALONE] = r[ALONE].wrapping_add(u64::from(alone));
        r[KIND] = Kind::Stops as u64;
    }
    r[SHARERS] = sharers.cast_unsigned();
    r[LEFT] = left.cast_unsigned();
    r
}

// The sums of its bar. Where the hour is refused nothing is shared out, and what it starts with is left.
pub fn summed(mut r: Figures, answered: bool) -> Figures {
    let start = positive(r[START]);
    let left = if answered { r[LEFT] } else { start };
    let taken = positive(r[TAKEN]);
    let shared = start.wrapping_sub(left);
    let used = taken.wrapping_add(shared);
    let all = used.wrapping_add(left);
    let floor = r[BASE].wrapping_add(r[AMR]);
    let made = floor.wrapping_add(r[LTA_MARGIN]);
    let reach = all.max(made);
    r[SHARED] = shared;
    r[WITHIN] = taken.min(positive(r[RAM]));
    r[TAKEN_AT] = taken;
    r[SHARED_AT] = used;
    r[LEFT_AT] = all;
    r[BASE_AT] = positive(r[BASE]);
    r[AMR_AT] = floor;
    r[MADE_AT] = made;
    r[REACH_AT] = reach;
    r[REACH] = reach;
    r[RAM_AT] = r[RAM];
    r
}
