// The hour's record.
use pageform::Figures;
use refusals::Refusal;
use tightrules::RoundsMost;
use types::Header;

// H: its number on a page of several, 0 on its own page
pub const HOUR: usize = 33;

// z, b, r: zones, borders, rows
pub const ZONES: usize = 25;

pub const BORDERS: usize = 1;

pub const ROWS: usize = 17;

// k: rows kept; p, q: those that stop borders, and the others; P: those of p that the heading has no place for
pub const KEPT: usize = 10;

pub const STOP: usize = 15;

pub const OTHER: usize = 16;

pub const MORE: usize = 41;

// u, v, w: rows under 5%, rows that say the same as another, both together
pub const SMALL: usize = 20;

pub const SAME: usize = 21;

pub const NOT_KEPT: usize = 22;

// m, n: marks are given; how many borders are marked
pub const MARKS: usize = 12;

pub const MARKED: usize = 13;

// A, I: it is answered; it is intraday
pub const ANSWERED: usize = 26;

pub const INTRADAY: usize = 34;

// R, S, B, N, L: rounds; the sharper bound of them; 2 x N x L
pub const ROUNDS: usize = 43;

pub const SHARP: usize = 44;

pub const BOUND: usize = 27;

pub const SHARERS: usize = 39;

pub const BITS: usize = 37;

// C: some border has hubs; o: some bar is longer than the scale; f: another row than the named one ended a rise; g: more than RAM is taken of some row; d: borders that
// several rows stop
pub const CABLES: usize = 28;

pub const LONGER: usize = 14;

pub const SOONER: usize = 5;

pub const OVER: usize = 6;

pub const SEVERAL: usize = 3;

// e, D, E, F: the marks of the scale of the borders, MW; s, T, U, V: those of the rows
pub const STEP: usize = 4;

pub const STEPS: usize = 29;

pub const ROW_STEP: usize = 18;

pub const ROW_STEPS: usize = 45;

// x, y: longer lists of other rows, or of reasons, are closed
pub const ROWS_OPEN: usize = 23;

pub const WHYS_OPEN: usize = 24;

// t: bytes of the table
pub const BYTES: usize = 19;

// X, Y, Z: number, place and byte of a refusal
pub const NUMBER: usize = 49;

pub const PLACE: usize = 50;

pub const BYTE: usize = 51;

// j: bytes of the reasons
pub const WHYS: usize = 9;

// An empty record of an hour of a page of several, or of the only one, which is 0. The records of its borders and rows begin with it.
pub fn numbered(mut r: Figures, number: u64) -> Figures {
    r[HOUR] = number;
    r
}

// What its header says.
pub fn headed(mut r: Figures, h: Header, all: bool) -> Figures {
    r[ZONES] = h.zones as u64;
    r[BORDERS] = h.borders as u64;
    r[ROWS] = h.rows as u64;
    r[INTRADAY] = u64::from(h.is_intraday());
    r[MARKS] = u64::from(!all);
    r[ROWS_OPEN] = 25;
    r[WHYS_OPEN] = 13;
    r
}

pub fn bounded(mut r: Figures, rounds: u64, most: RoundsMost, whys: usize) -> Figures {
    r[ANSWERED] = 1;
    r[ROUNDS] = rounds;
    r[SHARP] = most.sharp;
    r[BOUND] = most.rounds;
    r[SHARERS] = most.sharers;
    r[BITS] = most.bits;
    r[WHYS] = whys as u64;
    r
}

pub fn refused(mut r: Figures, w: Refusal) -> Figures {
    r[NUMBER] = w.number() as u64;
    r[PLACE] = w.place() as u64;
    r[BYTE] = w.byte() as u64;
    r
}

// How many rows there are of each kind.
pub fn sorted(mut r: Figures, stop: u64, other: u64, small: u64, same: u64) -> Figures {
    r[STOP] = stop;
    r[OTHER] = other;
    r[KEPT] = stop.wrapping_add(other);
    r[MORE] = stop.wrapping_sub(8);
    r[SMALL] = small;
    r[SAME] = same;
    r[NOT_KEPT] = small.wrapping_add(same);
    r
}

// The marks of both scales: four steps each.
pub fn scaled(mut r: Figures, end: u64, row_end: u64) -> Figures {
    let step = end / 4;
    let row_step = row_end / 4;
    r[STEP] = step;
    r[STEPS] = step.wrapping_add(step);
    r[STEPS + 1] = end.wrapping_sub(step);
    r[STEPS + 2] = end;
    r[ROW_STEP] = row_step;
    r[ROW_STEPS] = row_step.wrapping_add(row_step);
    r[ROW_STEPS + 1] = row_end.wrapping_sub(row_step);
    r[ROW_STEPS + 2] = row_end;
    r
}
