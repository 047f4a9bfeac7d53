// A border's record.
use holding::{EndRecord, Reasons};
use pageform::Figures;
use types::BorderRecord;

// a
pub const INDEX: usize = 0;

// b, c: where the start and the ATC stand on the bar
pub const START_AT: usize = 1;

pub const ATC_AT: usize = 2;

// f, t: zones
pub const FROM: usize = 5;

pub const TO: usize = 19;

// k: it has hubs; s, r: which
pub const HUBS: usize = 10;

pub const SENDING: usize = 18;

pub const RECEIVING: usize = 17;

// C: some border has hubs
pub const CABLES: usize = 28;

// m: it is marked
pub const MARKED: usize = 12;

// l, g, A: where it starts, what the rounds raised it by, its ATC; MW
pub const START: usize = 11;

pub const RAISED: usize = 6;

pub const ATC: usize = 26;

// u: the end of the scale; o: the ATC is longer
pub const END: usize = 20;

pub const LONGER: usize = 14;

// L: the last round that raised it
pub const LAST: usize = 37;

// i, J: the row that the result names, and the row that ended its rise; w: they are not the same
pub const NAMED: usize = 8;

pub const ENDED: usize = 35;

pub const SOONER: usize = 22;

// N, E: how many more rows stop it, and the first of them
pub const OTHERS: usize = 39;

pub const OTHER: usize = 30;

// H: the hour's number on a page of several, 0 on its own page
pub const HOUR: usize = 33;

// kW in one MW.
const KW: u64 = 1000;

// From, to and hubs of the border, as it was read.
pub fn placed(mut r: Figures, index: usize, raw: BorderRecord) -> Figures {
    let sending = raw[3];
    r[INDEX] = index as u64;
    r[FROM] = raw[0].cast_unsigned();
    r[TO] = raw[1].cast_unsigned();
    r[HUBS] = u64::from(0 <= sending);
    r[SENDING] = sending.cast_unsigned();
    r[RECEIVING] = raw[4].cast_unsigned();
    r
}

// Its rise, from kW, and the rows that stopped it.
pub fn risen(mut r: Figures, end: EndRecord, reasons: Reasons, others: u64, other: u64) -> Figures {
    let start = end[0].unsigned_abs() / KW;
    let atc = end[1].unsigned_abs() / KW;
    let named = reasons.named.cast_unsigned();
    let ended = reasons.ended.cast_unsigned();
    r[MARKED] = u64::from(0 <= reasons.ended);
    r[START] = start;
    r[ATC] = atc;
    r[RAISED] = atc.wrapping_sub(start);
    r[LAST] = reasons.last;
    r[NAMED] = named;
    r[ENDED] = ended;
    r[SOONER] = u64::from(named < ended);
    r[OTHERS] = others;
    r[OTHER] = other;
    r
}
