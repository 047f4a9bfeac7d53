// The record of an hour of a day. Its figures are those of the hour's own part (pagefacts::hour), and these.
use daysheet::Hour;
use pagefacts::{count, hour};
use pageform::Figures;

// i: which argument names its table; h: the check sum of the table's text
pub const ARGUMENT: usize = 8;

pub const SUM: usize = 7;

// c: where its rounds stand on the bar; Q: its table cannot be read
pub const ROUNDS_AT: usize = 2;

pub const UNREAD: usize = 42;

// e: it is refused; of the day: how many are
pub const REFUSED: usize = 4;

// Of the day: n, a, q: its hours, and how many are answered and not read; b, C: the most borders of an hour, and whether some border has hubs
pub const HOURS: usize = 13;

pub const ANSWERED: usize = 0;

pub const NOT_READ: usize = 16;

// Units of the bar of an hour's rounds.
const UNITS: u64 = 84;

// What came of an hour: the bound is that of its rounds.
pub fn heard(mut r: Figures, came: Hour, bound: u64) -> Figures {
    match came {
        Hour::Answered(answer) => {
            r[hour::ANSWERED] = 1;
            r[hour::ROUNDS] = answer.rounds;
            r[hour::BORDERS] = answer.borders as u64;
            r[hour::INTRADAY] = u64::from(answer.intraday);
            r[hour::SHARP] = bound;
            r[ROUNDS_AT] = pagebars::place(answer.rounds, bound.max(1), UNITS);
            r
        }
        Hour::Refused {
            number,
            place,
            byte,
        } => {
            r[REFUSED] = 1;
            r[hour::NUMBER] = number;
            r[hour::PLACE] = place;
            r[hour::BYTE] = byte;
            r
        }
        Hour::Unread => {
            r[UNREAD] = 1;
            r
        }
    }
}

// The record of the day.
pub fn counted(day: &[Figures]) -> Figures {
    let mut all = pagefacts::blank();
    all[HOURS] = day.len() as u64;
    all[ANSWERED] = count(hour::ANSWERED, day);
    all[REFUSED] = count(REFUSED, day);
    all[NOT_READ] = count(UNREAD, day);
    all[hour::BORDERS] = day.iter().map(|r| r[hour::BORDERS]).max().unwrap_or(0);
    all
}
