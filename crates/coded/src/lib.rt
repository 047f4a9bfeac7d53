// What the calls for C answer (include/keravnoth.h): an answer as numbers, the refusal's first, all 0 where there is none.
#![tactic(auto)]

ghost use Rattle.std.specs.Prelude.{◌≡◌};
ghost use Rattle.coded.specs.Coded.{coded_read, coded_written, coded_answered, coded_extracted, coded_flows, coded_ruling, coded_bounded, coded_explained};

use answer::Answered;
use holding::Reasons;
use refusals::Refusal;
use tightrules::RoundsMost;
use types::Header;

#[repr(C)]
#[derive(Clone, Copy)]
pub struct KeravnothRead {
    pub number: u32,
    pub place: usize,
    pub byte: usize,
    pub zones: usize,
    pub borders: usize,
    pub rows: usize,
    pub share: i64,
    pub intraday: usize,
}

#[repr(C)]
#[derive(Clone, Copy)]
pub struct KeravnothWritten {
    pub number: u32,
    pub place: usize,
    pub byte: usize,
    pub bytes: usize,
}

// An answer in text, and what the text tells: the number, place and byte of its E line, all 0 where it is a result.
#[repr(C)]
#[derive(Clone, Copy)]
pub struct KeravnothAnswered {
    pub number: u32,
    pub place: usize,
    pub byte: usize,
    pub bytes: usize,
    pub told_number: u32,
    pub told_place: usize,
    pub told_byte: usize,
}

#[repr(C)]
#[derive(Clone, Copy)]
pub struct KeravnothExtracted {
    pub number: u32,
    pub place: usize,
    pub byte: usize,
    pub rounds: u64,
}

#[repr(C)]
#[derive(Clone, Copy)]
pub struct KeravnothFlows {
    pub number: u32,
    pub place: usize,
    pub byte: usize,
    pub corners: usize,
}

#[repr(C)]
#[derive(Clone, Copy)]
pub struct KeravnothJudged {
    pub number: u32,
    pub place: usize,
    pub byte: usize,
}

#[repr(C)]
#[derive(Clone, Copy)]
pub struct KeravnothBounded {
    pub number: u32,
    pub place: usize,
    pub byte: usize,
    pub sharers: u64,
    pub bits: u64,
    pub rounds: u64,
    pub sharp: u64,
}

#[repr(C)]
#[derive(Clone, Copy)]
pub struct KeravnothExplained {
    pub number: u32,
    pub place: usize,
    pub byte: usize,
    pub rounds: u64,
    pub last: u64,
    pub named: i64,
    pub ended: i64,
}

pub fn code_read(said: Result<Header, Refusal>) -> KeravnothRead
    ensures { result ≡ coded_read said }
{
    match said {
        Ok(h) => KeravnothRead {
            number: 0,
            place: 0,
            byte: 0,
            zones: h.zones,
            borders: h.borders,
            rows: h.rows,
            share: h.share,
            intraday: h.intraday,
        },
        Err(w) => KeravnothRead {
            number: w.number(),
            place: w.place(),
            byte: w.byte(),
            zones: 0,
            borders: 0,
            rows: 0,
            share: 0,
            intraday: 0,
        },
    }
}

pub fn code_written(said: Result<usize, Refusal>) -> KeravnothWritten
    ensures { result ≡ coded_written said }
{
    match said {
        Ok(bytes) => KeravnothWritten {
            number: 0,
            place: 0,
            byte: 0,
            bytes,
        },
        Err(w) => KeravnothWritten {
            number: w.number(),
            place: w.place(),
            byte: w.byte(),
            bytes: 0,
        },
    }
}

pub fn code_answered(said: Answered) -> KeravnothAnswered
    ensures { result ≡ coded_answered said.written said.told }
{
    let told = code_judged(said.told);
    match said.written {
        Ok(bytes) => KeravnothAnswered {
            number: 0,
            place: 0,
            byte: 0,
            bytes,
            told_number: told.number,
            told_place: told.place,
            told_byte: told.byte,
        },
        Err(w) => KeravnothAnswered {
            number: w.number(),
            place: w.place(),
            byte: w.byte(),
            bytes: 0,
            told_number: 0,
            told_place: 0,
            told_byte: 0,
        },
    }
}

pub fn code_extracted(said: Result<u64, Refusal>) -> KeravnothExtracted
    ensures { result ≡ coded_extracted said }
{
    match said {
        Ok(rounds) => KeravnothExtracted {
            number: 0,
            place: 0,
            byte: 0,
            rounds,
        },
        Err(w) => KeravnothExtracted {
            number: w.number(),
            place: w.place(),
            byte: w.byte(),
            rounds: 0,
        },
    }
}

pub fn code_flows(said: Result<usize, Refusal>) -> KeravnothFlows
    ensures { result ≡ coded_flows said }
{
    match said {
        Ok(corners) => KeravnothFlows {
            number: 0,
            place: 0,
            byte: 0,
            corners,
        },
        Err(w) => KeravnothFlows {
            number: w.number(),
            place: w.place(),
            byte: w.byte(),
            corners: 0,
        },
    }
}

pub fn code_judged(said: Result<(), Refusal>) -> KeravnothJudged
    ensures { result ≡ coded_ruling said }
{
    match said {
        Ok(()) => KeravnothJudged {
            number: 0,
            place: 0,
            byte: 0,
        },
        Err(w) => KeravnothJudged {
            number: w.number(),
            place: w.place(),
            byte: w.byte(),
        },
    }
}

pub fn code_bounded(said: Result<RoundsMost, Refusal>) -> KeravnothBounded
    ensures { result ≡ coded_bounded said }
{
    match said {
        Ok(most) => KeravnothBounded {
            number: 0,
            place: 0,
            byte: 0,
            sharers: most.sharers,
            bits: most.bits,
            rounds: most.rounds,
            sharp: most.sharp,
        },
        Err(w) => KeravnothBounded {
            number: w.number(),
            place: w.place(),
            byte: w.byte(),
            sharers: 0,
            bits: 0,
            rounds: 0,
            sharp: 0,
        },
    }
}

pub fn code_explained(said: Result<Reasons, Refusal>) -> KeravnothExplained
    ensures { result ≡ coded_explained said }
{
    match said {
        Ok(reasons) => KeravnothExplained {
            number: 0,
            place: 0,
            byte: 0,
            rounds: reasons.rounds,
            last: reasons.last,
            named: reasons.named,
            ended: reasons.ended,
        },
        Err(w) => KeravnothExplained {
            number: w.number(),
            place: w.place(),
            byte: w.byte(),
            rounds: 0,
            last: 0,
            named: 0,
            ended: 0,
        },
    }
}
