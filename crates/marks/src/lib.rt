// Marked borders (02, E13): judging a list of marks (13), and which borders may rise: those of the list, or every one where none was asked for.
#![tactic(auto)]

ghost use Rattle.std.specs.Prelude.{◌≡◌, ◌<◌, length, Ok};
ghost use Rattle.numbers.specs.Below.{first_from};
ghost use Rattle.limits.specs.Limits.{borders_most};
ghost use Rattle.refusals.specs.Answers.{said_judgement};
ghost use Rattle.marks.specs.Marks.{faulty_mark, judge_marks, judge_asked, flag_of, flags_of, every, listed};

use refusals::Refusal;

// Whether mark k is no border, or was given before.
fn is_faulty(borders: usize, marks: &[u64], k: usize) -> bool
    requires { k < length marks.now }
    ensures { result ≡ faulty_mark borders marks.now k }
{
    let mark = marks[k];
    borders as u64 <= mark || marks[..k].contains(&mark)
}

// The first faulty mark: of a list of any length it is among the first 65.
fn first_faulty(borders: usize, marks: &[u64]) -> Option<usize>
    ensures { result ≡ first_from (length marks.now) 0 (faulty_mark borders marks.now) }
{
    for k in 0..marks.len() {
        if is_faulty(borders, marks, k) {
            return Some(k);
        }
    }
    None
}

// 13: no mark, or the first faulty one, counted from 1.
pub fn judge(borders: usize, marks: &[u64]) -> Result<(), Refusal>
    ensures { said_judgement result marks.now ≡ judge_marks borders marks.now (Ok marks.now) }
{
    if marks.is_empty() {
        return Err(Refusal::BadMark(0));
    }
    match first_faulty(borders, marks) {
        Some(k) => Err(Refusal::BadMark(k + 1)),
        None => Ok(()),
    }
}

// 13, unless every border may rise.
pub fn judge_asked(borders: usize, marks: Option<&[u64]>) -> Result<(), Refusal>
    ensures { said_judgement result (listed marks.entry) ≡ judge_asked (every marks.entry) borders (listed marks.entry) (Ok (listed marks.entry)) }
{
    match marks {
        Some(marks) => judge(borders, marks),
        None => Ok(()),
    }
}

// 1 where border b may rise, else 0.
fn flag(marks: Option<&[u64]>, b: u64) -> u64
    ensures { result ≡ flag_of (every marks.entry) (listed marks.entry) b }
{
    match marks {
        Some(marks) => u64::from(marks.contains(&b)),
        None => 1,
    }
}

// A flag for each border: 1 where it may rise, else 0.
pub fn chosen(marks: Option<&[u64]>) -> [u64; limits::BORDERS_MOST]
    ensures { result ≡ flags_of borders_most (every marks.entry) (listed marks.entry) }
{
    let mut flags: [u64; limits::BORDERS_MOST] = [0; limits::BORDERS_MOST];
    choose(marks, &mut flags);
    flags
}

// The same into what is lent: a caller that makes room for it spares the copy of an answer.
pub fn choose(marks: Option<&[u64]>, flags: &mut [u64])
    ensures { flags.new ≡ flags_of (length flags.old) (every marks.entry) (listed marks.entry) }
{
    for b in 0..flags.len() {
        flags[b] = flag(marks, b as u64);
    }
}
