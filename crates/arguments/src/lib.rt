// The arguments that a program was started with: which bytes a piece of one has, or which number or list of numbers it holds.
#![tactic(auto)]

pub mod lists;

ghost use Rattle.std.specs.Prelude.{◌≡◌, length, take, IfSome};
ghost use Rattle.io.specs.Counts.{IsPrefixLen};

use system::System;

// Room for an argument: Linux lets one have 131,071 bytes, where a page of memory has 4,096. Whether all of it is here, `System::try_arg` tells.
const ROOM: usize = 131072;

// The memory for an argument, all zeros, so that one stands behind it. The array is written out only here: each place that has it costs the check a second.
pub fn room() -> [u8; ROOM]
    ensures { 131072 ≡ length result }
{
    [0; ROOM]
}

// A text from a place on.
pub fn tail<'a>(text: &'a [u8], from: usize) -> &'a [u8] {
    &text[from.min(text.len())..]
}

// What stands in argument `at` from byte `from` on.
#[derive(Clone, Copy)]
pub struct Piece {
    pub at: usize,
    pub from: usize,
}

impl Piece {
    // All of an argument.
    pub fn whole(at: usize) -> Piece {
        Piece { at, from: 0 }
    }

    // Its bytes, which are put in the room that is lent. There are none of an argument that is missing or too long.
    pub fn read<'a>(self, sys: &System, room: &'a mut [u8]) -> &'a [u8] {
        let n = sys.arg(self.at, room);
        tail(&room[..n], self.from)
    }

    // Whether it is the name of standard input. Not taken into its caller, whose stack would have the room for an argument beside its own while it runs on.
    #[inline(never)]
    pub fn is_standard_input(self, sys: &System) -> bool {
        let mut own = room();
        matches!(self.read(sys, &mut own), b"-")
    }

    // The number that it holds, written as numbers are in a table.
    pub fn number(self, sys: &System) -> Option<u64> {
        let mut own = room();
        sys.arg(self.at, &mut own);
        let (number, _) = text::field::number_at(&own, self.from, 0).ok()?;
        Some(number)
    }

    // The descriptor that it holds.
    pub fn descriptor(self, sys: &System) -> Option<i32> {
        i32::try_from(self.number(sys)?).ok()
    }

    // The numbers that it holds, written as they are in a table, with commas between: an empty one holds none.
    // All of it is looked at, but only as many are kept as there is room for.
    pub fn list(self, sys: &System) -> Option<List> {
        let mut own = room();
        sys.arg(self.at, &mut own);
        let mut numbers = [0; LIST_ROOM];
        let count = numbers_in(&own, self.from, &mut numbers)?;
        Some(List { numbers, count })
    }
}

// Room for a list, one more than a table may have borders: of a longer one the first faulty mark is among these.
const LIST_ROOM: usize = limits::BORDERS_MOST + 1;

// The numbers of a list.
#[derive(Clone, Copy)]
pub struct List {
    numbers: [u64; LIST_ROOM],
    count: usize,
    ghost kept: { IsPrefixLen count numbers },
}

impl List {
    pub fn as_slice(&self) -> &[u64]
        ensures { result.now ≡ take self.now.count self.now.numbers }
    {
        &self.numbers[..self.count]
    }
}

// A number takes two bytes at least, with what ends it, so there are fewer than bytes.
fn numbers_in(word: &[u8], from: usize, list: &mut [u64]) -> Option<usize>
    ensures { IfSome result (λ n. IsPrefixLen n list.new) }
{
    let mut at = from;
    for k in 0..word.len() {
        let Ok((v, next)) = text::field::number_at(word, at, b',') else {
            return last(word, at, k, list);
        };
        keep(list, k, v);
        at = next;
    }
    None
}

// The last number ends where the zeros behind the word begin. Only an empty list has no last number.
fn last(word: &[u8], at: usize, k: usize, list: &mut [u64]) -> Option<usize>
    ensures { IfSome result (λ n. IsPrefixLen n list.new) }
{
    match text::field::number_at(word, at, 0) {
        Ok((v, _)) => Some(keep(list, k, v)),
        Err(_) if k == 0 && text::field::byte_at(word, at) == 0 => Some(0),
        Err(_) => None,
    }
}

// Keeps number k where there is room for it: how many are kept then.
fn keep(list: &mut [u64], k: usize, v: u64) -> usize
    ensures { IsPrefixLen result list.new }
{
    if k < list.len() {
        list[k] = v;
        return k + 1;
    }
    list.len()
}
