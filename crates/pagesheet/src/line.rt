// The line of a border over the day: a step for each hour that has a figure, from 0 at the bottom to the border's most at the top.
use pagebars::place;
use pageform::Figures;
use system::System;

// Units of the line's length, of its height, and where 0 stands.
const LENGTH: u64 = 120;

const HEIGHT: u64 = 16;

const FLOOR: u64 = 17;

// x, z, y: where the step begins and ends, and how high it is; m: no step goes before it; M: the most
const FROM: usize = 23;

const TO: usize = 25;

const HIGH: usize = 24;

const ALONE: usize = 12;

const MOST: usize = 38;

// The pieces, in the order of their lines.
#[derive(Clone, Copy)]
enum Piece {
    Begin,
    Step,
    End,
}

// Prints the line of so many hours, and the border's most. A cell has its MW, or none where the hour has no such border.
pub fn print(sys: &System, hours: usize, cells: &[Option<u64>]) -> bool {
    let most = cells.iter().filter_map(|cell| *cell).max().unwrap_or(0);
    let mut r = pagefacts::blank();
    r[MOST] = most;
    say(sys, Piece::Begin, &r)
        && print_steps(sys, hours as u64, most, cells)
        && say(sys, Piece::End, &r)
}

fn print_steps(sys: &System, hours: u64, most: u64, cells: &[Option<u64>]) -> bool {
    let mut before = None;
    for (k, &cell) in cells.iter().enumerate() {
        if let Some(mw) = cell {
            let k = k as u64;
            let mut r = pagefacts::blank();
            r[FROM] = place(k, hours, LENGTH);
            r[TO] = place(k.saturating_add(1), hours, LENGTH);
            r[HIGH] = FLOOR - place(mw, most.max(1), HEIGHT);
            r[ALONE] = u64::from(before.is_none());
            if !say(sys, Piece::Step, &r) {
                return false;
            }
        }
        before = cell;
    }
    true
}

fn say(sys: &System, piece: Piece, figures: &Figures) -> bool {
    pageform::say(
        sys,
        b"<td><svg width=\"120\" height=\"18\" viewBox=\"0 0 120 18\"><path class=\"g\" d=\"M0 17.5H120\"/><path class=\"y\" d=\"\n\
        {mM$x $y|V$y}H$z\n\
        \"/></svg></td><td class=\"n\">$M</td>\n",
        piece as usize,
        figures,
    )
}
