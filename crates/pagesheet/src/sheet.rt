// The sheet: borders down, hours across, in blocks of hours that a screen and a sheet of paper are wide enough for. The first block has the lines.
ghost use Rattle.std.specs.Prelude.{◌<◌, ◌≤◌, length};
ghost use Rattle.limits.specs.Limits.{borders_most};
ghost use Rattle.daysheet.specs.Sheet.{hours_most};

use crate::{line, strip};
use daysheet::{Line, Sheet};
use pagefacts::{border, hour};
use pageform::Figures;
use system::System;

// Hours of a block at most: a day of 24 or 25 hours is one, and 100 quarter-hours are four.
const BLOCK_MOST: usize = 25;

const BLOCKS_MOST: usize = 4;

// d: the block is the first, which has the lines.
const FIRST: usize = 3;

// l: the hour has the border, and a link to it
const LINKED: usize = 11;

// The pieces, in the order of their lines.
#[derive(Clone, Copy)]
enum Piece {
    Begin,
    End,
    Block,
    LabelsEnd,
    BlockEnd,
    Label,
    LabelEnd,
    Border,
    BorderEnd,
    Cell,
    CellEnd,
    Refused,
}

// The records of a day's hours, and its sheet.
#[derive(Clone, Copy)]
struct Page<'a> {
    sys: &'a System,
    day: &'a [Figures],
    sheet: Sheet<'a>,
    ghost few_hours: { length sheet.hours.now ≤ hours_most },
}

#[derive(Clone, Copy)]
struct Block {
    from: usize,
    size: usize,
}

// The day's record, with whether some border has hubs, as its way tells (`way_of`).
pub fn with_hubs(mut all: Figures, ways: &[u64]) -> Figures {
    all[border::CABLES] = u64::from(ways.iter().any(|way| way % 1024 != 0));
    all
}

pub fn print(sys: &System, all: Figures, day: &[Figures], sheet: Sheet) -> bool
    requires { length sheet.hours.now ≤ hours_most }
{
    let page = Page { sys, day, sheet };
    page.say(Piece::Begin, &all) && page.print_blocks(all) && page.say(Piece::End, &all)
}

impl Page<'_> {
    fn print_blocks(&self, mut all: Figures) -> bool {
        let hours = self.sheet.hours.len();
        let size = block_size(hours);
        let mut from: usize = 0;
        for _ in 0..BLOCKS_MOST {
            if hours <= from || all[hour::BORDERS] == 0 {
                return true;
            }
            all[FIRST] = u64::from(from == 0);
            if !self.print_block(Block { from, size }, &all) {
                return false;
            }
            from = from.saturating_add(size);
        }
        true
    }

    fn print_block(&self, block: Block, head: &Figures) -> bool {
        self.say(Piece::Block, head)
            && self.print_labels(block)
            && self.say(Piece::LabelsEnd, head)
            && self.print_borders(block, head)
            && self.say(Piece::BlockEnd, head)
    }

    fn print_labels(&self, block: Block) -> bool {
        self.day
            .iter()
            .skip(block.from)
            .take(block.size)
            .all(|r| self.print_label(r))
    }

    fn print_label(&self, r: &Figures) -> bool {
        self.say(Piece::Label, r) && strip::say_label(self.sys, r) && self.say(Piece::LabelEnd, r)
    }

    // A line for each border that any hour has: an hour has every border before one that it has.
    fn print_borders(&self, block: Block, head: &Figures) -> bool {
        for b in 0..limits::BORDERS_MOST {
            if head[hour::BORDERS] <= b as u64 {
                return true;
            }
            if !self.print_border(b, block, *head) {
                return false;
            }
        }
        true
    }

    fn print_border(&self, b: usize, block: Block, head: Figures) -> bool
        requires { b < borders_most }
    {
        let name = self.sheet.name_of(b);
        let mut cells = [None; daysheet::HOURS_MOST];
        self.fill(b, name, &mut cells);
        let r = named(head, b, name);
        self.say(Piece::Border, &r)
            && (r[FIRST] == 0 || line::print(self.sys, self.sheet.hours.len(), &cells))
            && self.print_cells(b, block, &cells)
            && self.say(Piece::BorderEnd, &r)
    }

    // Fills the cells of a border, one for each hour: its MW, or none where the hour has no such border.
    fn fill(&self, b: usize, name: u64, cells: &mut [Option<u64>])
        requires { b < borders_most }
    {
        for (k, hour) in self.sheet.hours.iter().enumerate() {
            let way = daysheet::item(self.sheet.ways, k, b);
            let atc = daysheet::item(self.sheet.atcs, k, b);
            if let Some(cell) = cells.get_mut(k) {
                *cell = if hour.has_border(b) && way == name {
                    Some(atc)
                } else {
                    None
                };
            }
        }
    }

    fn print_cells(&self, b: usize, block: Block, cells: &[Option<u64>]) -> bool
        requires { b < borders_most }
    {
        for k in 0..self.sheet.hours.len() {
            if block.contains(k) && !self.print_cell(b, k, cells) {
                return false;
            }
        }
        true
    }

    fn print_cell(&self, b: usize, k: usize, cells: &[Option<u64>]) -> bool
        requires { (k < length self.now.sheet.hours.now) × (b < borders_most) }
    {
        let mut r = self.day.get(k).copied().unwrap_or(pagefacts::blank());
        if r[hour::ANSWERED] == 0 {
            return self.say(Piece::Refused, &r);
        }
        r[border::INDEX] = b as u64;
        r[LINKED] = u64::from(matches!(cells.get(k), Some(Some(_))));
        let mut out = [0u8; daysheet::ROOM];
        let n = self.sheet.cell_at(Line::Border(b), k, &mut out);
        self.say(Piece::Cell, &r)
            && pageform::say_safe(self.sys, arguments::tail(&out[..n], 1))
            && self.say(Piece::CellEnd, &r)
    }

    fn say(&self, piece: Piece, figures: &Figures) -> bool {
        say(self.sys, piece, figures)
    }
}

impl Block {
    fn contains(self, k: usize) -> bool {
        self.from <= k && k < self.from.saturating_add(self.size)
    }
}

// Blocks are as few as can be, and as even.
fn block_size(hours: usize) -> usize {
    let blocks = hours.div_ceil(BLOCK_MOST).max(1);
    hours.div_ceil(blocks)
}

// Where the border goes, as its way tells: a hub's number is one less than what stands there.
fn named(mut r: Figures, b: usize, name: u64) -> Figures {
    r[border::INDEX] = b as u64;
    r[border::FROM] = name / 32768;
    r[border::TO] = name / 1024 % 32;
    r[border::HUBS] = name % 1024;
    r[border::SENDING] = (name / 32 % 32).wrapping_sub(1);
    r[border::RECEIVING] = (name % 32).wrapping_sub(1);
    r
}

fn say(sys: &System, piece: Piece, figures: &Figures) -> bool {
    pageform::say(
        sys,
        b"<h2 id=\"sheet\">Capacities (ATCs) in MW</h2>`{b<div class=\"key\"><span>A figure leads to its border in the part of its hour.</span><span>Line: the border over the day, 0 at the bottom and its most at the top; no line where an hour has no figure.</span>{e<span>E 7: the hour is refused, and the number says why.</span>}{q<span>X: its table is not read.</span>}<span>-: the hour has no such border.</span><span>other: its border of that number goes elsewhere.</span></div>|<p>No hour is answered: there are no capacities.</p>}`\n\
        \n\
        <div class=\"wide\"><table class=\"sh\"><thead><tr><th class=\"n\">border</th><th>from &#8594; to</th>{C<th>hubs</th>}{d<th>the day</th><th class=\"n\">most</th>}\n\
        </tr></thead><tbody>`\n\
        </tbody></table></div>`\n\
        <th class=\"n{A| x}\"><a href=\"#h$H\">\n\
        </a></th>\n\
        <tr><td class=\"n\">$a</td><td>$f &#8594; $t</td>{C<td>{k$s &#8594; $r}</td>}\n\
        </tr>`\n\
        <td class=\"n\">{l<a href=\"#h$Hb$a\">}\n\
        {l</a>}</td>\n\
        <td class=\"n x\">{QX|E $X}</td>\n",
        piece as usize,
        figures,
    )
}
