// The parts of the hours of a day's page, one after another, and its foot. Each table was read for the front (crate dayfront) and is read again for its part, and has to be the same.
#![tactic(auto)]

use command::input;
use daylines::label;
use messages::day;
use output::Ended;
use pagefacts::hour;
use pageform::Figures;
use pagesheet::{facts, sums};
use system::System;
use telling::told;

// What was printed before an error stays printed.
pub fn print(sys: &System, marks: Option<&[u64]>, day: &[Figures]) -> Ended {
    let mut ended = Ended::Answered;
    for r in day {
        match print_hour(sys, marks, r) {
            Ended::Answered => {}
            Ended::Refused(_, _, _) => ended = Ended::Refused(0, 0, 0),
            Ended::Failed => return Ended::Failed,
        }
    }
    let written = page::hours::print_day_foot(sys) && pageframe::plain(sys, pageframe::END);
    told(sys, written, ended)
}

fn print_hour(sys: &System, marks: Option<&[u64]>, r: &Figures) -> Ended {
    if !say(sys, Piece::Begin) {
        return told(sys, false, Ended::Failed);
    }
    let ended = print_part(sys, marks, r);
    if let Ended::Failed = ended {
        return ended;
    }
    told(sys, say(sys, Piece::End), ended)
}

fn print_part(sys: &System, marks: Option<&[u64]>, r: &Figures) -> Ended {
    let mut name = arguments::room();
    let n = sys.arg(r[facts::ARGUMENT] as usize, &mut name);
    if r[facts::UNREAD] != 0 {
        return told(
            sys,
            print_unread(sys, r, label::label_of(&name[..n])),
            Ended::Refused(0, 0, 0),
        );
    }
    let mut text = input::room();
    let m = input::read_by_name(sys, &name[..n], &mut text).unwrap_or(0);
    print_read(sys, &name[..n], marks, r, &text[..m])
}

fn print_read(sys: &System, name: &[u8], marks: Option<&[u64]>, r: &Figures, text: &[u8]) -> Ended {
    if sums::sum(text) != r[facts::SUM] {
        day::changed(label::label_of(name), name);
        return Ended::Failed;
    }
    let ended = page::hours::print(sys, r[hour::HOUR], label::label_of(name), marks, text, b"");
    if let Ended::Failed = ended {
        telling::unwritten(sys);
    }
    ended
}

fn print_unread(sys: &System, r: &Figures, label: &[u8]) -> bool {
    page::hours::print_heading(sys, r[hour::HOUR], label) && say(sys, Piece::Unread)
}

// The pieces, in the order of their lines.
#[derive(Clone, Copy)]
enum Piece {
    Begin,
    End,
    Unread,
}

fn say(sys: &System, piece: Piece) -> bool {
    pageform::say(
        sys,
        b"<section>`\n\
        </section>`\n\
        <div class=\"no\"><h3>Not read: this hour has no ATCs</h3>`<p>Its table cannot be read.</p></div>`\n",
        piece as usize,
        &[],
    )
}
