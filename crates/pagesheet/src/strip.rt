// The strip: a box for each hour, with its label, and its rounds as a bar whose end is the most that the hour's table allows; or that it is refused or not read.
use crate::facts;
use daylines::label;
use pageform::Figures;
use system::System;

// The pieces, in the order of their lines.
#[derive(Clone, Copy)]
enum Piece {
    Begin,
    End,
    Box,
    BoxEnd,
}

pub fn print(sys: &System, all: &Figures, day: &[Figures]) -> bool {
    say(sys, Piece::Begin, all)
        && day.iter().all(|r| print_box(sys, r))
        && say(sys, Piece::End, all)
}

fn print_box(sys: &System, r: &Figures) -> bool {
    say(sys, Piece::Box, r) && say_label(sys, r) && say(sys, Piece::BoxEnd, r)
}

// Prints the label of an hour.
pub fn say_label(sys: &System, r: &Figures) -> bool {
    let mut name = arguments::room();
    let n = sys.arg(r[facts::ARGUMENT] as usize, &mut name);
    pageform::say_safe(sys, label::label_of(&name[..n]))
}

fn say(sys: &System, piece: Piece, figures: &Figures) -> bool {
    pageform::say(
        sys,
        b"<p class=\"sub\">Capacities (ATCs) of ?n2one hour|$n hours}</p>`<div class=\"tiles\"><div><b>$n</b><span>?n2hour|hours}</span></div><div><b>$a</b><span>answered</span></div>{e<div><b>$e</b><span>refused</span></div>}{q<div><b>$q</b><span>not read</span></div>}{b<div><b>$b</b><span>?b2border|borders}</span></div>}</div>`<h2 id=\"strip\">Hours</h2>`<div class=\"key\">{a<span><svg width=\"18\" height=\"12\"><rect class=\"w\" x=\".5\" y=\".5\" width=\"17\" height=\"11\"/><rect class=\"l\" width=\"9\" height=\"12\"/></svg>rounds, of those that there can be at most</span>}{e<span><svg width=\"18\" height=\"12\"><rect class=\"o\" x=\".5\" y=\".5\" width=\"17\" height=\"11\"/></svg>refused, with the answer of the program</span>|{q<span><svg width=\"18\" height=\"12\"><rect class=\"o\" x=\".5\" y=\".5\" width=\"17\" height=\"11\"/></svg>not read</span>}}</div>`<div class=\"strip\">`\n\
        </div>`\n\
        <a class=\"hb{A| x}\" href=\"#h$H\"><b>\n\
        </b><svg width=\"84\" height=\"10\" viewBox=\"0 0 84 10\">{A<path class=\"w\" d=\"M.5 .5h83v9h-83z\"/>{c<path class=\"l\" d=\"M0 0H$cv10H0z\"/>}|<path class=\"o\" d=\"M.5 .5h83v9h-83z\"/>}</svg><span>{A$R of $S ?S2round|rounds}{I, intraday}|{Qnot read|refused: E $X $Y $Z}}</span></a>`\n",
        piece as usize,
        figures,
    )
}
