// The pieces of an hour, and their order. A part that does not belong on a page is left out by the conditions of its piece. Every id begins with the hour, so that a page can have
// several.
#![tactic(auto)]

use pagefacts::row::Kind;
use pagefacts::{ROWS, hour, row};
use pageform::Figures;
use system::System;

// The pieces, in the order of their lines.
#[derive(Clone, Copy)]
enum Piece {
    Head,
    StopsSummary,
    StopsSummaryRow,
    StopsSummaryEnd,
    Borders,
    Border,
    TableEnd,
    Rows,
    StopsHeading,
    RowTable,
    StopsColumns,
    OtherColumns,
    ScaleColumns,
    Row,
    Others,
    OthersEnd,
    Small,
    SmallRow,
    Same,
    SameRow,
    SameEnd,
    Whys,
    WhysEnd,
}

// The hour's record, and those of its borders and rows.
#[derive(Clone, Copy)]
struct Page<'a> {
    sys: &'a System,
    hour: &'a Figures,
    records: &'a [Figures],
}

// An hour that is answered.
pub fn print(sys: &System, r: Figures, records: &[Figures], whys: &[u8]) -> bool {
    let page = Page {
        sys,
        hour: &r,
        records,
    };
    page.print_borders()
        && page.print_stops()
        && page.print_others()
        && page.print_not_kept()
        && page.say(Piece::Whys)
        && sys.print(whys)
        && page.say(Piece::WhysEnd)
}

// What is known of an hour that is refused, its rows: no capacity.
pub fn print_rows(sys: &System, r: Figures, records: &[Figures]) -> bool {
    let page = Page {
        sys,
        hour: &r,
        records,
    };
    page.say(Piece::Rows)
        && page.say(Piece::RowTable)
        && page.say(Piece::ScaleColumns)
        && page.say_rows(Piece::Row, Kind::Kept)
        && page.say(Piece::TableEnd)
        && page.print_not_kept()
}

// Its headline.
pub fn print_head(sys: &System, r: Figures) -> bool {
    say(sys, Piece::Head, &r)
}

impl<'a> Page<'a> {
    fn print_borders(&self) -> bool {
        self.say(Piece::StopsSummary)
            && self.say_rows(Piece::StopsSummaryRow, Kind::Stops)
            && self.say(Piece::StopsSummaryEnd)
            && self.say(Piece::Borders)
            && self.say_borders(Piece::Border)
            && self.say(Piece::TableEnd)
    }

    fn print_stops(&self) -> bool {
        self.say(Piece::Rows)
            && self.say(Piece::StopsHeading)
            && self.say(Piece::RowTable)
            && self.say(Piece::StopsColumns)
            && self.say(Piece::ScaleColumns)
            && self.say_rows(Piece::Row, Kind::Stops)
            && self.say(Piece::TableEnd)
    }

    fn print_others(&self) -> bool {
        self.hour[hour::OTHER] == 0
            || self.say(Piece::Others)
                && self.say(Piece::RowTable)
                && self.say(Piece::OtherColumns)
                && self.say(Piece::ScaleColumns)
                && self.say_rows(Piece::Row, Kind::Kept)
                && self.say(Piece::TableEnd)
                && self.say(Piece::OthersEnd)
    }

    fn print_not_kept(&self) -> bool {
        self.say(Piece::Small)
            && self.say_rows(Piece::SmallRow, Kind::Small)
            && self.say(Piece::Same)
            && self.say_rows(Piece::SameRow, Kind::SaysTheSame)
            && self.say(Piece::SameEnd)
    }

    // Prints a piece once.
    fn say(&self, piece: Piece) -> bool {
        say(self.sys, piece, self.hour)
    }

    // Prints it for each border.
    fn say_borders(&self, piece: Piece) -> bool {
        let count = self.hour[hour::BORDERS] as usize;
        self.records
            .iter()
            .take(count)
            .all(|r| say(self.sys, piece, r))
    }

    // Prints it for each row of a kind.
    fn say_rows(&self, piece: Piece, kind: Kind) -> bool {
        self.records
            .iter()
            .skip(ROWS)
            .filter(|r| row::is(r, kind))
            .all(|r| say(self.sys, piece, r))
    }
}

// Prints a piece with its figures. One literal has them all: a function with many is slow to check.
fn say(sys: &System, piece: Piece, figures: &Figures) -> bool {
    pageform::say(
        sys,
        b"<p class=\"sub\">Capacities (ATCs) of one hour, {Iintraday: what may be sold in addition to the allocated positions|day-ahead}</p>`<div class=\"tiles\"><div><b>$z</b><span>zones</span></div><div><b>$b</b><span>borders</span></div>{A{m<div><b>$n</b><span>of them marked</span></div>}}<div><b>$r</b><span>rows, $k kept</span></div>{A<div><b>$R</b><span>?R2{Rround|rounds}|rounds}</span></div><div><b>$S</b><span>rounds at most (2 &#215; $N &#215; $L gives $B)</span></div>}</div>`{A<p class=\"screen\"><a href=\"#{Hh$H}borders\">Borders</a> &#183; <a href=\"#{Hh$H}rows\">Rows</a> &#183; <a href=\"#{Hh$H}why\">Why a border got no more</a></p>`}\n\
        <p>Of $k kept ?k2row|rows} $p ?p2stops|stop} the borders: \n\
        ?O9?1O, }<a href=\"#{Hh$H}r$a\">row $a</a> stops $s}\n\
        ?8p and $P more}{d. $d ?d2border is|borders are} stopped by more than one row}.</p>`\n\
        <h{H3|2} id=\"{Hh$H}borders\">Borders</h{H3|2}>`<div class=\"key\">{I<span><svg width=\"18\" height=\"12\"><rect class=\"l\" width=\"18\" height=\"12\"/></svg>raised in the rounds; every border starts at 0</span>|<span><svg width=\"18\" height=\"12\"><rect class=\"a\" width=\"18\" height=\"12\"/></svg>long-term rights (LTA), where the border starts</span><span><svg width=\"18\" height=\"12\"><rect class=\"l\" width=\"18\" height=\"12\"/></svg>raised in the rounds</span>}<span>bold: ATC in MW</span>{o<span>a bar with two white strokes is longer than the scale</span>}{f<span>(row .. first): that row had nothing for the border sooner than the row that the result names</span>}</div>`<table><thead><tr><th class=\"n\">border</th><th>from &#8594; to</th>{C<th>hubs</th>}<th class=\"n\">starts at</th><th class=\"n\">raised by</th><th><svg class=\"axis\" width=\"524\" height=\"16\" viewBox=\"0 0 524 16\"><text x=\"0\" y=\"12\">0 MW</text><text x=\"115\" y=\"12\" text-anchor=\"middle\">$e</text><text x=\"230\" y=\"12\" text-anchor=\"middle\">$D</text><text x=\"345\" y=\"12\" text-anchor=\"middle\">$E</text><text x=\"460\" y=\"12\" text-anchor=\"middle\">$F</text></svg></th><th class=\"n\">last round</th><th>stopped by</th><th class=\"screen\"></th></tr></thead><tbody>`\n\
        <tr id=\"{Hh$H}b$a\"{m| class=\"u\"}><td class=\"n\">$a</td><td>$f &#8594; $t</td>{C<td>{k$s &#8594; $r}</td>}<td class=\"n\">$l</td><td class=\"n\">{g$g|{L&lt;1|0}}</td><td><svg class=\"bar\" width=\"524\" height=\"22\" viewBox=\"0 0 524 22\"><use href=\"#bg\"/>{b<path class=\"a\" d=\"M0 5H$bv12H0z\"/>}?bc<path class=\"l\" d=\"M$b 5H$cv12H$bz\"/>}{o<use href=\"#bx\"/>}<text class=\"e\" x=\"$c\" dx=\"6\" y=\"15\">$A</text></svg></td><td class=\"n\">{L$L|none}</td><td>{m<a href=\"#{Hh$H}r$i\">row $i</a>{w (<a href=\"#{Hh$H}r$J\">row $J</a> first)|{N (also ?N2<a href=\"#{Hh$H}r$E\">row $E</a>|$N more})}}|not marked}</td><td class=\"screen\"><a href=\"#{Hh$H}w$a\">why</a></td></tr>`\n\
        </tbody></table>`\n\
        <h{H3|2} id=\"{Hh$H}rows\">Rows</h{H3|2}>`<div class=\"key\">{I<span><svg width=\"18\" height=\"12\"><rect class=\"a\" width=\"18\" height=\"12\"/></svg>allocated positions</span>|<span><svg width=\"18\" height=\"12\"><rect class=\"a\" width=\"18\" height=\"12\"/></svg>long-term rights (S)</span>}{g<span><svg width=\"18\" height=\"12\"><rect class=\"o\" x=\".5\" y=\".5\" width=\"17\" height=\"11\"/></svg>over RAM</span>}{A<span><svg width=\"18\" height=\"12\"><rect class=\"l\" width=\"18\" height=\"12\"/></svg>shared out in the rounds</span><span><svg width=\"18\" height=\"12\"><rect class=\"w\" x=\".5\" y=\".5\" width=\"17\" height=\"11\"/></svg>left</span>|<span><svg width=\"18\" height=\"12\"><rect class=\"w\" x=\".5\" y=\".5\" width=\"17\" height=\"11\"/></svg>starting margin</span>}{I<span><svg width=\"18\" height=\"12\"><path class=\"k\" d=\"M9 0v12\"/></svg>RAM</span>}<span>bold: RAM in MW</span></div>`<div class=\"key\"><span>Strip below, what RAM is made of:</span><span><svg width=\"18\" height=\"12\"><rect class=\"p\" y=\"7\" width=\"18\" height=\"5\"/></svg>Base</span><span><svg width=\"18\" height=\"12\"><rect class=\"q\" y=\"7\" width=\"18\" height=\"5\"/></svg>AMR</span><span><svg width=\"18\" height=\"12\"><rect class=\"r\" y=\"7\" width=\"18\" height=\"5\"/></svg>LTA margin</span><span>where the strip ends behind RAM, CVA and IVA take the difference</span></div>`\n\
        <h{H4|3}>Rows that stop borders: $p</h{H4|3}>`\n\
        <table><thead><tr><th class=\"n c1\">row</th><th class=\"n c1\">{mmarked }borders<br/>on it</th>\n\
        <th class=\"n c1\">stopped<br/>by it</th><th class=\"n c1\">by it<br/>alone</th>\n\
        <th class=\"c1\"></th><th class=\"c1\"></th>\n\
        <th><svg class=\"raxis\" width=\"384\" height=\"16\" viewBox=\"0 0 384 16\"><text x=\"0\" y=\"12\">0 MW</text><text x=\"80\" y=\"12\" text-anchor=\"middle\">$s</text><text x=\"160\" y=\"12\" text-anchor=\"middle\">$T</text><text x=\"240\" y=\"12\" text-anchor=\"middle\">$U</text><text x=\"320\" y=\"12\" text-anchor=\"middle\">$V</text></svg></th><th class=\"n c2\">{Iallocated|rights S}</th>{A<th class=\"n c2\">shared<br/>out</th><th class=\"n c2\">left</th>|<th class=\"n c2\">starting<br/>margin</th>}<th class=\"n m c2\">Base</th><th class=\"n m c2\">+ AMR</th><th class=\"n m c2\">+ LTA<br/>margin</th><th class=\"n m c2\">&#8722; CVA</th><th class=\"n m c2\">&#8722; IVA</th></tr></thead><tbody>`\n\
        <tr id=\"{Hh$H}r$a\"><td class=\"n\">$a</td><td class=\"n\">$n</td>{A{s<td class=\"n\">$s</td><td class=\"n\">$l</td>|<td></td><td></td>}}<td><svg class=\"rbar\" width=\"384\" height=\"22\" viewBox=\"0 0 384 22\"><use href=\"#rg\"/>{b<path class=\"a\" d=\"M0 3H$bv10H0z\"/>}?bc<path class=\"o\" d=\"M$c 3.5m-.5 0v9H$b.5v-9z\"/>}?cd<path class=\"l\" d=\"M$c 3H$dv10H$cz\"/>}?de<path class=\"w\" d=\"M$e 3.5m-.5 0v9H$d.5v-9z\"/>}{f<path class=\"p\" d=\"M0 14H$fv4H0z\"/>}?fg<path class=\"q\" d=\"M$f 14H$gv4H$fz\"/>}?gh<path class=\"r\" d=\"M$g 14H$hv4H$gz\"/>}{I?UR|{R<path class=\"k\" d=\"M$j 1v13\"/>}}}?UG<use href=\"#rx\"/>}<text class=\"e\" x=\"$i\" dx=\"6\" y=\"15\">~R</text></svg></td><td class=\"n{T| z}\">~T</td>{A<td class=\"n{S| z}\">~S</td><td class=\"n{L| z}\">~L</td>|<td class=\"n{M| z}\">~M</td>}<td class=\"n m{B| z}\">~B</td><td class=\"n m{C| z}\">~C</td><td class=\"n m{D| z}\">~D</td><td class=\"n m{E| z}\">~E</td><td class=\"n m{F| z}\">~F</td></tr>`\n\
        {q<details?qx open=\"open\"}><summary>Other kept rows: $q</summary>`}\n\
        {q</details>`}\n\
        {w<h{H4|3}>Rows not kept: $w</h{H4|3}>`}{u<p>Under 5% (the factors are less than 0.05000 apart, so that exchanges hardly load the row): }\n\
        ?1O, }row $a (RAM ~R MW)\n\
        {u.</p>`}{v<p>Says the same as a kept row that has no more RAM: }\n\
        ?1O, }row $a (RAM ~R MW) as row $Z (~z MW)\n\
        {v.</p>`}\n\
        <h{H3|2} id=\"{Hh$H}why\">Why a border got no more</h{H3|2}>`<details?by open=\"open\"}><summary>One paragraph for each border</summary>`<div class=\"why\">`\n\
        </div></details>`\n",
        piece as usize,
        figures,
    )
}
