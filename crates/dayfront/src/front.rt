// What stands before the hours' parts: the head of the page, its heading, the strip and the sheet.
ghost use Rattle.std.specs.Prelude.{◌≤◌, length};
ghost use Rattle.daysheet.specs.Sheet.{hours_most};

use daysheet::Sheet;
use pageform::Figures;
use pagesheet::strip;
use system::System;

pub fn print(sys: &System, day: &[Figures], sheet: Sheet) -> bool
    requires { length sheet.hours.now ≤ hours_most }
{
    pageframe::plain(sys, pageframe::TITLE)
        && print_name(sys, day)
        && pageframe::plain(sys, pageframe::STYLE)
        && plain(sys, Piece::Style)
        && pageframe::plain(sys, pageframe::BODY)
        && plain(sys, Piece::Begin)
        && print_name(sys, day)
        && plain(sys, Piece::NameEnd)
        && pagesheet::print(sys, day, sheet)
        && plain(sys, Piece::End)
}

// A day is called by the labels of its first and its last hour.
fn print_name(sys: &System, day: &[Figures]) -> bool {
    match day {
        [] => true,
        [only] => strip::say_label(sys, only),
        [first, .., last] => {
            strip::say_label(sys, first) && plain(sys, Piece::To) && strip::say_label(sys, last)
        }
    }
}

// What every day has, in the order of its lines.
#[derive(Clone, Copy)]
enum Piece {
    Style,
    Begin,
    NameEnd,
    End,
    To,
}

// Prints a line of what every day has.
fn plain(sys: &System, piece: Piece) -> bool {
    sys.print(arguments::lists::line(
        b"h1,.hr{overflow-wrap:anywhere}.strip{display:flex;flex-wrap:wrap;gap:6px;margin:8px 0}\
        .hb{display:block;width:104px;border:1px solid #b8c0c8;border-radius:4px;padding:2px 6px 3px;color:#1b1b1b;text-decoration:none;overflow-wrap:anywhere}\
        .hb b{display:block;line-height:1.3}.hb svg{margin:2px 0}.hb span{display:block;font-size:11px;line-height:1.25;color:#444}.hb.x{border:1px dashed #1b1b1b}.hb.x span{color:#1b1b1b}\
        .wide{overflow-x:auto;margin:0 0 14px}.sh{width:auto}.sh td,.sh th{font-size:11px;padding:0 2px;height:20px}.sh th{white-space:nowrap}.sh td:nth-child(2),.sh th:nth-child(2){padding:0 6px}.sh svg{width:72px;height:18px;margin:0 3px}\
        .sh a{color:inherit;text-decoration:none}.sh th a{display:block;min-width:27px;max-width:64px;font-size:9.5px;white-space:normal;overflow-wrap:anywhere}.sh th a,.sh a:hover{text-decoration:underline}.sh .x{background:#e4e4e4}.sh th.x{border-bottom:3px double #1b1b1b}\
        .y{fill:none;stroke:#16324f;stroke-width:1.5}.hr{font-size:24px;margin-top:44px;border-top:8px solid #16324f}\
        h3,.no h3{font-size:17px;margin:20px 0 4px;padding-top:6px;border-top:1px solid #16324f}h4{font-size:14px;margin:14px 0 4px}.no h3{border:0;margin:0;padding:0;font-size:20px}\
        @page wide{size:A4 landscape;margin:10mm}\
        @media print{.day{page:wide}.hb{width:92px;break-inside:avoid}.hb span{font-size:8px}.hb b{font-size:9.5px}.strip{gap:4px}.wide{overflow:visible;break-inside:auto}\
        .sh td,.sh th{font-size:9px;padding:0 2.5px;height:14px}.sh svg{height:13px;width:86px}.sh th a{min-width:0;font-size:8.5px}.hr{font-size:18px;margin-top:24px;border-top-width:5px}\
        h3{font-size:13px;margin-top:12px}h4{font-size:11px}.no h3{font-size:14px}h3,h4{break-after:avoid}.sh .x,.strip{print-color-adjust:exact;-webkit-print-color-adjust:exact}}\n\
        <div class=\"day\"><h1>\n\
        </h1>\n\
        </div>\n\
        \x20to \n",
        piece as usize,
    ))
}
