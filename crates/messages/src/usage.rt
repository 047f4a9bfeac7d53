// How the program is used, and which build it is. Each function is false where not all could be written.
use arguments::Piece;
use system::System;

// Options that are not for people stand in no line: those that whoever starts the program gives it (options.rt).
pub fn usage(sys: &System) -> bool {
    sys.print(
        b"usage: keravnoth [TABLE]              the result, or a line E, number, place, byte\n\
        \x20      keravnoth rewrite [TABLE]      the table, written again\n\
        \x20      keravnoth corners [ROW] [TABLE]  every corner's flow on each row, or on one\n\
        \x20      keravnoth claims LIST [TABLE]  the rows that are left when those claimed in LIST go\n\
        \x20      keravnoth rows [TABLE]         the rows as a semicolon sheet\n\
        \x20      keravnoth fill SHEET [TABLE]   the table with all its rows taken from SHEET\n\
        \x20      keravnoth bound [TABLE]        how many rounds there can be at most: U, N, L, 2 N L, the sharper bound\n\
        \x20      keravnoth margins [TABLE]      what each row's margin is made of\n\
        \x20      keravnoth why BORDER [TABLE]   why a border got no more, in words\n\
        \x20      keravnoth changes OLD [NEW]    what differs between two tables, or OLD and OLD as --corrections corrects it\n\
        \x20      keravnoth tidy [FILE]          the text, repaired where that is certain; each change is told\n\
        \x20      keravnoth page [TABLE]         the hour as a page to look at: one HTML file\n\
        \x20      keravnoth day FILE..           a day: each hour's answer, every line behind the hour's label (its file's name without folder and ending)\n\
        \x20      keravnoth day --sheet FILE..   the same as one sheet of capacities, borders down and hours across\n\
        \x20      keravnoth day --page FILE..    the same as a page to look at: the hours, the sheet, and each hour's page in one HTML file\n\
        \x20      keravnoth help, --help, -h     this\n\
        \x20      keravnoth --version            which rules are built, and in which logic they are proved\n\
        TABLE is a file; - or none is standard input. A file named like a word or a row is given with its folder, as ./rows.\n\
        option: --corrections FILE            rows of the table replaced by those of a correction sheet: C lines or semicolon rows\n\
        \x20       --marks LIST                  only these borders rise: their indices with commas between; with the result, bound, why, page and day\n\
        \x20       --label LABEL                 what the hour is called on its page\n\
        \x20       --expect N                    just N files of a day\n\
        \x20       (or --corrections=FILE, --marks=LIST; before or after the word)\n\
        status: 0 answered, 1 refused (the E line; of a day also X, an hour that cannot be read), 2 misuse, or input or output that failed\n\
        example: keravnoth --marks 0,1,4 hour.tsv   the capacities of borders 0, 1 and 4 alone\n",
    )
}

// The gate holds the first line to the notes of what was built and to the C header. The second says what whoever starts the program knows of its
// proof: the program cannot know it itself, since it is built only when it is proved.
pub fn version(sys: &System, proved: Option<Piece>) -> bool {
    sys.print(
        b"keravnoth: rules: document 01; requests of document 02: E1, E2, E3, E4, E5, E6, E7, E8, E9, E10, E11, E12, E13, E14; C interface: 1.0.0\nproved in",
    ) && logic(sys, proved)
}

fn logic(sys: &System, proved: Option<Piece>) -> bool {
    let mut own = arguments::room();
    match proved.map(|piece| piece.read(sys, &mut own)) {
        None | Some(b"") => sys.print(b": not named by what started the program\n"),
        Some(text) => sys.print(b" ") && sys.print(text) && sys.print(b"\n"),
    }
}
