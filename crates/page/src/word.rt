// The word `page`: the page of the texts that were read, and what people are told of it.
use arguments::Piece;
use output::Ended;
use system::System;

// Prints the page of the table as the sheet corrects it, under the label that is given, or else the name of the table, which an argument has. Where no list of marks is given, all borders
// may rise.
pub fn print(
    sys: &System,
    label: Option<Piece>,
    name: Option<usize>,
    marks: Option<&[u64]>,
    text: &[u8],
    sheet: &[u8],
) -> Ended {
    let mut own = arguments::room();
    let ended = crate::print(
        sys,
        label_of(sys, label, name, &mut own),
        marks,
        text,
        sheet,
    );
    telling::explain(sys, b"", ended, text, sheet);
    ended
}

// The name of a file is shown without folder and ending, as in a day. Standard input has no name.
fn label_of<'a>(
    sys: &System,
    label: Option<Piece>,
    name: Option<usize>,
    room: &'a mut [u8],
) -> &'a [u8] {
    match (label, name.map(Piece::whole)) {
        (Some(label), _) => label.read(sys, room),
        (None, Some(name)) if !name.is_standard_input(sys) => {
            daylines::label::label_of(name.read(sys, room))
        }
        _ => b"One hour",
    }
}
