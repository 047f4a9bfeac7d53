// What is printed for a task and the texts that were read: what a word says of the table, or its corner sheets.
use crate::texts;
use command::asked::Task;
use output::Ended;
use system::System;

// Prints what the task is for this table as the sheet corrects it; where one of them is refused, the E line. Where no list of marks is given, all borders may rise.
pub fn print<'a>(
    sys: &System,
    task: Task,
    marks: Option<&[u64]>,
    text: &'a [u8],
    sheet: &'a [u8],
    file: &[u8],
) -> Ended {
    let mut out = sheets::room();
    match task {
        Task::Text(word) => {
            let n = texts::put(word, marks, file, text, sheet, &mut out);
            output::put(sys, &out[..n])
        }
        Task::Corners(rows) => sheets::print(sys, text, sheet, rows, &mut out),
    }
}
