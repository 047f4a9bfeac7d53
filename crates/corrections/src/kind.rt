// The kind of a sheet's lines, and what reading a line's index asks of it.
ghost use Rattle.std.specs.Prelude.{◌≡◌};
ghost use Rattle.text.specs.Fields.{number_at};
ghost use Rattle.corrections.specs.Corrections.{sheet_kind, index_place};

use lines::row::RowKind;
use text::Parsed;

// By the sheet's first byte: a digit begins a line of the planners' sheet; any other byte, or none, a sheet of C lines.
pub fn sheet_kind(sheet: &[u8]) -> RowKind
    ensures { result ≡ sheet_kind sheet.now }
{
    let first = text::field::byte_at(sheet, 0);
    if first.is_ascii_digit() {
        RowKind::Sheet
    } else {
        RowKind::Table
    }
}

// The index that a line gives itself, ended by `stop`: after its letter and a tab, or at once.
pub fn index_at(kind: RowKind, line: &[u8], stop: u8) -> Parsed<u64>
    ensures { result ≡ number_at line.now (index_place kind) stop }
{
    match kind {
        RowKind::Table => text::field::number_at(line, 2, stop),
        RowKind::Sheet => text::field::number_at(line, 0, stop),
    }
}
