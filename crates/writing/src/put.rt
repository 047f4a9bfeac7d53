// Writes the lines of a table into lent bytes, each kind at a place, and then all kinds from the start.
ghost use Rattle.std.specs.Prelude.{◌+◌, ◌≤◌, length};
ghost use Rattle.text.specs.Put.{Put};
ghost use Rattle.tablerules.specs.Table.{lent_view};
ghost use Rattle.tablerules.specs.Good.{Good};
ghost use Rattle.writing.specs.Writing.{table_text, positions_text, borders_text};

use lines::row::RowKind;
use tablerules::TableView;
use types::BorderRecord;

// The Z lines, or the T lines, by their letter.
fn put_zones(letter: u8, z: &[i64], out: &mut [u8], at: usize) -> usize
    requires { at + length (positions_text letter z.now) ≤ length out.old }
    ensures { Put (positions_text letter z.now) at out.old result out.new }
{
    let mut next = at;
    for i in 0..z.len() {
        next = layout::put::put_zone(letter, i, z[i], out, next);
    }
    next
}

fn put_borders(b: &[BorderRecord], out: &mut [u8], at: usize) -> usize
    requires { at + length (borders_text b.now) ≤ length out.old }
    ensures { Put (borders_text b.now) at out.old result out.new }
{
    let mut next = at;
    for i in 0..b.len() {
        next = layout::put::put_border(i, b[i], out, next);
    }
    next
}

pub fn put_table(view: &TableView, out: &mut [u8]) -> usize
    requires { Good (lent_view view.now) × (length (table_text (lent_view view.now)) ≤ length out.old) }
    ensures { Put (table_text (lent_view view.now)) 0 out.old result out.new }
{
    let next = layout::put::put_header(view.header, out, 0);
    let next = put_zones(b'Z', view.nets, out, next);
    let next = put_zones(b'T', view.allocated, out, next);
    let next = put_borders(view.borders, out, next);
    layout::put::put_rows(
        RowKind::Table,
        view.header.zones,
        view.rows,
        view.factors,
        out,
        next,
    )
}
