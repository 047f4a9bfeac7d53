// How many bytes the text of a table has, before one is written.
ghost use Rattle.std.specs.Prelude.{◌≡◌, ◌≤◌, length};
ghost use Rattle.limits.specs.Limits.{bytes_most};
ghost use Rattle.tablerules.specs.Table.{lent_view};
ghost use Rattle.tablerules.specs.Good.{Good};
ghost use Rattle.writing.specs.Writing.{table_text, zones_text, borders_text};

use lines::row::RowKind;
use tablerules::TableView;
use types::BorderRecord;

// The Z lines; T lines of the same positions are as long.
fn zones_length(z: &[i64]) -> usize
    requires { length (zones_text z.now) ≤ bytes_most }
    ensures { result ≡ length (zones_text z.now) }
{
    let mut sum: usize = 0;
    for i in 0..z.len() {
        sum += layout::length::zone_length(i, z[i]);
    }
    sum
}

fn borders_length(b: &[BorderRecord]) -> usize
    requires { length (borders_text b.now) ≤ bytes_most }
    ensures { result ≡ length (borders_text b.now) }
{
    let mut sum: usize = 0;
    for i in 0..b.len() {
        sum += layout::length::border_length(i, b[i]);
    }
    sum
}

pub fn text_length(view: &TableView) -> usize
    requires { Good (lent_view view.now) }
    ensures { result ≡ length (table_text (lent_view view.now)) }
{
    let header = layout::length::header_length(view.header);
    let zones = zones_length(view.nets);
    let allocated = zones_length(view.allocated);
    let borders = borders_length(view.borders);
    let rows = layout::length::rows_length(
        RowKind::Table,
        view.header.zones,
        view.rows,
        view.factors,
    );
    header + zones + allocated + borders + rows
}
