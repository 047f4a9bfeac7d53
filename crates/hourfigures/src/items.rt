// The items of an hour's borders, stored one after another from a place on.
ghost use Rattle.std.specs.Prelude.{◌≡◌, true, ◌+◌, ◌≤◌, length};
ghost use Rattle.limits.specs.Limits.{zones_most, borders_most};
ghost use Rattle.types.specs.Ranges.{border_fits, border_of};
ghost use Rattle.marginrules.specs.Magnitudes.{BordersInRange};
ghost use Rattle.daysheet.specs.Sheet.{way_of};
ghost use Rattle.hourfigures.specs.Items.{border_way, ways_of, atcs_of, pasted};

use outcome::AtcRecord;
use types::{Border, BorderRecord};

pub fn keep_ways(zones: usize, b: &[BorderRecord], place: usize, ways: &mut [u64])
    requires zones_le_zones_most { (zones ≤ zones_most) × BordersInRange zones b.now }
    requires borders_most_in_bounds { place + borders_most ≤ length ways.old }
    ensures { ways.new ≡ pasted place (ways_of b.now) ways.old }
{
    for (i, &raw) in b.iter().enumerate() {
        let way = way_of(zones, raw);
        ways[place + i] = way;
    }
}

// Where a border goes, as one number.
fn way_of(zones: usize, raw: BorderRecord) -> u64
    requires { (zones ≤ zones_most) × (border_fits zones raw ≡ true) }
    ensures { result ≡ border_way (border_of raw) }
{
    let border = Border::of_good(zones, raw);
    match border.hubs {
        None => numbered(border.from, border.to, 0, 0),
        Some(hubs) => numbered(border.from, border.to, hubs.sending + 1, hubs.receiving + 1),
    }
}

fn numbered(from: usize, to: usize, sending: usize, receiving: usize) -> u64
    requires { (from ≤ zones_most) × (to ≤ zones_most) × (sending ≤ zones_most) × (receiving ≤ zones_most) }
    ensures { result ≡ way_of from to sending receiving }
{
    (((from * 32 + to) * 32 + sending) * 32 + receiving) as u64
}

pub fn keep_atcs(atc: &[AtcRecord], place: usize, atcs: &mut [u64])
    requires { (length atc.now ≤ borders_most) × (place + borders_most ≤ length atcs.old) }
    ensures { atcs.new ≡ pasted place (atcs_of atc.now) atcs.old }
{
    for (i, record) in atc.iter().enumerate() {
        atcs[place + i] = text::put::magnitude(record[0]);
    }
}
