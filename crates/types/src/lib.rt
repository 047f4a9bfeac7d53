// The values that a table carries, with their ranges.
// A range is given once, on the type that carries the value: its `tests` are one for each field of a line, in the line's order, and a test of two fields
// stands at the later. The value is within its range where all hold, and the first that fails names the field to blame (crate blame).
// The columns of a line are given there too, in 01's order and without the index, one byte for each field: n a number, s a signed number, r a number or "-",
// and in the planners' sheet (02, E11) p a power in MW, q one that may be below 0, f a factor.
// All tests are made and joined by `&`, so judging has no branch.
#![tactic(auto)]

ghost use Rattle.std.specs.Prelude.{◌≡◌, true, length};
ghost use Rattle.types.specs.LineColumns.{border_items, row_items};
ghost use Rattle.types.specs.Ranges.{all_true, header_tests, header_fits, is_intraday, allocated_items, profiled, default_of, zone_tests, zone_fits, exists, hubs_fit, hubs_of, no_hubs, border_tests, border_fits, border_of, share_of, row_tests, row_fits, row_of, factor_fits, worth};
ghost use Rattle.types.specs.Constructors.{zone_read, border_read, row_read};

// The raw number of a field that may be left out and was not written: the hubs of a border, and the default of R. No such field can be below 0.
pub const NOT_WRITTEN: i64 = -1;

// The counts of the H line, the default of R as it was written (ten-thousandths, or NOT_WRITTEN), and whether T records are there (02, E12).
// C passes it as it lies in memory. Whether T records are there is a number and no bool, so that a header that no text could give can be refused.
#[repr(C)]
#[derive(Clone, Copy)]
pub struct Header {
    pub zones: usize,
    pub borders: usize,
    pub rows: usize,
    pub share: i64,
    pub intraday: usize,
}

impl Header {
    pub const ITEMS: usize = 4;

    // Zones, borders, rows, the default of R.
    pub const COLUMNS: [u8; Header::ITEMS] = *b"nnnn";

    // Every H line has the first three columns; the default of R may be left out.
    pub const ALWAYS: usize = 3;

    // The profile: without T records, or with one for each zone.
    pub const DAY_AHEAD: usize = 0;

    pub const INTRADAY: usize = 1;

    // A test for each field, and then that of the profile, which is no field of the line.
    pub fn tests(self) -> [bool; Header::ITEMS + 1]
        ensures { result ≡ header_tests self }
    {
        let share = self.share;
        [
            (limits::ZONES_LEAST <= self.zones) & (self.zones <= limits::ZONES_MOST),
            (limits::BORDERS_LEAST <= self.borders) & (self.borders <= limits::BORDERS_MOST),
            (limits::ROWS_LEAST <= self.rows) & (self.rows <= limits::ROWS_MOST),
            numbers::inside(share, NOT_WRITTEN, Row::SHARE_MOST),
            self.intraday <= Header::INTRADAY,
        ]
    }

    pub fn fits(self) -> bool
        ensures { result ≡ header_fits self }
    {
        let tests = self.tests();
        all(&tests)
    }

    // The default in force, ten-thousandths: what "-" in R is worth. A default that was not written is a "-" itself.
    pub fn default_share(self) -> i64
        ensures { result ≡ default_of self }
    {
        let share = self.share;
        let written = Share::of(share);
        written.worth(Share::STANDARD)
    }

    pub fn is_intraday(self) -> bool
        ensures { result ≡ is_intraday self }
    {
        self.intraday == Header::INTRADAY
    }

    // The T records: one for each zone, or none.
    pub fn allocated_items(self) -> usize
        ensures { result ≡ allocated_items self }
    {
        if self.intraday == Header::INTRADAY {
            self.zones
        } else {
            0
        }
    }

    // The header of a text whose Z lines are followed by T lines, or are not.
    pub fn profiled(self, intraday: bool) -> Header
        ensures { result ≡ profiled self intraday }
    {
        let share = self.share;
        Header {
            zones: self.zones,
            borders: self.borders,
            rows: self.rows,
            share: share,
            intraday: if intraday {
                Header::INTRADAY
            } else {
                Header::DAY_AHEAD
            },
        }
    }
}

// A zone's net position, kW: the reference one of a Z line, or the allocated one of a T line.
#[derive(Clone, Copy)]
pub struct Zone {
    pub net: i64,
}

impl Zone {
    // Net position.
    pub const COLUMNS: [u8; 1] = *b"s";

    pub const LOWEST: i64 = -100000000;

    pub const HIGHEST: i64 = 100000000;

    pub fn of(raw: i64) -> Option<Zone>
        ensures { result ≡ zone_read raw }
    {
        if Zone::fits(raw) {
            Some(Zone { net: raw })
        } else {
            None
        }
    }

    fn fits(raw: i64) -> bool
        ensures { result ≡ zone_fits raw }
    {
        let tests = Zone::tests(raw);
        all(&tests)
    }

    pub fn tests(raw: i64) -> [bool; 1]
        ensures { result ≡ zone_tests raw }
    {
        [numbers::inside(raw, Zone::LOWEST, Zone::HIGHEST)]
    }
}

// The hubs of a cable that is modelled by two (02, E3): sending and receiving, both zones. The exchange goes from the from zone to the sending hub,
// and from the receiving hub to the to zone.
#[derive(Clone, Copy)]
pub struct Hubs {
    pub sending: usize,
    pub receiving: usize,
}

impl Hubs {
    // The hubs of a judged record, where it has any.
    fn of_good(zones: usize, sending: i64, receiving: i64) -> Option<Hubs>
        requires { hubs_fit zones sending receiving ≡ true }
        ensures { result ≡ hubs_of sending receiving }
    {
        if sending < 0 {
            return None;
        }
        Some(Hubs {
            sending: sending as usize,
            receiving: receiving as usize,
        })
    }

    // Hubs that were left out.
    fn none(sending: i64, receiving: i64) -> bool
        ensures { result ≡ no_hubs sending receiving }
    {
        numbers::same(sending, NOT_WRITTEN) & numbers::same(receiving, NOT_WRITTEN)
    }
}

// From zone, to zone, LTA in MW, hubs.
#[derive(Clone, Copy)]
pub struct Border {
    pub from: usize,
    pub to: usize,
    pub lta: u64,
    pub hubs: Option<Hubs>,
}

// A lent border: from, to, LTA, sending hub, receiving hub.
pub type BorderRecord = [i64; Border::ITEMS];

impl Border {
    pub const ITEMS: usize = 5;

    // From zone, to zone, LTA, sending hub, receiving hub.
    pub const COLUMNS: [u8; Border::ITEMS] = *b"nnnnn";

    // Every B line has the first three columns; the hubs may be left out.
    pub const ALWAYS: usize = 3;

    // MW.
    pub const LTA_LEAST: i64 = 0;

    pub const LTA_MOST: i64 = 10000;

    pub fn of(zones: usize, raw: BorderRecord) -> Option<Border>
        ensures { result ≡ border_read zones raw }
    {
        if Border::fits(zones, &raw) {
            Some(Border::of_good(zones, raw))
        } else {
            None
        }
    }

    // The Border of a record that was judged to be in range. No test is made here.
    pub fn of_good(zones: usize, raw: BorderRecord) -> Border
        requires { border_fits zones raw ≡ true }
        ensures { result ≡ border_of raw }
    {
        let from = raw[0];
        let to = raw[1];
        let lta = raw[2];
        let sending = raw[3];
        let receiving = raw[4];
        let hubs = Hubs::of_good(zones, sending, receiving);
        Border {
            from: from as usize,
            to: to as usize,
            lta: lta as u64,
            hubs: hubs,
        }
    }

    pub fn fits(zones: usize, raw: &[i64]) -> bool
        requires { length raw.now ≡ border_items }
        ensures { result ≡ border_fits zones raw.now }
    {
        let tests = Border::tests(zones, raw);
        all(&tests)
    }

    // Zones that exist, the two not equal; LTA; and no hubs, or two that exist and are not equal.
    pub fn tests(zones: usize, raw: &[i64]) -> [bool; Border::ITEMS]
        requires { length raw.now ≡ border_items }
        ensures { result ≡ border_tests zones raw.now }
    {
        let from = raw[0];
        let to = raw[1];
        let lta = raw[2];
        let sending = raw[3];
        let receiving = raw[4];
        let none = Hubs::none(sending, receiving);
        [
            exists(zones, from),
            exists(zones, to) & !numbers::same(from, to),
            numbers::inside(lta, Border::LTA_LEAST, Border::LTA_MOST),
            none | exists(zones, sending),
            none | exists(zones, receiving) & !numbers::same(sending, receiving),
        ]
    }
}

// The zones are numbered from 0.
pub fn exists(zones: usize, z: i64) -> bool
    ensures { result ≡ exists zones z }
{
    !(z < 0) && (z as u64) < (zones as u64)
}

// R as it was written: "-", or ten-thousandths.
#[derive(Clone, Copy)]
pub enum Share {
    Standard,
    Written(i64),
}

impl Share {
    // What "-" means where the H line has no default, in ten-thousandths.
    pub const STANDARD: i64 = 7000;

    // "-" is the one raw number below 0 that a record may hold.
    fn of(raw: i64) -> Share
        ensures { result ≡ share_of raw }
    {
        if raw < 0 {
            Share::Standard
        } else {
            Share::Written(raw)
        }
    }

    // Ten-thousandths of Fmax, by the default in force.
    pub fn worth(self, default: i64) -> i64
        ensures { result ≡ worth default self }
    {
        match self {
            Share::Standard => default,
            Share::Written(r) => r,
        }
    }
}

// Powers in kW.
#[derive(Clone, Copy)]
pub struct Row {
    pub fmax: i64,
    pub frm: i64,
    pub fref: i64,
    pub f0all: i64,
    pub share: Share,
    pub cva: i64,
    pub iva: i64,
}

// A lent row: Fmax, FRM, Fref, F0all, R, CVA, IVA.
pub type RowRecord = [i64; Row::ITEMS];

impl Row {
    pub const ITEMS: usize = 7;

    // Fmax, FRM, Fref, F0all, R, CVA, IVA, and then one factor per zone: of these, as many as the table has zones.
    pub const COLUMNS: [u8; Row::ITEMS + limits::ZONES_MOST] = *b"nnssrnnssssssssssssssss";

    // The columns of a row in the planners' sheet (02, E11): the same fields.
    pub const SHEET_COLUMNS: [u8; Row::ITEMS + limits::ZONES_MOST] = *b"ppqqrppffffffffffffffff";

    // kW.
    pub const FMAX_LEAST: i64 = 1;

    pub const FMAX_MOST: i64 = 10000000;

    // kW; the most is the row's Fmax.
    pub const FRM_LEAST: i64 = 0;

    // Fref and F0all, kW.
    pub const FLOW_LOWEST: i64 = -20000000;

    pub const FLOW_HIGHEST: i64 = 20000000;

    // R: the raw number that stands for "-", and the largest share.
    pub const DASH: i64 = -1;

    pub const SHARE_MOST: i64 = 10000;

    // CVA and IVA, kW.
    pub const VA_LEAST: i64 = 0;

    pub const VA_MOST: i64 = 10000000;

    // A zone's factor on the row, hundred-thousandths.
    pub const FACTOR_LOWEST: i64 = -100000;

    pub const FACTOR_HIGHEST: i64 = 100000;

    pub fn of(raw: RowRecord) -> Option<Row>
        ensures { result ≡ row_read raw }
    {
        if Row::fits(&raw) {
            Some(Row::of_good(raw))
        } else {
            None
        }
    }

    // The Row of a record that was judged to be in range. No test is made here.
    pub fn of_good(raw: RowRecord) -> Row
        requires { row_fits raw ≡ true }
        ensures { result ≡ row_of raw }
    {
        let fmax = raw[0];
        let frm = raw[1];
        let fref = raw[2];
        let f0all = raw[3];
        let share = raw[4];
        let cva = raw[5];
        let iva = raw[6];
        Row {
            fmax: fmax,
            frm: frm,
            fref: fref,
            f0all: f0all,
            share: Share::of(share),
            cva: cva,
            iva: iva,
        }
    }

    fn fits(raw: &[i64]) -> bool
        requires { length raw.now ≡ row_items }
        ensures { result ≡ row_fits raw.now }
    {
        let tests = Row::tests(raw);
        all(&tests)
    }

    // The seven values. The factors, which are as many as the table has zones, are tested one by one.
    pub fn tests(raw: &[i64]) -> [bool; Row::ITEMS]
        requires { length raw.now ≡ row_items }
        ensures { result ≡ row_tests raw.now }
    {
        let fmax = raw[0];
        let frm = raw[1];
        let fref = raw[2];
        let f0all = raw[3];
        let share = raw[4];
        let cva = raw[5];
        let iva = raw[6];
        [
            numbers::inside(fmax, Row::FMAX_LEAST, Row::FMAX_MOST),
            numbers::inside(frm, Row::FRM_LEAST, fmax),
            numbers::inside(fref, Row::FLOW_LOWEST, Row::FLOW_HIGHEST),
            numbers::inside(f0all, Row::FLOW_LOWEST, Row::FLOW_HIGHEST),
            numbers::inside(share, Row::DASH, Row::SHARE_MOST),
            numbers::inside(cva, Row::VA_LEAST, Row::VA_MOST),
            numbers::inside(iva, Row::VA_LEAST, Row::VA_MOST),
        ]
    }

    pub fn factor_fits(factor: i64) -> bool
        ensures { result ≡ factor_fits factor }
    {
        numbers::inside(factor, Row::FACTOR_LOWEST, Row::FACTOR_HIGHEST)
    }
}

// Whether all tests hold.
fn all(tests: &[bool]) -> bool
    ensures { result ≡ all_true tests.now }
{
    let mut held = true;
    for j in 0..tests.len() {
        held = held & tests[j];
    }
    held
}
