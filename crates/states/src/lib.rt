// Row states: which rows take part in the extraction, and what every reading of a table's rows begins with: RAM, starting margin and state of each.
#![tactic(auto)]

ghost use Rattle.std.specs.Prelude.{◌≡◌, ◌&&◌, ◌<◌, pos, length};
ghost use Rattle.std.specs.Int.Signed.{lt_z};
ghost use Rattle.numbers.specs.Below.{some_below};
ghost use Rattle.tablerules.specs.Table.{front, stretch, lent_view};
ghost use Rattle.tablerules.specs.Good.{Good};
ghost use Rattle.marginrules.specs.Magnitudes.{FactorsInRange, TableFactorsInRange};
ghost use Rattle.marginrules.specs.Margin.{starts_of};
ghost use Rattle.staterules.specs.States.{spread_of, spread_least, shifted, below, state_of, states_of};
ghost use Rattle.staterules.specs.Standings.{standings_of, standings_with};

use tablerules::TableView;

// The 5% test: rows of a smaller spread, in hundred-thousandths, take no part.
const SPREAD_LEAST: i64 = 5000;

// State 1: the largest zone factor less the smallest is under `SPREAD_LEAST`.
pub fn spread_small(factors: &[i64]) -> bool
    requires { FactorsInRange factors.now }
    ensures { result ≡ lt_z (spread_of factors.now) (pos spread_least) }
{
    let mut high = factors[0];
    let mut low = high;
    for z in 1..factors.len() {
        let factor = factors[z];
        high = numbers::larger(high, factor);
        low = numbers::smaller(low, factor);
    }
    high - low < SPREAD_LEAST
}

// Two rows' factors differ by one and the same number in every zone: each differs as zone 0 does.
pub fn shifted(fs: &[i64], gs: &[i64]) -> bool
    requires factors_in_range { FactorsInRange fs.now }
    requires factors_in_range_2 { FactorsInRange gs.now }
    requires gs_len { length gs.now ≡ length fs.now }
    ensures { result ≡ shifted fs.now gs.now }
{
    let f0 = fs[0];
    let g0 = gs[0];
    let d = f0 - g0;
    for z in 1..fs.len() {
        let f = fs[z];
        let g = gs[z];
        if !numbers::same(f - g, d) {
            return false;
        }
    }
    true
}

// Row j's RAM is lower than row i's, or equal with a lower index.
fn below(rams: &[i64], j: usize, i: usize) -> bool
    requires { (j < length rams.now) × (i < length rams.now) }
    ensures { result ≡ below rams.now j i }
{
    let a = rams[j];
    let b = rams[i];
    a < b || (numbers::same(a, b) && j < i)
}

// Whether row j stands for row i: its RAM is lower (or equal, with a lower index), and their factors differ by one number. Factors are compared first: few rows pass, so
// the branch nearly always goes the same way.
fn stands_for(h: types::Header, f: &[i64], rams: &[i64], j: usize, i: usize) -> bool
    requires table_factors_in_range { TableFactorsInRange h f.now }
    requires rams_len { length rams.now ≡ h.rows }
    requires j_lt_rows { (j < h.rows) × (i < h.rows) }
    ensures { result ≡ (below rams.now j i && shifted (stretch h.zones f.now j) (stretch h.zones f.now i)) }
{
    shifted(margin::row_factors(h, f, j), margin::row_factors(h, f, i)) && below(rams, j, i)
}

// State 2, but for state 1: another row stands for row i.
fn stood_for(h: types::Header, f: &[i64], rams: &[i64], i: usize) -> bool
    requires table_factors_in_range { TableFactorsInRange h f.now }
    requires rams_len { length rams.now ≡ h.rows }
    requires i_lt_rows { i < h.rows }
    ensures { result ≡ some_below h.rows (λ j. below rams.now j i && shifted (stretch h.zones f.now j) (stretch h.zones f.now i)) }
{
    let rows = h.rows;
    for j in 0..rows {
        if stands_for(h, f, rams, j, i) {
            return true;
        }
    }
    false
}

// A row's state, by the factors and RAMs of all rows.
pub fn state_of(h: types::Header, f: &[i64], rams: &[i64], i: usize) -> u64
    requires table_factors_in_range { TableFactorsInRange h f.now }
    requires rams_len { length rams.now ≡ h.rows }
    requires i_lt_rows { i < h.rows }
    ensures { result ≡ state_of h f.now rams.now i }
{
    if spread_small(margin::row_factors(h, f, i)) {
        return 1;
    }
    if stood_for(h, f, rams, i) {
        return 2;
    }
    0
}

// The state of each row.
pub fn fill_states(h: types::Header, f: &[i64], rams: &[i64], states: &mut [u64])
    requires table_factors_in_range { TableFactorsInRange h f.now }
    requires rams_len { length rams.now ≡ h.rows }
    requires states_len { length states.old ≡ h.rows }
    ensures { states.new ≡ states_of h f.now rams.now }
{
    for i in 0..h.rows {
        states[i] = state_of(h, f, rams, i);
    }
}

// RAM of each row, where its margin starts, and its state. The tables may hold more than their header says.
pub fn fill_rows(view: &TableView, rams: &mut [i64], starts: &mut [i64], states: &mut [u64])
    requires good { Good (front (lent_view view.now)) }
    requires rams_len { (length rams.old ≡ view.now.header.rows) × (length starts.old ≡ view.now.header.rows) }
    requires states_len { length states.old ≡ view.now.header.rows }
    ensures { (standings_with rams.new states.new ≡ standings_of (front (lent_view view.now))) × (starts.new ≡ starts_of (front (lent_view view.now))) }
{
    let header = view.header;
    let rows = header.rows;
    let factors = &view.factors[..rows * header.zones];
    let front = TableView {
        header,
        nets: &view.nets[..header.zones],
        allocated: &view.allocated[..header.allocated_items()],
        borders: &view.borders[..header.borders],
        rows: &view.rows[..rows],
        factors,
    };
    margin::fill_rams(&front, rams, starts);
    fill_states(header, factors, rams, states);
}
