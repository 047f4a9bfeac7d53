// What the rounds start from, and refusals 5, 6, 7. Margins are in grains, exchanges in kW.
#![tactic(auto)]

ghost use Rattle.std.specs.Prelude.{◌≡◌, true, cond, not, ◌&&◌, ◌*◌, ◌<◌, ◌≤◌, ltb, eqb, pos, length};
ghost use Rattle.std.specs.Int.Signed.{lt_z};
ghost use Rattle.numbers.specs.Ints.{positive_part};
ghost use Rattle.numbers.specs.Below.{table, first_from, some_below, all_below};
ghost use Rattle.limits.specs.Limits.{borders_most};
ghost use Rattle.refusals.specs.Answers.{said_judgement};
ghost use Rattle.types.specs.Ranges.{at_ℤ, is_intraday, border_fits, border_of};
ghost use Rattle.marks.specs.Marks.{flagged};
ghost use Rattle.tablerules.specs.Table.{front, lent_view};
ghost use Rattle.tablerules.specs.Good.{Good};
ghost use Rattle.marginrules.specs.Magnitudes.{FactorsInRange, TableFactorsInRange, BordersInRange};
ghost use Rattle.marginrules.specs.Margin.{p_of};
ghost use Rattle.staterules.specs.States.{kept};
ghost use Rattle.extractrules.specs.Start.{every, from_by, grid_of, start_of, judge_start};
ghost use Rattle.extractrules.specs.Filled.{froms, exchanges_of, free_of, cells, prepared, prepared_of};

use refusals::Refusal;
use tablerules::TableView;
use types::{BorderRecord, Header};

// p of a row at a border, which is 0 where the border is not marked or the row takes no part.
fn cell(flag: u64, state: u64, factors: &[i64], raw: BorderRecord) -> u64
    requires factors_in_range { FactorsInRange factors.now }
    requires raw_value { border_fits (length factors.now) raw ≡ true }
    ensures { result ≡ cond (not (eqb flag 0) && eqb state 0) (p_of factors.now (border_of raw)) 0 }
{
    if flag == 0 {
        return 0;
    }
    if state == 0 {
        margin::p(factors, types::Border::of_good(factors.len(), raw))
    } else {
        0
    }
}

// p of each row at each border, row after row. What only the row decides is read once for the row.
fn fill_grid(h: Header, b: &[BorderRecord], f: &[i64], flags: &[u64], states: &[u64], p: &mut [u64])
    requires table_factors_in_range { TableFactorsInRange h f.now }
    requires borders_in_range { BordersInRange h.zones b.now }
    requires b_len { (length b.now ≡ h.borders) × (length flags.now ≡ h.borders) }
    requires states_len { length states.now ≡ h.rows }
    requires p_len { length p.old ≡ h.rows * h.borders }
    ensures { p.new ≡ cells (grid_of (flagged flags.now) h b.now f.now states.now) }
{
    let rows = h.rows;
    let borders = h.borders;
    for i in 0..rows {
        let state = states[i];
        let factors = margin::row_factors(h, f, i);
        for k in 0..borders {
            p[i * borders + k] = cell(flags[k], state, factors, b[k]);
        }
    }
}

// 5: whether some row takes part.
fn some_kept(states: &[u64]) -> bool
    ensures { result ≡ some_below (length states.now) (kept states.now) }
{
    states.contains(&0)
}

// Whether some row has p > 0 at border k. Computed afresh from the factors: a refusal (6) must not touch the caller's p.
fn is_limited(
    h: Header,
    b: &[BorderRecord],
    f: &[i64],
    flags: &[u64],
    states: &[u64],
    k: usize,
) -> bool
    requires table_factors_in_range { TableFactorsInRange h f.now }
    requires borders_in_range { BordersInRange h.zones b.now }
    requires states_len { length states.now ≡ h.rows }
    requires k_in_bounds { (k < length b.now) × (k < length flags.now) }
    ensures { result ≡ some_below h.rows (λ i. ltb 0 ((grid_of (flagged flags.now) h b.now f.now states.now).p i k)) }
{
    for i in 0..h.rows {
        let factors = margin::row_factors(h, f, i);
        if cell(flags[k], states[i], factors, b[k]) > 0 {
            return true;
        }
    }
    false
}

// A border that is marked, and that no row limits.
fn is_unlimited(
    h: Header,
    b: &[BorderRecord],
    f: &[i64],
    flags: &[u64],
    states: &[u64],
    k: usize,
) -> bool
    requires table_factors_in_range { TableFactorsInRange h f.now }
    requires borders_in_range { BordersInRange h.zones b.now }
    requires states_len { length states.now ≡ h.rows }
    requires k_in_bounds { (k < length b.now) × (k < length flags.now) }
    ensures { result ≡ free_of (flagged flags.now) h b.now f.now states.now k }
{
    if flags[k] == 0 {
        return false;
    }
    !is_limited(h, b, f, flags, states, k)
}

// 6: the first marked border that no row limits.
fn first_unlimited(
    h: Header,
    b: &[BorderRecord],
    f: &[i64],
    flags: &[u64],
    states: &[u64],
) -> Option<usize>
    requires table_factors_in_range { TableFactorsInRange h f.now }
    requires borders_in_range { BordersInRange h.zones b.now }
    requires b_len { (length b.now ≡ h.borders) × (length flags.now ≡ h.borders) }
    requires states_len { length states.now ≡ h.rows }
    ensures { result ≡ first_from h.borders 0 (free_of (flagged flags.now) h b.now f.now states.now) }
{
    for k in 0..h.borders {
        if is_unlimited(h, b, f, flags, states, k) {
            return Some(k);
        }
    }
    None
}

// 7: the first row that takes part and starts below 0, where that is refused.
fn first_below(strict: bool, states: &[u64], starts: &[i64]) -> Option<usize>
    requires { length starts.now ≡ length states.now }
    ensures { result ≡ first_from (length states.now) 0 (λ i. kept states.now i && (strict && lt_z (at_ℤ starts.now i) (pos 0))) }
{
    for i in 0..states.len() {
        let state = states[i];
        let start = starts[i];
        if (state == 0) & (strict & (start < 0)) {
            return Some(i);
        }
    }
    None
}

// 5, 6, 7, in that order; 7 is not given in the intraday profile.
fn judge_start(
    h: Header,
    b: &[BorderRecord],
    f: &[i64],
    flags: &[u64],
    states: &[u64],
    starts: &[i64],
) -> Result<(), Refusal>
    requires table_factors_in_range { TableFactorsInRange h f.now }
    requires borders_in_range { BordersInRange h.zones b.now }
    requires b_len { (length b.now ≡ h.borders) × (length flags.now ≡ h.borders) }
    requires states_len { (length states.now ≡ h.rows) × (length starts.now ≡ h.rows) }
    ensures { said_judgement result states.now ≡ judge_start (flagged flags.now) h b.now f.now states.now starts.now }
{
    if !some_kept(states) {
        return Err(Refusal::NoRow);
    }
    if let Some(b) = first_unlimited(h, b, f, flags, states) {
        return Err(Refusal::Unlimited(b));
    }
    if let Some(i) = first_below(!h.is_intraday(), states, starts) {
        return Err(Refusal::BelowZero(i));
    }
    Ok(())
}

// The margin that a row starts from, which is 0 where the row takes no part.
fn margin_of(state: u64, start: i64) -> u64
    ensures { result ≡ cond (eqb state 0) (positive_part start) 0 }
{
    if state == 0 {
        numbers::positive(start)
    } else {
        0
    }
}

// The margins that the rounds start from.
fn fill_margins(states: &[u64], starts: &[i64], margins: &mut [u64])
    requires { (length starts.now ≡ length states.now) × (length margins.old ≡ length states.now) }
    ensures { margins.new ≡ table (length states.now) (λ i. cond (kept states.now i) (positive_part (at_ℤ starts.now i)) 0) }
{
    for i in 0..states.len() {
        let state = states[i];
        let start = starts[i];
        margins[i] = margin_of(state, start);
    }
}

// RAM of each row, where its margin starts, and its state, and whether the rounds may start. The tables may hold more than their header says.
pub fn prepare(
    view: &TableView,
    flags: &[u64],
    rams: &mut [i64],
    starts: &mut [i64],
    states: &mut [u64],
) -> Result<(), Refusal>
    requires good { Good (front (lent_view view.now)) }
    requires flags_len { length flags.now ≡ view.now.header.borders }
    requires rams_len { (length rams.old ≡ view.now.header.rows) × (length starts.old ≡ view.now.header.rows) }
    requires states_len { length states.old ≡ view.now.header.rows }
    ensures { prepared result rams.new starts.new states.new ≡ prepared_of (flagged flags.now) (front (lent_view view.now)) }
{
    states::fill_rows(view, rams, starts, states);
    let header = view.header;
    let factors = header.rows * header.zones;
    judge_start(
        header,
        &view.borders[..header.borders],
        &view.factors[..factors],
        flags,
        states,
        starts,
    )
}

// p of each row at each marked border, and the margins that the rounds start from.
pub fn lay_out(
    h: Header,
    b: &[BorderRecord],
    f: &[i64],
    flags: &[u64],
    starts: &[i64],
    states: &[u64],
    p: &mut [u64],
    margins: &mut [u64],
)
    requires table_factors_in_range { TableFactorsInRange h f.now }
    requires borders_in_range { BordersInRange h.zones b.now }
    requires b_len { (length b.now ≡ h.borders) × (length flags.now ≡ h.borders) }
    requires starts_len { (length starts.now ≡ h.rows) × (length states.now ≡ h.rows) }
    requires p_len { (length p.old ≡ h.rows * h.borders) × (length margins.old ≡ h.rows) }
    ensures { (p.new ≡ cells (grid_of (flagged flags.now) h b.now f.now states.now)) × (margins.new ≡ (start_of h b.now states.now starts.now).margins) }
{
    fill_grid(h, b, f, flags, states, p);
    fill_margins(states, starts, margins);
}

// Whether every border is marked.
fn all_marked(flags: &[u64]) -> bool
    ensures { result ≡ all_below (length flags.now) (flagged flags.now) }
{
    !flags.contains(&0)
}

// p of each row at every border, marked or not (02, E9), written over what `lay_out` left. Where all borders are marked `lay_out` already wrote it.
pub fn complete(
    h: Header,
    b: &[BorderRecord],
    f: &[i64],
    flags: &[u64],
    states: &[u64],
    p: &mut [u64],
)
    requires table_factors_in_range { TableFactorsInRange h f.now }
    requires borders_in_range { BordersInRange h.zones b.now }
    requires b_len { (length b.now ≡ h.borders) × (length flags.now ≡ h.borders) }
    requires states_len { length states.now ≡ h.rows }
    requires borders_le_borders_most { h.borders ≤ borders_most }
    requires p_value { p.old ≡ cells (grid_of (flagged flags.now) h b.now f.now states.now) }
    ensures { p.new ≡ cells (grid_of every h b.now f.now states.now) }
{
    if all_marked(flags) {
        return;
    }
    let borders = h.borders;
    // Made here, and not by `marks::chosen`, whose copy of it would stand on this call's stack too.
    let every: [u64; limits::BORDERS_MOST] = [1; limits::BORDERS_MOST];
    fill_grid(h, b, f, &every[..borders], states, p);
}

// Where a judged border starts, in kW: at its LTA, or at 0 in the intraday profile.
fn from_of(intraday: bool, zones: usize, raw: BorderRecord) -> u64
    requires { border_fits zones raw ≡ true }
    ensures { result ≡ from_by intraday (border_of raw) }
{
    if intraday {
        return 0;
    }
    margin::lta_kw(types::Border::of_good(zones, raw))
}

// Where each border starts, in kW.
fn fill_froms(intraday: bool, zones: usize, b: &[BorderRecord], x: &mut [u64])
    requires borders_in_range { BordersInRange zones b.now }
    requires x_len { length x.old ≡ length b.now }
    ensures { x.new ≡ froms intraday b.now }
{
    for i in 0..b.len() {
        x[i] = from_of(intraday, zones, b[i]);
    }
}

// The exchanges that the rounds start from, and 0 beyond the borders.
pub fn exchanges(h: Header, b: &[BorderRecord]) -> [u64; limits::BORDERS_MOST]
    requires { BordersInRange h.zones b.now }
    ensures { result ≡ exchanges_of (is_intraday h) b.now }
{
    let intraday = h.is_intraday();
    let mut x: [u64; limits::BORDERS_MOST] = [0; limits::BORDERS_MOST];
    let borders = b.len();
    fill_froms(intraday, h.zones, b, &mut x[..borders]);
    x
}
