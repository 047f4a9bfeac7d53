// Judging claims of an outside solver on kept rows (02, E10): the form of a claim, then whether it is borne out.
#![tactic(auto)]

ghost use Rattle.std.specs.Prelude.{◌≡◌, true, ◌<◌, ◌≤◌, nat_abs, ◌*ℤ◌, length};
ghost use Rattle.numbers.specs.Below.{all_below};
ghost use Rattle.limits.specs.Limits.{rows_most};
ghost use Rattle.refusals.specs.Answers.{said_judgement};
ghost use Rattle.types.specs.Ranges.{exists};
ghost use Rattle.tablerules.specs.Table.{lent, front, lent_view};
ghost use Rattle.tablerules.specs.Good.{Good};
ghost use Rattle.staterules.specs.Standings.{standings_of, standings_with};
ghost use Rattle.claimrules.specs.Claims.{pairs_most, cited_row, multiplier, pairs, kept_row, cited_before, pair_good, formed_by, cited_sum, excess, level, borne_out, judge_claims, claims_of, claims_answer};
ghost use Rattle.claims.specs.Named.{named_rows, none_named, flagged, name_row, judge_claim};
ghost use Rattle.claims.specs.Unflagged.{unflagged};
ghost use Rattle.claims.specs.Magnitudes.{ClaimInRange, Lent, value_of};

use refusals::Refusal;
use tablerules::TableView;
use types::Header;

// A lent claim: the claimed row, the denominator D, how many pairs there are; then the pairs, each a cited row and its multiplier.
pub const CLAIM_ITEMS: usize = 35;

pub type ClaimRecord = [i64; CLAIM_ITEMS];

// D and a multiplier are 1 to `TIMES_MOST`.
pub const TIMES_MOST: i64 = 1000;

// A claim has at most `PAIRS_MOST` pairs. Its record has room for all of them.
pub const PAIRS_MOST: i64 = 16;

// A row that exists and is kept.
fn kept_row(states: &[u64], row: i64) -> bool
    ensures { result ≡ kept_row states.now row }
{
    if row < 0 {
        return false;
    }
    let i = row as usize;
    if i < states.len() {
        return states[i] == 0;
    }
    false
}

// Whether a row's flag is set.
pub fn is_flagged(flags: &[bool], row: i64) -> bool
    ensures { result ≡ flagged flags.now row }
{
    if row < 0 {
        return false;
    }
    let i = row as usize;
    if i < flags.len() {
        return flags[i];
    }
    false
}

// Whether a row is kept and its flag is not set.
pub fn is_published(states: &[u64], named: &[bool], row: usize) -> bool
    requires { (length states.now ≤ rows_most) × (row < length states.now) }
    ensures { result ≡ unflagged states.now named.now row }
{
    if states[row] == 0 {
        return !is_flagged(named, row as i64);
    }
    false
}

// Flags one row more. A row that no table has needs no flag.
pub fn name_row(row: i64, flags: &mut [bool])
    ensures { flags.new ≡ name_row row flags.old }
{
    if row < 0 {
        return;
    }
    let i = row as usize;
    if i < flags.len() {
        flags[i] = true;
    }
}

// An earlier pair of the claim cites the row of pair j.
fn cited_before(claim: ClaimRecord, j: usize) -> bool
    requires { j < pairs_most }
    ensures { result ≡ cited_before claim j }
{
    for e in 0..j {
        if numbers::same(claim[3 + 2 * e], claim[3 + 2 * j]) {
            return true;
        }
    }
    false
}

// A pair of right form: a kept row that no claim names and no earlier pair cites, and a multiplier in range.
fn pair_good(states: &[u64], named: &[bool], claim: ClaimRecord, j: usize) -> bool
    requires { j < pairs_most }
    ensures { result ≡ pair_good states.now (flagged named.now) claim j }
{
    let row = claim[3 + 2 * j];
    let times = claim[4 + 2 * j];
    if !kept_row(states, row) {
        return false;
    }
    if is_flagged(named, row) {
        return false;
    }
    if cited_before(claim, j) {
        return false;
    }
    numbers::inside(times, 1, TIMES_MOST)
}

fn pairs_good(states: &[u64], named: &[bool], claim: ClaimRecord, n: usize) -> bool
    requires { n ≤ pairs_most }
    ensures { result ≡ all_below n (pair_good states.now (flagged named.now) claim) }
{
    for j in 0..n {
        if !pair_good(states, named, claim, j) {
            return false;
        }
    }
    true
}

// 11: whether a claim is of right form. `named` flags the rows that any claim names, `earlier` those that an earlier claim names.
fn is_formed(states: &[u64], named: &[bool], earlier: &[bool], claim: ClaimRecord) -> bool
    ensures { result ≡ formed_by states.now (flagged named.now) (flagged earlier.now) claim }
{
    let row = claim[0];
    let denominator = claim[1];
    let pairs = claim[2];
    if !kept_row(states, row) {
        return false;
    }
    if is_flagged(earlier, row) {
        return false;
    }
    if !numbers::inside(denominator, 1, TIMES_MOST) {
        return false;
    }
    if !numbers::inside(pairs, 0, PAIRS_MOST) {
        return false;
    }
    pairs_good(states, named, claim, pairs as usize)
}

// A row's value, among `stride` of each row.
fn value_of(rows: usize, xs: &[i64], stride: usize, at: usize, row: i64) -> i64
    requires lent { Lent rows stride at xs.now }
    requires row_value { exists rows row ≡ true }
    ensures { result ≡ value_of xs.now stride at (nat_abs row) }
{
    let i = row as usize;
    xs[i * stride + at]
}

// The multiplied value of the row that pair j cites.
fn multiplied(
    rows: usize,
    xs: &[i64],
    stride: usize,
    at: usize,
    claim: ClaimRecord,
    j: usize,
) -> i64
    requires lent { Lent rows stride at xs.now }
    requires claim_in_range { ClaimInRange rows claim }
    requires j_bound { j < nat_abs (pairs claim) }
    ensures { result ≡ multiplier claim j *ℤ value_of xs.now stride at (nat_abs (cited_row claim j)) }
{
    let row = claim[3 + 2 * j];
    let times = claim[4 + 2 * j];
    let value = value_of(rows, xs, stride, at, row);
    times * value
}

// The sum of the multiplied values of the cited rows.
fn cited_sum(rows: usize, xs: &[i64], stride: usize, at: usize, claim: ClaimRecord) -> i64
    requires lent { Lent rows stride at xs.now }
    requires claim_in_range { ClaimInRange rows claim }
    ensures { result ≡ cited_sum claim (value_of xs.now stride at) }
{
    let pairs = claim[2];
    let n = pairs as usize;
    let mut sum: i64 = 0;
    for j in 0..n {
        sum += multiplied(rows, xs, stride, at, claim, j);
    }
    sum
}

// The sum of the multiplied values of the cited rows, less D times the claimed row's own value.
fn excess(rows: usize, xs: &[i64], stride: usize, at: usize, claim: ClaimRecord) -> i64
    requires lent { Lent rows stride at xs.now }
    requires claim_in_range { ClaimInRange rows claim }
    ensures { result ≡ excess claim (value_of xs.now stride at) }
{
    let row = claim[0];
    let denominator = claim[1];
    let sum = cited_sum(rows, xs, stride, at, claim);
    let value = value_of(rows, xs, stride, at, row);
    sum - denominator * value
}

// The factors' excess is one and the same number in each zone.
fn is_level(rows: usize, zones: usize, f: &[i64], claim: ClaimRecord) -> bool
    requires lent { Lent rows zones 0 f.now }
    requires claim_in_range { ClaimInRange rows claim }
    ensures { result ≡ level zones f.now claim }
{
    let first = excess(rows, f, zones, 0, claim);
    for z in 0..zones {
        if !numbers::same(excess(rows, f, zones, z, claim), first) {
            return false;
        }
    }
    true
}

// 12: whether a claim of right form is true. The sums fit: at most 17 values under 2^48, each taken at most a thousand times.
fn is_borne_out(rows: usize, zones: usize, f: &[i64], rams: &[i64], claim: ClaimRecord) -> bool
    requires lent { Lent rows zones 0 f.now }
    requires lent_2 { Lent rows 1 0 rams.now }
    requires claim_in_range { ClaimInRange rows claim }
    ensures { result ≡ borne_out zones f.now rams.now claim }
{
    if !is_level(rows, zones, f, claim) {
        return false;
    }
    excess(rows, rams, 1, 0, claim) <= 0
}

// Judges claim k on a judged table, whose RAMs and states are known: form before truth.
pub fn judge_claim(
    h: Header,
    f: &[i64],
    rams: &[i64],
    states: &[u64],
    named: &[bool],
    earlier: &[bool],
    claim: ClaimRecord,
    k: usize,
) -> Result<(), Refusal>
    requires lent { Lent h.rows h.zones 0 f.now }
    requires lent_2 { Lent h.rows 1 0 rams.now }
    requires states_len { length states.now ≡ h.rows }
    ensures { said_judgement result (standings_with rams.now states.now) ≡ judge_claim h.zones f.now (standings_with rams.now states.now) (flagged named.now) (flagged earlier.now) claim k }
{
    if !is_formed(states, named, earlier, claim) {
        return Err(Refusal::MalformedClaim(k));
    }
    if !is_borne_out(h.rows, h.zones, f, rams, claim) {
        return Err(Refusal::NotBorneOut(k));
    }
    Ok(())
}

// Flags the rows that the claims name.
fn name_rows(claims: &[ClaimRecord], named: &mut [bool])
    requires { named.old ≡ none_named }
    ensures { named.new ≡ named_rows claims.now (length claims.now) }
{
    for k in 0..claims.len() {
        let claim = claims[k];
        name_row(claim[0], named);
    }
}

// The first faulty claim decides. `named` flags the rows that claims name; no row is flagged yet as named by an earlier one.
fn judge_each(
    h: Header,
    f: &[i64],
    rams: &[i64],
    states: &[u64],
    named: &[bool],
    earlier: &mut [bool],
    claims: &[ClaimRecord],
) -> Result<(), Refusal>
    requires lent { Lent h.rows h.zones 0 f.now }
    requires lent_2 { Lent h.rows 1 0 rams.now }
    requires states_len { (length states.now ≡ h.rows) × (h.rows ≤ rows_most) }
    requires named_value { (named.now ≡ named_rows claims.now (length claims.now)) × (earlier.old ≡ none_named) }
    ensures { said_judgement result (standings_with rams.now states.now) ≡ judge_claims h.zones f.now (standings_with rams.now states.now) claims.now }
{
    for k in 0..claims.len() {
        let claim = claims[k];
        judge_claim(h, f, rams, states, named, earlier, claim, k)?;
        name_row(claim[0], earlier);
    }
    Ok(())
}

// The RAM and the state of each row, the rows that claims name, and then the claims.
fn judge_in(
    view: &TableView,
    rams: &mut [i64],
    starts: &mut [i64],
    states: &mut [u64],
    named: &mut [bool],
    earlier: &mut [bool],
    claims: &[ClaimRecord],
) -> Result<(), Refusal>
    requires good { Good (front (lent_view view.now)) }
    requires rams_len { (length rams.old ≡ view.now.header.rows) × (length starts.old ≡ view.now.header.rows) }
    requires states_len { length states.old ≡ view.now.header.rows }
    requires named_value { (named.old ≡ none_named) × (earlier.old ≡ none_named) }
    ensures { said_judgement result (standings_of (front (lent_view view.now))) ≡ claims_of (front (lent_view view.now)) claims.now }
{
    states::fill_rows(view, rams, starts, states);
    name_rows(claims, named);
    let h = view.header;
    let factors = &view.factors[..h.rows * h.zones];
    judge_each(h, factors, rams, states, named, earlier, claims)
}

// Judges a list of claims on a lent table. Any input has an answer: there is no `requires`.
pub fn judge_claims(view: &TableView, claims: &[ClaimRecord]) -> Result<(), Refusal>
    ensures { said_judgement result (standings_of (front (lent_view view.now))) ≡ claims_answer (lent_view view.now) claims.now }
{
    table::judge(view, None)?;
    judge_claims_good(view, claims)
}

// Judges a list of claims on a good table. Allocates the arrays here so that the proof goals of `judge_in` do not contain them.
pub fn judge_claims_good(view: &TableView, claims: &[ClaimRecord]) -> Result<(), Refusal>
    requires { Good (front (lent_view view.now)) }
    ensures { said_judgement result (standings_of (front (lent_view view.now))) ≡ claims_of (front (lent_view view.now)) claims.now }
{
    let rows = view.header.rows;
    let mut rams: [i64; limits::ROWS_MOST] = [0; limits::ROWS_MOST];
    let mut starts: [i64; limits::ROWS_MOST] = [0; limits::ROWS_MOST];
    let mut states: [u64; limits::ROWS_MOST] = [0; limits::ROWS_MOST];
    let mut named: [bool; limits::ROWS_MOST] = [false; limits::ROWS_MOST];
    let mut earlier: [bool; limits::ROWS_MOST] = [false; limits::ROWS_MOST];
    judge_in(
        view,
        &mut rams[..rows],
        &mut starts[..rows],
        &mut states[..rows],
        &mut named,
        &mut earlier,
        claims,
    )
}
