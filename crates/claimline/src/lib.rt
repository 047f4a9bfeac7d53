// The claim of a line, as its record. A line of wrong form becomes a claim on no row, which judging finds.
#![tactic(auto)]

ghost use Rattle.std.specs.Prelude.{◌≡◌, cond, suc, ◌+◌, ◌*◌, ◌<◌, ◌≤◌, eqb, length};
ghost use Rattle.numbers.specs.Below.{sum};
ghost use Rattle.types.specs.Ranges.{at_ℤ};
ghost use Rattle.text.specs.Fields.{tab};
ghost use Rattle.columns.specs.ColumnLine.{rest_at};
ghost use Rattle.claimrules.specs.Claims.{pairs_most};
ghost use Rattle.claimline.specs.ClaimText.{claim_items, number_columns, claim_item, claim_record, no_claim, crowded, claim_with, is_tab, pairs_in, claim_line};
ghost use Rattle.claimline.specs.Good.{are_good};

use claims::{CLAIM_ITEMS, ClaimRecord};

// The fields of a line with the most pairs: all numbers of a record but the count of its pairs.
const FIELDS_MOST: usize = CLAIM_ITEMS - 1;

const COLUMNS: [u8; FIELDS_MOST] = *b"nnnnnnnnnnnnnnnnnnnnnnnnnnnnnnnnnn";

// One pair more than a claim may have.
const CROWDED: usize = FIELDS_MOST / 2;

// The fields of a claim on no row.
const NO_ROW: [i64; 1] = [-1];

// The claim of a line: with as many pairs as its tabs say.
pub fn claim_line(line: &[u8]) -> ClaimRecord
    ensures { result ≡ claim_line line.now }
{
    let pairs = pairs_in(line);
    if pairs < CROWDED {
        return claim_with(line, pairs);
    }
    crowded_line(line, pairs)
}

// A tab stands before each field.
fn pairs_in(line: &[u8]) -> usize
    ensures { result ≡ pairs_in line.now }
{
    tabs_in(line).saturating_sub(2) / 2
}

fn tabs_in(line: &[u8]) -> usize
    ensures { result ≡ sum (length line.now) (is_tab line.now) }
{
    let mut tabs = 0;
    for i in 0..line.len() {
        tabs += is_tab(line[i]);
    }
    tabs
}

fn is_tab(byte: u8) -> usize
    ensures { result ≡ cond (eqb byte tab) 1 0 }
{
    (byte == b'\t') as usize
}

// The claim of a line with more pairs than a claim may have: no record has room for them, but its row is named.
fn crowded_line(line: &[u8], pairs: usize) -> ClaimRecord
    requires { (pairs_most < pairs) × (1 + 2 * pairs ≤ length line.now) }
    ensures { result ≡ claim_with line.now pairs }
{
    if !text::line::headed(line, b'Q', b'\t') {
        return no_claim();
    }
    let Ok((row, next)) = columns::read::field_at(b'n', line, 2, b'\t') else {
        return no_claim();
    };
    if !are_numbers(line, next, 1 + 2 * pairs) {
        return no_claim();
    }
    crowded(row)
}

// Whether the line goes on with n numbers, and then ends.
fn are_numbers(line: &[u8], at: usize, n: usize) -> bool
    ensures { result ≡ are_good (rest_at tab (number_columns n) line.now at) }
{
    let mut p = at;
    for k in 0..n {
        let stop = columns::read::stop_of(n - k, b'\t', b'\n');
        let Ok((_, next)) = columns::read::field_at(b'n', line, p, stop) else {
            return false;
        };
        p = next;
    }
    line.len() <= p
}

// The claim of a line that has so many pairs, or no claim.
fn claim_with(line: &[u8], pairs: usize) -> ClaimRecord
    requires { pairs ≤ pairs_most }
    ensures { result ≡ claim_with line.now pairs }
{
    let mut fields: [i64; FIELDS_MOST] = [0; FIELDS_MOST];
    claim_in(line, pairs, &mut fields)
}

// The claim of a line that has so many pairs, or no claim. Its fields are read into working memory.
fn claim_in(line: &[u8], pairs: usize, fields: &mut [i64]) -> ClaimRecord
    requires { (pairs ≤ pairs_most) × (suc (length fields.old) ≡ claim_items) }
    ensures { result ≡ claim_with line.now pairs }
{
    let n = 2 + 2 * pairs;
    let Ok(_) = columns::read::line_at(
        b'\t',
        columns::Head::Lettered(b'Q'),
        &COLUMNS[..n],
        line,
        &mut fields[..n],
    ) else {
        return no_claim();
    };
    claim_record(pairs, &fields[..n])
}

fn no_claim() -> ClaimRecord
    ensures { result ≡ no_claim }
{
    claim_record(0, &NO_ROW)
}

fn crowded(row: i64) -> ClaimRecord
    ensures { result ≡ crowded row }
{
    claim_record(CROWDED, &[row])
}

// The record of a claim with these fields.
fn claim_record(pairs: usize, fields: &[i64]) -> ClaimRecord
    requires { pairs ≤ suc pairs_most }
    ensures { result ≡ claim_record pairs fields.now }
{
    let mut claim: ClaimRecord = [0; CLAIM_ITEMS];
    fill_record(pairs, fields, &mut claim);
    claim
}

fn fill_record(pairs: usize, fields: &[i64], claim: &mut [i64])
    requires { (pairs ≤ suc pairs_most) × (length claim.old ≡ claim_items) }
    ensures { claim.new ≡ claim_record pairs fields.now }
{
    for k in 0..CLAIM_ITEMS {
        claim[k] = claim_item(pairs, fields, k);
    }
}

fn claim_item(pairs: usize, fields: &[i64], k: usize) -> i64
    requires { pairs ≤ suc pairs_most }
    ensures { result ≡ claim_item pairs fields.now k }
{
    if k < 2 {
        return field(fields, k);
    }
    if k == 2 {
        return pairs as i64;
    }
    field(fields, k - 1)
}

// A field, 0 where there is none.
fn field(fields: &[i64], k: usize) -> i64
    ensures { result ≡ at_ℤ fields.now k }
{
    fields.get(k).copied().unwrap_or(0)
}
