// The corner sheet (02, E1): every corner's flow on one row, in grains, as summed for S.
// A corner uses border b at its whole LTA where bit b of the corner's number is set, and else at 0.
#![tactic(auto)]

ghost use Rattle.std.specs.Prelude.{◌≡◌, true, ◌++◌, ◌+◌, ◌^◌, ◌<◌, ◌≤◌, length, take};
ghost use Rattle.numbers.specs.Ints.{Within, AllWithin};
ghost use Rattle.types.specs.Ranges.{border_fits, border_of};
ghost use Rattle.tablerules.specs.Table.{front, stretch, lent_view};
ghost use Rattle.tablerules.specs.Good.{Good};
ghost use Rattle.marginrules.specs.Magnitudes.{FactorsInRange, TableFactorsInRange, BordersInRange};
ghost use Rattle.marginrules.specs.Margin.{corner_part};
ghost use Rattle.cornerrules.specs.Corners.{sheet_borders_most, raised_by, flows_of, judge_corner_sheet, flows_left, sheet_left, corners_left};
ghost use Rattle.cornerrules.specs.Listed.{part_most, corner_flow_most, FlowsListed};

use refusals::Refusal;
use tablerules::TableView;
use types::{BorderRecord, Header};

// The flows of all corners on one row, by the corner's number. Any input has an answer: there is no `requires`.
pub fn corner_flows(view: &TableView, row: usize, out: &mut [i64]) -> Result<usize, Refusal>
    ensures { flows_left result out.new ≡ corners_left (lent_view view.now) row out.old }
{
    table::judge(view, None)?;
    corner_flows_good(view, row, out)
}

// The corner flows of a good table: refuses if there is no sheet for this row, then if the room is too small, and then stores the flows.
pub fn corner_flows_good(view: &TableView, row: usize, out: &mut [i64]) -> Result<usize, Refusal>
    requires { Good (front (lent_view view.now)) }
    ensures { flows_left result out.new ≡ sheet_left (judge_corner_sheet (front (lent_view view.now)) row) row out.old }
{
    let h = view.header;
    if cornerrules::BORDERS_MOST < h.borders {
        return Err(Refusal::NoCorners(h.borders));
    }
    if h.rows <= row {
        return Err(Refusal::NoCorners(row));
    }
    let needed = corner_count(h.borders);
    if out.len() < needed {
        return Err(Refusal::TooShort(needed));
    }
    let factors = h.rows * h.zones;
    Ok(list_row(
        h,
        &view.borders[..h.borders],
        &view.factors[..factors],
        row,
        out,
    ))
}

fn corner_count(borders: usize) -> usize
    requires { borders ≤ sheet_borders_most }
    ensures { result ≡ 2 ^ borders }
{
    1 << borders
}

// The sheet of a row of a good table.
fn list_row(h: Header, b: &[BorderRecord], f: &[i64], row: usize, out: &mut [i64]) -> usize
    requires table_factors_in_range { TableFactorsInRange h f.now }
    requires borders_in_range { BordersInRange h.zones b.now }
    requires b_len_bound { length b.now ≤ sheet_borders_most }
    requires row_lt_rows { row < h.rows }
    requires b_in_bounds { 2 ^ length b.now ≤ length out.old }
    ensures { FlowsListed (flows_of (stretch h.zones f.now row) b.now) out.old result out.new }
{
    list_corners(margin::row_factors(h, f, row), b, out)
}

// The corners of all borders but the last are listed first, by the same function on the shorter list; then each again with the last border used.
// Answers how many there are.
fn list_corners(factors: &[i64], borders: &[BorderRecord], out: &mut [i64]) -> usize
    requires factors_in_range { FactorsInRange factors.now }
    requires borders_in_range { BordersInRange (length factors.now) borders.now }
    requires borders_len_bound { length borders.now ≤ sheet_borders_most }
    requires borders_in_bounds { 2 ^ length borders.now ≤ length out.old }
    ensures { FlowsListed (flows_of factors.now borders.now) out.old result out.new }
{
    let left = borders.len();
    if left == 0 {
        out[0] = 0;
        return 1;
    }
    let last = left - 1;
    let part = corner_part(factors, borders[last]);
    let count = list_corners(factors, &borders[..last], out);
    list_used(part, out, count)
}

// After the first `count` flows, appends each of them again with one more border used. Answers how many there are then.
fn list_used(part: i64, out: &mut [i64], count: usize) -> usize
    requires within { Within part_most part }
    requires all_within { AllWithin corner_flow_most (take count out.old) }
    requires count_in_bounds { count + count ≤ length out.old }
    ensures { FlowsListed (take count out.old ++ raised_by part (take count out.old)) out.old result out.new }
{
    let next = count + count;
    for k in count..next {
        out[k] = out[k - count] + part;
    }
    next
}

// What a border's whole LTA puts on a row: below 0 where it relieves.
fn corner_part(factors: &[i64], raw: BorderRecord) -> i64
    requires factors_in_range { FactorsInRange factors.now }
    requires raw_value { border_fits (length factors.now) raw ≡ true }
    ensures { result ≡ corner_part factors.now (border_of raw) }
{
    let border = types::Border::of_good(factors.len(), raw);
    let lta = margin::lta_kw(border);
    margin::signed_factor(factors, border) * lta as i64
}
