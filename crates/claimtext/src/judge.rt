// A list of claims is judged line by line, and no claim is stored: first the rows that lines name are flagged, and then each line is judged.
ghost use Rattle.std.specs.Prelude.{◌≡◌, ◌≤◌, length};
ghost use Rattle.limits.specs.Limits.{rows_most};
ghost use Rattle.refusals.specs.Answers.{said_judgement};
ghost use Rattle.staterules.specs.Standings.{standings_with};
ghost use Rattle.claimrules.specs.Claims.{judge_claims};
ghost use Rattle.claims.specs.Named.{named_rows, none_named};
ghost use Rattle.claims.specs.Magnitudes.{Lent};
ghost use Rattle.claimline.specs.ClaimText.{claims_in};

use refusals::Refusal;
use types::Header;

// Flags the rows that the lines name: every line, however many there are.
pub fn name_lines(list: &[u8], named: &mut [bool])
    requires { named.old ≡ none_named }
    ensures { named.new ≡ named_rows (claims_in list.now) (length (claims_in list.now)) }
{
    let mut p = 0;
    while p < list.len() {
        let line = text::line::line_at(list, p);
        let claim = claimline::claim_line(line);
        claims::name_row(claim[0], named);
        p += line.len();
    }
}

// The first faulty claim decides.
pub fn judge_lines(
    h: Header,
    f: &[i64],
    rams: &[i64],
    states: &[u64],
    list: &[u8],
    named: &[bool],
    earlier: &mut [bool],
) -> Result<(), Refusal>
    requires lent { Lent h.rows h.zones 0 f.now }
    requires lent_2 { Lent h.rows 1 0 rams.now }
    requires states_len { (length states.now ≡ h.rows) × (h.rows ≤ rows_most) }
    requires named_value { (named.now ≡ named_rows (claims_in list.now) (length (claims_in list.now))) × (earlier.old ≡ none_named) }
    ensures { said_judgement result (standings_with rams.now states.now) ≡ judge_claims h.zones f.now (standings_with rams.now states.now) (claims_in list.now) }
{
    let mut k = 0;
    let mut p = 0;
    while p < list.len() {
        let line = text::line::line_at(list, p);
        let claim = claimline::claim_line(line);
        claims::judge_claim(h, f, rams, states, named, earlier, claim, k)?;
        claims::name_row(claim[0], earlier);
        p += line.len();
        k += 1;
    }
    Ok(())
}
