// A border's cap (kW) is what it may rise by at most. How a row's equal share (grains) tightens one, which divides little (02, E4).
#![tactic(auto)]

ghost use Rattle.std.specs.Prelude.{◌≡◌};
ghost use Rattle.caps.specs.Tight.{tight};

// Where a cap (kW) is below `CAP_BELOW` and a factor p below `FACTOR_BELOW`, their product is below 2^64 and can be computed.
const CAP_BELOW: u64 = 1 << 44;

// Hundred-thousandths. No table of 01 has so large a factor.
const FACTOR_BELOW: u64 = 1 << 20;

// A border's cap, given a row's share and its factor `f` there. Tried by a product where that fits; divides only where the cap is too high.
pub fn tighten(f: u64, share: u64, cap: u64) -> u64
    ensures { result ≡ tight f share cap }
{
    if cap < CAP_BELOW && f < FACTOR_BELOW {
        if cap * f <= share {
            return cap;
        }
        return share / f;
    }
    if f == 0 {
        return cap;
    }
    cap.min(share / f)
}
