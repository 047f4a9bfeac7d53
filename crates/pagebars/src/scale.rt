// The end of a scale: the first of 4, 8, 12, 16, 20, 24, 32, and then (4, 6, 8, 10, 12, 16, 20, 24, 32) x 10, x 100 and so on, that all values fit or, where the largest is more than
// four times as long, all but about one in sixteen. Each end is four whole steps.

const STEPS: [u64; 9] = [4, 6, 8, 10, 12, 16, 20, 24, 32];

// So many ends are tried: the last is 32 x 10^10.
const ENDS: usize = 99;

// `count` values are looked at: others in the list are 0.
pub fn end_of(values: &[u64], count: u64) -> u64 {
    let end = first_end(values, count.saturating_add(8) / 16);
    if above(values, end.saturating_mul(4)) == 0 {
        first_end(values, 0)
    } else {
        end
    }
}

// The first end that at most so many values exceed.
fn first_end(values: &[u64], allowed: u64) -> u64 {
    let mut end = 4;
    for k in 0..ENDS {
        end = end_at(k);
        if end % 4 == 0 && above(values, end) <= allowed {
            break;
        }
    }
    end
}

// How many values exceed the end.
fn above(values: &[u64], end: u64) -> u64 {
    values.iter().filter(|&&value| end < value).count() as u64
}

fn end_at(k: usize) -> u64 {
    let mut end = STEPS[k % 9];
    for _ in 0..k / 9 {
        end = end.saturating_mul(10);
    }
    end
}
