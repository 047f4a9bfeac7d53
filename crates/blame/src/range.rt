// The byte to blame for a value outside its range: the first byte of the first field that fails its test, 0 where all are within. The tests are those that
// the value is judged by (`tests` of its type, crate types). Fields are found by counting the bytes that part them, so nothing is read again.
ghost use Rattle.std.specs.Prelude.{◌≡◌, ◌+◌, ◌<◌, ◌^◌, length};
ghost use Rattle.types.specs.LineColumns.{row_items};
ghost use Rattle.types.specs.Ranges.{factor_tests, row_line_tests};
ghost use Rattle.blame.specs.RangeBlame.{field_first, range_byte};

use types::{Row, RowRecord};

// A line's fields by their tests; the first of them follows the line's k-th `sep`.
pub fn range_byte(sep: u8, tests: &[bool], k: usize, line: &[u8]) -> usize
    requires { k + length tests.now < 2 ^ 64 }
    ensures { result ≡ range_byte sep tests.now k line.now }
{
    for j in 0..tests.len() {
        if !tests[j] {
            return field_first(sep, k + j, line);
        }
    }
    0
}

// A row: the seven values, then the factors. The first value follows the line's k-th `sep`.
pub fn row_range(sep: u8, k: usize, raw: RowRecord, f: &[i64], line: &[u8]) -> usize
    requires { k + row_items + length f.now < 2 ^ 64 }
    ensures { result ≡ range_byte sep (row_line_tests raw f.now) k line.now }
{
    let byte = range_byte(sep, &Row::tests(&raw), k, line);
    if byte == 0 {
        factors_range(sep, f, k + Row::ITEMS, line)
    } else {
        byte
    }
}

// The factors. The first follows the line's k-th `sep`.
fn factors_range(sep: u8, f: &[i64], k: usize, line: &[u8]) -> usize
    requires { k + length f.now < 2 ^ 64 }
    ensures { result ≡ range_byte sep (factor_tests f.now) k line.now }
{
    for j in 0..f.len() {
        if !Row::factor_fits(f[j]) {
            return field_first(sep, k + j, line);
        }
    }
    0
}

// The first byte of the field after the line's k-th `sep`.
fn field_first(sep: u8, k: usize, line: &[u8]) -> usize
    ensures { result ≡ field_first sep k line.now }
{
    let mut left = k;
    for i in 0..line.len() {
        if left == 0 {
            return i + 1;
        }
        if line[i] == sep {
            left -= 1;
        }
    }
    line.len() + 1
}
