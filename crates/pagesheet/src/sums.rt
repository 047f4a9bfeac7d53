// The check sum of a text, by which it is seen that a table is the same when it is read again.

// The largest prime below 2^32.
const PRIME: u64 = 4294967291;

pub fn sum(text: &[u8]) -> u64 {
    text.iter().fold(0, |sum, &byte| {
        (sum % PRIME * 257 + u64::from(byte) + 1) % PRIME
    })
}
