// A checksum in which every byte and its place count: a sum, and the sum of the sums. That of tests/benchmark has to be the same.
#[derive(Clone, Copy, Default)]
pub struct Sums {
    pub low: u64,
    pub high: u64,
}

pub fn with_number(sums: Sums, n: u64) -> Sums {
    let low = sums.low.wrapping_add(n);
    Sums {
        low,
        high: sums.high.wrapping_add(low),
    }
}

pub fn with_bytes(sums: Sums, bytes: &[u8]) -> Sums {
    bytes
        .iter()
        .fold(sums, |next, byte| with_number(next, u64::from(*byte)))
}
