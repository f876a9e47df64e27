//! A number that stands for all that was answered.

/// The digest of what was answered so far, and how many bytes and numbers that were.
#[derive(Clone, Copy)]
pub struct Digest {
    sum: u64,
    count: u64,
}

impl Digest {
    /// The digest of nothing.
    pub fn new() -> Digest {
        Digest { sum: 0, count: 0 }
    }

    fn mix(&mut self, word: u64) {
        let mixed = (self.sum ^ word).wrapping_mul(0x9E37_79B9_7F4A_7C15);
        self.sum = mixed.rotate_left(29);
    }

    /// Adds a number.
    pub fn number(&mut self, number: u64) {
        self.mix(number);
        self.count = self.count.wrapping_add(1);
    }

    /// Adds bytes.
    pub fn bytes(&mut self, bytes: &[u8]) {
        let (whole, rest) = bytes.as_chunks::<8>();
        for chunk in whole {
            self.mix(u64::from_le_bytes(*chunk));
        }
        for byte in rest {
            self.mix(u64::from(*byte));
        }
        self.mix(bytes.len() as u64);
        self.count = self.count.wrapping_add(bytes.len() as u64);
    }

    /// The digest.
    pub fn sum(&self) -> u64 {
        self.sum
    }

    /// How many bytes and numbers were added.
    pub fn count(&self) -> u64 {
        self.count
    }
}
