//! Random numbers that a seed determines.
ghost use Rattle.std.specs.Prelude.{◌<◌};

/// A generator of the kind splitmix64 (Steele, Lea and Flood, OOPSLA 2014).
#[derive(Clone, Copy)]
pub struct Dice {
    state: u64,
}

/// Mixes the bits of a word.
fn mixed(word: u64) -> u64 {
    let once = (word ^ (word >> 30)).wrapping_mul(0xBF58_476D_1CE4_E5B9);
    let twice = (once ^ (once >> 27)).wrapping_mul(0x94D0_49BB_1331_11EB);
    twice ^ (twice >> 31)
}

impl Dice {
    /// A generator that begins at a seed.
    pub fn new(seed: u64) -> Dice {
        Dice { state: seed }
    }

    /// The next word.
    pub fn word(&mut self) -> u64 {
        self.state = self.state.wrapping_add(0x9E37_79B9_7F4A_7C15);
        mixed(self.state)
    }

    /// A number below `n`.
    pub fn below(&mut self, n: u32) -> u32
        requires { 0 < n }
        ensures { result < n }
    {
        ((self.word() >> 32) % u64::from(n)) as u32
    }

    /// A number from 1 to `n`.
    pub fn to(&mut self, n: u32) -> u32
        requires { 0 < n }
        ensures { 0 < result }
    {
        self.below(n) + 1
    }

    /// `true` in `often` of a hundred cases.
    pub fn percent(&mut self, often: u32) -> bool {
        self.below(100) < often
    }
}
