//! Processes and sets of them.
ghost use Rattle.std.specs.Prelude.{◌≡◌, ◌≢◌, ◌<◌, ◌≤◌, ◌↔◌, ℕ, false, IsTrue, OkIff};
ghost use Rattle.std.specs.Int.{bit_at};
ghost use Rattle.line_names.specs.Sets.{nobody, with_member, is_member};

use crate::limits::MOST_PROCESSES;
use std::marker::Model;
use thiserror::Error;

/// The number of a process, from 0.
///
/// It is below `MOST_PROCESSES`; whether a computation has that process is asked where one is at
/// hand.
#[derive(Clone, Copy, Debug, PartialEq, Eq, PartialOrd, Ord, Hash)]
pub struct ProcId {
    value: u32,
}

impl Model for ProcId {
    ghost use Rattle.std.specs.Prelude.{ℕ, ◌<◌};
    ghost use Rattle.line_names.specs.declared.limits.TheConstants.{MOST_PROCESSES};

    ghost Value = { ℕ };

    ghost view = { λ p. p.value };

    ghost invariant = { λ p. p.value < MOST_PROCESSES };

    ghost inverse = { λ n. record { value = n } };
}

impl ProcId {
    /// The process of this number, among `n` processes.
    pub fn try_new(value: u32, n: u32) -> Result<ProcId, ProcIdError>
        requires { n ≤ MOST_PROCESSES }
        ensures { OkIff result (value < n) value }
    {
        if value < n {
            Ok(ProcId { value })
        } else {
            Err(ProcIdError::NoSuchProcess)
        }
    }

    /// Its number.
    pub fn get(self) -> u32
        ensures value { result ≡ self }
        ensures few { result < MOST_PROCESSES }
    {
        self.value
    }
}

/// Why there is no such name of a process.
#[derive(Clone, Copy, Debug, PartialEq, Eq, Hash, Error)]
pub enum ProcIdError {
    /// A process number is not below the number of processes.
    #[error("the number is not below the number of processes")]
    NoSuchProcess = 1,
}

impl ProcIdError {
    /// The number of the refusal, as replies show it.
    pub fn code(self) -> u32
        ensures { result ≡ 1 }
    {
        self as u32
    }
}

/// How many words a set of processes has.
const WORDS: usize = 4;

const _: () = prove!(WORDS * 64 == MOST_PROCESSES);

/// What a word has of its bits from place `i` on.
fn bits_from(word: u64, i: u32) -> u64
    ensures { (result ≡ 0) ↔ ((j : ℕ) → i ≤ j → j < 64 → bit_at word j ≡ 0) }
{
    if i < 64 { word >> i } else { 0 }
}

/// A set of processes, as the failed ones, of one bit for each that there may be.
#[derive(Clone, Copy, Debug, PartialEq, Eq)]
pub struct ProcSet {
    words: [u64; WORDS],
}

impl Model for ProcSet {
    ghost use Rattle.std.specs.Prelude.{Bool, List};
    ghost use Rattle.line_names.specs.declared.processes.TheConstants.{WORDS};
    ghost use Rattle.line_names.specs.Bits.{AreWords, members_of, words_of};

    ghost Value = { List Bool };

    ghost view = { λ s. members_of s.words };

    ghost invariant = { λ s. AreWords WORDS s.words };

    ghost inverse = { λ members. record { words = words_of WORDS members } };

    ghost inverse_ok = { λ s known i. record { words = known.again i } };
}

impl ProcSet {
    /// The set that has no process.
    pub fn empty() -> ProcSet
        ensures value { result ≡ nobody }
        ensures none { (q : ℕ) → is_member result q ≡ false }
    {
        ProcSet { words: [0; WORDS] }
    }

    /// The set with one more process; with a member of it, the set as it is.
    pub fn with(self, p: ProcId) -> ProcSet
        ensures value { result ≡ with_member self p }
        ensures member { IsTrue (is_member result p) }
        ensures others { (q : ℕ) → q ≢ p → is_member result q ≡ is_member self q }
    {
        let mut words = self.words;
        let p = p.get();
        words[p as usize / 64] |= 1 << (p % 64);
        ProcSet { words }
    }

    /// Whether the process is in the set.
    pub fn has(&self, p: ProcId) -> bool
        ensures { result ≡ is_member self.now p }
    {
        let p = p.get();
        (self.words[p as usize / 64] >> (p % 64)) & 1 == 1
    }

    /// Whether each process of the set is below `n`.
    pub fn is_below(&self, n: u32) -> bool
        ensures value { IsTrue result ↔ ((q : ℕ) → IsTrue (is_member self.now q) → q < n) }
        ensures few { (q : ℕ) → IsTrue (is_member self.now q) → q < MOST_PROCESSES }
    {
        for k in 0..WORDS {
            if bits_from(self.words[k], n.saturating_sub(k as u32 * 64)) != 0 {
                return false;
            }
        }
        true
    }
}
