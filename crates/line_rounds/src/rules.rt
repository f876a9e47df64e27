//! The colour of one process.
ghost use Rattle.std.specs.Prelude.{◌≡◌, ◌<◌, ◌≤◌, ◌↔◌, List, ℕ, [], ◌∷◌, ◌++◌, OnOk, OnErr};
ghost use Rattle.std.specs.Prelude.{IsErrOf};
ghost use Rattle.std.specs.Option.{SomeIff};
ghost use Rattle.line_rounds.specs.Colours.{colour_of};

use std::marker::Model;
use thiserror::Error;

/// The colour of a process: the greatest round number of its checks, or 0.
///
/// It stands for the process's checks in the order in which they were taken: whoever adds one of a
/// round calls `turn` with its number. Where checks are cut off, make a new one and turn it to the
/// rounds that are left.
#[derive(Clone, Copy, Debug, PartialEq, Eq, Hash)]
pub struct Colour {
    now: u32,
}

impl Model for Colour {
    ghost use Rattle.std.specs.Prelude.{ℕ};

    ghost Value = { ℕ };

    ghost view = { λ c. c.now };

    ghost inverse = { λ now. record { now = now } };
}

impl Colour {
    /// The colour of a process that has no check of a round.
    pub fn new() -> Colour
        ensures value { result ≡ 0 }
        ensures greatest { result ≡ colour_of [] }
    {
        Colour { now: 0 }
    }

    /// The colour as a number, which a message carries that is sent now.
    pub fn now(self) -> u32
        ensures { result ≡ self }
    {
        self.now
    }

    /// The process takes its check of a round.
    ///
    /// It answers `RoundNotNew` where the process has a check of that round or of a greater one: a
    /// round that is over isn't turned to.
    pub fn turn(&mut self, round: u32) -> Result<(), ColourError>
        ensures ok { OnOk result (self.new ≡ round) }
        ensures err { OnErr result (self.new ≡ self.old) }
        ensures not_new { IsErrOf result ColourError.RoundNotNew ↔ (round ≤ self.old) }

        // If it was the greatest number of the checks, so it is with the new check.
        ensures greatest { OnOk result ((rounds : List ℕ) → self.old ≡ colour_of rounds
            → self.new ≡ colour_of (rounds ++ round ∷ [])) }
    {
        if round <= self.now {
            return Err(ColourError::RoundNotNew);
        }
        *self = Colour { now: round };
        Ok(())
    }

    /// The number of the check that the process has to take before it receives a message of this
    /// colour; none where it may receive it at once.
    pub fn before_receive(self, colour: u32) -> Option<u32>
        ensures { SomeIff result (self < colour) colour }
    {
        if self.now < colour {
            Some(colour)
        } else {
            None
        }
    }
}

/// Why a process did not turn to a round.
#[derive(Clone, Copy, Debug, PartialEq, Eq, Hash, Error)]
pub enum ColourError {
    /// The round is not greater than those known.
    #[error("the round is not greater than those known")]
    RoundNotNew = 9,
}

impl ColourError {
    /// The number of the refusal, as replies show it.
    pub fn code(self) -> u32
        ensures { result ≡ 9 }
    {
        self as u32
    }
}
