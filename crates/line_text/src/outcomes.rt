//! What came of the records so far.

ghost use Rattle.std.specs.Prelude.{◌≡◌};
ghost use Rattle.line_text.specs.Rules.{worse};

/// What came of the records that were answered.
#[derive(Clone, Copy, Debug, PartialEq, Eq)]
pub enum Outcome {
    /// All were done.
    Done,
    /// A command was refused, and no fault was answered.
    Refused,
    /// A fault was answered.
    Faulted,
}

impl Outcome {
    /// The worse of two outcomes.
    pub(crate) fn worse(self, other: Outcome) -> Outcome
        ensures { result ≡ worse self other }
    {
        match self {
            Outcome::Done => other,
            Outcome::Refused => match other {
                Outcome::Done => Outcome::Refused,
                Outcome::Refused => Outcome::Refused,
                Outcome::Faulted => Outcome::Faulted,
            },
            Outcome::Faulted => Outcome::Faulted,
        }
    }
}
