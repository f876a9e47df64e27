//! Why there is no catalogue, and why one stays as it is.
ghost use Rattle.std.specs.Prelude.{◌≡◌};

use line_tape::{MOST_EVENTS, MOST_STATE, MarkError};
use std::alloc::AllocError;
use thiserror::Error;

/// Why there is no catalogue of a history and its marks.
#[derive(Clone, Copy, Debug, PartialEq, Eq, Hash, Error)]
pub enum CatalogueError {
    /// Memory was refused.
    #[error("out of memory")]
    OutOfMemory = 0,
    /// The process has no such check.
    #[error("a mark or a bar is on a check that its tape does not have")]
    NoSuchCheck = 4,
    /// A message has a name that its sender did not give it.
    #[error("a received message has a name that its sender did not give it")]
    NamesDisagree = 38,
}

impl CatalogueError {
    /// The number of the refusal, as replies show it.
    pub fn code(self) -> u32
        ensures memory { self ≡ CatalogueError.OutOfMemory → result ≡ 0 }
        ensures check { self ≡ CatalogueError.NoSuchCheck → result ≡ 4 }
        ensures names { self ≡ CatalogueError.NamesDisagree → result ≡ 38 }
    {
        self as u32
    }
}

impl From<AllocError> for CatalogueError {
    ghost use Rattle.std.specs.Prelude.{◌≡◌};
    ghost use Rattle.line_catalogue.specs.declared.refusals.CatalogueError.TheVariants.{OutOfMemory};

    ghost from_gives = { λ _ e. e ≡ OutOfMemory };

    fn from(_refused: AllocError) -> CatalogueError {
        CatalogueError::OutOfMemory
    }
}

/// Why an event was not added to a catalogue.
#[derive(Clone, Copy, Debug, PartialEq, Eq, Hash, Error)]
pub enum AddError {
    /// Memory was refused.
    #[error("out of memory")]
    OutOfMemory = 0,
    /// A process number is not below the number of processes.
    #[error("a process number is not below the number of processes")]
    NoSuchProcess = 1,
    /// The state is longer than a check may store.
    #[error("the state is longer than {MOST_STATE} bytes")]
    StateTooLong = 5,
    /// The tape has as many events as a tape may have.
    #[error("the tape has no room under {MOST_EVENTS} events")]
    TapeFull = 3,
    /// A message has a name that its sender did not give it.
    #[error("the event has a name that its sender did not give it")]
    NamesDisagree = 38,
}

impl AddError {
    /// The number of the refusal, as replies show it.
    pub fn code(self) -> u32
        ensures memory { self ≡ AddError.OutOfMemory → result ≡ 0 }
        ensures process { self ≡ AddError.NoSuchProcess → result ≡ 1 }
        ensures long { self ≡ AddError.StateTooLong → result ≡ 5 }
        ensures full { self ≡ AddError.TapeFull → result ≡ 3 }
        ensures names { self ≡ AddError.NamesDisagree → result ≡ 38 }
    {
        self as u32
    }
}

impl From<AllocError> for AddError {
    ghost use Rattle.std.specs.Prelude.{◌≡◌};
    ghost use Rattle.line_catalogue.specs.declared.refusals.AddError.TheVariants.{OutOfMemory};

    ghost from_gives = { λ _ e. e ≡ OutOfMemory };

    fn from(_refused: AllocError) -> AddError {
        AddError::OutOfMemory
    }
}

/// Why a check was not marked as damaged.
#[derive(Clone, Copy, Debug, PartialEq, Eq, Hash, Error)]
pub enum DamageError {
    /// Memory was refused.
    #[error("out of memory")]
    OutOfMemory = 0,
    /// The process has no such check.
    #[error("the tape has no such check")]
    NoSuchCheck = 4,
    /// The check is the initial state, which is never damaged.
    #[error("the initial state of a process cannot be damaged")]
    InitialDamage = 7,
    /// The check is marked already.
    #[error("the check is marked already")]
    AlreadyDamaged = 8,
}

impl DamageError {
    /// The number of the refusal, as replies show it.
    pub fn code(self) -> u32
        ensures memory { self ≡ DamageError.OutOfMemory → result ≡ 0 }
        ensures check { self ≡ DamageError.NoSuchCheck → result ≡ 4 }
        ensures initial { self ≡ DamageError.InitialDamage → result ≡ 7 }
        ensures already { self ≡ DamageError.AlreadyDamaged → result ≡ 8 }
    {
        self as u32
    }
}

impl From<MarkError> for DamageError {
    ghost use Rattle.std.specs.Prelude.{◌≡◌};
    ghost use Rattle.line_catalogue.specs.Refusals.{mark_error};

    ghost from_gives = { λ m e. e ≡ mark_error m };

    fn from(error: MarkError) -> DamageError {
        match error {
            MarkError::OutOfMemory => DamageError::OutOfMemory,
            MarkError::InitialDamage => DamageError::InitialDamage,
            MarkError::AlreadyDamaged => DamageError::AlreadyDamaged,
        }
    }
}
