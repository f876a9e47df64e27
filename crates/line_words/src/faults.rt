//! Why words ask for no job.
ghost use Rattle.std.specs.Prelude.{◌≡◌};
ghost use Rattle.clap.specs.Words.{kind_of};
ghost use Rattle.line_words.specs.Words.{IsToldAs};

use clap::Error;
use clap::error::ErrorKind;
use std::alloc::Global;

/// Why there is no job.
#[derive(Debug, Drop)]
pub enum WordsFault {
    /// Help was asked for; its text.
    Help(String),
    /// The version was asked for; its text.
    Version(String),
    /// The words are no command of the program.
    Bad,
    /// Memory was refused.
    OutOfMemory,
}

/// What a failed look at the words tells.
pub(crate) fn fault_of(alloc: Global, error: &Error) -> WordsFault
    ensures memory { kind_of error.now ≡ ErrorKind.OutOfMemory → result ≡ WordsFault.OutOfMemory }
    ensures told { IsToldAs (kind_of error.now) result }
{
    match error.kind() {
        ErrorKind::DisplayHelp => match format!(in alloc; "{error}") {
            Ok(text) => WordsFault::Help(text),
            Err(_) => WordsFault::OutOfMemory,
        },
        ErrorKind::DisplayVersion => match format!(in alloc; "{error}") {
            Ok(text) => WordsFault::Version(text),
            Err(_) => WordsFault::OutOfMemory,
        },
        ErrorKind::OutOfMemory => WordsFault::OutOfMemory,
        _ => WordsFault::Bad,
    }
}
