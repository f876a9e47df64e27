//! How the words of the command line are read.
ghost use Rattle.std.specs.Prelude.{◌≡◌, ◌≢◌};
ghost use Rattle.std.specs.IoError.{error_kind};

use crate::faults::WordsFault;
use std::io::{Error, ErrorKind};

/// Why the words of the command line were not read: memory was out, or one of them is no text.
pub fn fault_of_reading(error: &Error) -> WordsFault
    ensures memory { error_kind error.now ≡ ErrorKind.OutOfMemory
        → result ≡ WordsFault.OutOfMemory }
    ensures text { error_kind error.now ≢ ErrorKind.OutOfMemory → result ≡ WordsFault.Bad }
{
    match error.kind() {
        ErrorKind::OutOfMemory => WordsFault::OutOfMemory,
        _ => WordsFault::Bad,
    }
}
