//! What a reader gives, as a source of which nothing is told.
ghost use Rattle.std.specs.Prelude.{◌≡◌, ◌≢◌, IfErr, None};
ghost use Rattle.std.specs.Io.{ReadsAtMost};
ghost use Rattle.std.specs.IoError.{error_kind};

use crate::devices::DeviceFault;
use crate::sources::Source;
use crate::tries::TRIES;
use std::io;
use std::io::{ErrorKind, Read};

/// Reads, and again where a signal interrupted that before a byte came, which is no fault of the
/// device.
fn read_again<R: Read>(reader: &mut R, into: &mut [u8]) -> io::Result<usize>
    ensures within { ReadsAtMost result into.new }
    ensures again { IfErr result (λ error. error_kind error ≢ ErrorKind.Interrupted) }
{
    for _try in 0..TRIES {
        match reader.read(into) {
            Err(error) if error.kind() == ErrorKind::Interrupted => {}
            answer => return answer,
        }
    }
    Err(io::Error::from(ErrorKind::TimedOut))
}

/// The bytes of a reader, which are counted. A reader that gave 2^64 bytes has failed.
pub struct ReadSource<R: Read> {
    reader: R,
    given: u64,
    faults: u64,
    ends: u64,
}

impl<R: Read> ReadSource<R> {
    /// A source of what the reader gives.
    pub fn new(reader: R) -> Self
        ensures { result ≡ record { reader = reader; given = 0; faults = 0; ends = 0 } }
    {
        ReadSource {
            reader,
            given: 0,
            faults: 0,
            ends: 0,
        }
    }
}

impl<R: Read + Drop> Drop for ReadSource<R> {
    fn drop(self) {
        let ReadSource {
            reader: _,
            given: _,
            faults: _,
            ends: _,
        } = self;
    }
}

impl<R: Read> Source for ReadSource<R> {
    ghost left = { λ _. None };

    ghost given = { λ s. s.given };

    ghost faults = { λ s. s.faults };

    ghost ends = { λ s. s.ends };

    fn fill(&mut self, into: &mut [u8]) -> Result<usize, DeviceFault> {
        if let Ok(count) = read_again(&mut self.reader, into) {
            if let Some(given) = self.given.checked_add(count as u64) {
                self.given = given;
                if count == 0 {
                    self.ends = self.ends.saturating_add(1);
                }
                return Ok(count);
            }
        }
        self.faults = self.faults.saturating_add(1);
        Err(DeviceFault)
    }

    fn failures(&self) -> u64 {
        self.faults
    }
}
