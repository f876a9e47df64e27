//! What a writer takes, as a sink of which nothing is told.
ghost use Rattle.std.specs.Prelude.{◌≡◌, ◌≢◌, IfErr, None};
ghost use Rattle.std.specs.Io.{WritesAtMost};
ghost use Rattle.std.specs.IoError.{error_kind};

use crate::devices::DeviceFault;
use crate::sinks::Sink;
use crate::tries::TRIES;
use std::io;
use std::io::{ErrorKind, Write};

/// Writes, and again where a signal interrupted that before a byte went, which is no fault of the
/// device.
fn write_again<W: Write>(writer: &mut W, from: &[u8]) -> io::Result<usize>
    ensures within { WritesAtMost result from.now }
    ensures again { IfErr result (λ error. error_kind error ≢ ErrorKind.Interrupted) }
{
    for _try in 0..TRIES {
        match writer.write(from) {
            Err(error) if error.kind() == ErrorKind::Interrupted => {}
            answer => return answer,
        }
    }
    Err(io::Error::from(ErrorKind::TimedOut))
}

/// What a writer takes. A writer that takes nothing of some bytes has failed.
pub struct WriteSink<W: Write> {
    writer: W,
    faults: u64,
}

impl<W: Write> WriteSink<W> {
    /// A sink into the writer.
    pub fn new(writer: W) -> Self
        ensures { result ≡ record { writer = writer; faults = 0 } }
    {
        WriteSink { writer, faults: 0 }
    }
}

impl<W: Write + Drop> Drop for WriteSink<W> {
    fn drop(self) {
        let WriteSink {
            writer: _,
            faults: _,
        } = self;
    }
}

impl<W: Write> Sink for WriteSink<W> {
    ghost taken = { λ _. None };

    ghost faults = { λ s. s.faults };

    fn put(&mut self, from: &[u8]) -> Result<usize, DeviceFault> {
        match write_again(&mut self.writer, from) {
            Ok(count) => {
                if count == 0 && !from.is_empty() {
                    self.faults = self.faults.saturating_add(1);
                    Err(DeviceFault)
                } else {
                    Ok(count)
                }
            }
            Err(_) => {
                self.faults = self.faults.saturating_add(1);
                Err(DeviceFault)
            }
        }
    }

    fn finish(&mut self) -> Result<(), DeviceFault> {
        match self.writer.flush() {
            Ok(()) => Ok(()),
            Err(_) => {
                self.faults = self.faults.saturating_add(1);
                Err(DeviceFault)
            }
        }
    }

    fn failures(&self) -> u64 {
        self.faults
    }
}
