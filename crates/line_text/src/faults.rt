//! The text of a fault, and why a service ended before its input did.

ghost use Rattle.std.specs.Prelude.{◌≡◌, ◌++◌, ◌∷◌, []};
ghost use Rattle.line_text.specs.declared.faults.ServeError.TheVariants as errors;
ghost use Rattle.line_devices.specs.Devices.{Outputs};
ghost use Rattle.line_text.specs.Rules.{error_code, fault_record, text_with_end};
ghost use Rattle.line_text.specs.Turns.{serve_error_code};

use line_claims::name_of;
use line_devices::{DeviceFault, Sink};
use line_fields::{Field, ReadError, RecordWriter, close_record, put_ending};
use thiserror::Error;

/// Why a service did not begin, or ended before its input did. It is shown by its name, and its
/// number is `code`.
#[derive(Clone, Copy, Debug, PartialEq, Eq, Error)]
pub enum ServeError {
    /// Memory did not suffice for the start.
    #[error("OutOfMemory")]
    OutOfMemory,
    /// The source failed.
    #[error("ReadFault")]
    Read,
    /// The sink failed.
    #[error("WriteFault")]
    Write,
}

impl ServeError {
    /// The number of the fault: 0 where memory is out, 36 or 37 where a source or a sink failed.
    pub fn code(self) -> u32
        ensures { result ≡ serve_error_code self }
    {
        match self {
            ServeError::OutOfMemory => 0,
            ServeError::Read => 36,
            ServeError::Write => 37,
        }
    }
}

/// The number of a fault; 0 where memory ran out.
fn error_code(error: ReadError) -> u32
    ensures { result ≡ error_code error }
{
    match error {
        ReadError::OutOfMemory => 0,
        ReadError::Fault(fault) => fault.code(),
    }
}

/// Writes the answer to a record with this fault after what a writer holds: `fault,CODE,NAME`, and
/// an empty line.
pub(crate) fn put_fault<K: Sink>(
    sink: &mut K,
    writer: &mut RecordWriter,
    error: ReadError,
) -> Result<(), DeviceFault>
    ensures { Outputs result (K.taken sink.old) (K.taken sink.new) (K.faults sink.old)
        (K.faults sink.new) writer.new (writer.old ++ text_with_end (fault_record (error_code
        error) ∷ [])) }
{
    let code = error_code(error);
    let name = name_of(code).as_bytes();
    put_ending(sink, writer, b"fault", &[code as u64], Field::Word(name))?;
    close_record(sink, writer)
}
