//! Faults of devices, and bytes that are put.

ghost use Rattle.std.specs.Prelude.{◌≡◌, OnErr, OnOk};
ghost use Rattle.line_devices.specs.Devices.{Puts, PutsFront, one_more};

use line_claims::TextFault;
use line_devices::{DeviceFault, Sink, put_all};

/// The number of the fault of a source that failed, or of an input that is too long.
pub(crate) const READ_FAULT: u32 = 36;

/// The number of the fault of a sink that failed.
pub(crate) const WRITE_FAULT: u32 = 37;

/// A fault of no record.
pub(crate) fn fault_of_code(code: u32) -> TextFault
    ensures { result ≡ record { record_number = 0; code = code } }
{
    TextFault {
        record_number: 0,
        code,
    }
}

/// Puts all of these bytes, and lets them out.
pub(crate) fn put<K: Sink>(sink: &mut K, bytes: &[u8]) -> Result<(), DeviceFault>
    ensures ok { OnOk result (Puts (K.taken sink.old) (K.taken sink.new) bytes.now) }
    ensures err { OnErr result (PutsFront (K.taken sink.old) (K.taken sink.new) bytes.now) }
    ensures sound { OnOk result (K.faults sink.new ≡ K.faults sink.old) }
    ensures failed { OnErr result (K.faults sink.new ≡ one_more (K.faults sink.old)) }
{
    put_all(sink, bytes)?;
    sink.finish()
}
