//! Where bytes go.

ghost use Rattle.std.specs.Prelude.{◌≡◌, ◌<◌, ◌≤◌, [], ℕ, List, Option, IfOk, OnErr, OnOk, length};
ghost use Rattle.std.specs.Prelude.{take};
ghost use Rattle.line_devices.specs.Devices.{Puts, PutsFront, one_more};

use crate::DeviceFault;

/// Where bytes go, a part at a time.
pub trait Sink {
    /// The bytes that were taken so far, where the sink tells.
    ghost taken: { Self → Option (List ℕ) };

    /// How often it failed.
    ghost faults: { Self → ℕ };

    /// Takes bytes from the front of the slice, and says how many: one at least, unless the slice
    /// is empty.
    ///
    /// After a failure the count of failures has risen by one, and a prefix of the slice may have
    /// been taken.
    fn put(&mut self, from: &[u8]) -> Result<usize, DeviceFault>
        ensures within { IfOk result (λ n. n ≤ length from.now) }
        ensures some { IfOk result (λ n. 0 < length from.now → 0 < n) }
        ensures moves { IfOk result
            (λ n. Puts (taken self.old) (taken self.new) (take n from.now)) }
        ensures front { OnErr result (PutsFront (taken self.old) (taken self.new) from.now) }
        ensures sound { OnOk result (faults self.new ≡ faults self.old) }
        ensures failed { OnErr result (faults self.new ≡ one_more (faults self.old)) };

    /// Lets the bytes out that were taken and held back. It takes no byte, whether it fails or not.
    fn finish(&mut self) -> Result<(), DeviceFault>
        ensures same { Puts (taken self.old) (taken self.new) [] }
        ensures sound { OnOk result (faults self.new ≡ faults self.old) }
        ensures failed { OnErr result (faults self.new ≡ one_more (faults self.old)) };

    /// How often it failed. The count stays at its greatest value.
    fn failures(&self) -> u64
        ensures { result ≡ faults self.now };
}

/// Puts all of these bytes, in as many calls as the sink needs.
///
/// It stops at the first failure, and a prefix of the bytes is then taken. So of several texts that
/// are put one after the other, until the first failure, a prefix of them all is taken.
pub fn put_all<K: Sink>(sink: &mut K, bytes: &[u8]) -> Result<(), DeviceFault>
    ensures ok { OnOk result (Puts (K.taken sink.old) (K.taken sink.new) bytes.now) }
    ensures err { OnErr result (PutsFront (K.taken sink.old) (K.taken sink.new) bytes.now) }
    ensures sound { OnOk result (K.faults sink.new ≡ K.faults sink.old) }
    ensures failed { OnErr result (K.faults sink.new ≡ one_more (K.faults sink.old)) }
{
    let mut at = 0;
    while at < bytes.len() {
        at += sink.put(&bytes[at..])?;
    }
    Ok(())
}
