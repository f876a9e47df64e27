//! A sink for answers that nobody reads.

use line_devices::{DeviceFault, Sink};

/// A sink that takes all bytes and keeps none. It never fails.
#[derive(Drop)]
pub(crate) struct Nowhere;

impl Sink for Nowhere {
    ghost use Rattle.std.specs.Prelude.{None};

    ghost taken = { λ _. None };

    ghost faults = { λ _. 0 };

    fn put(&mut self, from: &[u8]) -> Result<usize, DeviceFault> {
        Ok(from.len())
    }

    fn finish(&mut self) -> Result<(), DeviceFault> {
        Ok(())
    }

    fn failures(&self) -> u64 {
        0
    }
}
