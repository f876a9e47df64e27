//! An input that is longer than an input may be.
ghost use Rattle.std.specs.Prelude.{◌-◌, ◌^◌, None};

use crate::tests::made::fault_of;
use line_devices::{DeviceFault, MemSink, Source};
use line_text::{check_text, run_text};
use std::alloc::Global;

/// A source that gives more than an input may have.
#[derive(Drop)]
struct Endless {
    left: u64,
    ends: u64,
}

impl Source for Endless {
    ghost left = { λ _. None };

    ghost given = { λ s. 2 ^ 64 - 1 - s.left };

    ghost faults = { λ _. 0 };

    ghost ends = { λ s. s.ends };

    fn fill(&mut self, into: &mut [u8]) -> Result<usize, DeviceFault> {
        let count = self.left.min(into.len() as u64);
        self.left -= count;
        if count == 0 {
            self.ends = self.ends.saturating_add(1);
        }
        Ok(count as usize)
    }

    fn failures(&self) -> u64 {
        0
    }
}

/// Such a source.
fn without_end() -> Endless {
    Endless {
        left: u64::MAX,
        ends: 0,
    }
}

/// Whether a run refuses such an input, and puts nothing.
fn is_run_refused(alloc: Global) -> bool {
    let mut source = without_end();
    let mut sink = MemSink::new(alloc, 1, None);
    run_text(alloc, &mut source, &mut sink) == Err(fault_of(36)) && sink.bytes().is_empty()
}

/// Whether a judgement does.
fn is_check_refused(alloc: Global) -> bool {
    let mut source = without_end();
    let mut sink = MemSink::new(alloc, 1, None);
    check_text(alloc, &mut source, &mut sink) == Err(fault_of(36)) && sink.bytes().is_empty()
}

#[test]
fn refuses_an_input_above_the_limit(rt: HostRuntime) {
    assert!(rt; is_run_refused(rt.alloc()));
    assert!(rt; is_check_refused(rt.alloc()));
}
