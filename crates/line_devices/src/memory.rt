//! A source and a sink over memory, which stand for the devices of a system.

ghost use Rattle.std.specs.Prelude.{◌≡◌, ◌++◌, ◌+◌, ◌<◌, ◌≤◌, ◌↔◌, [], Some, IfOk, IsErr, IsTrue};
ghost use Rattle.std.specs.Prelude.{OnErr, OnOk, length, take, min};
ghost use Rattle.line_devices.specs.Devices.{ends_after, one_more};
ghost use Rattle.line_devices.specs.Memory.{next_call};

use crate::{DeviceFault, Sink, Source};
use std::alloc::Global;
use std::marker::Model;

// Counts a call, and says whether it is the one that fails.
fn is_struck(fail_at: &mut Option<u64>) -> bool
    ensures struck { IsTrue result ↔ (fail_at.old ≡ Some 1) }
    ensures next { fail_at.new ≡ next_call fail_at.old }
{
    match *fail_at {
        None => false,
        Some(calls) => {
            *fail_at = Some(calls.saturating_sub(1));
            calls == 1
        }
    }
}

// Counts a fault.
fn count_fault(faults: &mut u64) -> DeviceFault
    ensures { faults.new ≡ one_more faults.old }
{
    *faults = faults.saturating_add(1);
    DeviceFault
}

// Counts an end, where a call gave nothing.
fn count_end(ends: &mut u64, count: usize)
    ensures { ends.new ≡ ends_after count ends.old }
{
    if count == 0 {
        *ends = ends.saturating_add(1);
    }
}

/// Bytes in memory that come at most `step` at a time. One call may be set to fail.
#[derive(Drop)]
pub struct MemSource {
    bytes: Vec<u8>,
    at: usize,
    step: usize,
    fail_at: Option<u64>,
    faults: u64,
    ends: u64,
}

impl Model for MemSource {
    ghost use Rattle.std.specs.Prelude.{◌<◌, ◌≤◌, drop, vec_len};
    ghost use Rattle.line_devices.specs.Memory.{MemSourceView};

    ghost Value = { MemSourceView };

    ghost view = { λ s. record {
      left = drop s.at s.bytes.items;
      given = s.at;
      step = s.step;
      fail_at = s.fail_at;
      faults = s.faults;
      ends = s.ends;
    } };

    ghost invariant = { λ s. (s.at ≤ vec_len s.bytes) × (0 < s.step) };
}

impl MemSource {
    /// A source of these bytes, which moves at most `step` of them in one call.
    ///
    /// The call `fail_at`, counted from 1, fails, and no other; `None` and `Some(0)` name no call.
    pub fn new(bytes: Vec<u8>, step: usize, fail_at: Option<u64>) -> Self
        requires { 0 < step }
        ensures { result
            ≡ record {
              left = bytes.items;
              given = 0;
              step = step;
              fail_at = fail_at;
              faults = 0;
              ends = 0;
            } }
    {
        MemSource {
            bytes,
            at: 0,
            step,
            fail_at,
            faults: 0,
            ends: 0,
        }
    }
}

impl Source for MemSource {
    ghost use Rattle.std.specs.Prelude.{Some};

    ghost left = { λ s. Some s.left };

    ghost given = { λ s. s.given };

    ghost faults = { λ s. s.faults };

    ghost ends = { λ s. s.ends };

    fn fill(&mut self, into: &mut [u8]) -> Result<usize, DeviceFault>
        ensures within { IfOk result (λ n. n ≤ length into.old) }
        ensures moves { IfOk result (λ n. self.old.left ≡ take n into.new ++ self.new.left) }
        ensures end { IfOk result (λ n. 0 < length into.old → n ≡ 0 → self.old.left ≡ []) }

        // It fails at its one call, and loses nothing then.
        ensures fails { IsErr result ↔ (self.old.fail_at ≡ Some 1) }
        ensures count { IfOk result
            (λ n. n ≡ min (min (length self.old.left) self.old.step) (length into.old)) }
        ensures ok { IfOk result
            (λ n. self.new
            ≡ record self.old {
              left = self.new.left;
              given = self.old.given + n;
              fail_at = next_call self.old.fail_at;
              ends = ends_after n self.old.ends;
            }) }
        ensures err { OnErr result
            (self.new
            ≡ record self.old {
              fail_at = next_call self.old.fail_at;
              faults = one_more self.old.faults;
            }) }
    {
        if is_struck(&mut self.fail_at) {
            return Err(count_fault(&mut self.faults));
        }
        let count = (self.bytes.len() - self.at).min(self.step).min(into.len());
        into[..count].copy_from_slice(&self.bytes[self.at..self.at + count]);
        self.at += count;
        count_end(&mut self.ends, count);
        Ok(count)
    }

    fn failures(&self) -> u64 {
        self.faults
    }
}

/// Bytes that are kept in memory, of which at most `step` are taken at a time. One call may be set
/// to fail.
#[derive(Drop)]
pub struct MemSink {
    bytes: Vec<u8>,
    step: usize,
    fail_at: Option<u64>,
    faults: u64,
}

impl Model for MemSink {
    ghost use Rattle.std.specs.Prelude.{◌<◌};
    ghost use Rattle.line_devices.specs.Memory.{MemSinkView};

    ghost Value = { MemSinkView };

    ghost view = { λ s. record {
      bytes = s.bytes.items;
      step = s.step;
      fail_at = s.fail_at;
      faults = s.faults;
    } };

    ghost invariant = { λ s. 0 < s.step };
}

impl MemSink {
    /// An empty sink, which takes at most `step` bytes in one call.
    ///
    /// The call `fail_at`, counted from 1, fails, and calls of `finish` are counted too; `None` and
    /// `Some(0)` name no call. A put for whose bytes a growth is refused fails as well.
    pub fn new(alloc: Global, step: usize, fail_at: Option<u64>) -> Self
        requires { 0 < step }
        ensures { result ≡ record { bytes = []; step = step; fail_at = fail_at; faults = 0 } }
    {
        MemSink {
            bytes: Vec::new(alloc),
            step,
            fail_at,
            faults: 0,
        }
    }

    /// The bytes that were put, in their order. It takes no memory.
    pub fn bytes(&self) -> &[u8]
        ensures { result.now ≡ self.now.bytes }
    {
        self.bytes.as_slice()
    }

    /// The bytes that were put, in their order, handed out. It takes no memory.
    pub fn into_bytes(self) -> Vec<u8>
        ensures { result.items ≡ self.bytes }
    {
        self.bytes
    }
}

impl Sink for MemSink {
    ghost use Rattle.std.specs.Prelude.{Some};

    ghost taken = { λ s. Some s.bytes };

    ghost faults = { λ s. s.faults };

    fn put(&mut self, from: &[u8]) -> Result<usize, DeviceFault>
        ensures within { IfOk result (λ n. n ≤ length from.now) }
        ensures some { IfOk result (λ n. 0 < length from.now → 0 < n) }

        // It fails at its one call, or where memory is refused, and takes nothing then.
        ensures fails { self.old.fail_at ≡ Some 1 → IsErr result }
        ensures count { IfOk result (λ n. n ≡ min self.old.step (length from.now)) }
        ensures ok { IfOk result
            (λ n. self.new
            ≡ record self.old {
              bytes = self.old.bytes ++ take n from.now;
              fail_at = next_call self.old.fail_at;
            }) }
        ensures err { OnErr result
            (self.new
            ≡ record self.old {
              fail_at = next_call self.old.fail_at;
              faults = one_more self.old.faults;
            }) }
    {
        if is_struck(&mut self.fail_at) {
            return Err(count_fault(&mut self.faults));
        }
        let count = self.step.min(from.len());
        if self.bytes.extend_from_slice(&from[..count]).is_err() {
            return Err(count_fault(&mut self.faults));
        }
        Ok(count)
    }

    fn finish(&mut self) -> Result<(), DeviceFault>
        ensures fails { IsErr result ↔ (self.old.fail_at ≡ Some 1) }
        ensures ok { OnOk result
            (self.new ≡ record self.old { fail_at = next_call self.old.fail_at }) }
        ensures err { OnErr result
            (self.new
            ≡ record self.old {
              fail_at = next_call self.old.fail_at;
              faults = one_more self.old.faults;
            }) }
    {
        if is_struck(&mut self.fail_at) {
            return Err(count_fault(&mut self.faults));
        }
        Ok(())
    }

    fn failures(&self) -> u64 {
        self.faults
    }
}
