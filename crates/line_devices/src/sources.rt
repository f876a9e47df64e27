//! Where bytes come from.

ghost use Rattle.std.specs.Prelude.{◌≡◌, ◌<◌, ◌≤◌, ◌+◌, ℕ, List, Option, IfErr, IfOk, OnErr, OnOk};
ghost use Rattle.std.specs.Prelude.{length, take};
ghost use Rattle.line_devices.specs.Devices.{Fills, FillsFront, IsDone, ends_after, one_more};
ghost use Rattle.line_devices.specs.Reads.{CountsFault, GivesAll, IsTooLong};

use crate::DeviceFault;
use std::alloc::Global;
use thiserror::Error;

/// Where bytes come from, a part at a time.
pub trait Source {
    /// The bytes that are still to come, where the source tells.
    ghost left: { Self → Option (List ℕ) };

    /// How many bytes it gave so far.
    ghost given: { Self → ℕ };

    /// How often it failed.
    ghost faults: { Self → ℕ };

    /// How often it gave nothing, since nothing was left or nothing was asked for.
    ghost ends: { Self → ℕ };

    /// Moves bytes into the front of the slice, and says how many: none only where nothing is left
    /// or the slice is empty. What the rest of the slice holds then is left open.
    ///
    /// After a failure the count of failures has risen by one, and some bytes may be lost, which
    /// count as not given.
    fn fill(&mut self, into: &mut [u8]) -> Result<usize, DeviceFault>
        ensures within { IfOk result (λ n. n ≤ length into.old) }
        ensures moves { IfOk result (λ n. Fills (left self.old) (left self.new) (take n into.new)) }
        ensures gives { IfOk result (λ n. given self.new ≡ given self.old + n) }
        ensures end { IfOk result (λ n. 0 < length into.old → n ≡ 0 → IsDone (left self.old)) }
        ensures lost { OnErr result (FillsFront (left self.old) (left self.new)) }
        ensures none { OnErr result (given self.new ≡ given self.old) }
        ensures sound { OnOk result (faults self.new ≡ faults self.old) }
        ensures failed { OnErr result (faults self.new ≡ one_more (faults self.old)) }
        ensures ended { IfOk result (λ n. ends self.new ≡ ends_after n (ends self.old)) }
        ensures unended { OnErr result (ends self.new ≡ ends self.old) };

    /// How often it failed. The count stays at its greatest value.
    fn failures(&self) -> u64
        ensures { result ≡ faults self.now };
}

/// The most bytes of one input text.
pub const MOST_INPUT: usize = 67_108_864;

/// Why an input was not read.
#[derive(Clone, Copy, PartialEq, Eq, Debug, Error)]
pub enum ReadRefused {
    /// A growth was refused.
    #[error("no memory for the input")]
    OutOfMemory,
    /// The source failed.
    #[error("the source failed")]
    Failed,
    /// The input has more bytes than `MOST_INPUT`.
    #[error("the input is longer than {MOST_INPUT} bytes")]
    TooLong,
}

// How many bytes are asked for at a time.
const CHUNK: usize = 4096;

/// Reads a source to its end, or until it has given more than `MOST_INPUT` bytes.
///
/// It stops at the first failure and at the first call that gives nothing, and asks for at most
/// 4,096 bytes more than it takes. It takes time and memory in proportion to the bytes read.
pub fn read_all<S: Source>(alloc: Global, source: &mut S) -> Result<Vec<u8>, ReadRefused>
    // All that the source gave in this call is answered, and nothing is left.
    ensures whole { IfOk result
        (λ v. GivesAll v.items (S.left source.old) (S.left source.new) (S.given source.old)
        (S.given source.new)) }
    ensures too_long { result ≡ Err ReadRefused.TooLong
        → IsTooLong (S.left source.old) (S.given source.old) (S.given source.new) }
    ensures lost { OnErr result (FillsFront (S.left source.old) (S.left source.new)) }

    // Only a failure of the source is counted.
    ensures sound { OnOk result (S.faults source.new ≡ S.faults source.old) }
    ensures failed { IfErr result (λ e. CountsFault e (S.faults source.old) (S.faults source.new)) }

    // The source says once that nothing is left, and is asked no more then.
    ensures ended { OnOk result (S.ends source.new ≡ one_more (S.ends source.old)) }
    ensures unended { OnErr result (S.ends source.new ≡ S.ends source.old) }
{
    let mut text = Vec::new(alloc);
    let mut chunk = [0u8; CHUNK];
    // Each turn but the last moves a byte at least.
    for turn in 0..MOST_INPUT + 1 {
        prove!(turn <= text.len());
        let Ok(count) = source.fill(&mut chunk) else {
            return Err(ReadRefused::Failed);
        };
        if count == 0 {
            return Ok(text);
        }
        if count > MOST_INPUT - text.len() {
            return Err(ReadRefused::TooLong);
        }
        if text.extend_from_slice(&chunk[..count]).is_err() {
            return Err(ReadRefused::OutOfMemory);
        }
    }
    unreachable!()
}
