//! Devices over memory, and devices that fail or are without end.
ghost use Rattle.std.specs.Prelude.{◌<◌};

use line_devices::{DeviceFault, MemSink, MemSource, ReadRefused, Sink, Source, put_all, read_all};
use std::alloc::Global;
use std::test::Fail;

/// What reading five bytes in such steps comes to, where this call fails: how many are read, and
/// how often a call failed.
fn read(
    alloc: Global,
    step: usize,
    fail_at: Option<u64>,
) -> Result<(Result<usize, ReadRefused>, u64), Fail>
    requires { 0 < step }
{
    let mut source = MemSource::new(b"abcde".to_vec(alloc)?, step, fail_at);
    let got = read_all(alloc, &mut source).map(|text| text.len());
    Ok((got, source.failures()))
}

#[test]
fn reads_to_the_end_or_a_failure(rt: HostRuntime) -> Result<(), Fail> {
    for (step, fail_at, want, faults) in [
        (1usize, None, Ok(5usize), 0u64),
        (3, None, Ok(5), 0),
        (9, None, Ok(5), 0),
        (1, Some(1u64), Err(ReadRefused::Failed), 1),
        (1, Some(3), Err(ReadRefused::Failed), 1),
        // Five calls with a byte each, and one that finds the end.
        (1, Some(6), Err(ReadRefused::Failed), 1),
        (1, Some(7), Ok(5), 0),
        (1, Some(0), Ok(5), 0),
    ] {
        if step > 0 {
            let told = read(rt.alloc(), step, fail_at)?;
            assert_eq!(rt; told, (want, faults), "in steps of {step}");
        }
    }
    Ok(())
}

#[test]
fn reads_the_bytes_in_order(rt: HostRuntime) -> Result<(), Fail> {
    let mut source = MemSource::new(b"abcde".to_vec(rt.alloc())?, 2, None);
    let text = match read_all(rt.alloc(), &mut source) {
        Ok(text) => text,
        Err(_) => Vec::new(rt.alloc()),
    };
    assert_eq!(rt; text.as_slice(), b"abcde".as_slice());
    Ok(())
}

// An endless source, and sources of just the most bytes and of one more.
#[derive(Drop)]
struct Zeros {
    left: u64,
    ends: u64,
}

impl Source for Zeros {
    ghost use Rattle.std.specs.Prelude.{◌-◌, ◌^◌, None};

    ghost left = { λ _. None };

    ghost given = { λ s. 2 ^ 64 - 1 - s.left };

    ghost faults = { λ _. 0 };

    ghost ends = { λ s. s.ends };

    fn fill(&mut self, into: &mut [u8]) -> Result<usize, DeviceFault> {
        let count = self.left.min(into.len() as u64);
        self.left -= count;
        if count == 0 {
            self.ends = self.ends.saturating_add(1);
        }
        Ok(count as usize)
    }

    fn failures(&self) -> u64 {
        0
    }
}

// Devices that fail, and tell nothing of their bytes.
#[derive(Drop)]
struct Broken {
    faults: u64,
}

impl Source for Broken {
    ghost use Rattle.std.specs.Prelude.{None};

    ghost left = { λ _. None };

    ghost given = { λ _. 0 };

    ghost faults = { λ s. s.faults };

    ghost ends = { λ _. 0 };

    fn fill(&mut self, _into: &mut [u8]) -> Result<usize, DeviceFault> {
        self.faults = self.faults.saturating_add(1);
        Err(DeviceFault)
    }

    fn failures(&self) -> u64 {
        self.faults
    }
}

impl Sink for Broken {
    ghost use Rattle.std.specs.Prelude.{None};

    ghost taken = { λ _. None };

    ghost faults = { λ s. s.faults };

    fn put(&mut self, _from: &[u8]) -> Result<usize, DeviceFault> {
        self.faults = self.faults.saturating_add(1);
        Err(DeviceFault)
    }

    fn finish(&mut self) -> Result<(), DeviceFault> {
        self.faults = self.faults.saturating_add(1);
        Err(DeviceFault)
    }

    fn failures(&self) -> u64 {
        self.faults
    }
}

/// How many faults a source and a sink that only fail have counted after one call each; none where
/// a call did not fail.
fn counted(alloc: Global, faults: u64) -> Option<(u64, u64)> {
    let mut source = Broken { faults };
    let mut sink = Broken { faults };
    match (read_all(alloc, &mut source), put_all(&mut sink, b"a")) {
        (Err(ReadRefused::Failed), Err(_)) => {
            Some((Source::failures(&source), Sink::failures(&sink)))
        }
        _ => None,
    }
}

#[test]
fn counts_failures_to_the_greatest_value(rt: HostRuntime) {
    for (faults, want) in [(0u64, 1u64), (u64::MAX - 1, u64::MAX), (u64::MAX, u64::MAX)] {
        assert_eq!(rt; counted(rt.alloc(), faults), Some((want, want)));
    }
}

#[test]
fn reads_no_more_than_the_limit(rt: HostRuntime) {
    for (left, want) in [
        (67_108_864u64, Ok(67_108_864usize)),
        (67_108_865, Err(ReadRefused::TooLong)),
        (u64::MAX, Err(ReadRefused::TooLong)),
    ] {
        let got = read_all(rt.alloc(), &mut Zeros { left, ends: 0 });
        assert_eq!(rt; got.map(|text| text.len()), want, "of {left}");
    }
}

/// Whether each call succeeded, and what a sink of such steps holds and has counted, after a put of
/// five bytes and a finish.
fn put(alloc: Global, step: usize, fail_at: Option<u64>) -> (bool, bool, usize, u64)
    requires { 0 < step }
{
    let mut sink = MemSink::new(alloc, step, fail_at);
    let is_put = put_all(&mut sink, b"abcde").is_ok();
    let is_finished = sink.finish().is_ok();
    let held = if b"abcde".starts_with(sink.bytes()) {
        sink.bytes().len()
    } else {
        usize::MAX
    };
    (is_put, is_finished, held, sink.failures())
}

#[test]
fn puts_all_or_a_front(rt: HostRuntime) {
    for (step, fail_at, want) in [
        (1usize, None, (true, true, 5usize, 0u64)),
        (2, None, (true, true, 5, 0)),
        (9, None, (true, true, 5, 0)),
        (2, Some(1u64), (false, true, 0, 1)),
        (2, Some(3), (false, true, 4, 1)),
        // The fourth call is the finish.
        (2, Some(4), (true, false, 5, 1)),
    ] {
        if step > 0 {
            assert_eq!(rt; put(rt.alloc(), step, fail_at), want, "in steps of {step}");
        }
    }
}

#[test]
fn tells_what_is_wrong(rt: HostRuntime) -> Result<(), Fail> {
    let words = format!(in rt.alloc();
        "{}; {}; {}; {}",
        DeviceFault,
        ReadRefused::OutOfMemory,
        ReadRefused::Failed,
        ReadRefused::TooLong
    )?;
    assert_eq!(rt;
        words.as_str(),
        "the device failed; no memory for the input; the source failed; \
         the input is longer than 67108864 bytes"
    );
    Ok(())
}
