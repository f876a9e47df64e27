//! Conversations with a service: in pieces of each size, each kind of line, and the longest line.
ghost use Rattle.std.specs.Prelude.{◌<◌};

use line_devices::{MemSink, MemSource};
use line_service::{MOST_LINE, Outcome, ServeError, serve};
use std::alloc::Global;
use std::test::Fail;

/// The conversation of docs/FORMATS.md: what is written to a service, and what it answers.
const SAID: &[u8] =
    b"world,1,2,fifo\nsend,0,1,61\ndeliver,0,1,5,\ndeliver,0,1,0,\nsned,0,1,61\nrecover,0\n";

const ANSWERED: &[u8] =
    b"\nsent,0,0,0\n\nrefused,19,BadPick\n\ntook,0,0,0,-\n\nfault,32,BadRecord\n\n\
      recovered,2,1,0\nline,0,0,1,\nline,1,0,1,\npass,1,now,0,0,0\n\n";

/// What comes of an input, so many bytes at a time, and what is put for it.
fn served(
    alloc: Global,
    input: &[u8],
    step: usize,
    fail_at: Option<u64>,
) -> Result<(Result<Outcome, ServeError>, Vec<u8>), Fail>
    requires { 0 < step }
{
    let mut source = MemSource::new(input.to_vec(alloc)?, step, fail_at);
    let mut sink = MemSink::new(alloc, 1000, None);
    let outcome = serve(alloc, &mut source, &mut sink);
    Ok((outcome, sink.into_bytes()))
}

/// Whether this comes of an input, so many bytes at a time, and this is put for it.
fn is_served(
    alloc: Global,
    input: &[u8],
    step: usize,
    outcome: Outcome,
    want: &[u8],
) -> Result<bool, Fail>
    requires { 0 < step }
{
    let (came, text) = served(alloc, input, step, None)?;
    Ok(came == Ok(outcome) && text.as_slice() == want)
}

#[test]
fn answers_alike_in_pieces_of_any_size(rt: HostRuntime) -> Result<(), Fail> {
    for step in 1..SAID.len() + 1 {
        assert!(rt;
            is_served(rt.alloc(), SAID, step, Outcome::Faulted, ANSWERED)?,
            "in steps of {step}"
        );
    }
    Ok(())
}

/// What is said, what is answered, and what comes of it.
type Said = (&'static [u8], &'static [u8], Outcome);

const LINES: [Said; 11] = [
    (b"", b"", Outcome::Done),
    (b"\n\r\n\n", b"", Outcome::Done),
    // The last line may lack its line feed, but a carriage return then stands before none.
    (b"world,1,2,fifo", b"\n", Outcome::Done),
    (b"world,1,2,fifo\r\n", b"\n", Outcome::Done),
    (
        b"world,1,2,fifo\r",
        b"fault,32,BadRecord\n\n",
        Outcome::Faulted,
    ),
    // Before the first good record of a world each record is read as one.
    (b"send,0,1,61\n", b"fault,34,NoWorld\n\n", Outcome::Faulted),
    (
        b"world,3,2,fifo\n",
        b"fault,35,BadVersion\n\n",
        Outcome::Faulted,
    ),
    (
        b"world,1,65,fifo\nworld,2,65,fifo\n",
        b"fault,6,BadCount\n\n\n",
        Outcome::Faulted,
    ),
    (
        b"world,1,2,fifo\nworld,1,2,fifo\n",
        b"\nfault,32,BadRecord\n\n",
        Outcome::Faulted,
    ),
    // A byte that is not allowed is a fault of its line alone.
    (
        b"world,1,2,fifo\ncheck,0,\x01\ncheck,0,\r61\ncheck,0,61\n",
        b"\nfault,32,BadRecord\n\nfault,32,BadRecord\n\nchecked,0,1\n\n",
        Outcome::Faulted,
    ),
    (
        b"world,1,2,fifo\nsend,0,2,\n",
        b"\nrefused,1,NoSuchProcess\n\n",
        Outcome::Refused,
    ),
];

#[test]
fn answers_each_line(rt: HostRuntime) -> Result<(), Fail> {
    for (said, want, outcome) in &LINES {
        assert!(rt; is_served(rt.alloc(), said, 7, *outcome, want)?);
    }
    Ok(())
}

/// A record of so many bytes that asks for a recovery, after one of a world, and one more after it.
fn with_recovery(alloc: Global, first: &[u8], others: usize) -> Result<Vec<u8>, Fail> {
    let mut said = b"world,1,2,fifo\n".to_vec(alloc)?;
    said.extend_from_slice(first)?;
    for _ in 0..others {
        said.extend_from_slice(b",0")?;
    }
    said.extend_from_slice(b"\nrounds\n")?;
    Ok(said)
}

/// Whether a record of so many bytes is answered so, and alike in pieces.
fn is_answered(alloc: Global, first: &[u8], others: usize, want: &[u8]) -> Result<bool, Fail> {
    let said = with_recovery(alloc, first, others)?;
    let (_, whole) = served(alloc, &said, 70_000, None)?;
    let (_, parts) = served(alloc, &said, 999, None)?;
    Ok(whole.as_slice() == want && parts.as_slice() == want)
}

const RECOVERED: &[u8] = b"\nrecovered,1,0,0\nline,0,0,1,\nline,1,now,0,-\n\nrounds,0\n\n";

const DROPPED: &[u8] = b"\nfault,32,BadRecord\n\nrounds,0\n\n";

#[test]
fn drops_a_line_that_is_too_long(rt: HostRuntime) -> Result<(), Fail> {
    // 65,536 bytes, and 65,537.
    assert!(rt; is_answered(rt.alloc(), b"recover,00", 32_763, RECOVERED)?);
    assert!(rt; is_answered(rt.alloc(), b"recover,0", 32_764, DROPPED)?);
    assert!(rt; is_answered(rt.alloc(), b"recover,0", 100_000, DROPPED)?);
    Ok(())
}

#[test]
fn answers_what_came_before_the_source_failed(rt: HostRuntime) -> Result<(), Fail> {
    // The third piece of twenty bytes is not there: the second ends in the middle of a record.
    let (outcome, text) = served(rt.alloc(), SAID, 20, Some(3))?;
    assert!(rt; outcome == Err(ServeError::Read));
    assert!(rt; text.as_slice() == b"\nsent,0,0,0\n\n".as_slice());
    Ok(())
}
