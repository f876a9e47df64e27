//! Replies that are longer than a piece, over a sink that tells how they came.

use line_devices::{DeviceFault, MemSink, MemSource, Sink};
use line_text::{Done, TextFault, run_text};
use std::alloc::{AllocError, Global};
use std::test::Fail;

/// How many messages stand in the channel of the round.
const MANY: u32 = 7000;
/// Where so many bytes of replies are gathered, they are put.
const PIECE: usize = 65_536;
/// The longest record of these replies, `channel,1,0,1,0,6999` and a line feed.
const RECORD: usize = 21;

/// A sink that takes all that it is put, and tells how often that was and how much at most.
#[derive(Drop)]
struct Watched {
    kept: MemSink,
    puts: u64,
    most: usize,
}

impl Sink for Watched {
    ghost use Rattle.std.specs.Prelude.{None};

    ghost taken = { λ _. None };

    ghost faults = { λ s. s.kept.faults };

    fn put(&mut self, from: &[u8]) -> Result<usize, DeviceFault> {
        self.puts = self.puts.saturating_add(1);
        self.most = self.most.max(from.len());
        self.kept.put(from)
    }

    fn finish(&mut self) -> Result<(), DeviceFault> {
        self.kept.finish()
    }

    fn failures(&self) -> u64 {
        self.kept.failures()
    }
}

/// Adds a record so often.
fn add_again(text: &mut Vec<u8>, record: &[u8]) -> Result<(), AllocError> {
    for _ in 0..MANY {
        text.extend_from_slice(record)?;
    }
    Ok(())
}

/// Adds a record for each number, which stands after these fields.
fn add_numbered(alloc: Global, text: &mut Vec<u8>, fields: &str) -> Result<(), Fail> {
    for i in 0..MANY {
        let record = format!(in alloc; "{fields}{i}\n")?;
        text.extend_from_slice(record.as_bytes())?;
    }
    Ok(())
}

/// Messages that nobody receives, a round that has them in its channel, and three long replies.
fn script(alloc: Global) -> Result<Vec<u8>, AllocError> {
    let mut text = Vec::from_slice(alloc, b"world,1,2,unordered\n")?;
    add_again(&mut text, b"send,0,1,\n")?;
    text.extend_from_slice(b"begin,0,\nturn,1,\nhistory\nbundle,0\nrounds\n")?;
    Ok(text)
}

/// Adds the history of both processes.
fn add_history(text: &mut Vec<u8>) -> Result<(), AllocError> {
    text.extend_from_slice(b"history,1,2\ntape,0,0\n")?;
    add_again(text, b"send,1,0,\n")?;
    text.extend_from_slice(b"check,,1\ntape,1,0\ncheck,,1\n")
}

/// Adds what the two histories and the rounds are answered.
fn add_listings(text: &mut Vec<u8>) -> Result<(), AllocError> {
    text.extend_from_slice(b"begun,0,1,1\nturned,1,1,1\n")?;
    add_history(text)?;
    add_history(text)?;
    text.extend_from_slice(b"failed,0\nline,1,now\nend\nrounds,1\nround,1,1,1\n")
}

/// What the script is answered.
fn replies(alloc: Global) -> Result<Vec<u8>, Fail> {
    let mut text = Vec::new(alloc);
    add_numbered(alloc, &mut text, "sent,0,0,")?;
    add_listings(&mut text)?;
    add_numbered(alloc, &mut text, "channel,1,0,1,0,")?;
    Ok(text)
}

/// What a run of a script comes to: its answer, whether it put these replies, how often it put
/// something, and how much at most.
fn outcome(
    alloc: Global,
    script: Vec<u8>,
    want: &[u8],
) -> (Result<Done, TextFault>, bool, u64, usize) {
    let mut source = MemSource::new(script, PIECE, None);
    let mut sink = Watched {
        kept: MemSink::new(alloc, 1_000_000, None),
        puts: 0,
        most: 0,
    };
    let answer = run_text(alloc, &mut source, &mut sink);
    let is_wanted = sink.kept.bytes() == want;
    (answer, is_wanted, sink.puts, sink.most)
}

/// A history, a bundle and the channel of a round are each longer than a piece, and no more of them
/// than a piece and a record is put at once.
#[test]
fn puts_no_more_than_a_piece_and_a_record(rt: HostRuntime) -> Result<(), Fail> {
    let script = script(rt.alloc())?;
    let want = replies(rt.alloc())?;
    let (answer, is_wanted, puts, most) = outcome(rt.alloc(), script, &want);
    assert!(rt; want.len() == 382_946 && is_wanted);
    // Five pieces that are full, and the rest.
    assert!(rt; answer == Ok(Done { refused: 0 }) && puts == 6 && most < PIECE + RECORD);
    Ok(())
}
