//! Histories that are longer than what is put at once.

use line_devices::{MemSink, MemSource, Sink, Source};
use line_text::{Done, run_text};
use std::alloc::{AllocError, Global};

/// Adds a thousand records that carry the longest body, after these fields.
fn add_long(text: &mut Vec<u8>, fields: &[u8]) -> Result<(), AllocError> {
    for _ in 0..1_000 {
        text.extend_from_slice(fields)?;
        for _ in 0..64 {
            text.extend_from_slice(b"61")?;
        }
        text.extend_from_slice(b"\n")?;
    }
    Ok(())
}

/// A thousand messages, and two commands that write their history.
fn long_script(alloc: Global) -> Result<Vec<u8>, AllocError> {
    let mut text = Vec::from_slice(alloc, b"world,1,2,fifo\n")?;
    add_long(&mut text, b"send,0,1,")?;
    text.extend_from_slice(b"history\nbundle,0\n")?;
    Ok(text)
}

/// Adds the history of a thousand messages.
fn add_history(text: &mut Vec<u8>) -> Result<(), AllocError> {
    text.extend_from_slice(b"history,1,2\ntape,0,0\n")?;
    add_long(text, b"send,1,0,")?;
    text.extend_from_slice(b"tape,1,0\n")
}

/// What these two commands are answered.
fn long_replies(alloc: Global) -> Result<Vec<u8>, AllocError> {
    let mut want = Vec::new(alloc);
    add_history(&mut want)?;
    add_history(&mut want)?;
    want.extend_from_slice(b"failed,0\nline,0,now\nend\n")?;
    Ok(want)
}

/// A run of that script.
#[derive(Drop)]
struct Devices {
    source: MemSource,
    sink: MemSink,
}

/// Memory to run the script over, whose sink fails at this call.
fn devices_of(alloc: Global, fail_at: Option<u64>) -> Result<Devices, AllocError> {
    let text = long_script(alloc)?;
    Ok(Devices {
        source: MemSource::new(text, 100_000, None),
        sink: MemSink::new(alloc, 100_000, fail_at),
    })
}

/// Whether a run puts replies that end so, none of which is refused.
fn is_put(alloc: Global, devices: &mut Devices, replies: &[u8]) -> bool {
    let answer = run_text(alloc, &mut devices.source, &mut devices.sink);
    let put = devices.sink.bytes();
    answer == Ok(Done { refused: 0 }) && put.len() == 288_974 && put.ends_with(replies)
}

/// Whether the history and the check text are put.
fn are_replies_put(alloc: Global) -> Result<bool, AllocError> {
    let replies = long_replies(alloc)?;
    let mut devices = devices_of(alloc, None)?;
    Ok(is_put(alloc, &mut devices, &replies))
}

/// A history and a check text, each of some 138,000 bytes, are put in pieces while they are
/// written.
#[test]
fn puts_a_long_history(rt: HostRuntime) {
    assert!(rt; are_replies_put(rt.alloc()) == Ok(true));
}

/// What is put of the replies where the sink fails at this call, and how often reading and writing
/// failed.
type Put = (Vec<u8>, (u64, u64));

/// A run whose sink fails at this call.
fn put_until(alloc: Global, fail_at: Option<u64>) -> Result<Put, AllocError> {
    let mut devices = devices_of(alloc, fail_at)?;
    let _ = run_text(alloc, &mut devices.source, &mut devices.sink);
    let failures = (devices.source.failures(), devices.sink.failures());
    Ok((devices.sink.into_bytes(), failures))
}

/// Whether a run whose sink fails at this call has put so many bytes, of what it puts where none
/// fails.
fn is_cut(alloc: Global, whole: &[u8], fail_at: u64, taken: usize) -> bool {
    match put_until(alloc, Some(fail_at)) {
        Ok((put, failures)) => {
            put.len() == taken && whole.starts_with(&put) && failures == (0, 1)
        }
        Err(_) => false,
    }
}

/// Whether each piece is put before the next one is begun. The replies to the sends are 12,890
/// bytes, and each of the other records but a few is 138.
fn are_cut(alloc: Global, whole: &[u8]) -> bool {
    is_cut(alloc, whole, 1, 0)
        && is_cut(alloc, whole, 2, 65_534)
        && is_cut(alloc, whole, 3, 131_068)
        && is_cut(alloc, whole, 4, 196_602)
        && is_cut(alloc, whole, 5, 262_136)
        && is_cut(alloc, whole, 6, 288_974)
}

/// Whether that is so of the replies to the script.
fn are_pieces_put(alloc: Global) -> bool {
    match put_until(alloc, None) {
        Ok((whole, failures)) => failures == (0, 0) && are_cut(alloc, &whole),
        Err(_) => false,
    }
}

/// A piece is put where a field finds no room within its 65,536 bytes.
#[test]
fn puts_a_long_history_in_pieces(rt: HostRuntime) {
    assert!(rt; are_pieces_put(rt.alloc()));
}
