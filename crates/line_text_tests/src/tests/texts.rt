//! Runs of texts over devices that fail or give a byte at a time, and the calls on one text.
ghost use Rattle.std.specs.Prelude.{◌<◌};

use crate::tests::made::{fault_of, followed, followed_by};
use line_devices::{MemSink, MemSource, Sink, Source};
use line_names::{MsgName, ProcId};
use line_text::{Done, TextFault, read_script, run_text, write_reply};
use line_world::{Mode, Reply};
use std::alloc::{AllocError, Global};

const THREE_CHECKS: &[u8] = b"\
world,1,2,fifo\n\
send,0,1,61\n\
deliver,0,1,0,\n\
check,1,b1\n\
send,1,0,62\n\
deliver,1,0,0,\n\
check,0,a1\n\
send,0,1,63\n\
deliver,0,1,0,\n\
check,1,b2\n\
recover,1\n";

const THREE_CHECKS_TOLD: &[u8] = b"\
sent,0,0,0\n\
took,0,0,0,-\n\
checked,1,1\n\
sent,1,0,0\n\
took,1,0,0,-\n\
checked,0,1\n\
sent,0,0,1\n\
took,0,0,1,-\n\
checked,1,2\n\
recovered,1,0,0\n\
line,0,now,0,-\n\
line,1,2,1,b2\n";

/// A saved machine, and commands after it.
const SAVED_MACHINE: &[u8] = b"\
history,4,2\n\
floor,0,2,1\n\
floor,1,2,0\n\
tape,0,0\n\
check,a2,-\n\
send,1,0,62\n\
tape,1,0\n\
check,b2,-\n\
bar,1,1\n\
round,1,1,1\n\
saved,1\n\
plan,1\n\
deliver,0,1,0,\n";

const SAVED_MACHINE_TOLD: &[u8] = b"\
planned,1,0,1\n\
line,0,now,0,-\n\
line,1,2,1,b2\n\
replay,0,0,1\n\
took,0,0,1,-\n";

/// Whether a whole script is read.
fn is_script_read(alloc: Global) -> bool {
    match read_script(alloc, THREE_CHECKS) {
        Ok(script) => script.n == 2 && script.mode == Mode::Fifo && script.commands.len() == 10,
        Err(_) => false,
    }
}

#[test]
fn reads_a_whole_script(rt: HostRuntime) {
    assert!(rt; is_script_read(rt.alloc()));
}

/// Whether a text that begins with a saved machine is no script that begins with `world`.
fn is_no_script(alloc: Global) -> bool {
    let no_world = TextFault {
        record_number: 1,
        code: 34,
    };
    match read_script(alloc, SAVED_MACHINE) {
        Ok(_) => false,
        Err(fault) => fault == no_world,
    }
}

#[test]
fn reads_no_saved_machine_as_a_script(rt: HostRuntime) {
    assert!(rt; is_no_script(rt.alloc()));
}

/// The reply to a delivery that forced a check of round 3.
fn took() -> Reply {
    let message = MsgName {
        from: ProcId::try_new(1, 2).unwrap(),
        inc: 65_535,
        number: 7,
    };
    Reply::Took {
        message,
        forced: Some(3),
    }
}

/// Whether the text of that reply is this.
fn is_reply_written(alloc: Global, want: &[u8]) -> bool {
    match write_reply(alloc, &took()) {
        Ok(text) => text.as_slice() == want,
        Err(_) => false,
    }
}

#[test]
fn writes_a_reply(rt: HostRuntime) {
    assert!(rt; is_reply_written(rt.alloc(), b"took,1,65535,7,3\n"));
}

/// The calls of reading and of writing that fail, if any do.
type Fails = (Option<u64>, Option<u64>);

/// No call fails.
const SOUND: Fails = (None, None);

/// What a run came to: its answer, how many bytes it put, whether another text begins with these,
/// and how often reading and writing failed.
type Told = (Result<Done, TextFault>, usize, bool, (u64, u64));

/// Runs a text over these devices.
fn tell(alloc: Global, source: &mut MemSource, sink: &mut MemSink, whole: &[u8]) -> Told {
    let answer = run_text(alloc, source, sink);
    let failures = (source.failures(), sink.failures());
    let put = sink.bytes();
    (answer, put.len(), whole.starts_with(put), failures)
}

/// Runs a text over memory, in steps of so many bytes, where these calls fail.
fn told(alloc: Global, text: Vec<u8>, whole: &[u8], step: usize, fails: Fails) -> Told
    requires { 0 < step }
{
    let mut source = MemSource::new(text, step, fails.0);
    let mut sink = MemSink::new(alloc, step, fails.1);
    tell(alloc, &mut source, &mut sink, whole)
}

/// Whether a run of a text comes to this.
fn is_told(alloc: Global, text: &[u8], whole: &[u8], step: usize, fails: Fails, want: Told) -> bool
    requires { 0 < step }
{
    match Vec::from_slice(alloc, text) {
        Ok(text) => told(alloc, text, whole, step, fails) == want,
        Err(_) => false,
    }
}

/// Whether a run of the script comes to this, of whose replies so many bytes are put.
fn is_script_told(
    alloc: Global,
    step: usize,
    fails: Fails,
    answer: Result<Done, TextFault>,
    put: usize,
    failures: (u64, u64),
) -> bool
    requires { 0 < step }
{
    let want = (answer, put, true, failures);
    is_told(alloc, THREE_CHECKS, THREE_CHECKS_TOLD, step, fails, want)
}

#[test]
fn runs_a_byte_at_a_time(rt: HostRuntime) {
    let done = Ok(Done { refused: 0 });
    assert!(rt; is_script_told(rt.alloc(), 1, SOUND, done, THREE_CHECKS_TOLD.len(), (0, 0)));
}

/// Whether a script that begins with a saved machine is run so in steps of so many bytes.
fn is_saved_told(alloc: Global, step: usize) -> bool
    requires { 0 < step }
{
    let put = SAVED_MACHINE_TOLD.len();
    let want = (Ok(Done { refused: 0 }), put, true, (0, 0));
    is_told(alloc, SAVED_MACHINE, SAVED_MACHINE_TOLD, step, SOUND, want)
}

#[test]
fn runs_a_saved_machine_in_pieces(rt: HostRuntime) {
    assert!(rt; is_saved_told(rt.alloc(), 1));
    assert!(rt; is_saved_told(rt.alloc(), 50));
}

/// Whether a run is told that its source failed at this call, and puts nothing.
fn is_read_told(alloc: Global, fail_at: u64) -> bool {
    is_script_told(
        alloc,
        16,
        (Some(fail_at), None),
        Err(fault_of(36)),
        0,
        (1, 0),
    )
}

#[test]
fn tells_that_the_source_failed(rt: HostRuntime) {
    assert!(rt; is_read_told(rt.alloc(), 1));
    assert!(rt; is_read_told(rt.alloc(), 2));
    assert!(rt; is_read_told(rt.alloc(), 5));
}

/// Whether a run is told that its sink failed at this call, and has put so many bytes.
fn is_write_told(alloc: Global, fail_at: u64, put: usize) -> bool {
    is_script_told(
        alloc,
        64,
        (None, Some(fail_at)),
        Err(fault_of(37)),
        put,
        (0, 1),
    )
}

#[test]
fn tells_that_the_sink_failed(rt: HostRuntime) {
    assert!(rt; is_write_told(rt.alloc(), 1, 0));
    assert!(rt; is_write_told(rt.alloc(), 2, 64));
    assert!(rt; is_write_told(rt.alloc(), 3, 128));
    // The last call lets out what was taken.
    assert!(rt; is_write_told(rt.alloc(), 4, 153));
}

/// Two texts.
type Texts = (Vec<u8>, Vec<u8>);

/// A script of five thousand commands that are refused, and the replies to it.
fn refused_script(alloc: Global) -> Result<Texts, AllocError> {
    let text = followed(alloc, b"world,1,2,fifo\n", b"send,0,0,\n", 5_000)?;
    let want = followed(alloc, b"", b"refused,17,ToSelf\n", 5_000)?;
    Ok((text, want))
}

/// Whether its replies are put in pieces, the second of which fails after the first is put where
/// the second call does.
fn are_pieces(alloc: Global, text: &[u8], want: &[u8]) -> bool {
    let all = (Ok(Done { refused: 5_000 }), 90_000, true, (0, 0));
    let half = (Err(fault_of(37)), 65_531, true, (0, 1));
    is_told(alloc, text, want, 4_096, SOUND, all)
        && is_told(alloc, text, want, 100_000, (None, Some(2)), half)
}

/// Whether that is so of five thousand commands.
fn are_refusals_put(alloc: Global) -> bool {
    match refused_script(alloc) {
        Ok((text, want)) => are_pieces(alloc, &text, &want),
        Err(_) => false,
    }
}

/// More replies than are put at a time.
#[test]
fn puts_long_replies_in_pieces(rt: HostRuntime) {
    assert!(rt; are_refusals_put(rt.alloc()));
}

/// A script that has a fault in its second record, and this after seven thousand records more,
/// whose bytes are more than 65,536.
fn faulty_script(alloc: Global, last: &[u8]) -> Result<Vec<u8>, AllocError> {
    let first = b"world,1,2,fifo\nsned,0,1,\n";
    followed_by(alloc, first, b"send,0,1,\n", 7_000, last)
}

/// Whether a run of such a script has this fault.
fn is_fault_told(alloc: Global, last: &[u8], fault: TextFault) -> bool {
    match faulty_script(alloc, last) {
        Ok(text) => told(alloc, text, b"", 100_000, SOUND).0 == Err(fault),
        Err(_) => false,
    }
}

/// A byte that no text has is a fault of no record, wherever it stands, and comes before the fault
/// of an earlier record.
#[test]
fn names_no_record_for_a_byte_in_a_later_piece(rt: HostRuntime) {
    let second = TextFault {
        record_number: 2,
        code: 32,
    };
    assert!(rt; is_fault_told(rt.alloc(), b"send,0,1,\x01\n", fault_of(32)));
    assert!(rt; is_fault_told(rt.alloc(), b"send,0,1,\n", second));
}
