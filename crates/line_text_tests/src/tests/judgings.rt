//! Judgements of check texts over devices that fail or give a few bytes at a time.
ghost use Rattle.std.specs.Prelude.{◌<◌};

use crate::tests::made::{fault_of, followed_by};
use line_check::{CertFault, FaultCode};
use line_devices::{MemSink, MemSource};
use line_text::{TextFault, check_text};
use std::alloc::{AllocError, Global};

const CLAIM: &[u8] = b"\
history,1,2\n\
tape,0,0\n\
send,1,0,61\n\
recv,1,0,0\n\
check,a1,-\n\
send,1,0,63\n\
tape,1,0\n\
recv,0,0,0\n\
check,b1,-\n\
send,0,0,62\n\
recv,0,0,1\n\
check,b2,-\n\
failed,0\n\
line,0,0\n\
pass,1,now,0,0,1\n\
pass,1,2,0,0,1\n\
pass,0,1,1,0,0\n\
pass,1,1,0,0,0\n\
end\n";

/// What a judgement is answered, and how many bytes it puts.
type Judged = (Result<Option<CertFault>, TextFault>, usize);

/// Judges a text over memory, in steps of so many bytes, where these calls fail.
fn judge(
    alloc: Global,
    text: Vec<u8>,
    step: usize,
    read_fails: Option<u64>,
    write_fails: Option<u64>,
) -> Judged
    requires { 0 < step }
{
    let mut source = MemSource::new(text, step, read_fails);
    let mut sink = MemSink::new(alloc, step, write_fails);
    let answer = check_text(alloc, &mut source, &mut sink);
    (answer, sink.bytes().len())
}

/// Whether a judgement whose devices fail at these calls has this fault, and puts so many bytes.
fn is_judged(
    alloc: Global,
    read_fails: Option<u64>,
    write_fails: Option<u64>,
    code: u32,
    put: usize,
) -> bool {
    match Vec::from_slice(alloc, CLAIM) {
        Ok(text) => judge(alloc, text, 4, read_fails, write_fails) == (Err(fault_of(code)), put),
        Err(_) => false,
    }
}

#[test]
fn judges_nothing_where_a_device_fails(rt: HostRuntime) {
    assert!(rt; is_judged(rt.alloc(), Some(1), None, 36, 0));
    assert!(rt; is_judged(rt.alloc(), None, Some(1), 37, 0));
    assert!(rt; is_judged(rt.alloc(), None, Some(2), 37, 4));
}

/// A history that begins so and has seven thousand sends, whose bytes are more than 65,536, and
/// then this.
fn long_history(alloc: Global, first: &[u8], last: &[u8]) -> Result<Vec<u8>, AllocError> {
    followed_by(alloc, first, b"send,1,0,\n", 7_000, last)
}

/// Whether a claim on such a history is answered so.
fn is_answered(
    alloc: Global,
    first: &[u8],
    last: &[u8],
    want: Result<Option<CertFault>, TextFault>,
) -> bool {
    match long_history(alloc, first, last) {
        Ok(text) => judge(alloc, text, 100_000, None, None).0 == want,
        Err(_) => false,
    }
}

/// A claim is judged whose text is longer than what is read at a time.
#[test]
fn judges_a_text_of_several_pieces(rt: HostRuntime) {
    let first = b"history,1,2\ntape,0,0\n";
    let last = b"tape,1,0\nfailed,0\nline,0,now\nend\n";
    assert!(rt; is_answered(rt.alloc(), first, last, Ok(None)));
}

/// A byte that no text has comes before the fault of an earlier record here too.
#[test]
fn judges_no_record_before_a_byte_in_a_later_piece(rt: HostRuntime) {
    let first = b"history,1,2\ntape,0,0\nsned,1,0,\n";
    let third = TextFault {
        record_number: 3,
        code: 32,
    };
    assert!(rt; is_answered(rt.alloc(), first, b"end\x01\n", Err(fault_of(32))));
    assert!(rt; is_answered(rt.alloc(), first, b"end\n", Err(third)));
}

/// An answer is judged whose text is longer than what is read at a time: where all messages are
/// lost with their sender, and where all are in transit and none is sent again.
#[test]
fn judges_an_answer_of_several_pieces(rt: HostRuntime) {
    let first = b"history,3,2\ntape,0,0\n";
    let lost = b"tape,1,0\nfailed,0\nline,0,now\nstart,0,1,\nstart,1,0,-\nend\n";
    let kept = b"tape,1,0\nfailed\nline,now,now\nstart,0,0,-\nstart,1,0,-\nend\n";
    let missing = CertFault {
        entry: None,
        code: FaultCode::ReplayMissing,
    };
    assert!(rt; is_answered(rt.alloc(), first, lost, Ok(None)));
    assert!(rt; is_answered(rt.alloc(), first, kept, Ok(Some(missing))));
}
