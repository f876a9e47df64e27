//! The test of a whole answer.
ghost use Rattle.std.specs.Prelude.{◌≡◌, ◌↔◌, IsOk, IfErr, length};
ghost use Rattle.line_tape.specs.Survival.{IsLatest};
ghost use Rattle.line_check.specs.Answers.{IsRightAnswer, answer_of_ref};
ghost use Rattle.line_check.specs.Faults.{IsFirstFaultOfAnswer};

use crate::answers::AnswerRef;
use crate::checker::check_certificate;
use crate::faults::{CertFault, FaultCode};
use crate::replays::check_replays;
use crate::starts::check_starts;
use line_names::ProcSet;
use line_tape::{History, Marks, ReceivedFlags};

/// Tests the whole answer to a recovery, on any history whatever: that its line is the latest for
/// these marks and this failed set, as its certificate shows; that it says of each process the
/// incarnation and the state that a restart at this line gives it; and that the messages that are
/// sent again are just those in transit at the line, each once, by sender, then number, with its
/// addressee, the place of its Send on the tape of its sender, and its body.
///
/// Any answer may be asked about. One that does not say of each process where it goes on has not
/// the shape. The line and the certificate are tested as `check_certificate` does. Then comes where
/// the processes go on, process by process, the state before the incarnation; then each message
/// that is sent again, and last whether one is missing.
///
/// It takes no memory beyond the flags that it is lent, whatever they are marked with: those of
/// `ReceivedFlags::new` for this history are enough. Beside the line it takes time in proportion to
/// the events before the line and to the messages that are sent again. With fewer flags the answer
/// is the same, and each send takes the logarithm of a process's receipts.
pub fn check_answer(
    history: &History,
    marks: &Marks,
    failed: &ProcSet,
    answer: &AnswerRef<'_>,
    flags: &mut ReceivedFlags,
) -> Result<(), CertFault>
    ensures ok { IsOk result
        ↔ IsRightAnswer history.now.processes marks.now failed.now (answer_of_ref answer.now) }
    ensures latest { IsOk result
        → IsLatest history.now.processes marks.now failed.now answer.now.line.now }
    ensures fault { IfErr result
        (IsFirstFaultOfAnswer history.now.processes marks.now failed.now
        (answer_of_ref answer.now)) }
{
    if answer.starts.len() != history.n() as usize {
        return Err(CertFault {
            entry: None,
            code: FaultCode::BadShape,
        });
    }
    check_certificate(history, marks, failed, answer.line, answer.certificate)?;
    check_starts(history, answer.line, answer.starts)?;
    match check_replays(history, answer.line, answer.replays, flags) {
        Ok(()) => Ok(()),
        Err(fault) => Err(fault),
    }
}
