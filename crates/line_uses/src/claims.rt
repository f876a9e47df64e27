//! Judge a claim or a whole answer, and write a claim down so that anybody can have it judged.
ghost use Rattle.std.specs.Prelude.{◌≡◌, ◌↔◌, [], IfOk, IsTrue};
ghost use Rattle.recline.specs.Shape.{HasShape};
ghost use Rattle.recline.specs.ClaimRecords.{check_records, in_order};
ghost use Rattle.recline.specs.Texts.{records_text};
ghost use Rattle.recline.specs.Chain.{IsChain};
ghost use Rattle.recline.specs.Survival.{IsLatest};
ghost use Rattle.recline.specs.WholeAnswers.{IsRightAnswer, answer_of_ref};

use anyhow::Result;
use recline::check::{AnswerRef, ReceivedFlags, check_answer, check_certificate};
use recline::plan::Plan;
use recline::text::write_check_text;
use recline::{History, Marks, ProcSet};
use std::alloc::Global;

/// Whether the certificate of a plan shows that its line is the latest one. The plan may come from
/// anybody: it is judged by the history alone, and without memory.
pub fn is_latest(history: &History, marks: &Marks, failed: &ProcSet, plan: &Plan) -> bool
    ensures right { IsTrue result
        ↔ (HasShape history.now.processes marks.now failed.now plan.now.certificate.items
        plan.now.line
        × IsChain history.now.processes marks.now failed.now plan.now.certificate.items
        plan.now.line) }
    ensures latest { IsTrue result
        → IsLatest history.now.processes marks.now failed.now plan.now.line }
{
    check_certificate(
        history,
        marks,
        failed,
        &plan.line,
        plan.certificate.as_slice(),
    )
    .is_ok()
}

/// Whether a whole answer to a recovery is right, whoever gave it: its line, where each process
/// goes on, and what is sent again. Who follows a right one has what a restart at its line leaves.
pub fn is_right(
    alloc: Global,
    history: &History,
    marks: &Marks,
    failed: &ProcSet,
    answer: &AnswerRef<'_>,
) -> Result<bool>
    ensures right { IfOk result (λ right. IsTrue right
        ↔ IsRightAnswer history.now.processes marks.now failed.now (answer_of_ref answer.now)) }
    ensures latest { IfOk result (λ right. IsTrue right
        → IsLatest history.now.processes marks.now failed.now answer.now.line.now) }
{
    let mut flags = ReceivedFlags::new(alloc, history)?;
    Ok(check_answer(history, marks, failed, answer, &mut flags).is_ok())
}

/// A history and a plan for it as a check text, which `recline check` judges.
pub fn certificate_text(
    alloc: Global,
    history: &History,
    marks: &Marks,
    failed: &ProcSet,
    plan: &Plan,
) -> Result<Vec<u8>>
    ensures { IfOk result (λ text. text.items
        ≡ records_text (check_records history.now.processes (record {
          marks = in_order history.now.processes marks.now;
          failed = failed.now;
          line = plan.now.line;
          certificate = plan.now.certificate.items;
          starts = [];
          replays = [];
        }))) }
{
    let certificate = plan.certificate.as_slice();
    Ok(write_check_text(alloc, history, marks, failed, &plan.line, certificate)?)
}
