//! The tests of a line and of a claim.
ghost use Rattle.std.specs.Prelude.{◌≡◌, ◌<◌, ◌↔◌, IsTrue, IsOk, IfOk, IfErr, IsErrOf, All, length};
ghost use Rattle.std.specs.Prelude.{List};
ghost use Rattle.line_names.specs.declared.choices.Choice.{Choice};
ghost use Rattle.line_tape.specs.Chain.{IsRight, IsChain, IsLed};
ghost use Rattle.line_tape.specs.Line.{IsLine, IsConsistent};
ghost use Rattle.line_tape.specs.Survival.{IsLatest};
ghost use Rattle.line_check.specs.Shape.{IsEntryOf, HasShape};
ghost use Rattle.line_check.specs.Verdict.{IsEntryFault, IsFirstFault};

use crate::faults::{CertFault, FaultCode, LineFault};
use crate::shapes::has_shape;
use line_names::{Line, Passed, ProcSet};
use line_tape::{
    History, Marks, first_ceilings, is_consistent, is_line, is_sent_before, next_lower,
};

/// Tests a line: whether it has one choice for each process, which its tape has, and no message is
/// received before it that is not sent before it.
///
/// It looks once at each event before the line.
pub fn check_consistent(history: &History, line: &Line) -> Result<(), LineFault>
    ensures ok { IsOk result
        ↔ (IsLine history.now.processes line.now × IsConsistent history.now.processes line.now) }

    // The refusals, in their order.
    ensures shape { IsErrOf result LineFault.BadShape
        ↔ (IsLine history.now.processes line.now → ⊥) }
    ensures consistent { IsErrOf result LineFault.NotConsistent
        ↔ (IsLine history.now.processes line.now
        × (IsConsistent history.now.processes line.now → ⊥)) }
{
    if !is_line(history, line) {
        return Err(LineFault::BadShape);
    }
    if !is_consistent(history, line) {
        return Err(LineFault::NotConsistent);
    }
    Ok(())
}

/// Tests one entry against the present ceilings.
fn check_entry(history: &History, ceilings: &Line, entry: &Passed) -> Result<(), FaultCode>
    requires line { IsLine history.now.processes ceilings.now }
    requires process { entry.now.at < length history.now.processes }
    ensures right { IsOk result ↔ IsRight history.now.processes ceilings.now entry.now }
    ensures fault { IfErr result (IsEntryFault history.now.processes ceilings.now entry.now) }
{
    let ceiling = ceilings.at(entry.at);
    if entry.choice != ceiling {
        return Err(FaultCode::NotTop);
    }
    if !history
        .tape(entry.at)
        .received_before(ceiling, &entry.message)
    {
        return Err(FaultCode::NotReceived);
    }
    if is_sent_before(history, ceilings, &entry.message) {
        return Err(FaultCode::NotOrphan);
    }
    Ok(())
}

/// Tests the entries one after another, each against the ceilings that those before it leave, and
/// answers the ceilings that they lead to.
fn follow(
    history: &History,
    marks: &Marks,
    failed: &ProcSet,
    entries: &[Passed],
) -> Result<Line, CertFault>
    requires { All (IsEntryOf history.now.processes) entries.now }
    ensures led { IfOk result (IsLed history.now.processes marks.now failed.now entries.now) }
    ensures fault { IfErr result (λ fault. (line : List Choice)
        → HasShape history.now.processes marks.now failed.now entries.now line
        → IsFirstFault history.now.processes marks.now failed.now entries.now line fault.entry
        fault.code) }
{
    // Its limits bound the number of entries that are right.
    let _n = history.n();
    let mut ceilings = first_ceilings(history, marks, failed);
    for (k, entry) in entries.iter().enumerate() {
        if let Err(code) = check_entry(history, &ceilings, entry) {
            return Err(CertFault {
                entry: Some(k as u32),
                code,
            });
        }
        let next = next_lower(history, marks, failed, entry.at, ceilings.at(entry.at));
        ceilings.set(entry.at, next);
    }
    Ok(ceilings)
}

/// Whether two lines are one.
fn is_same(a: &Line, b: &Line) -> bool
    ensures { IsTrue result ↔ (a.now ≡ b.now) }
{
    a == b
}

/// A fault of the claim, and of none of its entries.
fn of_no_entry(code: FaultCode) -> CertFault
    ensures { result ≡ record { entry = None; code = code } }
{
    CertFault { entry: None, code }
}

/// Tests a claim: that the line is the latest for these marks and this failed set, as the entries
/// of the certificate show.
///
/// The ceilings start at the latest surviving choice of each process. An entry is right where its
/// choice is the present ceiling of its process, and its message is received before that choice and
/// not sent before the present ceiling of its sender; then that process is lowered to its next
/// lower surviving choice. The entries are tested in their order, whatever order that is, and never
/// against the final line. At the end the ceilings are the line, and it is consistent.
///
/// Any claim may be asked about. That it names only what the history has is tested first, over the
/// whole claim. An entry takes constant time, but for two searches: its message is looked up in
/// time logarithmic in the receipts of its process, and a check that does not survive among the
/// marks of its process. Consistency takes one look at each event before the line.
pub fn check_certificate(
    history: &History,
    marks: &Marks,
    failed: &ProcSet,
    line: &Line,
    certificate: &[Passed],
) -> Result<(), CertFault>
    ensures ok { IsOk result
        ↔ (HasShape history.now.processes marks.now failed.now certificate.now line.now
        × IsChain history.now.processes marks.now failed.now certificate.now line.now) }
    ensures latest { IsOk result → IsLatest history.now.processes marks.now failed.now line.now }
    ensures fault { IfErr result (λ fault.
        IsFirstFault history.now.processes marks.now failed.now certificate.now line.now fault.entry
        fault.code) }
{
    if !has_shape(history, marks, failed, certificate, line) {
        return Err(of_no_entry(FaultCode::BadShape));
    }
    let ceilings = follow(history, marks, failed, certificate)?;
    if !is_same(&ceilings, line) {
        return Err(of_no_entry(FaultCode::LineDiffers));
    }
    if !is_consistent(history, line) {
        return Err(of_no_entry(FaultCode::NotConsistent));
    }
    Ok(())
}
