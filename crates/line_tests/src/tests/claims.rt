//! What the checker says of claims.
use crate::tests::build::{failed, history_of, process};
use crate::tests::{DOMINO, passed, reads};
use line_check::{CertFault, FaultCode, LineFault, check_certificate, check_consistent};
use line_names::{Choice, Line, Passed, ProcId, ProcSet};
use line_tape::{History, Marks};
use std::alloc::Global;
use std::test::Fail;

/// Both processes back at their initial states.
const BACK: [Choice; 2] = [Choice::Check(0), Choice::Check(0)];

/// A line of at most two choices.
fn line_of(choices: &[Choice]) -> Line {
    let mut line = Line::new();
    for choice in choices.iter().take(2) {
        if line.len() < 2 {
            line.push(*choice);
        }
    }
    line
}

/// The entry and the number of the fault of a claim, if it has one.
fn told(verdict: Result<(), CertFault>) -> Option<(Option<u32>, u32)> {
    match verdict {
        Ok(()) => None,
        Err(fault) => Some((fault.entry, fault.code.code())),
    }
}

/// What is said of a claim: the entry and the number of its fault, if it has one.
type Verdict = Option<(Option<u32>, u32)>;

/// The verdict on a claim about a history of two processes with these marks.
fn verdict_on(
    alloc: Global,
    marks: &Marks,
    failed: &ProcSet,
    line: &[Choice],
    entries: &[Passed],
) -> Result<Verdict, Fail> {
    let history = history_of(alloc, &DOMINO)?;
    Ok(told(check_certificate(&history, marks, failed, &line_of(line), entries)))
}

/// The same without marks.
fn verdict(
    alloc: Global,
    failed: &ProcSet,
    line: &[Choice],
    entries: &[Passed],
) -> Result<Verdict, Fail> {
    let marks = Marks::new(alloc, 2)?;
    verdict_on(alloc, &marks, failed, line, entries)
}

/// Marks of so many processes, one of them on a check of one of them; none on check 0.
fn marked(alloc: Global, n: u32, p: ProcId, check: u32) -> Result<Marks, Fail> {
    let mut marks = Marks::new(alloc, n)?;
    if check > 0 && (p.get() as usize) < marks.processes() {
        marks.mark(p, check)?;
    }
    Ok(marks)
}

/// The verdict on the domino's claim, with the first process failed and such marks.
fn verdict_with_mark(alloc: Global, n: u32, p: ProcId, check: u32) -> Result<Verdict, Fail> {
    let (failed, entries) = (failed(&[0])?, domino_entries()?);
    let marks = marked(alloc, n, p, check)?;
    verdict_on(alloc, &marks, &failed, &BACK, &entries)
}

/// How the domino goes down: b goes with its sender's check, and all else with b.
fn domino_entries() -> Result<[Passed; 4], Fail> {
    Ok([
        passed(1, Choice::Now, 0, 1)?,
        passed(1, Choice::Check(2), 0, 1)?,
        passed(0, Choice::Check(1), 1, 0)?,
        passed(1, Choice::Check(1), 0, 0)?,
    ])
}

/// Whether it is valid that the domino goes down with its first process, by these entries.
fn is_valid(alloc: Global, entries: &[Passed]) -> Result<bool, Fail> {
    Ok(verdict(alloc, &failed(&[0])?, &BACK, entries)?.is_none())
}

/// Whether it is valid that all stands where nobody failed.
fn is_standing(alloc: Global) -> Result<bool, Fail> {
    Ok(verdict(alloc, &ProcSet::empty(), &[Choice::Now, Choice::Now], &[])?.is_none())
}

#[test]
fn valid_certificate(rt: HostRuntime) -> Result<(), Fail> {
    let entries = domino_entries()?;
    assert!(rt; is_valid(rt.alloc(), &entries)?);
    assert!(rt; is_standing(rt.alloc())?);
    Ok(())
}

/// How the domino goes down, but for the first choice and what the last entry says.
fn other_entries(
    first: Choice,
    at: ProcId,
    choice: Choice,
    from: ProcId,
) -> Result<[Passed; 4], Fail> {
    let mut entries = domino_entries()?;
    entries[0].choice = first;
    entries[3].at = at;
    entries[3].choice = choice;
    entries[3].message.from = from;
    Ok(entries)
}

/// Whether such entries have no shape.
fn are_misshapen(
    alloc: Global,
    first: Choice,
    at: ProcId,
    choice: Choice,
    from: ProcId,
) -> Result<bool, Fail> {
    let entries = other_entries(first, at, choice, from)?;
    Ok(verdict(alloc, &failed(&[0])?, &BACK, &entries)? == Some((None, 16)))
}

/// Whether entries have no shape that name a check that there is not, a process that there is not,
/// and a message of such a process.
fn three_are_misshapen(alloc: Global) -> Result<[bool; 3], Fail> {
    let (first, second, third) = (process(0)?, process(1)?, ProcId::try_new(2, 3)?);
    let (now, one) = (Choice::Now, Choice::Check(1));
    Ok([
        are_misshapen(alloc, one, second, Choice::Check(4), first)?,
        are_misshapen(alloc, now, third, one, first)?,
        are_misshapen(alloc, now, second, one, third)?,
    ])
}

#[test]
fn misshapen_entries(rt: HostRuntime) -> Result<(), Fail> {
    assert!(rt; three_are_misshapen(rt.alloc())? == [true; 3]);
    Ok(())
}

/// The first process, and a third one that a history of two does not have.
fn first_and_third() -> Result<ProcSet, Fail> {
    Ok(failed(&[0])?.with(ProcId::try_new(2, 3)?))
}

#[test]
fn misshapen_set(rt: HostRuntime) -> Result<(), Fail> {
    let (set, entries) = (first_and_third()?, domino_entries()?);
    assert!(rt; verdict(rt.alloc(), &set, &BACK, &entries)? == Some((None, 16)));
    Ok(())
}

/// The verdicts with a mark on a check that there is not, and of a process that there is not; with
/// none among three processes, and of one alone; and with a mark on the second process's check 1.
fn verdicts_with_marks(alloc: Global) -> Result<[Verdict; 5], Fail> {
    let (first, second, third) = (process(0)?, process(1)?, ProcId::try_new(2, 3)?);
    Ok([
        verdict_with_mark(alloc, 2, first, 2)?,
        verdict_with_mark(alloc, 3, third, 1)?,
        verdict_with_mark(alloc, 3, third, 0)?,
        verdict_with_mark(alloc, 1, first, 0)?,
        verdict_with_mark(alloc, 2, second, 1)?,
    ])
}

#[test]
fn misshapen_marks(rt: HostRuntime) -> Result<(), Fail> {
    let (misshapen, not_top) = (Some((None, 16)), Some((Some(3), 11)));
    assert!(rt; verdicts_with_marks(rt.alloc())? == [misshapen, misshapen, None, None, not_top]);
    Ok(())
}

/// Whether this is said of a line of a history.
fn is_tested(history: &History, choices: &[Choice], want: Result<(), LineFault>) -> bool {
    check_consistent(history, &line_of(choices)) == want
}

#[test]
fn tested_lines(rt: HostRuntime) -> Result<(), Fail> {
    let history = history_of(rt.alloc(), &DOMINO)?;
    let crossed = [Choice::Check(0), Choice::Check(1)];
    assert!(rt; is_tested(&history, &BACK, Ok(())));
    assert!(rt; is_tested(&history, &crossed, Err(LineFault::NotConsistent)));
    let missing = [Choice::Check(7), Choice::Check(0)];
    assert!(rt; is_tested(&history, &missing, Err(LineFault::BadShape)));
    assert!(rt; is_tested(&history, &[], Err(LineFault::BadShape)));
    Ok(())
}

#[test]
fn faults_read_well(rt: HostRuntime) {
    let of_an_entry = CertFault {
        entry: Some(3),
        code: FaultCode::NotTop,
    };
    let ceiling = "entry 3: the choice is not the present ceiling of its process";
    assert!(rt; reads(rt.alloc(), of_an_entry, ceiling));
    let of_the_claim = CertFault {
        entry: None,
        code: FaultCode::LineDiffers,
    };
    let line = "the entries lead to another line";
    assert!(rt; reads(rt.alloc(), of_the_claim, line));
    let shape = "the line names what the history does not have";
    assert!(rt; reads(rt.alloc(), LineFault::BadShape, shape));
}
