//! What is left of marks and bars.
ghost use Rattle.std.specs.Prelude.{◌≡◌, ◌≢◌, ◌<◌, ◌≤◌, ◌+◌, ◌-◌, ◌^◌, ◌==◌, ◌&&◌, ◌||◌, ℕ};
ghost use Rattle.std.specs.Prelude.{false, IfOk, None, OnOk, length};
ghost use Rattle.line_names.specs.declared.limits.TheConstants.{MOST_PROCESSES};
ghost use Rattle.line_tape.specs.Survival.{is_damaged};
ghost use Rattle.line_tape.specs.Views.{bar_at, damaged_at};
ghost use Rattle.line_cuts.specs.Cuts.{cut_bar, cut_marks, floor_check, lost_checks};
ghost use Rattle.line_cuts.specs.Marks.{is_left_damaged, AreSameMarks};

use crate::floors::OwnedFloor;
use line_names::ProcId;
use line_tape::{BarError, MarkError, Marks};
use std::alloc::{AllocError, Global};

/// Marks a check that has no mark yet.
fn make_mark(cut: &mut Marks, p: ProcId, check: u32) -> Result<(), AllocError>
    requires process { p < length cut.old.damaged }
    requires some { 0 < check }
    requires new { is_damaged cut.old p check ≡ false }
    ensures count { length cut.new.damaged ≡ length cut.old.damaged }
    ensures bars { cut.new.bars ≡ cut.old.bars }
    ensures marked { OnOk result ((q c : ℕ) → is_damaged cut.new q c
        ≡ (is_damaged cut.old q c || ((q == p) && (check == c)))) }
{
    match cut.mark(p, check) {
        Ok(()) => Ok(()),
        Err(MarkError::OutOfMemory) => Err(AllocError),
        Err(MarkError::InitialDamage) => unreachable!(),
        Err(MarkError::AlreadyDamaged) => unreachable!(),
    }
}

/// Marks what is left of the next check of a process after some, if it has a mark.
fn cut_mark(
    marks: &Marks,
    floor: &OwnedFloor,
    p: ProcId,
    last: u32,
    cut: &mut Marks,
) -> Result<(), AllocError>
    requires process { p < length cut.old.damaged }
    requires later { floor_check floor.now p ≤ last }
    requires few { last < 2 ^ 32 - 1 }
    requires marked { (c : ℕ) → is_damaged cut.old p c
        ≡ is_left_damaged marks.now floor.now p last c }
    ensures count { length cut.new.damaged ≡ length cut.old.damaged }
    ensures bars { cut.new.bars ≡ cut.old.bars }
    ensures marked { OnOk result ((c : ℕ) → is_damaged cut.new p c
        ≡ is_left_damaged marks.now floor.now p (last + 1) c) }
    ensures others { OnOk result ((q c : ℕ) → q ≢ p
        → is_damaged cut.new q c ≡ is_damaged cut.old q c) }
{
    let check = last + 1;
    if !marks.has(p, check) {
        return Ok(());
    }
    let lost = floor.checks_lost(p);
    make_mark(cut, p, check - lost)
}

/// Marks what is left of the damaged checks of a process.
fn cut_damaged(
    marks: &Marks,
    floor: &OwnedFloor,
    p: ProcId,
    cut: &mut Marks,
) -> Result<(), AllocError>
    requires process { p < length marks.now.damaged }
    requires count { length cut.old.damaged ≡ length marks.now.damaged }
    requires none { (c : ℕ) → is_damaged cut.old p c ≡ false }
    ensures count { length cut.new.damaged ≡ length cut.old.damaged }
    ensures bars { cut.new.bars ≡ cut.old.bars }
    ensures marked { OnOk result ((c : ℕ) → is_damaged cut.new p c
        ≡ is_damaged (cut_marks floor.now marks.now) p c) }
    ensures others { OnOk result ((q c : ℕ) → q ≢ p
        → is_damaged cut.new q c ≡ is_damaged cut.old q c) }
{
    match marks.latest(p.get() as usize) {
        Some(latest) => {
            for check in floor.check(p)..latest {
                cut_mark(marks, floor, p, check, cut)?;
            }
            Ok(())
        }
        None => Ok(()),
    }
}

/// Bars a process at what is left of the check that it is barred at.
fn cut_bar(marks: &Marks, floor: &OwnedFloor, p: ProcId, cut: &mut Marks)
    requires process { p < length cut.old.damaged }
    requires place { p < length cut.old.bars }
    requires none { bar_at cut.old p ≡ None }
    ensures damaged { cut.new.damaged ≡ cut.old.damaged }
    ensures count { length cut.new.bars ≡ length cut.old.bars }
    ensures bar { bar_at cut.new p ≡ bar_at (cut_marks floor.now marks.now) p }
    ensures others { (q : ℕ) → q ≢ p → bar_at cut.new q ≡ bar_at cut.old q }
{
    match marks.bar_of(p) {
        Some(bar) => match cut.bar(p, bar.saturating_sub(floor.checks_lost(p))) {
            Ok(()) => {}
            Err(BarError::NoSuchCheck) => unreachable!(),
            Err(BarError::BarNotLower) => unreachable!(),
        },
        None => {}
    }
}

/// What is left of marks and bars where a history is cut at a floor: the marks of the checks after
/// it, and each bar.
///
/// The marks are made in the order of the checks. It asks for a mark of each check after the floor
/// up to the latest one that is damaged.
pub fn cut_marks(alloc: Global, marks: &Marks, floor: &OwnedFloor) -> Result<Marks, AllocError>
    requires { length marks.now.damaged ≤ MOST_PROCESSES }
    ensures { IfOk result (λ cut. AreSameMarks cut (cut_marks floor.now marks.now)) }
{
    let n = marks.processes() as u32;
    let mut cut = Marks::new(alloc, n)?;
    for q in 0..n {
        let p = ProcId::try_new(q, n).unwrap();
        cut_damaged(marks, floor, p, &mut cut)?;
        cut_bar(marks, floor, p, &mut cut);
    }
    Ok(cut)
}
