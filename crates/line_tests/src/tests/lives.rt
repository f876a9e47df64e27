//! The machine that lets go: what it answers then.
use crate::tests::build::process;
use crate::tests::runs::{Told, seen};
use line_live::Live;
use line_names::{Body, Choice, ProcSet};
use line_tape::State;
use line_world::{Answer, Mode, Step, StepError};
use std::alloc::Global;
use std::test::Fail;

/// A step of two processes, without the body or the state that it has.
#[derive(Clone, Copy)]
pub enum Does {
    /// One sends to the other.
    Sends(u32, u32),
    /// What is next on the link from one to the other is delivered.
    Delivers(u32, u32),
    /// One takes a check.
    Checks(u32),
    /// One begins a round.
    Begins(u32),
    /// A check of one is found to be damaged.
    Damages(u32, u32),
    /// One is barred at a check.
    Bars(u32, u32),
    /// One failed, and both go on.
    Fails(u32),
}

/// What is told of a step.
pub type Row = (Does, Told);

/// The checks and the sends of a floor, by process, and its round.
pub type Shown = ([u32; 2], [u32; 2], u32);

/// A message that is received, a round, and a message that is in transit.
pub const FIRST_ROUND: [Row; 6] = [
    (Does::Sends(0, 1), Told::Sent(0, 0)),
    (Does::Delivers(0, 1), Told::Took(0, 0)),
    (Does::Begins(0), Told::Begun(1, 1)),
    (Does::Delivers(0, 1), Told::Marked(1)),
    (Does::Delivers(1, 0), Told::Marked(1)),
    (Does::Sends(0, 1), Told::Sent(0, 1)),
];

/// Each has the check of that round, and one message stands before it.
pub const FIRST_FLOOR: Shown = ([1, 1], [1, 0], 1);

/// A round that is given up where process 0 fails, which takes process 1 back to its check of the
/// first round, and the next one.
const THIRD_ROUND: [Row; 10] = [
    (Does::Delivers(0, 1), Told::Took(0, 1)),
    (Does::Sends(0, 1), Told::Sent(0, 2)),
    (Does::Checks(1), Told::Checked(2)),
    (Does::Begins(1), Told::Begun(3, 2)),
    (
        Does::Fails(0),
        Told::Recovered(Choice::Check(1), Choice::Check(1)),
    ),
    (Does::Sends(0, 1), Told::Sent(1, 1)),
    (Does::Delivers(0, 1), Told::Took(1, 1)),
    (Does::Begins(1), Told::Begun(2, 3)),
    (Does::Delivers(1, 0), Told::Marked(3)),
    (Does::Delivers(0, 1), Told::Marked(3)),
];

/// Each has its check of the third round, and two messages stand before it.
const THIRD_FLOOR: Shown = ([2, 2], [2, 0], 3);

/// What is told after that.
const AT_LAST: [Row; 2] = [
    (Does::Sends(0, 1), Told::Sent(1, 2)),
    (Does::Checks(1), Told::Checked(3)),
];

/// A send of one to the other.
fn send(from: u32, to: u32) -> Result<Step, Fail> {
    let (from, to) = (process(from)?, process(to)?);
    let body = Body::try_new(b"a")?;
    Ok(Step::Send { from, to, body })
}

/// A delivery from one to the other.
fn deliver(alloc: Global, from: u32, to: u32) -> Result<Step, Fail> {
    let (from, to) = (process(from)?, process(to)?);
    Ok(Step::Deliver {
        from,
        to,
        pick: 0,
        state: State::of(Vec::new(alloc)),
    })
}

/// The step that does this.
fn step_of(alloc: Global, does: Does) -> Result<Step, Fail> {
    match does {
        Does::Sends(from, to) => send(from, to),
        Does::Delivers(from, to) => deliver(alloc, from, to),
        Does::Checks(at) => {
            let at = process(at)?;
            let state = State::of(Vec::new(alloc));
            Ok(Step::Check { at, state })
        }
        Does::Begins(at) => {
            let at = process(at)?;
            let state = State::of(Vec::new(alloc));
            Ok(Step::Begin { at, state })
        }
        Does::Damages(at, check) => {
            let at = process(at)?;
            Ok(Step::Damage { at, check })
        }
        Does::Bars(at, check) => {
            let at = process(at)?;
            Ok(Step::Bar { at, check })
        }
        Does::Fails(p) => {
            let failed = ProcSet::empty().with(process(p)?);
            Ok(Step::Recover { failed })
        }
    }
}

/// The steps of rows.
fn steps_of(alloc: Global, rows: &[Row]) -> Result<Vec<Step>, Fail> {
    let mut steps = Vec::new(alloc);
    for row in rows {
        let step = step_of(alloc, row.0)?;
        steps.push(step)?;
    }
    Ok(steps)
}

/// Whether answers tell what rows have.
fn are_told(answers: &[Answer], rows: &[Row]) -> bool {
    if answers.len() != rows.len() {
        return false;
    }
    for i in 0..rows.len() {
        if seen(&answers[i]) != rows[i].1 {
            return false;
        }
    }
    true
}

/// Whether a machine tells what rows have of their steps, one after another.
fn tells(alloc: Global, live: &mut Live, rows: &[Row]) -> Result<bool, Fail> {
    let steps = steps_of(alloc, rows)?;
    let answers = live.run(alloc, &steps)?;
    Ok(are_told(&answers, rows))
}

/// Whether a machine has this floor.
pub fn has_floor(live: &Live, shown: &Shown) -> bool {
    let floor = live.floor();
    floor.checks() == shown.0.as_slice()
        && floor.counts() == shown.1.as_slice()
        && floor.round() == shown.2
}

/// Whether a machine tells what rows have, and then forgets a round and has this floor.
pub fn forgets(
    alloc: Global,
    live: &mut Live,
    rows: &[Row],
    round: u32,
    shown: &Shown,
) -> Result<bool, Fail> {
    let is_told = tells(alloc, live, rows)?;
    live.forget(alloc, round)?;
    Ok(is_told && has_floor(live, shown))
}

/// Whether a machine of which the first round was forgotten goes on to the third one.
pub fn goes_on(alloc: Global, live: &mut Live) -> Result<bool, Fail> {
    let is_forgotten = forgets(alloc, live, &THIRD_ROUND, 3, &THIRD_FLOOR)?;
    Ok(is_forgotten && tells(alloc, live, &AT_LAST)?)
}

#[test]
fn a_machine_that_forgets_counts_from_the_beginning(rt: HostRuntime) -> Result<(), Fail> {
    let mut live = Live::new(rt.alloc(), 2, Mode::Fifo)?;
    assert!(rt; forgets(rt.alloc(), &mut live, &FIRST_ROUND, 1, &FIRST_FLOOR)?);
    assert!(rt; goes_on(rt.alloc(), &mut live)?);
    Ok(())
}

/// A check, and a round, which process 0 begins by its second one.
const SECOND_CHECK: [Row; 4] = [
    (Does::Checks(0), Told::Checked(1)),
    (Does::Begins(0), Told::Begun(2, 1)),
    (Does::Delivers(0, 1), Told::Marked(1)),
    (Does::Delivers(1, 0), Told::Marked(1)),
];

/// Of process 0 a check stands before the floor, and no message of either.
const SECOND_FLOOR: Shown = ([2, 1], [0, 0], 1);

/// The checks up to the floor cannot be damaged, and process 0 cannot be barred at the one below.
const REFUSED: [Row; 10] = [
    (Does::Checks(0), Told::Checked(3)),
    (Does::Damages(0, 1), Told::Refused(StepError::InitialDamage)),
    (Does::Damages(0, 2), Told::Refused(StepError::InitialDamage)),
    (Does::Damages(1, 1), Told::Refused(StepError::InitialDamage)),
    (Does::Damages(0, 3), Told::Damaged(3)),
    (Does::Damages(0, 4), Told::Refused(StepError::NoSuchCheck)),
    (Does::Bars(0, 1), Told::Refused(StepError::NoSuchCheck)),
    (Does::Bars(0, 2), Told::Barred(2)),
    (Does::Bars(0, 3), Told::Refused(StepError::BarNotLower)),
    (
        Does::Fails(0),
        Told::Recovered(Choice::Check(2), Choice::Now),
    ),
];

/// Process 1 fails, which has its check at the floor alone, and takes process 0 back to its own.
const BACK: [Row; 5] = [
    (Does::Sends(1, 0), Told::Sent(0, 0)),
    (Does::Delivers(1, 0), Told::Took(0, 0)),
    (Does::Checks(0), Told::Checked(3)),
    (
        Does::Fails(1),
        Told::Recovered(Choice::Check(2), Choice::Check(1)),
    ),
    (Does::Sends(1, 0), Told::Sent(1, 0)),
];

/// Whether a machine that forgets the round of the second check tells what rows have then.
fn tells_above(alloc: Global, rows: &[Row]) -> Result<bool, Fail> {
    let mut live = Live::new(alloc, 2, Mode::Fifo)?;
    let is_forgotten = forgets(alloc, &mut live, &SECOND_CHECK, 1, &SECOND_FLOOR)?;
    Ok(is_forgotten && tells(alloc, &mut live, rows)?)
}

#[test]
fn a_floor_is_as_an_initial_state(rt: HostRuntime) -> Result<(), Fail> {
    assert!(rt; tells_above(rt.alloc(), &REFUSED)?);
    assert!(rt; tells_above(rt.alloc(), &BACK)?);
    Ok(())
}
