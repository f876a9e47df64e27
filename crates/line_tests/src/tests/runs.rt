//! Steps in one run.
use crate::tests::reads;
use line_names::{Body, Choice, Line, ProcId};
use line_tape::State;
use line_world::{Answer, Mode, Reply, RunStopped, Step, StepError, World};
use std::alloc::Global;
use std::test::Fail;

/// What an answer tells. A message is told by its incarnation and its number.
#[derive(Clone, Copy, Debug, PartialEq, Eq)]
pub enum Told {
    /// A message was sent.
    Sent(u16, u32),
    /// A message was taken.
    Took(u16, u32),
    /// A marker of this round was taken.
    Marked(u32),
    /// A check was taken.
    Checked(u32),
    /// A check was taken that begins a round: the check, and the round.
    Begun(u32, u32),
    /// A check is marked as damaged.
    Damaged(u32),
    /// A process is barred at this check.
    Barred(u32),
    /// Two processes go on from these choices.
    Recovered(Choice, Choice),
    /// The step was refused.
    Refused(StepError),
    /// Anything else.
    Else,
}

/// What is told of a recovery to a line.
fn recovered(line: &Line) -> Told {
    match line.choices() {
        [first, second] => Told::Recovered(*first, *second),
        _ => Told::Else,
    }
}

/// What a reply tells.
fn told_by(reply: &Reply) -> Told {
    match reply {
        Reply::Sent { message } => Told::Sent(message.inc, message.number),
        Reply::Took { message, .. } => Told::Took(message.inc, message.number),
        Reply::Marked { round, .. } => Told::Marked(*round),
        Reply::Checked { check, .. } => Told::Checked(*check),
        Reply::Begun { check, round, .. } => Told::Begun(*check, *round),
        Reply::Damaged { check, .. } => Told::Damaged(*check),
        Reply::Barred { check, .. } => Told::Barred(*check),
        Reply::Recovered { plan, .. } => recovered(&plan.line),
        _ => Told::Else,
    }
}

/// What an answer tells.
pub fn seen(answer: &Answer) -> Told {
    match answer {
        Answer::Done(reply) => told_by(reply),
        Answer::Refused(why) => Told::Refused(*why),
    }
}

/// A message from process 0 to process 1 that is delivered, and a check after it.
fn a_message_and_a_check(alloc: Global) -> Result<Vec<Step>, Fail> {
    let (from, to) = (ProcId::try_new(0, 2)?, ProcId::try_new(1, 2)?);
    let body = Body::try_new(b"a")?;
    let send = Step::Send { from, to, body };
    let deliver = Step::Deliver {
        from,
        to,
        pick: 0,
        state: State::of(Vec::new(alloc)),
    };
    let state = State::of(Vec::new(alloc));
    Ok(vec![in alloc; send, deliver, Step::Check { at: to, state }]?)
}

/// How many answers there are, and the first three.
type Answered = (usize, [Option<Told>; 3]);

/// That of these answers.
fn counted(answers: &[Answer]) -> Answered {
    let first = answers.first().map(seen);
    (
        answers.len(),
        [first, answers.get(1).map(seen), answers.get(2).map(seen)],
    )
}

/// That of a run of these steps in a world.
fn answers_in(alloc: Global, world: &mut World, steps: &[Step]) -> Result<Answered, Fail> {
    let answers = world.run(alloc, steps)?;
    Ok(counted(&answers))
}

/// That of a run of these steps among so many processes that have done nothing yet.
fn answers_of(alloc: Global, n: u32, steps: &[Step]) -> Result<Answered, Fail> {
    let mut world = World::new(alloc, n, Mode::Fifo)?;
    answers_in(alloc, &mut world, steps)
}

#[test]
fn a_run_answers_each_step(rt: HostRuntime) -> Result<(), Fail> {
    let steps = a_message_and_a_check(rt.alloc())?;
    let all = [
        Some(Told::Sent(0, 0)),
        Some(Told::Took(0, 0)),
        Some(Told::Checked(1)),
    ];
    assert!(rt; answers_of(rt.alloc(), 2, &steps)? == (3, all));
    Ok(())
}

/// A check of a process, a mark on its initial state, which is refused, and a mark on that check.
fn a_refusal_in_the_middle(alloc: Global) -> Result<Vec<Step>, Fail> {
    let at = ProcId::try_new(0, 1)?;
    let state = State::of(Vec::new(alloc));
    let (initial, first) = (Step::Damage { at, check: 0 }, Step::Damage { at, check: 1 });
    Ok(vec![in alloc; Step::Check { at, state }, initial, first]?)
}

#[test]
fn a_run_goes_on_after_a_refusal(rt: HostRuntime) -> Result<(), Fail> {
    let steps = a_refusal_in_the_middle(rt.alloc())?;
    let all = [
        Some(Told::Checked(1)),
        Some(Told::Refused(StepError::InitialDamage)),
        Some(Told::Damaged(1)),
    ];
    assert!(rt; answers_of(rt.alloc(), 1, &steps)? == (3, all));
    Ok(())
}

#[test]
fn refusals_of_steps_read_well(rt: HostRuntime) {
    let alloc = rt.alloc();
    assert!(rt; reads(alloc, StepError::ToSelf, "a process has no link to itself"));
    assert!(rt; reads(alloc, StepError::LinkEmpty, "the link holds nothing"));
    let pick = "the link has nothing to take at that place";
    assert!(rt; reads(alloc, StepError::BadPick, pick));
    let mode = "links of this kind have no such step";
    assert!(rt; reads(alloc, StepError::WrongMode, mode));
}

#[test]
fn refusals_of_rounds_read_well(rt: HostRuntime) {
    let alloc = rt.alloc();
    let open = "the last round begun is not completed";
    assert!(rt; reads(alloc, StepError::RoundOpen, open));
    let turn = "no round is open of which the process has no check";
    assert!(rt; reads(alloc, StepError::NothingToTurn, turn));
    let rounds = "the last round begun has number 65535";
    assert!(rt; reads(alloc, StepError::NoMoreRounds, rounds));
    let incarnations = "a process that goes back has incarnation 65535";
    assert!(rt; reads(alloc, StepError::NoMoreIncarnations, incarnations));
}

#[test]
fn a_run_that_stopped_reads_well(rt: HostRuntime) {
    let stopped = RunStopped {
        done: Vec::new(rt.alloc()),
    };
    assert!(rt; reads(rt.alloc(), stopped, "out of memory after 0 steps"));
}
