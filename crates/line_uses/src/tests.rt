//! That the callers do what they say.
use crate::{
    answers_to, certificate_text, is_latest, is_right, plan_exchange, plan_history, replies_to,
    run_first, run_next, run_world,
};
use recline::check::{AnswerRef, Replay, Start};
use recline::plan::Plan;
use recline::service::Outcome;
use recline::workers::Routine;
use recline::world::{Answer, Mode, Reply, Step};
use recline::{Body, Choice, Event, History, Marks, MsgName, ProcId, ProcIdError, ProcSet, State};
use std::alloc::Global;
use std::sync::Wait;
use std::test::Fail;
use std::thread::Threads;

/// One of two processes.
fn process(p: u32) -> Result<ProcId, ProcIdError> {
    ProcId::try_new(p, 2)
}

/// Process 0 sends a message.
fn sends(history: &mut History) -> Result<(), Fail> {
    let (to, body) = (process(1)?, Body::try_new(b"hello")?);
    history.push(process(0)?, Event::Send { to, inc: 0, body })?;
    Ok(())
}

/// Process 1 receives it, and takes a checkpoint.
fn receives(alloc: Global, history: &mut History) -> Result<(), Fail> {
    let (from, inc, number) = (process(0)?, 0, 0);
    let message = MsgName { from, inc, number };
    history.push(process(1)?, Event::Recv { message })?;
    let state = State::of(Vec::new(alloc));
    history.push(process(1)?, Event::Check { state, round: None })?;
    Ok(())
}

/// Two processes, and a message from the one to the other.
fn one_message(alloc: Global) -> Result<History, Fail> {
    let mut history = History::new(alloc, 2)?;
    sends(&mut history)?;
    receives(alloc, &mut history)?;
    Ok(history)
}

/// The plan after a failure of process 0, and whether its certificate is right.
fn plan_and_judge(alloc: Global, history: &History) -> Result<(Plan, bool), Fail> {
    let marks = Marks::new(alloc, history.n())?;
    let failed = ProcSet::empty().with(process(0)?);
    let plan = plan_history(alloc, history, &marks, &failed)?;
    let judged = is_latest(history, &marks, &failed, &plan);
    Ok((plan, judged))
}

#[test]
fn who_received_what_was_not_sent_goes_back(rt: HostRuntime) -> Result<(), Fail> {
    let history = one_message(rt.alloc())?;
    let (plan, judged) = plan_and_judge(rt.alloc(), &history)?;
    assert_eq!(rt;
        plan.line.choices(),
        [Choice::Check(0), Choice::Check(0)].as_slice()
    );
    assert_eq!(rt; plan.certificate.len(), 2);
    assert!(rt; judged);
    Ok(())
}

/// The check text of that plan.
fn text_of(alloc: Global, history: &History) -> Result<Vec<u8>, Fail> {
    let marks = Marks::new(alloc, history.n())?;
    let failed = ProcSet::empty().with(process(0)?);
    let plan = plan_history(alloc, history, &marks, &failed)?;
    Ok(certificate_text(alloc, history, &marks, &failed, &plan)?)
}

#[test]
fn a_certificate_is_a_text(rt: HostRuntime) -> Result<(), Fail> {
    let history = one_message(rt.alloc())?;
    let text = text_of(rt.alloc(), &history)?;
    assert_eq!(rt;
        text.as_slice(),
        b"history,1,2\ntape,0,0\nsend,1,0,68656c6c6f\ntape,1,0\nrecv,0,0,0\ncheck,,-\n\
            failed,0\nline,0,0\npass,1,now,0,0,0\npass,1,1,0,0,0\nend\n"
            .as_slice()
    );
    Ok(())
}

/// Where two processes go on after a failure of process 1: the one from where it stands, the other
/// from its initial state, in this incarnation.
fn two_starts(alloc: Global, inc: u16) -> Result<Vec<Start>, Fail> {
    let state = State::of(Vec::new(alloc));
    let mut starts = Vec::with_capacity(alloc, 2)?;
    starts.push(Start {
        inc: 0,
        state: None,
    })?;
    starts.push(Start {
        inc,
        state: Some(state),
    })?;
    Ok(starts)
}

/// The message that process 0 sends again, or nothing.
fn replays(alloc: Global, is_sent_again: bool) -> Result<Vec<Replay>, Fail> {
    let (from, to, body) = (process(0)?, process(1)?, Body::try_new(b"hello")?);
    let message = MsgName {
        from,
        inc: 0,
        number: 0,
    };
    let mut replays = Vec::with_capacity(alloc, 1)?;
    if is_sent_again {
        replays.push(Replay {
            message,
            to,
            place: 0,
            body,
        })?;
    }
    Ok(replays)
}

/// Whether this is the right answer where process 0 has sent a message and process 1 failed: the
/// plan's line, process 1 in this incarnation, and the message sent again or not.
fn judge_answer(alloc: Global, inc: u16, is_sent_again: bool) -> Result<bool, Fail> {
    let mut history = History::new(alloc, 2)?;
    sends(&mut history)?;
    let marks = Marks::new(alloc, history.n())?;
    let failed = ProcSet::empty().with(process(1)?);
    let plan = plan_history(alloc, &history, &marks, &failed)?;
    let starts = two_starts(alloc, inc)?;
    let replays = replays(alloc, is_sent_again)?;
    let answer = AnswerRef {
        line: &plan.line,
        certificate: plan.certificate.as_slice(),
        starts: starts.as_slice(),
        replays: replays.as_slice(),
    };
    Ok(is_right(alloc, &history, &marks, &failed, &answer)?)
}

#[test]
fn whole_answers_are_judged(rt: HostRuntime) -> Result<(), Fail> {
    let right = judge_answer(rt.alloc(), 1, true)?;
    let not_restarted = judge_answer(rt.alloc(), 0, true)?;
    let not_sent = judge_answer(rt.alloc(), 1, false)?;
    assert_eq!(rt; [right, not_restarted, not_sent], [true, false, false]);
    Ok(())
}

/// What a world of two processes answers to a message and a failure.
fn answers(alloc: Global) -> Result<Vec<Answer>, Fail> {
    let (from, to) = (process(0)?, process(1)?);
    let body = Body::try_new(b"hello")?;
    let failed = ProcSet::empty().with(from);
    let mut steps = Vec::with_capacity(alloc, 2)?;
    steps.push(Step::Send { from, to, body })?;
    steps.push(Step::Recover { failed })?;
    let (_world, answers) = run_world(alloc, 2, Mode::Fifo, &steps)?;
    Ok(answers)
}

#[test]
fn a_world_answers_each_step(rt: HostRuntime) -> Result<(), Fail> {
    let answers = answers(rt.alloc())?;
    assert!(rt; matches!(answers.get(0), Some(Answer::Done(Reply::Sent { .. }))));
    assert!(rt; matches!(answers.get(1), Some(Answer::Done(Reply::Recovered { .. }))));
    assert_eq!(rt; answers.len(), 2);
    Ok(())
}

#[test]
fn a_script_is_answered(rt: HostRuntime) -> Result<(), Fail> {
    let script = Vec::from_slice(rt.alloc(), b"world,1,2,fifo\nsend,0,1,68656c6c6f\n")?;
    let replies = replies_to(rt.alloc(), script)?;
    assert_eq!(rt; replies.bytes(), b"sent,0,0,0\n".as_slice());
    Ok(())
}

#[test]
fn each_record_is_answered(rt: HostRuntime) -> Result<(), Fail> {
    let records = Vec::from_slice(rt.alloc(), b"world,1,2,fifo\nsned\nsend,0,1,61\n")?;
    let (answers, outcome) = answers_to(rt.alloc(), records)?;
    assert_eq!(rt;
        answers.bytes(),
        b"\nfault,32,BadRecord\n\nsent,0,0,0\n\n".as_slice()
    );
    assert_eq!(rt; outcome, Outcome::Faulted);
    Ok(())
}

#[test]
fn what_workers_did_is_planned(rt: HostRuntime) -> Result<(), Fail> {
    let (gathered, plan) = plan_exchange(&rt, rt.alloc(), 3, 5)?;
    assert_eq!(rt; gathered.history().n(), 3);
    assert_eq!(rt; plan.line.choices(), [Choice::Now; 3].as_slice());
    Ok(())
}

/// How many checks each of two workers has that turned five times, of which worker 1 then failed,
/// and five times more.
fn checks_of_two<R: Threads + Wait + Sync>(rt: &R, alloc: Global) -> Result<(u32, u32), Fail> {
    let work = Routine::new(alloc, 5);
    let failed = ProcSet::empty().with(process(1)?);
    let gathered = run_first(rt, alloc, 2, &work, failed)?;
    let (_plan, gathered) = run_next(rt, &work, gathered)?;
    let history = gathered.history();
    let first = history.tape(ProcId::try_new(0, history.n())?).checks();
    let second = history.tape(ProcId::try_new(1, history.n())?).checks();
    Ok((first, second))
}

#[test]
fn workers_go_on_after_a_failure(rt: HostRuntime) -> Result<(), Fail> {
    assert_eq!(rt; checks_of_two(&rt, rt.alloc())?, (10, 10));
    Ok(())
}
