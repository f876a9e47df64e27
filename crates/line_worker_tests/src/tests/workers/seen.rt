//! What calls answered, and what was gathered.
use line_names::{Choice, MsgName, ProcId};
use line_plan::{Plan, PlanError};
use line_posts::{Gathered, ReceiveWhy, Received, ReportError, Reported, SendRefused, SendWhy};
use line_tape::History;

/// Whether it is the first message of process 0.
pub fn is_first(name: &MsgName) -> bool {
    name.from.get() == 0 && name.inc == 0 && name.number == 0
}

/// Whether it is the first message of process 0 under its next incarnation.
fn is_first_again(name: &MsgName) -> bool {
    name.from.get() == 0 && name.inc == 1 && name.number == 0
}

/// Whether the first message of process 0 was sent.
pub fn is_first_sent(seen: &Result<MsgName, SendRefused>) -> bool {
    match seen {
        Ok(name) => is_first(name),
        Err(_) => false,
    }
}

/// Whether the first message of process 0 was sent under its next incarnation.
pub fn is_sent(seen: &Result<MsgName, SendRefused>) -> bool {
    match seen {
        Ok(name) => is_first_again(name),
        Err(_) => false,
    }
}

/// Whether no slot was there, and the body came back.
pub fn is_handed_back(seen: &Result<MsgName, SendRefused>, body: &[u8]) -> bool {
    match seen {
        Ok(_) => false,
        Err(refused) => refused.why == SendWhy::RingFull && refused.body.bytes() == body,
    }
}

/// Whether the first message of process 0 was received with this body.
pub fn is_taken(seen: &Result<Received, ReceiveWhy>, sent: &[u8]) -> bool {
    match seen {
        Ok(Received::Message { name, body }) => is_first(name) && body.bytes() == sent,
        _ => false,
    }
}

/// Whether that message was received under its next incarnation, with its body.
pub fn is_received(seen: &Result<Received, ReceiveWhy>) -> bool {
    match seen {
        Ok(Received::Message { name, body }) => is_first_again(name)
            && body.bytes() == b"b".as_slice(),
        _ => false,
    }
}

/// Whether nothing was there.
pub fn is_nothing(seen: &Result<Received, ReceiveWhy>) -> bool {
    match seen {
        Err(ReceiveWhy::NothingThere) => true,
        _ => false,
    }
}

/// Whether so many events were reported, and so many are left.
pub fn is_reported(seen: &Result<Reported, ReportError>, sent: u32, left: u32) -> bool {
    match seen {
        Ok(reported) => reported.sent == sent && reported.left == left,
        Err(_) => false,
    }
}

/// Whether there is a plan with this line, and with so many entries, sweeps and replays.
pub fn is_planned(
    plan: &Result<Plan, PlanError>,
    line: &[Choice],
    entries: usize,
    sweeps: u32,
    replays: usize,
) -> bool {
    match plan {
        Ok(plan) => {
            plan.line.choices() == line
                && plan.certificate.len() == entries
                && plan.sweeps == sweeps
                && plan.replays.len() == replays
        }
        Err(_) => false,
    }
}

/// Whether both go on from where they stand.
pub fn is_whole(gathered: &Gathered) -> bool {
    is_planned(&gathered.plan(), &[Choice::Now, Choice::Now], 0, 1, 0)
}

/// Whether a tape of a history has so many events, sends and checks.
pub fn has_tape(history: &History, p: u32, events: u32, sends: u32, checks: u32) -> bool {
    match ProcId::try_new(p, history.n()) {
        Ok(p) => {
            let tape = history.tape(p);
            tape.len() == events && tape.sends() == sends && tape.checks() == checks
        }
        Err(_) => false,
    }
}

/// Whether the tape has so many events, sends and checks.
pub fn is_tape(gathered: &Gathered, p: u32, events: u32, sends: u32, checks: u32) -> bool {
    has_tape(gathered.history(), p, events, sends, checks)
}

/// Whether each of `n` has so many checks.
pub fn have_checks(gathered: &Gathered, n: u32, checks: u32) -> bool {
    let history = gathered.history();
    (0..n).all(|p| match ProcId::try_new(p, history.n()) {
        Ok(p) => history.tape(p).checks() == checks,
        Err(_) => false,
    })
}
