//! A worker that does its script.
ghost use Rattle.std.specs.Prelude.{◌≡◌, ◌<◌, ◌⊎◌, ◌∷◌, [], length, IfOk, IfErr, OnOk};
ghost use Rattle.line_posts.specs.Posts.{checked_alone, sent_by};
ghost use Rattle.line_workers.specs.Faults.{HasFailed, IsCause};
ghost use Rattle.line_workers.specs.Followed.{HasDone, HasReceivedFrom, HasReportedAll, WasLetOn};
ghost use Rattle.line_workers.specs.declared.orders.Order.TheVariants.{Send, Receive, Check};

use crate::gates::{Gate, passes};
use crate::orders::Order;
use crate::refusals::{DrillError, DrillWhy};
use line_names::{Body, ProcId};
use line_posts::{Post, ReceiveWhy, Received, SendWhy};
use line_tape::{MOST_EVENTS, State, TapeError};
use std::alloc::Global;
use std::thread::yield_now;

/// Sends, if the ring has a free slot.
fn send_once(post: &mut Post, to: ProcId, body: &Body) -> Result<(), DrillWhy>
    ensures ok { OnOk result (post.new ≡ sent_by post.old to body.now) }
    ensures cause { IfErr result (λ why. IsCause post.old (Send to body.now) post.new why) }
{
    match post.send(to, body.copy()) {
        Ok(_) => Ok(()),
        Err(refused) => match refused.why {
            SendWhy::RingFull => Err(DrillWhy::WaitedOut),
            SendWhy::OutOfMemory => Err(DrillWhy::OutOfMemory),
            SendWhy::NoSuchProcess => Err(DrillWhy::NoSuchProcess),
            SendWhy::ToSelf => Err(DrillWhy::ToSelf),
            SendWhy::TapeFull => Err(DrillWhy::TapeFull),
        },
    }
}

/// Receives, if there is a message. A marker is refused, and so is one that the tape has no room
/// for.
fn receive_once(alloc: Global, post: &mut Post, from: ProcId) -> Result<(), DrillWhy>
    ensures ok { OnOk result (HasReceivedFrom post.old from post.new) }
    ensures cause { IfErr result (λ why. IsCause post.old (Receive from) post.new why) }
{
    let is_full = post.tape().len() as usize >= MOST_EVENTS;
    match post.receive(from, State::of(Vec::new(alloc))) {
        Ok(Received::Message { .. }) => Ok(()),
        Ok(Received::Marked { .. }) => Err(DrillWhy::WrongMode),
        Err(why) => match why {
            ReceiveWhy::NothingThere => Err(DrillWhy::WaitedOut),
            ReceiveWhy::RingFull => Err(DrillWhy::WaitedOut),
            ReceiveWhy::OutOfMemory => Err(DrillWhy::OutOfMemory),
            ReceiveWhy::NoSuchProcess => Err(DrillWhy::NoSuchProcess),
            ReceiveWhy::ToSelf => Err(DrillWhy::ToSelf),
            ReceiveWhy::StateTooLong => unreachable!(),
            ReceiveWhy::TapeFull => Err(if is_full {
                DrillWhy::TapeFull
            } else {
                DrillWhy::WrongMode
            }),
        },
    }
}

/// Takes a check with these bytes.
fn check_once(alloc: Global, post: &mut Post, state: &State) -> Result<(), DrillWhy>
    ensures ok { OnOk result (post.new ≡ checked_alone post.old state.now) }
    ensures cause { IfErr result (λ why. IsCause post.old (Check state.now) post.new why) }
{
    let Ok(state) = state.copy(alloc) else {
        return Err(DrillWhy::OutOfMemory);
    };
    match post.check(state) {
        Ok(_) => Ok(()),
        Err(why) => match why {
            TapeError::OutOfMemory => Err(DrillWhy::OutOfMemory),
            TapeError::StateTooLong => Err(DrillWhy::StateTooLong),
            TapeError::TapeFull => Err(DrillWhy::TapeFull),
        },
    }
}

/// Tries an order; `WaitedOut` where it can be tried again.
fn try_order(alloc: Global, post: &mut Post, order: &Order) -> Result<(), DrillWhy>
    ensures done { OnOk result (HasDone (order.now ∷ []) post.old post.new) }
    ensures cause { IfErr result (λ why. IsCause post.old order.now post.new why) }
{
    match order {
        Order::Send { to, body } => send_once(post, *to, body),
        Order::Receive { from } => receive_once(alloc, post, *from),
        Order::Check { state } => check_once(alloc, post, state),
    }
}

/// Does an order, within so many turns, of which there is one at least.
fn obey(alloc: Global, post: &mut Post, order: &Order, turns: u64) -> Result<(), DrillWhy>
    ensures done { OnOk result (HasDone (order.now ∷ []) post.old post.new) }
    ensures cause { IfErr result (λ why. IsCause post.old order.now post.new why) }
{
    for _turn in 1..turns {
        match try_order(alloc, post, order) {
            Err(DrillWhy::WaitedOut) => yield_now(),
            answer => return answer,
        }
    }
    try_order(alloc, post, order)
}

/// Does an order once the gate lets it, and reports.
fn step<G: Gate>(
    alloc: Global,
    gate: &G,
    turns: u64,
    post: &mut Post,
    k: u32,
    order: &Order,
) -> Result<(), DrillWhy>
    ensures done { OnOk result (HasDone (order.now ∷ []) post.old post.new) }
    ensures let_on { OnOk result ((0 < turns) × G.lets gate.now post.old.number k post.old) }
    ensures reported { OnOk result (HasReportedAll post.new) }
    ensures cause { IfErr result (λ why. IsCause post.old order.now post.new why) }
{
    if !passes(gate, k, post, turns) {
        return Err(DrillWhy::HeldOut);
    }
    obey(alloc, post, order, turns)?;
    if post.report().is_err() {
        return Err(DrillWhy::OutOfMemory);
    }
    Ok(())
}

/// A worker does its script. It asks the gate before each order, and reports after it.
pub(crate) fn follow<G: Gate>(
    script: &Vec<Order>,
    gate: &G,
    turns: u64,
    post: Post,
) -> Result<Post, DrillError>
    ensures done { IfOk result (λ back. HasDone script.now.items post back) }
    ensures let_on { OnOk result (
        WasLetOn (G.lets gate.now) script.now.items (length script.now.items) post) }
    ensures reported { IfOk result (λ back.
        (script.now.items ≡ []) ⊎ HasReportedAll back) }
    ensures failed { IfErr result (λ e. HasFailed script.now.items post e) }
{
    let mut post = post;
    let alloc = *script.allocator();
    let p = post.number();
    for k in 0..script.len() {
        // The tape has an event for each order before this one.
        let _limit = post.tape().len();
        let number = k as u32;
        if let Err(why) = step(alloc, gate, turns, &mut post, number, &script[k]) {
            return Err(DrillError {
                worker: Some(p),
                order: Some(number),
                why,
            });
        }
    }
    Ok(post)
}
