//! What steps with messages, and checks without a round, do to the tapes, the links and the open
//! round.
//!
//! All room is made first: if memory runs out, the tapes and the marks are as they were, and the
//! links hold what they held.
ghost use Rattle.std.specs.Prelude.{◌≡◌, ◌≢◌, ◌<◌, ◌≤◌, ◌+◌, ◌++◌, ◌∷◌, [], length, IfOk, OnOk};
ghost use Rattle.std.specs.Prelude.{OnErr, None};
ghost use Rattle.line_tape.specs.declared.events.Event.TheVariants.{Send as SendEvent};
ghost use Rattle.line_tape.specs.declared.events.Event.TheVariants.{Recv as RecvEvent};
ghost use Rattle.line_tape.specs.declared.events.Event.TheVariants.{Check as CheckEvent};
ghost use Rattle.line_tape.specs.declared.items.Item.TheVariants.{Message};
ghost use Rattle.line_tape.specs.Event.{Holds};
ghost use Rattle.line_tape.specs.History.{tape_at, incarnation_at, with_event};
ghost use Rattle.line_tape.specs.Spent.{next_name};
ghost use Rattle.line_catalogue.specs.Views.{catalogue_room_at};
ghost use Rattle.line_tape.specs.declared.modes.Mode.TheVariants.{Fifo};
ghost use Rattle.line_moves.specs.Moves.{next_check};
ghost use Rattle.line_moves.specs.Openings.{open_number, IsOnlyOpen};
ghost use Rattle.line_moves.specs.Queues.{taken_off};
ghost use Rattle.line_rounds.specs.Tables.{between, with_list, IsTable};

use crate::links::Links;
use crate::openings::{OpenRound, note};
use line_catalogue::Catalogue;
use line_names::{MOST_BODY, MsgName, ProcId};
use line_tape::{Event, Item, MOST_EVENTS, MOST_STATE, State};
use std::alloc::AllocError;

/// Sends a message and returns its name: the event goes on the sender's tape, and the item to the
/// end of the link.
///
/// It costs a push on each and a copy of the body, and what `Catalogue::reserve` costs: constant
/// time, except that now and then it looks at the messages sent and received since it last did.
pub fn put_message(
    catalogue: &mut Catalogue,
    links: &mut Links,
    from: ProcId,
    to: ProcId,
    body: &[u8],
) -> Result<MsgName, AllocError>
    requires shape { IsTable (length catalogue.old.processes) links.old }
    requires from { from < length catalogue.old.processes }
    requires to { to < length catalogue.old.processes }
    requires short { length body.now ≤ MOST_BODY }
    requires few { length (tape_at catalogue.old.processes from) < MOST_EVENTS }
    ensures name { IfOk result (λ message. message ≡ next_name catalogue.old.processes from) }
    ensures sent { OnOk result (catalogue.new.processes
        ≡ with_event catalogue.old.processes from
        (SendEvent to (incarnation_at catalogue.old.processes from) body.now)) }
    ensures put { OnOk result (links.new
        ≡ with_list links.old from to
        (between links.old from to ++ Message (next_name catalogue.old.processes from) ∷ [])) }
    ensures err { OnErr result (catalogue.new.processes ≡ catalogue.old.processes) }
    ensures marks { catalogue.new.marks ≡ catalogue.old.marks }
    ensures kept { OnErr result (links.new ≡ links.old) }
{
    catalogue.reserve(from, 1)?;
    let inc = catalogue.history().incarnation(from);
    let number = catalogue.history().tape(from).sends();
    links.push(from, to, Item::Message(MsgName { from, inc, number }))?;
    catalogue.append_send(from, to, inc, body);
    Ok(MsgName { from, inc, number })
}

/// Takes a message where links keep their order: the event goes on the receiver's tape, the item
/// comes off the link, and the open round notes the message.
///
/// It costs a push for each, and what `Catalogue::reserve` costs.
pub fn take_message(
    catalogue: &mut Catalogue,
    links: &mut Links,
    running: &mut Option<OpenRound>,
    from: ProcId,
    to: ProcId,
    message: &MsgName,
) -> Result<(), AllocError>
    requires shape { IsTable (length catalogue.old.processes) links.old }
    requires from { from < length catalogue.old.processes }
    requires to { to < length catalogue.old.processes }
    requires other { from ≢ to }
    requires named { message.now.from ≡ from }
    requires held { Holds (tape_at catalogue.old.processes message.now.from) message.now.inc
        message.now.number }
    requires few { length (tape_at catalogue.old.processes to) < MOST_EVENTS }
    requires opening { IsOnlyOpen Fifo catalogue.old.processes running.old }
    ensures taken { OnOk result
        (catalogue.new.processes ≡ with_event catalogue.old.processes to (RecvEvent message.now)) }
    ensures off { OnOk result (links.new ≡ taken_off Fifo links.old from to) }
    ensures opening { IsOnlyOpen Fifo catalogue.new.processes running.new }
    ensures number { open_number running.new ≡ open_number running.old }
    ensures err { OnErr result (catalogue.new.processes ≡ catalogue.old.processes) }
    ensures marks { catalogue.new.marks ≡ catalogue.old.marks }
    ensures kept { OnErr result (links.new ≡ links.old) }
{
    catalogue.reserve(to, 1)?;
    note(running, catalogue.history(), to, message)?;
    links.drop_first(from, to);
    add_receipt(catalogue, to, message);
    Ok(())
}

/// Takes the copy of a message that forces no check: the event goes on the receiver's tape, and the
/// copy stays on its link.
///
/// It costs a push, and what `Catalogue::reserve` costs.
pub fn take_copy(catalogue: &mut Catalogue, to: ProcId, message: &MsgName) -> Result<(), AllocError>
    requires to { to < length catalogue.old.processes }
    requires from { message.now.from < length catalogue.old.processes }
    requires held { Holds (tape_at catalogue.old.processes message.now.from) message.now.inc
        message.now.number }
    requires few { length (tape_at catalogue.old.processes to) < MOST_EVENTS }
    ensures taken { OnOk result
        (catalogue.new.processes ≡ with_event catalogue.old.processes to (RecvEvent message.now)) }
    ensures err { OnErr result (catalogue.new.processes ≡ catalogue.old.processes) }
    ensures marks { catalogue.new.marks ≡ catalogue.old.marks }
{
    catalogue.reserve(to, 1)?;
    add_receipt(catalogue, to, message);
    Ok(())
}

/// Adds the receipt of a message to a tape that has room for it. It takes no memory.
pub fn add_receipt(catalogue: &mut Catalogue, to: ProcId, message: &MsgName)
    requires to { to < length catalogue.old.processes }
    requires from { message.now.from < length catalogue.old.processes }
    requires held { Holds (tape_at catalogue.old.processes message.now.from) message.now.inc
        message.now.number }
    requires few { length (tape_at catalogue.old.processes to) < MOST_EVENTS }
    requires room { 0 < catalogue_room_at catalogue.old to }
    ensures taken { catalogue.new.processes
        ≡ with_event catalogue.old.processes to (RecvEvent message.now) }
    ensures marks { catalogue.new.marks ≡ catalogue.old.marks }
{
    let _history = catalogue.history();
    catalogue.append_receipt(to, message);
}

/// Adds a check without a round, and returns its index. No link changes.
pub fn add_check(catalogue: &mut Catalogue, at: ProcId, state: State) -> Result<u32, AllocError>
    requires at { at < length catalogue.old.processes }
    requires short { length state ≤ MOST_STATE }
    requires few { length (tape_at catalogue.old.processes at) < MOST_EVENTS }
    ensures check { IfOk result (λ check. check ≡ next_check catalogue.old.processes at) }
    ensures checked { OnOk result
        (catalogue.new.processes ≡ with_event catalogue.old.processes at (CheckEvent state None)) }
    ensures err { OnErr result (catalogue.new.processes ≡ catalogue.old.processes) }
    ensures marks { catalogue.new.marks ≡ catalogue.old.marks }
{
    catalogue.reserve(at, 1)?;
    let check = catalogue.history().tape(at).checks() + 1;
    catalogue.append(at, Event::Check { state, round: None });
    Ok(check)
}
