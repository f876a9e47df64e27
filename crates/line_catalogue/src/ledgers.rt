//! A history, and beside it what is left to look at, so that little tells what is in transit.
ghost use Rattle.std.specs.Prelude.{◌≡◌, ◌≢◌, ◌<◌, ◌≤◌, ◌+◌, ℕ, length};
ghost use Rattle.std.specs.Prelude.{replicate, IfOk, IfSome, IsOk, OnOk, true};
ghost use Rattle.line_names.specs.declared.choices.Choice.{Choice};
ghost use Rattle.line_tape.specs.Event.{HasLongState, NamesBelow};
ghost use Rattle.line_tape.specs.History.{tape_at, with_event};
ghost use Rattle.line_tape.specs.Line.{IsConsistent, IsLine};
ghost use Rattle.line_tape.specs.Restart.{restarted_history, HaveFurther};
ghost use Rattle.line_tape.specs.Transit.{in_transit};
ghost use Rattle.line_tape.specs.Views.{room_at};
ghost use Rattle.line_catalogue.specs.Left.{AreClosed, AreLeft, AreStrangers};

mod appends;
mod starts;

use crate::kept_lines::KeptLine;
use crate::settlings::{Settled, find_settled};
use crate::transits::find_transit;
use line_names::{Choice, Line, MsgName, ProcId, ProcSet};
use line_tape::{Event, History, MOST_EVENTS};
use starts::{clear_starts, move_places, move_starts, no_starts};
use std::alloc::{AllocError, Global};
use std::marker::Model;

// How many events come at least between two times that the ledger settles, so that what a settling
// takes but for the events is little beside them.
const EVENTS_BETWEEN: usize = 4096;

// How many events come for each message that a settling kept before the next one, which looks at
// each of them anew. Where a line was kept, or a settling was refused memory, one comes for each.
const EVENTS_FOR_A_MESSAGE: usize = 2;

// A ledger settles so many events later where events are added and no room is made. So who makes
// room for each few events settles as room is made, and takes no memory as events are added.
const EVENTS_LATER: usize = 16;

/// The line of where each process stands.
fn present_line(history: &History) -> Line
    ensures line { IsLine history.now.processes result }
    ensures now { result ≡ replicate (length history.now.processes) Choice.Now }
{
    let n = history.n();
    let mut line = Line::new();
    for _q in 0..n {
        line.push(Choice::Now);
    }
    line
}

/// After how many further events a ledger settles where it keeps a line: after as many as it would
/// look at now, which so have paid for it, and some more.
fn events_to_wait(history: &History, kept: KeptLine<'_>) -> usize
    requires { length kept.starts.now ≡ length history.now.processes }
{
    let n = history.n();
    let mut events = kept.left.len().saturating_add(EVENTS_BETWEEN);
    for q in 0..n {
        let p = ProcId::try_new(q, n).unwrap();
        let start = kept.starts[q as usize];
        let since = history.tape(p).sends().saturating_sub(start);
        events = events.saturating_add(since as usize);
    }
    events
}

/// A history, how many sends and events each process had before a line, and what was in transit
/// there.
///
/// These messages, by sender and then by number, are what was sent before that line and is not
/// received before it, and no others; so no other send before it has to be looked at again, and no
/// receipt after it. None of these changes by an event. Now and then, as room is made, or as an
/// event is added long after that, the ledger settles: it moves that line to where each process
/// stands, so that what is to be looked at does not grow with the history.
#[derive(Drop)]
pub struct Ledger {
    history: History,
    starts: Vec<u32>,
    places: Vec<u32>,
    left: Vec<MsgName>,
    // Whether the line is closed: all that was received before it is known to be sent before it.
    // Then no message that was sent after it was received before it.
    closed: bool,
    alloc: Global,
    // How many further events come before the ledger settles, though no room is made for them.
    due: usize,
    // How many sends it may look at then: by then as many events have paid for that.
    credit: usize,
}

impl Model for Ledger {
    ghost use Rattle.line_tape.specs.Views.{HistoryView};

    ghost Value = { HistoryView };

    ghost use Rattle.line_catalogue.specs.Left.{IsLedger};

    ghost view = { λ l. l.history };

    ghost invariant = { λ l. IsLedger l.history.processes l.starts.items l.places.items
        l.left.items l.closed };
}

impl Ledger {
    /// A history, with each of its sends still to be looked at.
    pub fn of(alloc: Global, history: History) -> Result<Ledger, AllocError>
        ensures { IfOk result (λ ledger. ledger ≡ history) }
    {
        let starts = no_starts(alloc, history.n())?;
        let places = no_starts(alloc, history.n())?;
        let mut ledger = Ledger {
            history,
            starts,
            places,
            left: Vec::new(alloc),
            closed: true,
            alloc,
            due: EVENTS_BETWEEN + EVENTS_LATER,
            credit: 0,
        };
        ledger.credit = events_to_wait(&ledger.history, ledger.kept());
        Ok(ledger)
    }

    /// The history.
    pub fn history(&self) -> &History
        ensures { result.now ≡ self.now }
    {
        &self.history
    }

    /// The line that it keeps.
    fn kept(&self) -> KeptLine<'_>
        ensures left { AreLeft self.now.processes result.starts.now result.places.now
            result.left.now }
        ensures closed { result.closed ≡ true
            → AreClosed self.now.processes result.starts.now result.places.now }
    {
        KeptLine {
            starts: self.starts.as_slice(),
            places: self.places.as_slice(),
            left: self.left.as_slice(),
            closed: self.closed,
        }
    }

    /// Has the ledger settle once as many events came as it would look at now.
    fn wait(&mut self)
        ensures { self.new ≡ self.old }
    {
        let wait = events_to_wait(&self.history, self.kept());
        self.due = wait.saturating_add(EVENTS_LATER);
        self.credit = wait;
    }

    /// Keeps the messages that are in transit now, so that no send before the present line is
    /// looked at again, but for the senders of whose sends more than an eighth are in transit, and
    /// for those whose sends are more than it may look at. It is postponed where memory for it is
    /// refused.
    ///
    /// It is a function of its own, since a line is a large value and events come far more often.
    #[inline(never)]
    fn settle(&mut self)
        ensures { self.new ≡ self.old }
    {
        let line = present_line(&self.history);
        let mut credit = self.credit;
        let found = find_settled(&self.history, self.kept(), self.alloc, &line, &mut credit);
        match found {
            Ok(settled) => {
                let Settled { starts, left: kept } = settled;
                move_places(&self.history, &line, &mut self.places);
                self.starts = starts;
                self.left = kept;
                self.closed = false;
                let paid = self.left.len().saturating_mul(EVENTS_FOR_A_MESSAGE);
                let wait = paid.saturating_add(EVENTS_BETWEEN);
                self.due = wait.saturating_add(EVENTS_LATER);
                self.credit = credit.saturating_add(wait);
            }
            Err(AllocError) => self.wait(),
        }
    }

    /// Makes room for so many further events of a process.
    ///
    /// Now and then it settles. That looks at what is kept, which is less than the wait; at no more
    /// sends than events came, all settlings taken together; and at the events since the last one,
    /// where they are few beside both. The first time it looks at a history that was handed
    /// in.
    pub fn reserve(&mut self, p: ProcId, k: u32) -> Result<(), AllocError>
        requires { p < length self.old.processes }
        ensures same { self.new.processes ≡ self.old.processes }
        ensures ok { OnOk result (k ≤ room_at self.new p) }
        ensures succeeds { k ≤ room_at self.old p → IsOk result }
        ensures room { room_at self.old p ≤ room_at self.new p }
        ensures others { (q : ℕ) → q ≢ p → room_at self.new q ≡ room_at self.old q }
    {
        if self.due <= EVENTS_LATER {
            self.settle();
        }
        self.history.reserve(p, k)
    }

    /// Counts an event that was added. The ledger settles where enough came since it did, though no
    /// room was made meanwhile.
    #[inline(always)]
    fn count_event(&mut self)
        ensures { self.new ≡ self.old }
    {
        if self.due > 0 {
            self.due -= 1;
            return;
        }
        self.settle();
    }

    /// Adds an event that may come next, in room that was made for it.
    pub fn append(&mut self, p: ProcId, event: Event)
        requires process { p < length self.old.processes }
        requires named { NamesBelow (length self.old.processes) event }
        requires short { HasLongState event → ⊥ }
        requires few { length (tape_at self.old.processes p) < MOST_EVENTS }
        requires room { 0 < room_at self.old p }
        ensures processes { self.new.processes ≡ with_event self.old.processes p event }
        ensures spent { room_at self.old p ≤ room_at self.new p + 1 }
        ensures others { (q : ℕ) → q ≢ p → room_at self.new q ≡ room_at self.old q }
    {
        self.history.append(p, event);
        self.count_event();
    }

    /// The messages in transit at a line, by sender, then number.
    ///
    /// It looks at what was kept last, at each send since, and at each event that was kept and is
    /// after the line; and where they are not many beside the first two, at the events since that
    /// stand before the line, so that it need not search for their receipts. Then it asks nothing
    /// of most messages that were kept, and after a closed line of no send since.
    ///
    /// It takes a number for each process, and for each receipt between the two lines of a message
    /// that was sent before both, with the numbers of what was kept of such a message's sender, and
    /// room for the result; and where it gets them, two numbers more for each process, a flag for
    /// each send since that stands before the line, and eight for each message that was kept.
    pub fn transit(
        &self,
        strangers: &ProcSet,
        alloc: Global,
        line: &Line,
    ) -> Result<Vec<MsgName>, AllocError>
        requires line { IsLine self.now.processes line.now }
        requires strangers { AreStrangers self.now.processes line.now strangers.now }
        ensures { IfOk result (λ messages.
            messages.items ≡ in_transit self.now.processes line.now) }
    {
        find_transit(&self.history, self.kept(), strangers, alloc, line)
    }

    /// Keeps what is in transit at a line: what is so later is found from that and from what is
    /// sent after the line.
    pub fn keep(&mut self, line: &Line, messages: Vec<MsgName>)
        requires line { IsLine self.old.processes line.now }
        requires transit { messages.items ≡ in_transit self.old.processes line.now }
        ensures { self.new ≡ self.old }
    {
        move_starts(&self.history, line, &mut self.starts);
        move_places(&self.history, line, &mut self.places);
        self.left = messages;
        self.closed = false;
        self.wait();
    }

    /// Has each process go on from its choice of a consistent line. It takes no memory and cannot
    /// fail.
    ///
    /// Where it is told what is in transit at the line, what is so later is found from that and
    /// from what is sent from now on; else each send has to be looked at.
    pub fn restart(&mut self, line: &Line, left: Option<Vec<MsgName>>)
        requires line { IsLine self.old.processes line.now }
        requires consistent { IsConsistent self.old.processes line.now }
        requires further { HaveFurther self.old.processes line.now }
        requires left { IfSome left (λ left. left.items ≡ in_transit self.old.processes line.now) }
        ensures processes { self.new.processes ≡ restarted_history self.old.processes line.now }
        ensures rooms { (p : ℕ) → room_at self.old p ≤ room_at self.new p }
    {
        match left {
            Some(left) => {
                move_starts(&self.history, line, &mut self.starts);
                self.history.restart(line);
                let present = present_line(&self.history);
                move_places(&self.history, &present, &mut self.places);
                self.left = left;
                self.closed = true;
                self.wait();
            }
            None => {
                self.history.restart(line);
                clear_starts(&mut self.starts);
                clear_starts(&mut self.places);
                self.left = Vec::new(self.alloc);
                self.closed = true;
                self.wait();
            }
        }
    }
}
