//! The world: the machine that answers steps.
ghost use Rattle.std.specs.Prelude.{◌≡◌, ◌≢◌, ◌<◌, ◌≤◌, ◌↔◌, ◌⊎◌, All, AllPairs, None, length};
ghost use Rattle.std.specs.Prelude.{take, slice_get, IfOk, IfErr, IsErrOf, IsTrue};
ghost use Rattle.line_tape.specs.History.{incarnation_at};
ghost use Rattle.line_world.specs.declared.replies.Answer.TheVariants.{Done, Refused};
ghost use Rattle.line_tape.specs.declared.steps.Step.TheVariants.{Send, Check, Damage, Bar};
ghost use Rattle.line_moves.specs.Listed.{ListedRound, IsReached, IsSnapshotOf};
ghost use Rattle.line_world.specs.Machine.{start, items_on, IsFit};
ghost use Rattle.line_world.specs.Refusals.{refusal_of, has_stranger};
ghost use Rattle.line_world.specs.Runs.{Takes, Run};
ghost use Rattle.line_tape.specs.StepShown.{step_of_ref, HasShortBody};
ghost use Rattle.line_world.specs.Steps.{IsPlan};

mod deliveries;
mod parts;
mod recoveries;
mod refusals;
mod rounds;

use crate::protocols::Protocol;
use crate::replies::{Answer, Reply, RunStopped, StepError};
use line_catalogue::Catalogue;
use line_moves::{Links, Listing, Round, add_check, put_message};
use line_names::{MOST_BODY, MOST_PROCESSES, ProcId, ProcSet};
use line_plan::Plan;
use line_tape::{CountError, History, Item, MOST_STATE, Marks, Mode, State, Step, StepRef};
use refusals::lacks_room;
use std::alloc::Global;
use std::marker::Model;

/// Processes with a link from each to each other.
///
/// It keeps a queue for each link beside a catalogue of the tapes. So sending, delivering and
/// taking a check cost the same however much was done before, except that now and then the
/// catalogue looks at the messages sent and received since it last did. A step that is refused, or
/// for which memory runs out, changes nothing.
#[derive(Drop)]
pub struct World {
    catalogue: Catalogue,
    links: Links,
    /// The number of the last round begun; 0 where none was.
    last_round: u32,
    rounds: Listing,
    /// The open round, and which messages are received, as this kind of links needs it.
    protocol: Protocol,
}

impl Model for World {
    ghost use Rattle.line_world.specs.Machine.{Machine};

    ghost Value = { Machine };

    ghost use Rattle.line_moves.specs.Modes.{copies_in};
    ghost use Rattle.line_moves.specs.Worlds.{names_on, AreRounds, IsWorld};
    ghost use Rattle.line_world.specs.Protocols.{mode_of, open_round_of, IsFollowing};

    ghost view = { λ w. record {
      mode = mode_of w.protocol;
      history = w.catalogue.processes;
      marks = w.catalogue.marks;
      last_round = w.last_round;
      rounds = w.rounds.items;
      copies = names_on (copies_in (mode_of w.protocol) w.links);
    } };

    ghost invariant = { λ w. IsWorld (mode_of w.protocol) w.catalogue.processes w.links
        × AreRounds (mode_of w.protocol) w.catalogue.processes w.last_round
        (open_round_of w.protocol)
        w.rounds.items
        × IsFollowing w.catalogue.processes w.protocol };
}

impl World {
    /// The world of `n` processes that have done nothing yet.
    ///
    /// It makes a queue for each pair of processes.
    pub fn new(alloc: Global, n: u32, mode: Mode) -> Result<World, CountError>
        ensures ok { IfOk result (λ world. world ≡ start n mode) }
        ensures count { IsErrOf result CountError.BadCount ↔ ((n ≡ 0) ⊎ (MOST_PROCESSES < n)) }
    {
        let catalogue = Catalogue::new(alloc, n)?;
        let links = Links::new(alloc, n)?;
        let protocol = Protocol::new(alloc, n, mode)?;
        Ok(World {
            catalogue,
            links,
            last_round: 0,
            rounds: Listing::new(alloc),
            protocol,
        })
    }

    /// What each process did, and the incarnation under which it goes on.
    pub fn history(&self) -> &History
        ensures value { result.now.processes ≡ self.now.history }
        ensures fit { IsFit self.now }
    {
        self.catalogue.history()
    }

    /// Which checks are damaged, and where processes are barred.
    pub fn marks(&self) -> &Marks
        ensures { result.now ≡ self.now.marks }
    {
        self.catalogue.marks()
    }

    /// The completed rounds whose checks no recovery has cut, by number.
    ///
    /// Each is a snapshot (Chandy and Lamport, ACM TOCS 3(1), 1985): its checks make a consistent
    /// line, and each channel has the messages in transit there, by number. It stays so until a
    /// recovery cuts one of its checks, and then it leaves the list.
    pub fn rounds(&self) -> &[Round]
        ensures value { result.now ≡ self.now.rounds }
        ensures snapshots { All (IsSnapshotOf self.now.history) self.now.rounds }
        ensures ascending { AllPairs (λ (a b : ListedRound). a.number < b.number) self.now.rounds }
    {
        self.rounds.as_slice()
    }

    /// The incarnation of a process.
    pub fn incarnation(&self, p: ProcId) -> u16
        requires { p < length self.now.history }
        ensures { result ≡ incarnation_at self.now.history p }
    {
        self.catalogue.history().incarnation(p)
    }

    /// How many items the link from a process to another holds.
    pub fn link_len(&self, from: ProcId, to: ProcId) -> usize
        requires from { from < length self.now.history }
        requires to { to < length self.now.history }
        requires other { from ≢ to }
        ensures { result ≡ length (items_on self.now from to) }
    {
        self.links.len(from, to)
    }

    /// The item at place `i` of the link from a process to another, where the oldest has place 0;
    /// none if there is none.
    pub fn link_item(&self, from: ProcId, to: ProcId, i: usize) -> Option<Item>
        requires from { from < length self.now.history }
        requires to { to < length self.now.history }
        requires other { from ≢ to }
        ensures { result ≡ slice_get (items_on self.now from to) i }
    {
        self.links.item(from, to, i)
    }

    /// Sends a message.
    fn send(&mut self, from: ProcId, to: ProcId, body: &[u8]) -> Result<Reply, StepError>
        requires short { length body.now ≤ MOST_BODY }
        ensures done { IfOk result
            (λ reply. Takes self.old (Send from to body.now) (Done reply) self.new) }
        ensures refused { IfErr result
            (λ e. e ≢ StepError.OutOfMemory
            → Takes self.old (Send from to body.now) (Refused e) self.new) }
        ensures memory { IsErrOf result StepError.OutOfMemory → self.new ≡ self.old }
        ensures unrefused { IsErrOf result StepError.OutOfMemory
            → refusal_of self.old (Send from to body.now) ≡ None }
    {
        let history = self.catalogue.history();
        let n = history.n();
        if from.get() >= n || to.get() >= n {
            return Err(StepError::NoSuchProcess);
        }
        if from == to {
            return Err(StepError::ToSelf);
        }
        if lacks_room(history, from, 1) {
            return Err(StepError::TapeFull);
        }
        // Where links keep no order, the flag of this send has room.
        if let Protocol::Colours { received, .. } = &mut self.protocol {
            received.reserve(from, history.tape(from).sends())?;
        }
        let message = put_message(&mut self.catalogue, &mut self.links, from, to, body)?;
        Ok(Reply::Sent { message })
    }

    /// Takes a check.
    fn check(&mut self, alloc: Global, at: ProcId, state: &[u8]) -> Result<Reply, StepError>
        ensures done { IfOk result
            (λ reply. Takes self.old (Check at state.now) (Done reply) self.new) }
        ensures refused { IfErr result
            (λ e. e ≢ StepError.OutOfMemory
            → Takes self.old (Check at state.now) (Refused e) self.new) }
        ensures memory { IsErrOf result StepError.OutOfMemory → self.new ≡ self.old }
        ensures unrefused { IsErrOf result StepError.OutOfMemory
            → refusal_of self.old (Check at state.now) ≡ None }
    {
        let history = self.catalogue.history();
        if at.get() >= history.n() {
            return Err(StepError::NoSuchProcess);
        }
        if state.len() > MOST_STATE {
            return Err(StepError::StateTooLong);
        }
        if lacks_room(history, at, 1) {
            return Err(StepError::TapeFull);
        }
        let bytes = Vec::from_slice(alloc, state)?;
        let check = add_check(&mut self.catalogue, at, State::of(bytes))?;
        Ok(Reply::Checked { at, check })
    }

    /// Marks a check as damaged.
    fn damage(&mut self, at: ProcId, check: u32) -> Result<Reply, StepError>
        ensures done { IfOk result
            (λ reply. Takes self.old (Damage at check) (Done reply) self.new) }
        ensures refused { IfErr result
            (λ e. e ≢ StepError.OutOfMemory
            → Takes self.old (Damage at check) (Refused e) self.new) }
        ensures memory { IsErrOf result StepError.OutOfMemory → self.new ≡ self.old }
        ensures unrefused { IsErrOf result StepError.OutOfMemory
            → refusal_of self.old (Damage at check) ≡ None }
    {
        if at.get() >= self.catalogue.n() {
            return Err(StepError::NoSuchProcess);
        }
        if check == 0 {
            return Err(StepError::InitialDamage);
        }
        self.catalogue.damage(at, check)?;
        Ok(Reply::Damaged { at, check })
    }

    /// Bars a process at a check.
    fn bar(&mut self, at: ProcId, check: u32) -> Result<Reply, StepError>
        ensures done { IfOk result (λ reply. Takes self.old (Bar at check) (Done reply) self.new) }
        ensures refused { IfErr result
            (λ e. e ≢ StepError.OutOfMemory → Takes self.old (Bar at check) (Refused e) self.new) }
        ensures memory { IsErrOf result StepError.OutOfMemory → self.new ≡ self.old }
        ensures unrefused { IsErrOf result StepError.OutOfMemory
            → refusal_of self.old (Bar at check) ≡ None }
    {
        if at.get() >= self.catalogue.n() {
            return Err(StepError::NoSuchProcess);
        }
        self.catalogue.bar(at, check)?;
        Ok(Reply::Barred { at, check })
    }

    /// The latest line that the processes could go on from, if those of the set failed. It is at no
    /// process earlier than the check of a listed round whose checks survive.
    ///
    /// It costs what `line_plan::plan` does.
    pub fn plan_for(&self, alloc: Global, failed: &ProcSet) -> Result<Plan, StepError>
        ensures plan { IfOk result (λ plan. IsPlan self.now failed.now plan) }
        ensures rounds { IfOk result
            (λ plan. All (IsReached self.now.history self.now.marks failed.now plan.line)
            self.now.rounds) }
        ensures stranger { IsErrOf result StepError.NoSuchProcess
            ↔ IsTrue (has_stranger self.now failed.now) }
        ensures others { IfErr result
            (λ e. (e ≡ StepError.NoSuchProcess) ⊎ (e ≡ StepError.OutOfMemory)) }
    {
        if !failed.is_below(self.catalogue.n()) {
            return Err(StepError::NoSuchProcess);
        }
        let plan = line_plan::plan(alloc, &self.catalogue, failed)?;
        Ok(plan)
    }

    /// Takes one step.
    ///
    /// - Sending, delivering a message and taking a check cost the same however much was done
    ///   before, except for what `Catalogue::reserve` does now and then. To know whether a message
    ///   forces a check, its sender's checks of rounds are searched by halves.
    /// - A marker costs the same too, but the last marker of a round looks at all channels of the
    ///   round. A check that begins a round of markers, or that a marker forces, puts a marker on
    ///   the link to each other process.
    /// - The last check of a round of colours looks at what was in transit when channels were last
    ///   counted, and at each send and receipt since.
    /// - Recovering costs what a plan does, and a look at each event that it cuts or that came
    ///   since the last recovery, and at each message in transit.
    pub fn step(&mut self, alloc: Global, step: &Step) -> Result<Reply, StepError>
        ensures done { IfOk result (λ reply. Takes self.old step.now (Done reply) self.new) }
        ensures refused { IfErr result
            (λ e. e ≢ StepError.OutOfMemory → Takes self.old step.now (Refused e) self.new) }
        ensures memory { IsErrOf result StepError.OutOfMemory → self.new ≡ self.old }
        ensures unrefused { IsErrOf result StepError.OutOfMemory
            → refusal_of self.old step.now ≡ None }
    {
        // Each arm lends its bytes at once: made into a `StepRef` first, a step takes some 80
        // instructions more.
        match step {
            Step::Send { from, to, body } => self.send(*from, *to, body.bytes()),
            Step::Deliver {
                from,
                to,
                pick,
                state,
            } => self.deliver(alloc, *from, *to, *pick, state.bytes()),
            Step::Check { at, state } => self.check(alloc, *at, state.bytes()),
            Step::Begin { at, state } => self.begin(alloc, *at, state.bytes()),
            Step::Turn { at, state } => self.turn(alloc, *at, state.bytes()),
            Step::Damage { at, check } => self.damage(*at, *check),
            Step::Bar { at, check } => self.bar(*at, *check),
            Step::Recover { failed } => self.recover(alloc, failed),
        }
    }

    /// Takes one step as `step` does, and at its cost. What the step carries is lent.
    #[inline(always)]
    pub fn step_lent(&mut self, alloc: Global, step: &StepRef<'_>) -> Result<Reply, StepError>
        requires short { HasShortBody step.now }
        ensures done { IfOk result
            (λ reply. Takes self.old (step_of_ref step.now) (Done reply) self.new) }
        ensures refused { IfErr result
            (λ e. e ≢ StepError.OutOfMemory
            → Takes self.old (step_of_ref step.now) (Refused e) self.new) }
        ensures memory { IsErrOf result StepError.OutOfMemory → self.new ≡ self.old }
        ensures unrefused { IsErrOf result StepError.OutOfMemory
            → refusal_of self.old (step_of_ref step.now) ≡ None }
    {
        match step {
            StepRef::Send { from, to, body } => self.send(*from, *to, body),
            StepRef::Deliver {
                from,
                to,
                pick,
                state,
            } => self.deliver(alloc, *from, *to, *pick, state),
            StepRef::Check { at, state } => self.check(alloc, *at, state),
            StepRef::Begin { at, state } => self.begin(alloc, *at, state),
            StepRef::Turn { at, state } => self.turn(alloc, *at, state),
            StepRef::Damage { at, check } => self.damage(*at, *check),
            StepRef::Bar { at, check } => self.bar(*at, *check),
            StepRef::Recover { failed } => self.recover(alloc, failed),
        }
    }

    /// Takes steps, one after another, and answers each.
    ///
    /// A refused step is answered, and the run goes on. It stops at the first step for which memory
    /// runs out, and the world is then as the steps before that one leave it.
    pub fn run(&mut self, alloc: Global, steps: &[Step]) -> Result<Vec<Answer>, RunStopped>
        ensures done { IfOk result (λ answers. Run self.old steps.now answers.items self.new) }
        ensures stopped { IfErr result
            (λ stopped. Run self.old (take (length stopped.done.items) steps.now) stopped.done.items
            self.new) }
        ensures short { IfErr result (λ stopped. length stopped.done.items < length steps.now) }
    {
        let mut done = match Vec::with_capacity(alloc, steps.len()) {
            Ok(done) => done,
            Err(_) => {
                return Err(RunStopped {
                    done: Vec::new(alloc),
                });
            }
        };
        for step in steps {
            match self.step(alloc, step) {
                Ok(reply) => done.push(Answer::Done(reply)).unwrap(),
                Err(e) => {
                    if e.is_out_of_memory() {
                        return Err(RunStopped { done });
                    }
                    done.push(Answer::Refused(e)).unwrap();
                }
            }
        }
        Ok(done)
    }
}
