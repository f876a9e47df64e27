//! A new generation goes on from what was gathered, at the planned line.
ghost use Rattle.std.specs.Prelude.{◌≡◌, ◌<◌, ◌≤◌, ◌+◌, ℕ, List, IfOk, IfErr, IfSome, IsTrue};
ghost use Rattle.std.specs.Prelude.{length, map, slice_index_or, vec_len};
ghost use Rattle.line_names.specs.Lines.{IsNowhereLater};
ghost use Rattle.line_names.specs.declared.choices.Choice.{Choice};
ghost use Rattle.line_names.specs.declared.choices.Choice.TheVariants.{Check as AtCheck};
ghost use Rattle.line_tape.specs.Chain.{IsChain};
ghost use Rattle.line_tape.specs.Fit.{IsFitFifo};
ghost use Rattle.line_tape.specs.Line.{IsConsistent, IsLine};
ghost use Rattle.line_tape.specs.Restart.{restarted_history, restarted_marks, HaveFurther};
ghost use Rattle.line_tape.specs.Rounds.{check_line, checks_of, is_completed_fifo};
ghost use Rattle.line_tape.specs.Survival.{survives, IsLatest};
ghost use Rattle.line_tape.specs.Transit.{in_transit, in_transit_between};
ghost use Rattle.line_tape.specs.declared.items.Item.TheVariants.{Message};
ghost use Rattle.line_posts.specs.Collected.{collector_of};
ghost use Rattle.line_posts.specs.Generations.{AreLined, IsGeneration};
ghost use Rattle.line_posts.specs.Openings.{parcels_left, AreOpened};
ghost use Rattle.line_posts.specs.Parcels.{items_of_parcels};
ghost use Rattle.line_posts.specs.Preparations.{AreJournals, IsPrepared};

use crate::collectors::{Collector, open_collector};
use crate::fleets::{Prepared, open_all, prepare};
use crate::gathering::Gathered;
use crate::journals::Journal;
use crate::posts::Post;
use crate::refusals::RestartWhy;
use crate::replays::all_replays;
use line_catalogue::Catalogue;
use line_names::{Line, MsgName, ProcId};
use line_plan::Plan;
use line_tape::History;
use std::alloc::{AllocError, Global};

/// What was gathered and did not go on, and why.
#[derive(Drop)]
pub struct RestartRefused {
    pub why: RestartWhy,
    pub gathered: Gathered,
}

/// Cuts the history of a catalogue at a line. The catalogue keeps `left`, what is in transit there,
/// if it is given.
fn go_on(catalogue: &mut Catalogue, line: &Line, left: Option<Vec<MsgName>>)
    requires line { IsLine catalogue.old.processes line.now }
    requires consistent { IsConsistent catalogue.old.processes line.now }
    requires further { HaveFurther catalogue.old.processes line.now }
    requires left { IfSome left (λ left.
        left.items ≡ in_transit catalogue.old.processes line.now) }
    ensures processes { catalogue.new.processes
        ≡ restarted_history catalogue.old.processes line.now }
    ensures marks { catalogue.new.marks ≡ restarted_marks catalogue.old.marks line.now }
{
    match left {
        Some(left) => catalogue.restart_with(line, left),
        None => catalogue.restart(line),
    }
}

/// The journals of the workers that go on from a line, each with a copy of its tape, cut there.
fn journals_at(
    alloc: Global,
    history: &History,
    line: &Line,
    floor: u32,
) -> Result<Vec<Journal>, AllocError>
    requires { IsLine history.now.processes line.now }
    ensures { IfOk result
        (λ journals. AreJournals (restarted_history history.now.processes line.now) floor
        journals.items) }
{
    let n = history.n();
    let mut journals = Vec::with_capacity(alloc, n as usize)?;
    for q in 0..n {
        let me = ProcId::try_new(q, n).unwrap();
        let mut tape = history.tape(me).copy(alloc)?;
        tape.restart(line.at(me));
        let journal = Journal::new(alloc, n, me, tape, floor)?;
        journals.push(journal)?;
    }
    Ok(journals)
}

impl Gathered {
    /// Makes all that the workers that go on from the planned line take memory for.
    fn prepare_next(&self, plan: &Plan) -> Result<Prepared, AllocError>
        requires latest { IsLatest self.now.processes self.now.marks self.now.failed plan.now.line }
        requires replays { plan.now.replays.items ≡ in_transit self.now.processes plan.now.line }
        ensures fit { IsFitFifo (restarted_history self.now.processes plan.now.line) }
        ensures prepared { IfOk result (λ prepared. IsPrepared
            (restarted_history self.now.processes plan.now.line) self.now.floor self.now.capacity
            prepared) }
        ensures links { (p q : ℕ)
            → items_of_parcels p
            (parcels_left (restarted_history self.now.processes plan.now.line) p q)
            ≡ map (λ m. Message m) (in_transit_between self.now.processes plan.now.line p q) }
    {
        let history = self.catalogue.history();
        let journals = journals_at(self.alloc, history, &plan.line, self.floor)?;
        let replays = all_replays(self.alloc, history, plan, &journals)?;
        prepare(self.alloc, journals, replays, self.capacity)
    }

    /// Opens the collector and the workers that go on from a line. `left` is what is in transit
    /// there, if it is given. It takes no memory and cannot fail.
    fn open_next(
        self,
        line: &Line,
        left: Option<Vec<MsgName>>,
        prepared: Prepared,
    ) -> (Collector, Vec<Post>)
        requires latest { IsLatest self.processes self.marks self.failed line.now }
        requires further { HaveFurther self.processes line.now }
        requires left { IfSome left (λ left. left.items ≡ in_transit self.processes line.now) }
        requires fit { IsFitFifo (restarted_history self.processes line.now) }
        requires prepared { IsPrepared
            (restarted_history self.processes line.now) self.floor self.capacity
            prepared }
        ensures collector { result.0 ≡ collector_of (restarted_history self.processes line.now)
            (restarted_history self.processes line.now) (restarted_marks self.marks line.now)
            result.0.lines result.0.seen self.capacity }
        ensures posts { AreOpened
            (restarted_history self.processes line.now) self.floor self.capacity
            result.1.items result.0.lines }
    {
        let alloc = self.alloc;
        let capacity = self.capacity;
        let mut catalogue = self.catalogue;
        go_on(&mut catalogue, line, left);
        let opened = open_all(alloc, catalogue.history(), prepared);
        let collector = open_collector(alloc, catalogue, opened.lines, capacity);
        (collector, opened.posts)
    }

    /// Opens a new generation that goes on from the planned line, and answers the plan too.
    ///
    /// Each tape is cut at the line, and each worker keeps the messages that were in transit to it
    /// there, with their bodies; it receives them before anything that is sent to it from now on.
    /// Rings and report lines are new ones of the same capacity, and rounds are numbered on. A
    /// refusal hands the value back as it was.
    ///
    /// It costs a plan, a copy of each tape, two copies of the plan's replays, one with their
    /// bodies, a walk of each tape from its end back to the first of its messages that is in
    /// transit, and a step for each two workers. Tapes are copied so that a refusal can hand the
    /// value back.
    pub fn restart(self) -> Result<(Collector, Vec<Post>, Plan), RestartRefused>
        ensures latest { IfOk result (λ r.
            IsLatest self.processes self.marks self.failed r.2.line) }
        ensures chain { IfOk result (λ r.
            IsChain self.processes self.marks self.failed r.2.certificate.items r.2.line) }
        ensures some_sweep { IfOk result (λ r. 1 ≤ r.2.sweeps) }
        ensures few_sweeps { IfOk result (λ r. r.2.sweeps ≤ vec_len r.2.certificate + 1) }
        ensures replays { IfOk result (λ r.
            r.2.replays.items ≡ in_transit self.processes r.2.line) }
        ensures rounds { IfOk result (λ r. (k : ℕ) → IsTrue (is_completed_fifo self.processes k)
            → ((p : ℕ) → p < length self.processes
            → IsTrue (survives self.processes self.marks self.failed p
            (AtCheck (slice_index_or (checks_of self.processes k) p 0))))
            → IsNowhereLater (check_line (checks_of self.processes k)) r.2.line) }

        // What goes on from the line.
        ensures collector { IfOk result (λ r. r.0
            ≡ collector_of (restarted_history self.processes r.2.line)
            (restarted_history self.processes r.2.line)
            (restarted_marks self.marks r.2.line) r.0.lines r.0.seen self.capacity) }
        ensures posts { IfOk result (λ r.
            AreOpened (restarted_history self.processes r.2.line) self.floor self.capacity r.1.items
            r.0.lines) }
        ensures links { IfOk result (λ r. (p q : ℕ)
            → items_of_parcels p (parcels_left (restarted_history self.processes r.2.line) p q)
            ≡ map (λ m. Message m) (in_transit_between self.processes r.2.line p q)) }
        ensures generation { IfOk result (λ r. IsGeneration r.1.items × AreLined r.0 r.1.items) }
        ensures fit { IfOk result (λ r. IsFitFifo (restarted_history self.processes r.2.line)) }

        // The refusals.
        ensures further { IfOk result (λ r. HaveFurther self.processes r.2.line) }
        ensures incarnations { IfErr result (λ e. e.why ≡ RestartWhy.NoMoreIncarnations
            → (line : List Choice) × IsLatest self.processes self.marks self.failed line
            × (HaveFurther self.processes line → ⊥)) }
        ensures back { IfErr result (λ e. e.gathered ≡ self) }
    {
        let Ok(plan) = self.plan() else {
            return Err(RestartRefused {
                why: RestartWhy::OutOfMemory,
                gathered: self,
            });
        };
        if !self.catalogue.history().has_further(&plan.line) {
            return Err(RestartRefused {
                why: RestartWhy::NoMoreIncarnations,
                gathered: self,
            });
        }
        let Ok(prepared) = self.prepare_next(&plan) else {
            return Err(RestartRefused {
                why: RestartWhy::OutOfMemory,
                gathered: self,
            });
        };
        // The catalogue keeps what was in transit, so that later plans pass over the sends before
        // the line. Where memory for this copy is refused, they look at these sends.
        let left = Vec::from_slice(self.alloc, plan.replays.as_slice()).ok();
        let (collector, posts) = self.open_next(&plan.line, left, prepared);
        Ok((collector, posts, plan))
    }
}
