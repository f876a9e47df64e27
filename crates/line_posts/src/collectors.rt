//! The collector: what the workers have reported so far.
ghost use Rattle.std.specs.Prelude.{◌≡◌, ◌≢◌, ◌<◌, ◌≤◌, ◌+◌, ◌⊎◌, ℕ, Bool, List, if◌then◌else◌};
ghost use Rattle.std.specs.Prelude.{IfErr, IfOk, MatchBool, MatchOption, None, OnErr, OnOk, Some};
ghost use Rattle.std.specs.Prelude.{length, vec_len};
ghost use Rattle.line_tape.specs.Chain.{IsChain};
ghost use Rattle.line_tape.specs.History.{Process};
ghost use Rattle.line_tape.specs.Line.{IsConsistent};
ghost use Rattle.line_tape.specs.Survival.{IsLatest};
ghost use Rattle.line_tape.specs.Transit.{in_transit};
ghost use Rattle.line_posts.specs.Ends.{in_ends, items_at, known_rows, AreFresh};
ghost use Rattle.line_posts.specs.Extension.{Extends};
ghost use Rattle.line_posts.specs.Collected.{collector_of, passed_count, HasCollected};
ghost use Rattle.line_posts.specs.Collected.{HasCollectedMore};
ghost use Rattle.line_posts.specs.Collected.{HasLeft, HasOnlyLooked, IsCollector};
ghost use Rattle.line_posts.specs.Collected.{HasForgotten, IsNotTaken, IsShortOfNumbers, ShowsNone};
ghost use Rattle.line_posts.specs.Forgotten.{history_kept, HaveAllFailed};

use crate::ends::{front_at, look_at, take_at};
use crate::forgetting::{Forgotten, add_next, everyone, let_go, plan_kept, test_next};
use crate::keeping::keep_planned;
use crate::refusals::ForgetWhy;
use line_catalogue::{AddError, Catalogue};
use line_cuts::OwnedFloor;
use line_names::{MOST_PROCESSES, ProcId};
use line_plan::{Plan, PlanError};
use line_tape::{Event, History, Marks};
use rtrb::Consumer;
use std::alloc::Global;
use std::marker::Model;
use std::snapshot::Snapshot;

// How many reports come at least before a collector plans once more to keep what is in transit: so
// many that such a plan, apart from what it finds, costs little beside them.
const REPORTS_BETWEEN: usize = 16_384;

/// The history that was collected so far, as a catalogue, and the other ends of the report lines.
///
/// It belongs to one thread at a time; no call waits.
#[derive(Drop)]
pub struct Collector {
    pub(crate) alloc: Global,
    pub(crate) opening: Snapshot<History>,
    pub(crate) catalogue: Catalogue,
    pub(crate) lines: Vec<Consumer<Event>>,
    pub(crate) capacity: usize,
    // How many more reports come before `take` plans to keep what is in transit.
    due: usize,
    // What it let go, where it let something go: `catalogue` is then what is left.
    pub(crate) forgotten: Option<Forgotten>,
}

impl Model for Collector {
    ghost use Rattle.std.specs.Prelude.{◌≡◌};
    ghost use Rattle.line_posts.specs.Ends.{in_ends, known_rows};
    ghost use Rattle.line_posts.specs.Collected.{CollectorView, IsCollector};
    ghost use Rattle.line_posts.specs.Forgotten.{taken_history};
    ghost use Rattle.line_posts.specs.Kept.{collector_at, IsKeptOf};

    ghost Value = { CollectorView };

    ghost view = { λ c. collector_at c.opening.value.processes c.forgotten c.catalogue.marks
        (in_ends c.lines.items) (known_rows c.lines.items) c.capacity };

    ghost invariant = { λ c. IsCollector (collector_at c.opening.value.processes c.forgotten
        c.catalogue.marks (in_ends c.lines.items) (known_rows c.lines.items) c.capacity)
        × IsKeptOf c.forgotten (taken_history c.opening.value.processes (in_ends c.lines.items))
        c.catalogue.processes c.catalogue.marks };
}

/// A collector at the opening of a generation.
pub(crate) fn open_collector(
    alloc: Global,
    catalogue: Catalogue,
    lines: Vec<Consumer<Event>>,
    capacity: usize,
) -> Collector
    requires count { length lines.items ≡ length catalogue.processes }
    requires fresh { AreFresh (in_ends lines.items) }
    ensures { result ≡ collector_of catalogue.processes catalogue.processes catalogue.marks
        (in_ends lines.items) (known_rows lines.items) capacity }
{
    let opening = Snapshot::of(catalogue.history());
    Collector {
        alloc,
        opening,
        catalogue,
        lines,
        capacity,
        due: REPORTS_BETWEEN,
        forgotten: None,
    }
}

impl Collector {
    /// How many processes it has.
    pub(crate) fn n(&self) -> u32
        ensures value { result ≡ length self.now.opening }
        ensures some { 1 ≤ result }
        ensures few { result ≤ MOST_PROCESSES }
    {
        self.catalogue.n()
    }

    /// What is kept of the history that was collected so far: all of it, unless something was let
    /// go, and then what is left at the floor, in names and numbers of its own.
    pub fn history(&self) -> &History
        ensures value { result.now.processes ≡ history_kept self.now.floor self.now.processes }
        ensures known { IsCollector self.now }
    {
        self.catalogue.history()
    }

    /// The floor that all else was let go before, counted from the beginning; none where nothing
    /// was let go.
    pub fn floor(&self) -> Option<&OwnedFloor>
        ensures { MatchOption result (self.now.floor ≡ None)
            (λ floor. self.now.floor ≡ Some floor.now) }
    {
        match &self.forgotten {
            Some(forgotten) => Some(&forgotten.floor),
            None => None,
        }
    }

    /// The marks of damage that it was given: those of the history that its generation opened with.
    pub fn marks(&self) -> &Marks
        ensures { result.now ≡ self.now.marks }
    {
        match &self.forgotten {
            Some(forgotten) => &forgotten.marks,
            None => self.catalogue.marks(),
        }
    }

    /// Plans the recovery line of what was collected so far, as if every process failed now.
    ///
    /// The line stays consistent in each later history. The call costs a plan, which looks at what
    /// is in transit at the line that was kept last, and at each send and each receipt between that
    /// line and the planned one. Where something was let go, and a name of the whole would have no
    /// number, it answers as where memory is out; no worker has so many events.
    pub fn plan_live(&self) -> Result<Plan, PlanError>
        ensures latest { IfOk result (λ plan. (failed : List Bool)
            × HaveAllFailed (length self.now.processes) failed
            × IsLatest self.now.processes self.now.marks failed plan.line
            × IsChain self.now.processes self.now.marks failed plan.certificate.items plan.line) }
        ensures some_sweep { IfOk result (λ plan. 1 ≤ plan.sweeps) }
        ensures few_sweeps { IfOk result (λ plan. plan.sweeps ≤ vec_len plan.certificate + 1) }
        ensures replays { IfOk result (λ plan.
            plan.replays.items ≡ in_transit self.now.processes plan.line) }
        ensures onward { IfOk result (λ plan. (later : List Process)
            → Extends later self.now.processes → IsConsistent later plan.line) }
    {
        let failed = everyone(self.catalogue.n());
        plan_kept(self.alloc, &self.catalogue, &self.forgotten, &failed)
    }

    /// Lets go what no later plan can need: what stands before the line of `plan_live`, where each
    /// process has a check or its initial state. The checks of the line stay, and what was sent and
    /// received before it and is not in transit there goes; so do the markers of all rounds, which
    /// no plan looks at. A process whose choice there is its initial state lets go none of its
    /// checks.
    ///
    /// The other calls answer as if nothing was let go, but that `history` lends what is kept, that
    /// a tape is full where what is kept of it is, and that `take` refuses a receipt of a message
    /// that was let go, which its receiver has received already. What was let go stands on the
    /// workers' own tapes still, from which `gather` makes the whole history.
    ///
    /// Where something is refused nothing has changed. The call costs a plan,
    /// `line_cuts::floor_at` and `line_cuts::cut_catalogue`, and holds what is left twice while it
    /// runs.
    pub fn forget(&mut self) -> Result<(), ForgetWhy>
        ensures done { OnOk result (HasForgotten self.old self.new) }
        ensures same { OnErr result (self.new ≡ self.old) }
        ensures spent { IfErr result (λ why. why ≢ ForgetWhy.OutOfMemory
            → (why ≡ ForgetWhy.NoMoreNumbers) × IsShortOfNumbers self.old) }
    {
        let_go(self.alloc, &mut self.catalogue, &mut self.forgotten)
    }

    /// Plans and keeps what is in transit at the planned line, if enough reports were taken since
    /// it last did so. Where memory for the plan is refused, it does so later.
    fn keep_due(&mut self)
        ensures { self.new ≡ self.old }
    {
        if self.due > 0 {
            return;
        }
        let failed = everyone(self.catalogue.n());
        let looked = keep_planned(self.alloc, &mut self.catalogue, &failed);
        self.due = looked.saturating_add(REPORTS_BETWEEN);
    }

    /// Takes the next report of a process, if its line shows one. The report is tested where it
    /// stands, in front of the line, and stays there if it is refused.
    fn take_one(&mut self, p: ProcId) -> Result<bool, AddError>
        requires { p < length self.old.opening }
        ensures ok { IfOk result (λ did. MatchBool did (HasCollected self.old p self.new)
            (HasOnlyLooked self.old self.new × ShowsNone self.new p)) }
        ensures more { HasCollectedMore self.old self.new }
        ensures count { IfOk result (λ did.
            passed_count self.new.lines ≡ passed_count self.old.lines + (if did then 1 else 0)) }
        ensures others { (q : ℕ) → q ≢ p → HasLeft self.old q self.new }
        ensures err { OnErr result (HasOnlyLooked self.old self.new) }
        ensures why { IfErr result (λ why. IsNotTaken self.new p why) }
    {
        let at = p.get() as usize;
        if !look_at(&mut self.lines, at) {
            return Ok(false);
        }
        if let Err(why) = test_next(
            &self.catalogue,
            &self.forgotten,
            p,
            front_at(&self.lines, at),
        ) {
            return Err(why);
        }
        if self.catalogue.reserve(p, 1).is_err() {
            return Err(AddError::OutOfMemory);
        }
        let event = take_at(&mut self.lines, at);
        add_next(&mut self.catalogue, &self.forgotten, p, event);
        self.due = self.due.saturating_sub(1);
        Ok(true)
    }

    /// Takes reports of a process until its line shows none, and at most `limit`.
    fn take_from(&mut self, p: ProcId, limit: u32) -> Result<u32, AddError>
        requires { p < length self.old.opening }
        ensures more { HasCollectedMore self.old self.new }
        ensures limit { IfOk result (λ k. k ≤ limit) }
        ensures count { IfOk result
            (λ k. passed_count self.new.lines ≡ passed_count self.old.lines + k) }
        ensures others { (q : ℕ) → q ≢ p → HasLeft self.old q self.new }
        ensures none { IfOk result (λ k. k ≡ 0
            → items_at self.new.lines p ≡ items_at self.old.lines p) }
        ensures all { IfOk result (λ k. (k ≡ limit) ⊎ ShowsNone self.new p) }
        ensures some { OnErr result (0 < limit) }
        ensures why { IfErr result (λ why. IsNotTaken self.new p why) }
    {
        for i in 0..limit {
            if !self.take_one(p)? {
                return Ok(i);
            }
        }
        Ok(limit)
    }

    /// Takes at most `limit` reports, of each process in turn until its line shows none. It answers
    /// how many it took.
    ///
    /// A refused report stays in front of its line, and those taken before it stay taken. What is
    /// wrong with a report, or with its tape, is told before memory is asked for. The call costs a
    /// look at each line, and for each report what `Catalogue::add` costs. Once enough reports have
    /// come to pay for it, it also plans and keeps what is in transit at that line, for
    /// `plan_live`; where memory for this is refused, nothing else differs.
    pub fn take(&mut self, limit: u32) -> Result<u32, AddError>
        ensures more { HasCollectedMore self.old self.new }
        ensures limit { IfOk result (λ k. k ≤ limit) }
        ensures count { IfOk result
            (λ k. passed_count self.new.lines ≡ passed_count self.old.lines + k) }

        // Each process in turn, until its line shows none.
        ensures turns { (p q : ℕ) → p < q
            → items_at self.new.lines q ≢ items_at self.old.lines q → ShowsNone self.new p }
        ensures all { IfOk result (λ k. (k ≡ limit)
            ⊎ ((p : ℕ) → p < length self.old.opening → ShowsNone self.new p)) }

        // The refusals: those of the next report of a process, where none before it has one.
        ensures why { IfErr result (λ why. (p : ℕ) × (p < length self.old.opening)
            × IsNotTaken self.new p why × ((q : ℕ) → q < p → ShowsNone self.new q)) }
    {
        self.keep_due();
        let n = self.n();
        let mut taken = 0;
        for p in 0..n {
            let at = ProcId::try_new(p, n).unwrap();
            taken += self.take_from(at, limit - taken)?;
        }
        Ok(taken)
    }
}
