//! All that the workers of a generation did, gathered in one history.
ghost use Rattle.std.specs.Prelude.{◌≡◌, ◌≢◌, ◌<◌, ◌≤◌, ◌+◌, ◌↔◌, ℕ, IfOk, IfErr, IsErrOf, IsTrue};
ghost use Rattle.std.specs.Prelude.{OnOk, OnErr, Some};
ghost use Rattle.std.specs.Prelude.{length, slice_get, slice_index_or, vec_len};
ghost use Rattle.line_rounds.specs.Recording.{latest};
ghost use Rattle.line_names.specs.Lines.{IsNowhereLater};
ghost use Rattle.line_names.specs.declared.choices.Choice.TheVariants.{Check as AtCheck};
ghost use Rattle.line_tape.specs.Chain.{IsChain};
ghost use Rattle.line_tape.specs.Event.{checks};
ghost use Rattle.line_tape.specs.Fit.{IsFitFifo};
ghost use Rattle.line_tape.specs.History.{tape_at};
ghost use Rattle.line_tape.specs.Rounds.{channel_fifo, check_line, checks_of, is_completed_fifo};
ghost use Rattle.line_tape.specs.Rounds.{IsSnapshot};
ghost use Rattle.line_tape.specs.Survival.{is_damaged, survives, IsLatest};
ghost use Rattle.line_tape.specs.Transit.{in_transit};
ghost use Rattle.line_tape.specs.Views.{with_mark};
ghost use Rattle.line_posts.specs.Posts.{PostView};
ghost use Rattle.line_posts.specs.Collected.{CollectorView, HasOnlyLooked};
ghost use Rattle.line_posts.specs.Ends.{in_ends, known_rows, StillKnow};
ghost use Rattle.line_posts.specs.Extension.{Extends};
ghost use Rattle.line_posts.specs.Generations.{own_history, AreAccounted, AreLined, AreWhole};
ghost use Rattle.line_posts.specs.Generations.{IsGeneration};
ghost use Rattle.line_posts.specs.Gathered.{AreBelow, AreGathered, HasNoneFailed, HasOwn};
ghost use Rattle.line_posts.specs.Gathered.{ArePrefixes};
ghost use Rattle.line_posts.specs.Gathering.{AreBack, AreGatheredOnward};
ghost use Rattle.line_posts.specs.Kept.{gathered_in, whole_marks, IsKeptOf};

use crate::accounts::account;
use crate::collectors::Collector;
use crate::forgetting::Forgotten;
use crate::further::{add_and_keep, further_of_all};
use crate::gathered_anew::gathered_anew;
use crate::posts::Post;
use crate::refusals::GatherWhy;
use line_catalogue::{Catalogue, DamageError};
use line_names::{ProcId, ProcSet};
use line_plan::{Plan, PlanError};
use line_tape::{Event, History, Marks};
use rtrb::Consumer;
use std::alloc::{AllocError, Global};
use std::marker::Model;

/// What was gathered of a generation: a history, marks of damage, who failed, the last round that
/// the lead recorded, and the capacity of a ring.
#[derive(Drop)]
pub struct Gathered {
    pub(crate) alloc: Global,
    pub(crate) catalogue: Catalogue,
    pub(crate) failed: ProcSet,
    pub(crate) floor: u32,
    pub(crate) capacity: usize,
}

impl Model for Gathered {
    ghost use Rattle.line_posts.specs.Gathered.{GatheredView, HasOwn};

    ghost Value = { GatheredView };

    ghost view = { λ g. record {
      processes = g.catalogue.processes;
      marks = g.catalogue.marks;
      failed = g.failed;
      floor = g.floor;
      capacity = g.capacity;
    } };

    ghost invariant = { λ g. HasOwn g.failed g.catalogue.processes };
}

impl Gathered {
    /// The history that was gathered.
    pub fn history(&self) -> &History
        ensures value { result.now.processes ≡ self.now.processes }
        ensures prefix { HasOwn self.now.failed self.now.processes }
        ensures fit { HasNoneFailed self.now.failed → IsFitFifo self.now.processes }
        ensures rounds { (r : ℕ) → IsTrue (is_completed_fifo self.now.processes r)
            → IsSnapshot self.now.processes (checks_of self.now.processes r)
            (channel_fifo self.now.processes r) }
    {
        self.catalogue.history()
    }

    /// The marks of damage: those that the collector was given, and those that came by `damage`.
    pub fn marks(&self) -> &Marks
        ensures { result.now ≡ self.now.marks }
    {
        self.catalogue.marks()
    }

    /// Which processes failed.
    pub fn failed(&self) -> &ProcSet
        ensures { result.now ≡ self.now.failed }
    {
        &self.failed
    }

    /// Marks a check as damaged.
    pub fn damage(&mut self, p: ProcId, check: u32) -> Result<(), DamageError>
        requires { p < length self.old.processes }
        ensures ok { OnOk result (self.new
            ≡ record self.old { marks = with_mark self.old.marks p check }) }
        ensures err { OnErr result (self.new ≡ self.old) }

        // The refusals: no two causes hold at once.
        ensures check { IsErrOf result DamageError.NoSuchCheck
            ↔ (checks (tape_at self.old.processes p) < check) }
        ensures initial { IsErrOf result DamageError.InitialDamage ↔ (check ≡ 0) }
        ensures already { IsErrOf result DamageError.AlreadyDamaged
            ↔ ((check ≤ checks (tape_at self.old.processes p)) × (check ≢ 0)
            × IsTrue (is_damaged self.old.marks p check)) }
    {
        self.catalogue.damage(p, check)
    }

    /// Plans the recovery line of what was gathered: the latest line from which all can go on.
    pub fn plan(&self) -> Result<Plan, PlanError>
        ensures latest { IfOk result (λ plan.
            IsLatest self.now.processes self.now.marks self.now.failed plan.line) }
        ensures chain { IfOk result (λ plan.
            IsChain self.now.processes self.now.marks self.now.failed plan.certificate.items
            plan.line) }
        ensures some_sweep { IfOk result (λ plan. 1 ≤ plan.sweeps) }
        ensures few_sweeps { IfOk result (λ plan. plan.sweeps ≤ vec_len plan.certificate + 1) }
        ensures replays { IfOk result (λ plan.
            plan.replays.items ≡ in_transit self.now.processes plan.line) }
        ensures rounds { IfOk result (λ plan. (r : ℕ)
            → IsTrue (is_completed_fifo self.now.processes r)
            → ((p : ℕ) → p < length self.now.processes
            → IsTrue (survives self.now.processes self.now.marks self.now.failed p
            (AtCheck (slice_index_or (checks_of self.now.processes r) p 0))))
            → IsNowhereLater (check_line (checks_of self.now.processes r)) plan.line) }
    {
        line_plan::plan(self.alloc, &self.catalogue, &self.failed)
    }
}

/// Workers and a collector that were not gathered, and why.
#[derive(Drop)]
pub struct GatherRefused {
    pub why: GatherWhy,
    pub collector: Collector,
    pub posts: Vec<Post>,
}

/// The last round that the lead has recorded.
fn last_round(posts: &Vec<Post>) -> u32
    ensures { (lead : PostView) → slice_get posts.now.items 0 ≡ Some lead
        → result ≡ latest lead.floor lead.rounds }
{
    if posts.len() == 0 {
        return 0;
    }
    posts[0].latest()
}

/// What is gathered of workers that are back: the collector's own catalogue, with the events that
/// it has not taken; or, where it let something go, a new one, made from the workers' own tapes.
fn gather_all(
    alloc: Global,
    catalogue: &mut Catalogue,
    forgotten: &Option<Forgotten>,
    lines: &mut Vec<Consumer<Event>>,
    posts: &mut Vec<Post>,
    failed: &ProcSet,
) -> Result<Option<Catalogue>, AllocError>
    requires back { (collector : CollectorView) × AreBack collector posts.old.items
        × (collector.lines ≡ in_ends lines.old.items)
        × IsKeptOf forgotten.now collector.processes catalogue.old.processes catalogue.old.marks }
    ensures gathered { IfOk result (λ anew. AreGatheredOnward failed.now
        (in_ends lines.old.items) posts.old.items (gathered_in anew catalogue.new).processes) }
    ensures marks { IfOk result (λ anew.
        (gathered_in anew catalogue.new).marks ≡ whole_marks forgotten.now catalogue.old.marks) }
    ensures processes { OnErr result (catalogue.new.processes ≡ catalogue.old.processes) }
    ensures still { OnErr result (catalogue.new.marks ≡ catalogue.old.marks) }
    ensures lines { in_ends lines.new.items ≡ in_ends lines.old.items }
    ensures seen { StillKnow (known_rows lines.old.items) lines.new.items }
    ensures posts { posts.new.items ≡ posts.old.items }
{
    match forgotten {
        None => {
            let mut further = further_of_all(alloc, catalogue, lines, posts, failed)?;
            add_and_keep(alloc, catalogue, &mut further, failed);
            Ok(None)
        }
        Some(forgotten) => {
            let n = catalogue.n();
            let anew = gathered_anew(alloc, n, &forgotten.marks, lines, posts, failed)?;
            Ok(Some(anew))
        }
    }
}

/// The catalogue that was made anew, or else the collector's own.
fn chosen(anew: Option<Catalogue>, own: Catalogue) -> Catalogue
    ensures { result ≡ gathered_in anew own }
{
    match anew {
        Some(anew) => anew,
        None => own,
    }
}

/// Gathers what the workers of a generation did: of a worker that failed what it reported, and of
/// each other one all. A refusal hands collector and posts back as they were.
///
/// It compares the two ends of each of n² rings, copies and adds each event that the collector has
/// not taken, or all events where it let something go, and plans once to keep what is in transit at
/// that line, for `plan` and `restart`; where memory for that plan is refused, nothing else
/// differs. What lies on the rings stays there.
pub fn gather(
    mut collector: Collector,
    mut posts: Vec<Post>,
    failed: ProcSet,
) -> Result<Gathered, GatherRefused>
    requires generation { IsGeneration posts.items }
    requires lines { AreLined collector posts.items }
    ensures gathered { IfOk result (λ g. AreGathered failed posts.items g.processes) }
    ensures prefix { IfOk result (λ g. ArePrefixes failed g.processes (own_history posts.items)) }
    ensures fit { OnOk result (IsFitFifo (own_history posts.items)) }
    ensures accounted { OnOk result (AreAccounted posts.items) }
    ensures onward { IfOk result (λ g. Extends g.processes collector.processes) }
    ensures rest { IfOk result (λ g. (g.failed ≡ failed) × (g.marks ≡ collector.marks)) }
    ensures capacity { IfOk result (λ g. g.capacity ≡ collector.capacity) }
    ensures floor { IfOk result (λ g. (lead : PostView) → slice_get posts.items 0 ≡ Some lead
        → g.floor ≡ latest lead.floor lead.rounds) }
    ensures back { IfErr result (λ e. HasOnlyLooked collector e.collector
        × (e.posts.items ≡ posts.items)) }

    // The refusals, in their order.
    ensures may { OnOk result (AreBelow (length collector.opening) failed
        × AreWhole collector posts.items) }
    ensures process { IfErr result (λ e. (e.why ≡ GatherWhy.NoSuchProcess)
        ↔ (AreBelow (length collector.opening) failed → ⊥)) }
    ensures unfinished { IfErr result (λ e. (e.why ≡ GatherWhy.Unfinished)
        ↔ (AreBelow (length collector.opening) failed × (AreWhole collector posts.items → ⊥))) }
{
    let n = collector.n();
    if !failed.is_below(n) {
        return Err(GatherRefused {
            why: GatherWhy::NoSuchProcess,
            collector,
            posts,
        });
    }
    if posts.len() != n as usize || !account(&mut posts) {
        return Err(GatherRefused {
            why: GatherWhy::Unfinished,
            collector,
            posts,
        });
    }
    let alloc = collector.alloc;
    match gather_all(
        alloc,
        &mut collector.catalogue,
        &collector.forgotten,
        &mut collector.lines,
        &mut posts,
        &failed,
    ) {
        Ok(anew) => {
            let floor = last_round(&posts);
            let capacity = collector.capacity;
            Ok(Gathered {
                alloc,
                catalogue: chosen(anew, collector.catalogue),
                failed,
                floor,
                capacity,
            })
        }
        Err(_) => Err(GatherRefused {
            why: GatherWhy::OutOfMemory,
            collector,
            posts,
        }),
    }
}
