//! Generations of workers in threads under stress: random calls, failures of random workers at
//! random turns, damage and restarts, and a collector that plans all the while. Each generation is
//! printed as records, which `scripts/trial workers` judges by the definitions; the checker of the
//! repository judges each plan here.
//!
//! A lineage is a fleet and the generations that go on from it. The calls that its workers try are
//! determined by the seed and the number of the lineage; their answers also depend on the order in
//! which the threads run. The words of the command line are the seed, the number of the first
//! lineage, how many lineages there are at most, and after how many seconds no lineage begins.
#![tactic(auto)]

ghost use Rattle.line_posts.specs.Generations.{AreLined, IsGeneration};

mod dice;
mod logs;
mod settings;
mod texts;
mod watches;
mod workers;

use crate::dice::Dice;
use crate::settings::{capacity, next_settings, workers};
use crate::texts::{Text, own_history, print_history, process};
use crate::watches::is_right;
use crate::workers::RandomWork;
use anyhow::Result;
use line_names::{ProcId, ProcSet};
use line_posts::{Collector, Gathered, Post, fleet, gather};
use line_tape::{History, Marks};
use line_workers::run_crew;
use std::alloc::Global;
use std::env;
use std::rt::Clock;
use std::sync::atomic::AtomicU32;
use std::sync::{OnceLock, Wait};
use std::thread::Threads;
use std::time::Instant;

/// A lineage ends once its history has more events than this.
const MANY_EVENTS: u64 = 8_000;

/// How many generations a lineage has at most.
const MOST_GENERATIONS: u32 = 24;

/// One generation of a lineage.
#[derive(Clone, Copy)]
struct Place {
    seed: u64,
    lineage: u64,
    generation: u32,
    n: u32,
    capacity: usize,
}

/// A lineage on its way: the generation that it is at, its dice, and the marks of damage that its
/// history has.
#[derive(Drop)]
struct Lineage {
    place: Place,
    dice: Dice,
    marks: Marks,
}

impl Lineage {
    /// A lineage by its seed and number, before its first generation.
    fn new(alloc: Global, seed: u64, number: u64) -> Result<Lineage> {
        let mut dice = Dice::new(seed ^ number.wrapping_mul(0xD6E8_FEB8_6659_FD93));
        let n = workers(&mut dice);
        let place = Place {
            seed,
            lineage: number,
            generation: 0,
            n,
            capacity: capacity(&mut dice),
        };
        let marks = Marks::new(alloc, n)?;
        Ok(Lineage { place, dice, marks })
    }
}

/// What the workers of the next generation do.
fn next_work(alloc: Global, lineage: &mut Lineage) -> Result<RandomWork> {
    let n = lineage.place.n;
    let dice = &mut lineage.dice;
    let settings = next_settings(dice, n);
    let mut turns = Vec::new(alloc);
    let mut logs = Vec::new(alloc);
    let mut failed = ProcSet::empty();
    let mut everyone = ProcSet::empty();
    for p in 0..n {
        let p = process(p, n)?;
        everyone = everyone.with(p);
        if dice.percent(settings.failures) {
            failed = failed.with(p);
            turns.push(dice.below(settings.turns.max(1)))?;
        } else {
            turns.push(settings.turns)?;
        }
        logs.push(OnceLock::new())?;
    }
    Ok(RandomWork {
        alloc,
        seed: dice.word(),
        n,
        settings,
        turns,
        failed,
        everyone,
        marks: lineage.marks.copy(alloc)?,
        started: AtomicU32::new(0),
        ended: AtomicU32::new(0),
        logs,
        watch: OnceLock::new(),
    })
}

/// Prints what a generation did before it was gathered.
fn tell_workers<R: Print>(
    rt: &R,
    text: &mut Text,
    place: Place,
    work: &RandomWork,
    collector: &Collector,
    posts: &Vec<Post>,
) -> Result<()> {
    let alloc = work.alloc;
    let (generation, n) = (u64::from(place.generation), u64::from(place.n));
    let capacity = place.capacity as u64;
    text.row(
        "generation",
        &[place.seed, place.lineage, generation, n, capacity],
    )?;
    for p in 0..place.n {
        if work.failed.has(process(p, place.n)?) {
            text.row("failed", &[u64::from(p)])?;
        }
    }
    for (p, cell) in work.logs.iter().enumerate() {
        if let Some(log) = cell.get() {
            text.log(p, log)?;
        }
    }
    text.print(rt)?;
    print_history(rt, alloc, "own", &own_history(alloc, collector, posts)?)?;
    print_history(rt, alloc, "collected", collector.history())
}

/// Marks a random check of a random process as damaged, and prints whether the mark was refused.
fn damage(text: &mut Text, lineage: &mut Lineage, gathered: &mut Gathered) -> Result<()> {
    let n = gathered.history().n();
    let p = ProcId::try_new(lineage.dice.below(n.max(1)), n)?;
    let checks = gathered.history().tape(p).checks();
    let check = lineage.dice.below(checks.wrapping_add(2).max(1));
    let code = match gathered.damage(p, check) {
        Ok(()) => {
            if (p.get() as usize) < lineage.marks.processes() {
                lineage.marks.mark(p, check)?;
            }
            100
        }
        Err(why) => why.code(),
    };
    text.row(
        "damage",
        &[u64::from(p.get()), u64::from(check), u64::from(code)],
    )
}

/// Prints what was gathered, marks damage, plans, and has the checker judge the plan.
fn tell_gathered<R: Print>(
    rt: &R,
    alloc: Global,
    text: &mut Text,
    lineage: &mut Lineage,
    work: &RandomWork,
    gathered: &mut Gathered,
) -> Result<()> {
    print_history(rt, alloc, "gathered", gathered.history())?;
    match work.watch.get() {
        Some(watch) => text.watch(watch, gathered.history())?,
        None => text.row("watch", &[])?,
    }
    let damages = work.settings.damages.wrapping_add(1).max(1);
    for _mark in 0..lineage.dice.below(damages) {
        damage(text, lineage, gathered)?;
    }
    let plan = gathered.plan()?;
    let is_right = is_right(gathered.history(), &lineage.marks, &work.failed, &plan);
    text.row("planned", &[u64::from(is_right)])?;
    text.plan(&plan)?;
    text.print(rt)
}

/// How many events a history has.
fn events_in(history: &History) -> u64 {
    let mut events = 0u64;
    let n = history.n();
    for p in 0..n {
        if let Ok(p) = ProcId::try_new(p, n) {
            events = events.wrapping_add(u64::from(history.tape(p).len()));
        }
    }
    events
}

/// Runs a generation from its opening to its gathering.
fn generation<R: Threads + Wait + Sync + Print>(
    rt: &R,
    alloc: Global,
    text: &mut Text,
    lineage: &mut Lineage,
    collector: Collector,
    posts: Vec<Post>,
) -> Result<Gathered>
    requires generation { IsGeneration posts.items }
    requires lines { AreLined collector posts.items }
{
    let work = next_work(alloc, lineage)?;
    let (collector, posts) = run_crew(rt, &work, collector, posts)?;
    tell_workers(rt, text, lineage.place, &work, &collector, &posts)?;
    match gather(collector, posts, work.failed) {
        Ok(mut gathered) => {
            tell_gathered(rt, alloc, text, lineage, &work, &mut gathered)?;
            Ok(gathered)
        }
        Err(refused) => Err(refused.why.into()),
    }
}

/// Restarts what was gathered, and runs the next generation of the lineage.
fn next<R: Threads + Wait + Sync + Print>(
    rt: &R,
    alloc: Global,
    text: &mut Text,
    lineage: &mut Lineage,
    gathered: Gathered,
) -> Result<Gathered> {
    match gathered.restart() {
        Ok((collector, posts, plan)) => {
            text.row("restarted", &[])?;
            text.plan(&plan)?;
            if lineage.marks.processes() <= plan.line.choices().len() {
                lineage.marks.restart(&plan.line);
            }
            generation(rt, alloc, text, lineage, collector, posts)
        }
        Err(refused) => Err(refused.why.into()),
    }
}

/// Opens a fleet, and runs the generations that go on from it.
fn run_lineage<R: Threads + Wait + Sync + Print>(
    rt: &R,
    alloc: Global,
    text: &mut Text,
    lineage: &mut Lineage,
) -> Result<()> {
    let (collector, posts) = fleet(alloc, lineage.place.n, lineage.place.capacity)?;
    let mut gathered = generation(rt, alloc, text, lineage, collector, posts)?;
    for number in 1..lineage.dice.to(MOST_GENERATIONS) {
        if events_in(gathered.history()) > MANY_EVENTS {
            return Ok(());
        }
        lineage.place.generation = number;
        gathered = next(rt, alloc, text, lineage, gathered)?;
    }
    Ok(())
}

/// Runs lineages one after another; none begins after `seconds` seconds.
fn lineages<R: Threads + Wait + Sync + Print + Clock>(
    rt: &R,
    alloc: Global,
    words: [u64; 4],
) -> Result<()> {
    let [seed, from, count, seconds] = words;
    let start = Instant::now(rt)?;
    let mut text = Text::new(alloc);
    for k in 0..count {
        if start.elapsed(rt)?.as_secs() >= seconds {
            return Ok(());
        }
        let mut lineage = Lineage::new(alloc, seed, from.wrapping_add(k))?;
        run_lineage(rt, alloc, &mut text, &mut lineage)?;
    }
    Ok(())
}

fn main(rt: HostRuntime) -> Result<()> {
    let mut words = [1u64, 0, 1, 1];
    for (place, word) in env::args(&rt)?.skip(1).take(4).enumerate() {
        if word.as_str() == "--help" {
            println!(rt; "Usage: line_stress SEED FIRST_LINEAGE LINEAGES SECONDS")?;
            return Ok(());
        }
        if let Some(number) = words.get_mut(place) {
            *number = word.parse::<u64>()?;
        }
    }
    lineages(&rt, rt.alloc(), words)?;
    println!(rt; "done")?;
    Ok(())
}
