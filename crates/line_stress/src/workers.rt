//! Workers that make random calls, and a collector that plans meanwhile.
ghost use Rattle.line_posts.specs.Collected.{HasCollectedMore};
ghost use Rattle.line_posts.specs.Generations.{IsSamePost};

use crate::dice::Dice;
use crate::logs::AnswerLog;
use crate::settings::Settings;
use crate::watches::Watch;
use line_names::{Body, ProcId, ProcSet};
use line_posts::{BeginWhy, Collector, MOST_WORKERS, Post, ReceiveWhy, Received, SendWhy};
use line_tape::{Marks, State};
use line_workers::Work;
use std::alloc::Global;
use std::sync::OnceLock;
use std::sync::atomic::{AtomicU32, Ordering};
use std::thread::yield_now;

/// How often the collector takes reports at most, and how often a worker asks at most whether all
/// have started.
const LOOKS: u32 = 100_000_000;

/// What the workers of a generation do, and what came of it.
#[derive(Drop)]
pub struct RandomWork {
    pub alloc: Global,
    pub seed: u64,
    pub n: u32,
    pub settings: Settings,
    /// How many turns each worker takes; those that fail take fewer.
    pub turns: Vec<u32>,
    pub failed: ProcSet,
    /// All processes: the collector plans as if each had failed.
    pub everyone: ProcSet,
    /// The marks of damage that the generation opened with.
    pub marks: Marks,
    /// How many workers have started.
    pub started: AtomicU32,
    /// How many workers have ended.
    pub ended: AtomicU32,
    pub logs: Vec<OnceLock<AnswerLog>>,
    pub watch: OnceLock<Watch>,
}

/// A body of random length and bytes.
fn random_body(dice: &mut Dice, most: u32) -> Option<Body> {
    let mut bytes = [0u8; 64];
    for byte in &mut bytes {
        *byte = (dice.word() >> 56) as u8;
    }
    let len = dice.below(most.min(64) + 1) as usize;
    Body::try_new(bytes.get(..len)?).ok()
}

/// A state of random length and bytes, and a copy of it.
fn random_states(alloc: Global, dice: &mut Dice, most: u32) -> Option<(State, State)> {
    let mut bytes = Vec::new(alloc);
    let len = dice.below(most.min(4_096) + 1);
    for _byte in 0..len {
        bytes.push((dice.word() >> 56) as u8).ok()?;
    }
    let state = State::of(bytes);
    let same = state.copy(alloc).ok()?;
    Some((state, same))
}

impl RandomWork {
    /// The worker that comes `places` after worker `p`, where the first comes after the last.
    fn after(&self, p: u32, places: u32) -> Option<ProcId> {
        if self.n == 0 || self.n as usize > MOST_WORKERS {
            return None;
        }
        ProcId::try_new(p.wrapping_add(places) % self.n, self.n).ok()
    }

    /// Sends a random message to a random worker within reach.
    fn send(&self, dice: &mut Dice, log: &mut AnswerLog, post: &mut Post)
        ensures { IsSamePost post.old post.new }
    {
        let places = dice.to(self.settings.reach.max(1));
        let Some(to) = self.after(post.number(), places) else {
            return;
        };
        let Some(body) = random_body(dice, self.settings.body) else {
            return;
        };
        let same = body.copy();
        match post.send(to, body) {
            Ok(name) => log.sent(to, &name, &same),
            Err(refused) => {
                if refused.body.bytes() != same.bytes() {
                    log.fault();
                }
                match refused.why {
                    SendWhy::RingFull => log.no_slot(),
                    SendWhy::ToSelf => {}
                    SendWhy::OutOfMemory | SendWhy::NoSuchProcess | SendWhy::TapeFull => {
                        log.fault()
                    }
                }
            }
        }
    }

    /// Receives from the worker that comes `places` after worker `p`, if something has come.
    fn receive(&self, dice: &mut Dice, log: &mut AnswerLog, post: &mut Post, p: u32, places: u32)
        ensures { IsSamePost post.old post.new }
    {
        let Some(from) = self.after(p, places) else {
            return;
        };
        let Some((state, same)) = random_states(self.alloc, dice, self.settings.state) else {
            return;
        };
        match post.receive(from, state) {
            Ok(Received::Message { name, body }) => log.received(from, &name, &body),
            Ok(Received::Marked { round, forced }) => {
                log.marked(from, round, if forced { Some(&same) } else { None })
            }
            Err(why) => match why {
                ReceiveWhy::NothingThere => log.no_item(),
                ReceiveWhy::RingFull => log.no_slot(),
                ReceiveWhy::ToSelf => {}
                ReceiveWhy::OutOfMemory
                | ReceiveWhy::NoSuchProcess
                | ReceiveWhy::StateTooLong
                | ReceiveWhy::TapeFull => log.fault(),
            },
        }
    }

    /// Receives from a random one of the workers that send to this one.
    fn receive_one(&self, dice: &mut Dice, log: &mut AnswerLog, post: &mut Post)
        ensures { IsSamePost post.old post.new }
    {
        let places = dice.to(self.settings.reach.max(1)) % self.n.max(1);
        self.receive(dice, log, post, post.number(), self.n.wrapping_sub(places));
    }

    /// Receives from each other worker once.
    fn sweep(&self, dice: &mut Dice, log: &mut AnswerLog, post: &mut Post)
        ensures { IsSamePost post.old post.new }
    {
        let start = dice.below(self.n.max(1));
        for places in 0..self.n {
            self.receive(dice, log, post, start, places);
        }
    }

    /// Takes a check with a random state.
    fn check(&self, dice: &mut Dice, log: &mut AnswerLog, post: &mut Post)
        ensures { IsSamePost post.old post.new }
    {
        let Some((state, same)) = random_states(self.alloc, dice, self.settings.state) else {
            return;
        };
        match post.check(state) {
            Ok(index) => log.checked(index, &same),
            Err(_) => log.fault(),
        }
    }

    /// Begins a round. Only the lead may, and only once its last round is closed.
    fn begin(&self, dice: &mut Dice, log: &mut AnswerLog, post: &mut Post)
        ensures { IsSamePost post.old post.new }
    {
        let Some((state, same)) = random_states(self.alloc, dice, self.settings.state) else {
            return;
        };
        let is_lead = post.number() == 0;
        match post.begin(state) {
            Ok(round) => log.begun(round, &same),
            Err(why) => match why {
                BeginWhy::NotLead => {
                    if is_lead {
                        log.fault();
                    }
                }
                BeginWhy::RoundOpen | BeginWhy::RingFull => {}
                BeginWhy::OutOfMemory
                | BeginWhy::StateTooLong
                | BeginWhy::NoMoreRounds
                | BeginWhy::TapeFull => log.fault(),
            },
        }
    }

    /// Reports what has not been reported.
    fn report(&self, log: &mut AnswerLog, post: &mut Post)
        ensures { IsSamePost post.old post.new }
    {
        match post.report() {
            Ok(reported) => log.told(&reported, post.tape().len()),
            Err(_) => log.fault(),
        }
    }

    /// One turn: a random call, a sweep, or a yield.
    fn turn(&self, dice: &mut Dice, log: &mut AnswerLog, post: &mut Post)
        ensures { IsSamePost post.old post.new }
    {
        let receives = self.settings.sends.wrapping_add(self.settings.receives);
        let checks = receives.wrapping_add(self.settings.checks);
        let reports = checks.wrapping_add(self.settings.reports);
        let sweeps = reports.wrapping_add(self.settings.sweeps);
        let begins = sweeps.wrapping_add(self.settings.begins);
        let way = dice.below(begins.wrapping_add(self.settings.yields).max(1));
        if way < self.settings.sends {
            self.send(dice, log, post);
            return;
        }
        if way < receives {
            self.receive_one(dice, log, post);
            return;
        }
        if way < checks {
            self.check(dice, log, post);
            return;
        }
        if way < reports {
            self.report(log, post);
            return;
        }
        if way < sweeps {
            self.sweep(dice, log, post);
            return;
        }
        if way < begins {
            self.begin(dice, log, post);
            return;
        }
        yield_now();
    }

    /// Counts this worker as started and, if the settings say so, waits until all have started.
    fn meet(&self) {
        self.started.fetch_add(1, Ordering::SeqCst);
        if !self.settings.meets {
            return;
        }
        for _look in 0..LOOKS {
            if self.started.load(Ordering::SeqCst) >= self.n {
                return;
            }
            yield_now();
        }
    }

    /// Takes reports, and plans as often as the settings say after new ones came, else once in a
    /// hundred times.
    fn look(&self, dice: &mut Dice, watch: &mut Watch, collector: &mut Collector)
        ensures { HasCollectedMore collector.old collector.new }
    {
        let mut is_new = false;
        match collector.take(self.settings.takes) {
            Ok(taken) => {
                is_new = taken > 0;
                watch.taken = watch.taken.wrapping_add(u64::from(taken));
            }
            Err(_) => watch.fault(),
        }
        if dice.percent(if is_new { self.settings.plans } else { 1 }) {
            watch.plan(self.alloc, dice, collector, &self.marks, &self.everyone);
        }
    }
}

impl Work for RandomWork {
    fn work(&self, post: Post) -> Post
        ensures { IsSamePost post result }
    {
        let mut post = post;
        let p = post.number();
        let mut dice = Dice::new(self.seed ^ (u64::from(p) << 40));
        let mut log = AnswerLog::new(post.tape().len());
        self.meet();
        let turns = match self.turns.get(p as usize) {
            Some(turns) => *turns,
            None => 0,
        };
        for _turn in 0..turns {
            self.turn(&mut dice, &mut log, &mut post);
        }
        if let Some(cell) = self.logs.get(p as usize) {
            let _ = cell.try_set(log);
        }
        self.ended.fetch_add(1, Ordering::SeqCst);
        post
    }

    fn collect(&self, collector: Collector) -> Collector
        ensures { HasCollectedMore collector result }
    {
        let mut collector = collector;
        let mut dice = Dice::new(!self.seed);
        let mut watch = Watch::new(self.alloc);
        for _look in 0..LOOKS {
            let is_last = self.ended.load(Ordering::SeqCst) >= self.n;
            self.look(&mut dice, &mut watch, &mut collector);
            if is_last {
                let _ = self.watch.try_set(watch);
                return collector;
            }
            yield_now();
        }
        let _ = self.watch.try_set(watch);
        collector
    }
}
