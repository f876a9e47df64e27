//! What a generation did, as records that `scripts/trial workers` judges.

use crate::logs::AnswerLog;
use crate::watches::Watch;
use anyhow::Result;
use line_claims::write_history;
use line_names::{Choice, MOST_PROCESSES, MsgName, ProcId, ProcIdError};
use line_plan::Plan;
use line_posts::{Collector, Post};
use line_tape::{History, Tape};
use std::alloc::Global;
use std::io;
use std::io::Write;

/// A text that grows until it is printed.
#[derive(Drop)]
pub struct Text {
    alloc: Global,
    text: String,
}

impl Text {
    /// No text yet.
    pub fn new(alloc: Global) -> Text {
        Text {
            alloc,
            text: String::new(alloc),
        }
    }

    /// Prints all of it.
    pub fn print<R: Print>(&mut self, rt: &R) -> Result<()> {
        rt.print(self.text.as_str())?;
        self.text.clear();
        Ok(())
    }

    /// Adds a record: its kind, and then numbers.
    pub fn row(&mut self, kind: &str, numbers: &[u64]) -> Result<()> {
        self.text.push_str(kind)?;
        for number in numbers {
            write!(self.text, ",{number}")?;
        }
        self.text.push_str("\n")?;
        Ok(())
    }

    fn choice(&mut self, choice: Choice) -> Result<()> {
        match choice {
            Choice::Check(check) => write!(self.text, ",{check}")?,
            Choice::Now => self.text.push_str(",now")?,
        }
        Ok(())
    }

    fn name(&mut self, name: &MsgName) -> Result<()> {
        let (from, inc, number) = (name.from.get(), name.inc, name.number);
        write!(self.text, ",{from},{inc},{number}")?;
        Ok(())
    }

    /// Adds the line, the replays and the certificate of a plan.
    pub fn plan(&mut self, plan: &Plan) -> Result<()> {
        let sweeps = plan.sweeps;
        write!(self.text, "line,{sweeps}")?;
        for choice in plan.line.choices() {
            self.choice(*choice)?;
        }
        self.text.push_str("\n")?;
        for replay in &plan.replays {
            self.text.push_str("replay")?;
            self.name(replay)?;
            self.text.push_str("\n")?;
        }
        for passed in &plan.certificate {
            let at = passed.at.get();
            write!(self.text, "pass,{at}")?;
            self.choice(passed.choice)?;
            self.name(&passed.message)?;
            self.text.push_str("\n")?;
        }
        Ok(())
    }

    /// Adds what worker `p` kept of the answers to its calls.
    pub fn log(&mut self, p: usize, log: &AnswerLog) -> Result<()> {
        self.row(
            "log",
            &[
                p as u64,
                u64::from(log.digest()),
                u64::from(log.reported),
                u64::from(log.full),
                u64::from(log.nothing),
                u64::from(log.faults),
            ],
        )
    }

    /// Adds what the collector took and planned, how many of its lines are consistent in the
    /// gathered history, and some of its plans.
    pub fn watch(&mut self, watch: &Watch, gathered: &History) -> Result<()> {
        let planned = watch.lines.len() as u64;
        let kept = u64::from(watch.kept_in(gathered));
        self.row(
            "watch",
            &[watch.taken, planned, kept, u64::from(watch.faults)],
        )?;
        for live in &watch.plans {
            self.text.push_str("live")?;
            for events in &live.events {
                write!(self.text, ",{events}")?;
            }
            self.text.push_str("\n")?;
            self.plan(&live.plan)?;
        }
        Ok(())
    }
}

/// The process of this number, among `n`.
pub fn process(p: u32, n: u32) -> Result<ProcId> {
    if n as usize > MOST_PROCESSES {
        return Err(ProcIdError::NoSuchProcess.into());
    }
    Ok(ProcId::try_new(p, n)?)
}

/// Adds the events of a tape to a process of a history.
fn push_tape(alloc: Global, history: &mut History, p: ProcId, tape: &Tape) -> Result<()> {
    for i in 0..tape.len() {
        history.push(p, tape.event(i).to_event(alloc)?)?;
    }
    Ok(())
}

/// The workers' own tapes, as a history with the incarnations that the collector knows.
pub fn own_history(alloc: Global, collector: &Collector, posts: &Vec<Post>) -> Result<History> {
    let history = collector.history();
    let mut own = History::new(alloc, history.n())?;
    for post in posts {
        let incarnation = history.incarnation(ProcId::try_new(post.number(), history.n())?);
        let p = ProcId::try_new(post.number(), own.n())?;
        own.set_incarnation(p, incarnation);
        push_tape(alloc, &mut own, p, post.tape())?;
    }
    Ok(own)
}

/// Prints a history, with a record of this kind before it and `end` after it.
pub fn print_history<R: Print>(rt: &R, alloc: Global, kind: &str, history: &History) -> Result<()> {
    println!(rt; "{kind}")?;
    let text = write_history(alloc, history)?;
    io::writer(rt).write_all(&text)?;
    println!(rt; "end")?;
    Ok(())
}
