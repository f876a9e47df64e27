//! What the collector took and planned while the workers ran.

use crate::dice::Dice;
use line_check::{check_certificate, check_consistent};
use line_names::{Line, MOST_PROCESSES, ProcId, ProcSet};
use line_plan::Plan;
use line_posts::Collector;
use line_tape::{History, Marks};
use std::alloc::{AllocError, Global};

/// How many plans are kept whole.
const KEPT: usize = 8;

/// A plan, and how many events of each worker it was planned from.
#[derive(Drop)]
pub struct LivePlan {
    pub events: Vec<u32>,
    pub plan: Plan,
}

/// What the collector took and planned: each line, and some plans whole.
#[derive(Drop)]
pub struct Watch {
    pub taken: u64,
    pub lines: Vec<Line>,
    pub plans: Vec<LivePlan>,
    pub faults: u32,
}

/// A copy of a line.
fn same_line(line: &Line) -> Line {
    let mut same = Line::new();
    for choice in line.choices() {
        if (same.len() as usize) < MOST_PROCESSES {
            same.push(*choice);
        }
    }
    same
}

/// Whether the checker accepts a plan.
pub fn is_right(history: &History, marks: &Marks, failed: &ProcSet, plan: &Plan) -> bool {
    check_consistent(history, &plan.line).is_ok()
        && check_certificate(history, marks, failed, &plan.line, &plan.certificate).is_ok()
}

impl Watch {
    /// Nothing is taken or planned yet.
    pub fn new(alloc: Global) -> Watch {
        Watch {
            taken: 0,
            lines: Vec::new(alloc),
            plans: Vec::new(alloc),
            faults: 0,
        }
    }

    /// Counts something that is not as it must be.
    pub fn fault(&mut self) {
        self.faults = self.faults.wrapping_add(1);
    }

    /// Keeps the line of a plan. The first plans are kept whole, and each later one takes the place
    /// of a random one of these, or of none.
    fn keep(
        &mut self,
        alloc: Global,
        dice: &mut Dice,
        history: &History,
        plan: Plan,
    ) -> Result<(), AllocError> {
        self.lines.push(same_line(&plan.line))?;
        let mut events = Vec::new(alloc);
        let n = history.n();
        for p in 0..n {
            if let Ok(p) = ProcId::try_new(p, n) {
                events.push(history.tape(p).len())?;
            }
        }
        let live = LivePlan { events, plan };
        if self.plans.len() < KEPT {
            self.plans.push(live)?;
            return Ok(());
        }
        let at = dice.below(1 + (self.lines.len() % 100_000) as u32) as usize;
        if at < self.plans.len() {
            self.plans[at] = live;
        }
        Ok(())
    }

    /// Plans of what was collected, has the checker judge the plan, and keeps it.
    pub fn plan(
        &mut self,
        alloc: Global,
        dice: &mut Dice,
        collector: &Collector,
        marks: &Marks,
        everyone: &ProcSet,
    ) {
        let Ok(plan) = collector.plan_live() else {
            self.fault();
            return;
        };
        if !is_right(collector.history(), marks, everyone, &plan) {
            self.fault();
        }
        if self.keep(alloc, dice, collector.history(), plan).is_err() {
            self.fault();
        }
    }

    /// How many of the kept lines are consistent in a later history.
    pub fn kept_in(&self, history: &History) -> u32 {
        let mut kept = 0u32;
        for line in &self.lines {
            if check_consistent(history, line).is_ok() {
                kept = kept.wrapping_add(1);
            }
        }
        kept
    }
}
