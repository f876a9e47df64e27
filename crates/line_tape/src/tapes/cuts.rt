//! What a restart leaves of the tape of one process.
ghost use Rattle.std.specs.Prelude.{◌≡◌, ◌<◌, ◌≤◌, if◌then◌else◌, ℕ, All, length, slice_index_or};
ghost use Rattle.std.specs.Prelude.{suc, take, vec_len, vec_capacity, Some, None};
ghost use Rattle.std.specs.List.{filter_map};
ghost use Rattle.line_tape.specs.declared.tapes.CheckRow.{CheckRow};
ghost use Rattle.line_tape.specs.Event.{checks};
ghost use Rattle.line_tape.specs.Front.{check_place, front, HasChoice};
ghost use Rattle.line_tape.specs.History.{IsTape};
ghost use Rattle.line_tape.specs.Kept.{IsSettled, HaveCheckPlaces};
ghost use Rattle.line_tape.specs.Restart.{restarted_event};

use super::{CheckRow, Tape};
use crate::limits::MOST_EVENTS;
use crate::logs::Events;
use line_names::Choice;

/// Notes anew where the checks after the first `settled` events stand.
fn place_checks(events: &Events<'_>, settled: usize, rows: &mut Vec<CheckRow>)
    requires few { length events.now ≤ MOST_EVENTS }
    requires within { settled ≤ length events.now }
    requires count { length rows.old.items ≡ checks events.now }
    requires places { (index : ℕ) (d : CheckRow) → index < checks (take settled events.now)
        → (slice_index_or rows.old.items index d).place ≡ check_place events.now (suc index) }
    ensures rows { HaveCheckPlaces events.now rows.old.items rows.new.items }
    ensures len { vec_len rows.new ≡ vec_len rows.old }
    ensures capacity { vec_capacity rows.new ≡ vec_capacity rows.old }
{
    let mut index = rows.len();
    for i in (settled..events.len()).rev() {
        if events.at(i).is_check() {
            index -= 1;
            rows[index].place = i as u32 + 1;
        }
    }
}

impl Tape {
    /// Lets go of what stands after a choice. It looks at that alone.
    fn cut(&mut self, choice: Choice)
        requires { HasChoice self.old.events choice }
        ensures events { self.new.events ≡ front self.old.events choice }
        ensures room { self.old.room ≤ self.new.room }
    {
        let kept = self.row(choice);
        let checks = match choice {
            Choice::Check(c) => c,
            Choice::Now => self.checks(),
        };
        let end = kept.place as usize;
        self.receipts.cut(kept.receipts);
        self.log.truncate(end);
        self.checks.truncate(checks as usize);
        self.incarnations.truncate(kept.sends as usize);
        self.addressees.truncate(kept.sends as usize);
        self.settled = self.settled.min(kept.place);
    }

    /// Takes marks out and the rounds off checks. It looks twice at each event that came since it
    /// last did so.
    fn settle(&mut self)
        ensures events { self.new.events ≡ filter_map restarted_event self.old.events }
        ensures room { self.old.room ≤ self.new.room }
        ensures limits { IsTape self.new.events }
    {
        let settled = self.settled as usize;
        self.log.settle(settled);
        place_checks(&self.log.events(), settled, &mut self.checks);
        self.settled = self.log.len() as u32;
    }

    /// Has the process go on from a choice: what came after it goes, marks go, and checks lose
    /// their round. It takes no memory.
    ///
    /// It looks at most twice at each event that goes with the cut, and twice at each that came
    /// since the last restart and stays: so over a whole run each event is looked at four times at
    /// most, however many restarts there are.
    pub fn restart(&mut self, choice: Choice)
        requires { HasChoice self.old.events choice }
        ensures events { self.new.events
            ≡ filter_map restarted_event (front self.old.events choice) }
        ensures room { self.old.room ≤ self.new.room }
        ensures limits { IsTape self.new.events }
    {
        self.cut(choice);
        self.settle();
    }
}
