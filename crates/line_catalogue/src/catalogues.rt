//! A history that agrees, with its marks of damage and its bars.
ghost use Rattle.std.specs.Prelude.{◌≡◌, ◌≢◌, ◌<◌, ◌≤◌, ◌+◌, ◌↔◌, ◌⊎◌, ℕ, [], List, length};
ghost use Rattle.std.specs.Prelude.{replicate, IfOk, IsOk, OnOk, OnErr, IsErrOf};
ghost use Rattle.std.specs.Prelude.{IsTrue};
ghost use Rattle.std.specs.Prelude.{IfSome};
ghost use Rattle.std.specs.Option.{SomeIff};
ghost use Rattle.line_names.specs.declared.choices.Choice.{Choice};
ghost use Rattle.line_names.specs.Order.{IsNoLater};
ghost use Rattle.line_tape.specs.Chain.{latest_check, next_lower};
ghost use Rattle.line_tape.specs.Event.{checks, HasLongState, NamesBelow};
ghost use Rattle.line_tape.specs.History.{fresh, tape_at, with_event, IsHistory};
ghost use Rattle.line_tape.specs.Line.{IsLine, IsConsistent};
ghost use Rattle.line_tape.specs.Restart.{restarted_history, restarted_marks, HaveFurther};
ghost use Rattle.line_tape.specs.Survival.{survives, is_barred, is_damaged};
ghost use Rattle.line_tape.specs.Transit.{in_transit};
ghost use Rattle.line_tape.specs.Views.{damaged_at, no_marks, with_bar, with_mark};
ghost use Rattle.line_catalogue.specs.Agreement.{Agrees, AgreesNext};
ghost use Rattle.line_catalogue.specs.Damage.{AreOnChecks};
ghost use Rattle.line_catalogue.specs.Rows.{AreRows};
ghost use Rattle.line_catalogue.specs.Views.{catalogue_room_at};

mod appends;
mod vectors;

use crate::agreement::{agrees, are_on_checks};
use crate::kept_rows::Rows;
use crate::ledgers::Ledger;
use crate::refusals::{AddError, CatalogueError, DamageError};
use crate::strangers::find_strangers;
use crate::tables::RowTable;
use line_names::{Choice, Line, MOST_PROCESSES, MsgName, ProcId, ProcSet};
use line_tape::{BarError, CountError, Event, History, MOST_EVENTS, Marks};
use std::alloc::{AllocError, Global};
use std::marker::Model;

/// A history that agrees, with marks of damage and bars on its checks.
///
/// It answers what a planner asks of choices from rows that it keeps beside them, one for each
/// check, and grows with its history event by event. A row has the vector of its check, and each
/// process one of where it stands: how much was received from each other process before. So a check
/// takes sixteen bytes more, and 4n among n processes where its process received something since
/// the check before; and no question about a choice looks at events, as only `transit` does.
#[derive(Drop)]
pub struct Catalogue {
    ledger: Ledger,
    marks: Marks,
    rows: RowTable,
}

impl Model for Catalogue {
    ghost use Rattle.line_catalogue.specs.Views.{CatalogueView, lesser_rooms};

    ghost Value = { CatalogueView };

    ghost use Rattle.line_catalogue.specs.Kept.{IsCatalogue};

    ghost view = { λ c. record {
      processes = c.ledger.processes;
      marks = c.marks;
      rooms = lesser_rooms c.ledger.rooms c.rows.rooms;
    } };

    ghost invariant = { λ c. IsCatalogue c.ledger.processes c.marks c.rows.rows c.rows.presents };
}

impl Catalogue {
    /// The catalogue of `n` processes that have done nothing yet.
    pub fn new(alloc: Global, n: u32) -> Result<Catalogue, CountError>
        ensures processes { IfOk result (λ catalogue. catalogue.processes ≡ replicate n fresh) }
        ensures marks { IfOk result (λ catalogue. catalogue.marks ≡ no_marks n) }
        ensures count { IsErrOf result CountError.BadCount ↔ ((n ≡ 0) ⊎ (MOST_PROCESSES < n)) }
    {
        let history = History::new(alloc, n)?;
        let marks = Marks::new(alloc, n)?;
        let rows = RowTable::of(alloc, &history, &marks)?;
        let ledger = Ledger::of(alloc, history)?;
        Ok(Catalogue {
            ledger,
            marks,
            rows,
        })
    }

    /// The catalogue of a history and its marks, in memory of its own.
    ///
    /// It copies the history, looks twice at each event, and asks once for a mark of each check.
    pub fn of(alloc: Global, history: &History, marks: &Marks) -> Result<Catalogue, CatalogueError>
        requires { length marks.now.damaged ≡ length history.now.processes }
        ensures processes { IfOk result (λ catalogue. catalogue.processes ≡ history.now.processes) }
        ensures marks { IfOk result (λ catalogue. catalogue.marks ≡ marks.now) }

        // The refusals, in their order.
        ensures check { IsErrOf result CatalogueError.NoSuchCheck
            ↔ (AreOnChecks history.now.processes marks.now → ⊥) }
        ensures names { IsErrOf result CatalogueError.NamesDisagree
            ↔ (AreOnChecks history.now.processes marks.now × (Agrees history.now.processes → ⊥)) }
    {
        if !are_on_checks(history, marks) {
            return Err(CatalogueError::NoSuchCheck);
        }
        if !agrees(history) {
            return Err(CatalogueError::NamesDisagree);
        }
        let rows = RowTable::of(alloc, history, marks)?;
        let ledger = Ledger::of(alloc, history.copy(alloc)?)?;
        let marks = marks.copy(alloc)?;
        Ok(Catalogue {
            ledger,
            marks,
            rows,
        })
    }

    /// How many processes it has.
    pub fn n(&self) -> u32
        ensures value { result ≡ length self.now.processes }
        ensures limits { IsHistory self.now.processes }
    {
        self.ledger.history().n()
    }

    /// Its history.
    pub fn history(&self) -> &History
        ensures processes { result.now.processes ≡ self.now.processes }
        ensures agrees { Agrees self.now.processes }
    {
        self.ledger.history()
    }

    /// Its marks of damage and its bars.
    pub fn marks(&self) -> &Marks
        ensures value { result.now ≡ self.now.marks }
        ensures count { length self.now.marks.damaged ≡ length self.now.processes }
        ensures exist { AreOnChecks self.now.processes self.now.marks }
    {
        &self.marks
    }

    /// What is known of each check of a process: first its initial state, then the checks in their
    /// order. It costs nothing.
    pub fn rows(&self, p: ProcId) -> Rows<'_>
        requires { p < length self.now.processes }
        ensures { AreRows (length self.now.processes) (tape_at self.now.processes p)
            (damaged_at self.now.marks p) result }
    {
        self.rows.at(p)
    }

    /// Whether a choice of a process survives: its initial state does, and of what the process's
    /// bar allows each check without a mark, and `Now` where it did not fail. It costs nothing.
    pub fn survives(&self, p: ProcId, choice: Choice, failed: &ProcSet) -> bool
        requires { p < length self.now.processes }
        ensures { result ≡ survives self.now.processes self.now.marks failed.now p choice }
    {
        match choice {
            Choice::Check(0) => true,
            Choice::Check(c) => {
                let rows = self.rows.at(p);
                (c as usize) < rows.len()
                    && !rows.at(c as usize).damaged
                    && self.marks.allows(p, choice)
            }
            Choice::Now => !failed.has(p) && self.marks.allows(p, Choice::Now),
        }
    }

    /// The latest surviving check up to check `last`; the initial state where none survives.
    fn latest_check(&self, p: ProcId, last: u32, failed: &ProcSet) -> Choice
        requires { p < length self.now.processes }
        ensures { result
            ≡ latest_check (survives self.now.processes self.now.marks failed.now p) last }
    {
        let mut check = last;
        while check > 0 {
            if self.survives(p, Choice::Check(check), failed) {
                return Choice::Check(check);
            }
            check -= 1;
        }
        Choice::Check(0)
    }

    /// The latest surviving choice of a process before a choice; none before the initial state. It
    /// looks at one check for each that does not survive.
    pub fn next_lower(&self, p: ProcId, choice: Choice, failed: &ProcSet) -> Option<Choice>
        requires { p < length self.now.processes }
        ensures value { SomeIff result (choice ≢ Choice.Check 0)
            (next_lower self.now.processes self.now.marks failed.now p choice) }
        ensures survives { IfSome result
            (λ lower. IsTrue (survives self.now.processes self.now.marks failed.now p lower)) }
        ensures latest { IfSome result (λ lower. (other : Choice)
            → IsTrue (survives self.now.processes self.now.marks failed.now p other)
            → IsNoLater other choice → other ≢ choice → IsNoLater other lower) }
    {
        match choice {
            Choice::Check(0) => None,
            Choice::Check(c) => Some(self.latest_check(p, c - 1, failed)),
            Choice::Now => Some(self.latest_check(
                p,
                self.ledger.history().tape(p).checks(),
                failed,
            )),
        }
    }

    /// Makes room for so many further events of a process: its next `k` additions take no memory.
    /// Now and then it keeps the messages that are in transit now, for `transit`, at a cost that
    /// the events since have paid for; where memory for it is refused, nothing else differs.
    #[tactic(auto, using(crate::proofs::CatalogueLemmas::lesser_at))]
    pub fn reserve(&mut self, p: ProcId, k: u32) -> Result<(), AllocError>
        requires { p < length self.old.processes }
        ensures processes { self.new.processes ≡ self.old.processes }
        ensures marks { self.new.marks ≡ self.old.marks }
        ensures ok { OnOk result (k ≤ catalogue_room_at self.new p) }
        ensures succeeds { k ≤ catalogue_room_at self.old p → IsOk result }
        ensures room { catalogue_room_at self.old p ≤ catalogue_room_at self.new p }
        ensures others { (q : ℕ) → q ≢ p
            → catalogue_room_at self.new q ≡ catalogue_room_at self.old q }
    {
        self.ledger.reserve(p, k)?;
        self.rows.reserve(p, k)
    }

    /// Adds an event at the end of the tape of a process. A check costs a vector where something
    /// was received since the last one; any other event costs the same however much was added
    /// before, but for a receipt out of order and for what `reserve` does now and then.
    pub fn add(&mut self, p: ProcId, event: Event) -> Result<(), AddError>
        ensures ok { OnOk result (self.new.processes ≡ with_event self.old.processes p event) }
        ensures err { OnErr result (self.new.processes ≡ self.old.processes) }
        ensures marks { self.new.marks ≡ self.old.marks }
        ensures kept { OnErr result (catalogue_room_at self.old p ≤ catalogue_room_at self.new p) }

        // The refusals, in their order: p and the processes that the event names are asked first.
        ensures process { IsErrOf result AddError.NoSuchProcess
            ↔ ((length self.old.processes ≤ p)
            ⊎ (NamesBelow (length self.old.processes) event → ⊥)) }
        ensures long { IsErrOf result AddError.StateTooLong
            ↔ ((p < length self.old.processes) × NamesBelow (length self.old.processes) event
            × HasLongState event) }
        ensures full { IsErrOf result AddError.TapeFull
            ↔ ((p < length self.old.processes) × NamesBelow (length self.old.processes) event
            × (HasLongState event → ⊥) × (length (tape_at self.old.processes p) ≡ MOST_EVENTS)) }
        ensures names { IsErrOf result AddError.NamesDisagree
            ↔ ((p < length self.old.processes) × NamesBelow (length self.old.processes) event
            × (HasLongState event → ⊥) × (length (tape_at self.old.processes p) ≢ MOST_EVENTS)
            × (AgreesNext self.old.processes p event → ⊥)) }

        // With room memory is never refused, and one event takes room for one at most.
        ensures room { 0 < catalogue_room_at self.old p → result ≢ Err AddError.OutOfMemory }
        ensures spent { catalogue_room_at self.old p ≤ catalogue_room_at self.new p + 1 }
        ensures others { (q : ℕ) → q ≢ p
            → catalogue_room_at self.new q ≡ catalogue_room_at self.old q }
    {
        self.test(p, &event)?;
        self.reserve(p, 1)?;
        self.append(p, event);
        Ok(())
    }

    /// Marks a check as damaged. It costs the logarithm of the marks of the process.
    pub fn damage(&mut self, p: ProcId, check: u32) -> Result<(), DamageError>
        requires { p < length self.old.processes }
        ensures ok { OnOk result (self.new.marks ≡ with_mark self.old.marks p check) }
        ensures err { OnErr result (self.new.marks ≡ self.old.marks) }
        ensures processes { self.new.processes ≡ self.old.processes }
        ensures rooms { self.new.rooms ≡ self.old.rooms }

        // The refusals, in their order.
        ensures check { IsErrOf result DamageError.NoSuchCheck
            ↔ (checks (tape_at self.old.processes p) < check) }
        ensures initial { IsErrOf result DamageError.InitialDamage ↔ (check ≡ 0) }
        ensures already { IsErrOf result DamageError.AlreadyDamaged
            ↔ ((check ≤ checks (tape_at self.old.processes p)) × (check ≢ 0)
            × IsTrue (is_damaged self.old.marks p check)) }
    {
        if check as usize >= self.rows.at(p).len() {
            return Err(DamageError::NoSuchCheck);
        }
        self.marks.mark(p, check)?;
        self.rows.damage(p, check);
        Ok(())
    }

    /// Bars a process at a check: none of its choices later than that check survives, until the
    /// next restart. Check 0 is its initial state. It costs nothing.
    pub fn bar(&mut self, p: ProcId, check: u32) -> Result<(), BarError>
        requires { p < length self.old.processes }
        ensures ok { OnOk result (self.new.marks ≡ with_bar self.old.marks p check) }
        ensures err { OnErr result (self.new.marks ≡ self.old.marks) }
        ensures processes { self.new.processes ≡ self.old.processes }
        ensures rooms { self.new.rooms ≡ self.old.rooms }

        // The refusals, in their order.
        ensures check { IsErrOf result BarError.NoSuchCheck
            ↔ (checks (tape_at self.old.processes p) < check) }
        ensures lower { IsErrOf result BarError.BarNotLower
            ↔ ((check ≤ checks (tape_at self.old.processes p))
            × IsTrue (is_barred self.old.marks p check)) }
    {
        if self.rows.at(p).len() <= check as usize {
            return Err(BarError::NoSuchCheck);
        }
        self.marks.bar(p, check)
    }

    /// The messages in transit at a line, by sender, then number: those whose send stands before
    /// the line, and which the process that the send names has not received before its own choice.
    ///
    /// It looks at what was in transit at a line that is kept, at each send after that one, and at
    /// each event between the two; it takes memory for these and for the result, and fails without.
    /// `keep_transit`, `restart_with` and now and then `reserve` keep a line, `restart` none.
    pub fn transit(&self, alloc: Global, line: &Line) -> Result<Vec<MsgName>, AllocError>
        requires { IsLine self.now.processes line.now }
        ensures { IfOk result
            (λ messages. messages.items ≡ in_transit self.now.processes line.now) }
    {
        self.ledger
            .transit(&find_strangers(self, line), alloc, line)
    }

    /// Keeps what is in transit at a line, as `transit` answers it there, so that no other send
    /// before the line is looked at again. No answer changes by it. It looks once at each process.
    pub fn keep_transit(&mut self, line: &Line, messages: Vec<MsgName>)
        requires line { IsLine self.old.processes line.now }
        requires transit { messages.items ≡ in_transit self.old.processes line.now }
        ensures { self.new ≡ self.old }
    {
        self.ledger.keep(line, messages);
    }

    /// Goes on from a consistent line, with what is in transit there if that is told.
    #[tactic(auto, using(crate::proofs::CatalogueLemmas::lesser_at))]
    fn go_on(&mut self, line: &Line, left: Option<Vec<MsgName>>)
        requires line { IsLine self.old.processes line.now }
        requires consistent { IsConsistent self.old.processes line.now }
        requires further { HaveFurther self.old.processes line.now }
        requires left { IfSome left (λ left. left.items ≡ in_transit self.old.processes line.now) }
        ensures processes { self.new.processes ≡ restarted_history self.old.processes line.now }
        ensures marks { self.new.marks ≡ restarted_marks self.old.marks line.now }
        ensures room { (p : ℕ) → catalogue_room_at self.old p ≤ catalogue_room_at self.new p }
    {
        self.ledger.restart(line, left);
        self.marks.restart(line);
        self.rows.restart(self.ledger.history(), line);
    }

    /// Has each process go on from its choice of a consistent line, as `History::restart` does,
    /// takes the marks off the checks that it cuts off, and takes all bars away. It takes no memory
    /// and cannot fail.
    ///
    /// Each message that is received before a consistent line is sent before it, so the history
    /// goes on to agree. It looks at the marks that it takes off, at one more and one vector of
    /// each process that goes back, at each check that came since the last restart, and otherwise
    /// costs what `History::restart` does.
    pub fn restart(&mut self, line: &Line)
        requires line { IsLine self.old.processes line.now }
        requires consistent { IsConsistent self.old.processes line.now }
        requires further { HaveFurther self.old.processes line.now }
        ensures processes { self.new.processes ≡ restarted_history self.old.processes line.now }
        ensures marks { self.new.marks ≡ restarted_marks self.old.marks line.now }
        ensures room { (p : ℕ) → catalogue_room_at self.old p ≤ catalogue_room_at self.new p }
    {
        self.go_on(line, None);
    }

    /// Does what `restart` does, and keeps what is in transit at the line, as `transit` answers it
    /// there, so that no other send is looked at again.
    pub fn restart_with(&mut self, line: &Line, left: Vec<MsgName>)
        requires line { IsLine self.old.processes line.now }
        requires consistent { IsConsistent self.old.processes line.now }
        requires further { HaveFurther self.old.processes line.now }
        requires left { left.items ≡ in_transit self.old.processes line.now }
        ensures processes { self.new.processes ≡ restarted_history self.old.processes line.now }
        ensures marks { self.new.marks ≡ restarted_marks self.old.marks line.now }
        ensures room { (p : ℕ) → catalogue_room_at self.old p ≤ catalogue_room_at self.new p }
    {
        self.go_on(line, Some(left));
    }
}
