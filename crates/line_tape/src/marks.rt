//! Marks of damage, and bars.
ghost use Rattle.std.specs.Prelude.{◌≡◌, ◌≢◌, ◌<◌, ◌≤◌, ◌↔◌, ◌-◌, ◌==◌, ℕ, false, [], ◌∷◌, ◌++◌};
ghost use Rattle.std.specs.Prelude.{All, IsTrue, length, filter, slice_get, IfOk, IfSome, None};
ghost use Rattle.std.specs.Prelude.{OnOk, OnErr, IsErrOf, Some};
ghost use Rattle.std.specs.List.{list_any};
ghost use Rattle.line_tape.specs.Marked.{checks_marked, AreNumberedBelow};
ghost use Rattle.line_tape.specs.Restart.{is_kept, restarted_marks};
ghost use Rattle.line_tape.specs.Survival.{is_allowed, is_barred, is_damaged};
ghost use Rattle.line_tape.specs.Views.{bar_at, damaged_at, no_marks, with_bar, with_mark};

use crate::bars::{BarError, Bars};
use line_names::{Choice, Line, ProcId};
use std::alloc::{AllocError, Global};
use std::collections::BTreeMap;
use std::marker::Model;
use thiserror::Error;

/// The damaged checks of one process, each with the number of its mark: marks are numbered in the
/// order in which they are made.
#[derive(Drop)]
struct Damaged {
    numbers: BTreeMap<u32, u64>,
    next: u64,
}

impl Model for Damaged {
    ghost use Rattle.std.specs.Prelude.{List, ℕ};

    ghost Value = { List ℕ };

    ghost use Rattle.line_tape.specs.Marked.{checks_marked, AreNumberedBelow};

    ghost view = { λ d. checks_marked d.numbers.entries };

    ghost invariant = { λ d. AreNumberedBelow d.next d.numbers.entries };
}

/// The greatest check that has a mark.
fn greatest(numbers: &BTreeMap<u32, u64>) -> Option<u32>
    ensures none { (result ≡ None) ↔ (numbers.now.entries ≡ []) }
    ensures last { IfSome result (λ check. (number : ℕ)
        × (slice_get numbers.now.entries (length numbers.now.entries - 1) ≡ Some (check, number))) }
    ensures greatest { IfSome result (λ check. All (λ mark. mark.0 ≤ check) numbers.now.entries) }
{
    match numbers.last_key_value() {
        Some((check, _)) => Some(*check),
        None => None,
    }
}

impl Damaged {
    /// Whether a check carries a mark.
    fn has(&self, check: u32) -> bool
        ensures { result ≡ list_any (λ damaged. damaged == check) self.now }
    {
        self.numbers.contains_key(&check)
    }

    /// Marks a check that has no mark yet.
    fn mark(&mut self, check: u32) -> Result<(), AllocError>
        requires { list_any (λ damaged. damaged == check) self.old ≡ false }
        ensures ok { OnOk result (self.new ≡ self.old ++ check ∷ []) }
        ensures err { OnErr result (self.new ≡ self.old) }
    {
        let Some(next) = self.next.checked_add(1) else {
            return Err(AllocError);
        };
        self.numbers.insert(check, self.next)?;
        self.next = next;
        Ok(())
    }

    /// Takes the marks off the checks that come after a choice. It takes no memory, and looks at
    /// the marks that it takes off and at one more.
    fn restart(&mut self, choice: Choice)
        ensures { self.new ≡ filter (is_kept choice) self.old }
    {
        let Choice::Check(last) = choice else {
            return;
        };
        while let Some(check) = greatest(&self.numbers) {
            if check <= last {
                return;
            }
            let _ = self.numbers.pop_last();
        }
    }

    /// The latest damaged check.
    fn latest(&self) -> Option<u32>
        ensures none { (result ≡ None) ↔ (self.now ≡ []) }
        ensures marked { IfSome result (λ check.
            IsTrue (list_any (λ damaged. damaged == check) self.now)) }
        ensures latest { IfSome result (λ check. All (λ damaged. damaged ≤ check) self.now) }
    {
        greatest(&self.numbers)
    }

    /// The same marks in memory of their own.
    fn copy(&self) -> Result<Damaged, AllocError>
        ensures { IfOk result (λ damaged. damaged ≡ self.now) }
    {
        let numbers = self.numbers.clone()?;
        Ok(Damaged {
            numbers,
            next: self.next,
        })
    }
}

/// Which checks are damaged, and where processes are barred, process by process.
///
/// A process that is barred at a check must not go on later than from there, for instance because
/// its results are known to be wrong from then on. A mark and a bar are the caller's word: nothing
/// here looks at the bytes of a check, and they may name a check that no tape has.
#[derive(Drop)]
pub struct Marks {
    damaged: Vec<Damaged>,
    bars: Bars,
}

impl Model for Marks {
    ghost use Rattle.line_tape.specs.Views.{MarksView};

    ghost Value = { MarksView };

    ghost use Rattle.std.specs.Prelude.{◌≡◌, length};

    ghost view = { λ m. record { damaged = m.damaged.items; bars = m.bars } };

    ghost invariant = { λ m. length m.bars ≡ length m.damaged.items };
}

impl Marks {
    /// No marks and no bars yet, for `n` processes.
    pub fn new(alloc: Global, n: u32) -> Result<Marks, AllocError>
        ensures { IfOk result (λ marks. marks ≡ no_marks n) }
    {
        let bars = Bars::new(alloc, n)?;
        let mut damaged = Vec::with_capacity(alloc, n as usize)?;
        for _p in 0..n {
            damaged.push(Damaged {
                numbers: BTreeMap::new(alloc),
                next: 0,
            })?;
        }
        Ok(Marks { damaged, bars })
    }

    /// Marks a check as damaged. It costs the logarithm of the marks of the process.
    pub fn mark(&mut self, p: ProcId, check: u32) -> Result<(), MarkError>
        requires { p < length self.old.damaged }
        ensures ok { OnOk result (self.new ≡ with_mark self.old p check) }
        ensures err { OnErr result (self.new ≡ self.old) }

        // The refusals, in their order.
        ensures initial { IsErrOf result MarkError.InitialDamage ↔ (check ≡ 0) }
        ensures already { IsErrOf result MarkError.AlreadyDamaged
            ↔ ((check ≢ 0) × IsTrue (is_damaged self.old p check)) }
    {
        if check == 0 {
            return Err(MarkError::InitialDamage);
        }
        if self.has(p, check) {
            return Err(MarkError::AlreadyDamaged);
        }
        let damaged = &mut self.damaged[p.get() as usize];
        damaged.mark(check)?;
        Ok(())
    }

    /// Bars a process at a check: none of its choices later than that check survives, until the
    /// next restart. The process may have been barred at a later check before; check 0 is its
    /// initial state.
    pub fn bar(&mut self, p: ProcId, check: u32) -> Result<(), BarError>
        requires { p < length self.old.damaged }
        ensures ok { OnOk result (self.new ≡ with_bar self.old p check) }
        ensures err { OnErr result (self.new ≡ self.old) }
        ensures lower { IsErrOf result BarError.BarNotLower ↔ IsTrue (is_barred self.old p check) }
        ensures check { IsErrOf result BarError.NoSuchCheck → ⊥ }
    {
        if let Some(bar) = self.bar_of(p) {
            if bar <= check {
                return Err(BarError::BarNotLower);
            }
        }
        self.bars.set(p.get() as usize, check);
        Ok(())
    }

    /// The check that a process is barred at, if it is.
    pub fn bar_of(&self, p: ProcId) -> Option<u32>
        ensures { result ≡ bar_at self.now p }
    {
        self.bars.at(p.get() as usize)
    }

    /// The check that the process of that number is barred at, if there is the process and it is.
    pub fn bar_at(&self, p: usize) -> Option<u32>
        ensures { result ≡ bar_at self.now p }
    {
        self.bars.at(p)
    }

    /// Whether a choice of a process is not later than its bar, where it has one.
    pub fn allows(&self, p: ProcId, choice: Choice) -> bool
        ensures { result ≡ is_allowed (bar_at self.now p) choice }
    {
        match (self.bar_of(p), choice) {
            (None, _) => true,
            (Some(bar), Choice::Check(c)) => c <= bar,
            (Some(_), Choice::Now) => false,
        }
    }

    /// Takes the marks off the checks that a restart at a line cuts off, and all bars away. It
    /// takes no memory, and looks at the marks that it takes off and at one more of each process.
    pub fn restart(&mut self, line: &Line)
        requires { length self.old.damaged ≤ length line.now }
        ensures { self.new ≡ restarted_marks self.old line.now }
    {
        let choices = line.choices();
        for p in 0..self.damaged.len() {
            self.damaged[p].restart(choices[p]);
        }
        self.bars.clear();
    }

    /// Whether a check carries a mark. It costs the logarithm of the marks of the process.
    pub fn has(&self, p: ProcId, check: u32) -> bool
        ensures { result ≡ is_damaged self.now p check }
    {
        match self.damaged.get(p.get() as usize) {
            Some(damaged) => damaged.has(check),
            None => false,
        }
    }

    /// How many processes it was made for.
    pub fn processes(&self) -> usize
        ensures value { result ≡ length self.now.damaged }
        ensures bars { length self.now.bars ≡ length self.now.damaged }
    {
        self.damaged.len()
    }

    /// The latest damaged check of the process of that number, if it has one. It costs the
    /// logarithm of the marks of the process.
    pub fn latest(&self, p: usize) -> Option<u32>
        requires { p < length self.now.damaged }
        ensures none { (result ≡ None) ↔ (damaged_at self.now p ≡ []) }
        ensures marked { IfSome result (λ check. IsTrue (is_damaged self.now p check)) }
        ensures latest { IfSome result (λ check.
            All (λ damaged. damaged ≤ check) (damaged_at self.now p)) }
    {
        self.damaged[p].latest()
    }

    /// The same marks in memory of their own.
    pub fn copy(&self, alloc: Global) -> Result<Marks, AllocError>
        ensures { IfOk result (λ marks. marks ≡ self.now) }
    {
        let mut damaged = Vec::with_capacity(alloc, self.damaged.len())?;
        for process in &self.damaged {
            damaged.push(process.copy()?)?;
        }
        let bars = self.bars.copy(alloc)?;
        Ok(Marks { damaged, bars })
    }
}

/// Why a check was not marked.
#[derive(Clone, Copy, Debug, PartialEq, Eq, Hash, Error)]
pub enum MarkError {
    /// Memory was refused.
    #[error("out of memory")]
    OutOfMemory = 0,
    /// The check is the initial state, which is never damaged.
    #[error("the initial state of a process cannot be damaged")]
    InitialDamage = 7,
    /// The check is marked already.
    #[error("the check is marked already")]
    AlreadyDamaged = 8,
}

impl MarkError {
    /// The number of the refusal, as replies show it.
    pub fn code(self) -> u32
        ensures memory { self ≡ MarkError.OutOfMemory → result ≡ 0 }
        ensures initial { self ≡ MarkError.InitialDamage → result ≡ 7 }
        ensures already { self ≡ MarkError.AlreadyDamaged → result ≡ 8 }
    {
        self as u32
    }
}

impl From<AllocError> for MarkError {
    ghost use Rattle.std.specs.Prelude.{◌≡◌};
    ghost use Rattle.line_tape.specs.declared.marks.MarkError.TheVariants.{OutOfMemory};

    ghost from_gives = { λ _ e. e ≡ OutOfMemory };

    fn from(_refused: AllocError) -> MarkError {
        MarkError::OutOfMemory
    }
}
