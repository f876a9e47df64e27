//! Lines: one choice for each process.
ghost use Rattle.std.specs.Prelude.{◌≡◌, ◌<◌, ◌≤◌, ◌++◌, [], ◌∷◌, length, slice_set};
ghost use Rattle.line_names.specs.Lines.{choice_at};

use crate::choices::Choice;
use crate::limits::MOST_PROCESSES;
use crate::processes::ProcId;
use arrayvec::ArrayVec;
use std::marker::Model;

/// One choice for each process, by the numbers of the processes, kept in the value itself.
#[derive(Debug, PartialEq, Eq, Drop)]
pub struct Line {
    choices: ArrayVec<Choice, MOST_PROCESSES>,
}

impl Model for Line {
    ghost use Rattle.std.specs.Prelude.{List};
    ghost use Rattle.line_names.specs.declared.choices.Choice.{Choice};

    ghost Value = { List Choice };

    ghost view = { λ l. l.choices.items };

    ghost inverse = { λ choices. record { choices = record { items = choices } } };
}

impl Line {
    /// The line of no processes, to push choices on.
    pub fn new() -> Line
        ensures { result ≡ [] }
    {
        Line {
            choices: ArrayVec::new(),
        }
    }

    /// How many processes it has a choice for.
    pub fn len(&self) -> u32
        ensures value { result ≡ length self.now }
        ensures few { result ≤ MOST_PROCESSES }
    {
        self.choices.len() as u32
    }

    /// Adds the choice of the next process.
    pub fn push(&mut self, choice: Choice)
        requires { length self.old < MOST_PROCESSES }
        ensures { self.new ≡ self.old ++ choice ∷ [] }
    {
        self.choices.push(choice);
    }

    /// The choice of a process; the initial state where the line has none for it.
    pub fn at(&self, p: ProcId) -> Choice
        ensures { result ≡ choice_at self.now p }
    {
        match self.choices.get(p.get() as usize) {
            Some(choice) => *choice,
            None => Choice::default(),
        }
    }

    /// Puts a choice in place of the one that a process has.
    pub fn set(&mut self, p: ProcId, choice: Choice)
        requires { p < length self.old }
        ensures { self.new ≡ slice_set self.old p choice }
    {
        self.choices[p.get() as usize] = choice;
    }

    /// The choices in the order of the processes.
    pub fn choices(&self) -> &[Choice]
        ensures value { result.now ≡ self.now }
        ensures few { length result.now ≤ MOST_PROCESSES }
    {
        self.choices.as_slice()
    }
}
