//! Messages by sender, in buffers that several inboxes may hold together.
ghost use Rattle.std.specs.Prelude.{◌≡◌, ◌↔◌, IfOk, IfSome, IsTrue};
ghost use Rattle.line_rounds.specs.Inboxes.{messages_from, ComeBySender};

use crate::runs::{SenderRun, Sharing, are_same_runs, hold_runs, runs_by_sender, shown_of};
use line_names::{MsgName, ProcId};
use std::alloc::{AllocError, Global};
use std::marker::Model;
use std::rc::Rc;

/// Messages by sender: those of each are a part of a buffer. Others may hold the buffers too, and
/// show other parts of them.
#[derive(Drop)]
pub(crate) struct BufferParts {
    runs: Rc<Vec<SenderRun>>,
}

impl Model for BufferParts {
    ghost use Rattle.std.specs.Prelude.{List};
    ghost use Rattle.line_names.specs.declared.messages.MsgName.{MsgName};
    ghost use Rattle.line_rounds.specs.Runs.{runs_in, AreRuns};

    ghost Value = { List MsgName };

    ghost view = { λ p. runs_in p.runs.value.items };

    ghost invariant = { λ p. AreRuns p.runs.value.items };
}

impl BufferParts {
    /// Messages that come by sender, those of each in a buffer of its own.
    pub(crate) fn new(alloc: Global, messages: &[MsgName]) -> Result<BufferParts, AllocError>
        requires { ComeBySender messages.now }
        ensures { IfOk result (λ parts. parts ≡ messages.now) }
    {
        let runs = runs_by_sender(alloc, messages)?;
        let runs = Rc::new(alloc, runs)?;
        Ok(BufferParts { runs })
    }

    /// Those of one sender. It searches for them by halves, among the senders.
    pub(crate) fn from(&self, p: ProcId) -> &[MsgName]
        ensures { result.now ≡ messages_from p self.now }
    {
        shown_of(self.runs.as_slice(), p)
    }

    /// Whether both are the same messages.
    pub(crate) fn is_same(&self, other: &BufferParts) -> bool
        ensures { IsTrue result ↔ (self.now ≡ other.now) }
    {
        are_same_runs(self.runs.as_slice(), other.runs.as_slice())
    }

    /// The same messages, with one more holder. It takes no memory.
    pub(crate) fn share(&self) -> Result<BufferParts, AllocError>
        ensures { IfOk result (λ parts. parts ≡ self.now) }
    {
        let runs = self.runs.clone()?;
        Ok(BufferParts { runs })
    }

    /// The same messages, if those of a sender can come to stand in one buffer with the other's.
    ///
    /// It takes memory for each sender, and to join them for the messages of both. It looks at each
    /// message up to the first that is another one in the other buffer.
    pub(crate) fn hold_with(
        &self,
        alloc: Global,
        other: &BufferParts,
        sharing: Sharing,
    ) -> Result<Option<BufferParts>, AllocError>
        ensures { IfOk result (λ found. IfSome found (λ parts. parts ≡ self.now)) }
    {
        match hold_runs(alloc, self.runs.as_slice(), other.runs.as_slice(), sharing)? {
            Some(runs) => {
                let runs = Rc::new(alloc, runs)?;
                Ok(Some(BufferParts { runs }))
            }
            None => Ok(None),
        }
    }
}
