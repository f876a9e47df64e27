//! Channels that several rounds hold together.
ghost use Rattle.std.specs.Prelude.{◌≡◌, ◌<◌, ◌↔◌, [], IfOk, IfSome, IsTrue, length};
ghost use Rattle.std.specs.Prelude.{slice_index_or};
ghost use Rattle.line_rounds.specs.Tables.{between};

use crate::channels::Channels;
use line_names::{MsgName, ProcId};
use std::alloc::{AllocError, Global};
use std::marker::Model;
use std::rc::Rc;

/// What is in transit at a line, from each process to each other, in one place for all that share
/// it.
#[derive(Drop)]
pub struct SharedChannels {
    channels: Rc<Channels>,
}

impl Model for SharedChannels {
    ghost use Rattle.std.specs.Prelude.{List};
    ghost use Rattle.line_names.specs.declared.messages.MsgName.{MsgName};

    ghost Value = { List (List (List MsgName)) };

    ghost view = { λ s. s.channels.value };
}

impl SharedChannels {
    /// The channels, with one holder.
    ///
    /// It takes memory for them and two counts, and fails if memory runs out.
    pub fn new(alloc: Global, channels: Channels) -> Result<SharedChannels, AllocError>
        ensures { IfOk result (λ shared. shared ≡ channels) }
    {
        let channels = Rc::new(alloc, channels)?;
        Ok(SharedChannels { channels })
    }

    /// The channels that are shared.
    pub fn channels(&self) -> &Channels
        ensures { result.now ≡ self.now }
    {
        self.channels.as_ref()
    }

    /// Whether both are held in one place. It takes constant time.
    pub fn is_one_with(&self, other: &SharedChannels) -> bool {
        Rc::ptr_eq(&self.channels, &other.channels)
    }

    /// Whether these hold the same.
    ///
    /// It looks at no more messages than the smaller of the two holds.
    pub fn is_same(&self, channels: &Channels) -> bool
        ensures { IsTrue result ↔ (self.now ≡ channels.now) }
    {
        self.channels.is_same(channels)
    }

    /// The same channels, with one more holder.
    ///
    /// It takes constant time and no memory. It fails only if they have 2^64 - 1 holders already.
    pub fn share(&self) -> Result<SharedChannels, AllocError>
        ensures { IfOk result (λ shared. shared ≡ self.now) }
    {
        let channels = self.channels.clone()?;
        Ok(SharedChannels { channels })
    }

    /// The same channels, in less memory, where they can lean on later ones: see
    /// `Channels::lean_on`. None if both are held together already.
    pub fn lean_on(
        &self,
        alloc: Global,
        later: &SharedChannels,
    ) -> Result<Option<SharedChannels>, AllocError>
        ensures { IfOk result (λ found. IfSome found (λ shared. shared ≡ self.now)) }
    {
        if self.is_one_with(later) {
            return Ok(None);
        }
        match self.channels.lean_on(alloc, &later.channels)? {
            Some(channels) => Ok(Some(SharedChannels::new(alloc, channels)?)),
            None => Ok(None),
        }
    }

    /// The same channels, with what earlier ones hold before them, so that these can lean on them:
    /// see `Channels::join`. None if both are held together already.
    pub fn join(
        &self,
        alloc: Global,
        earlier: &SharedChannels,
    ) -> Result<Option<SharedChannels>, AllocError>
        ensures { IfOk result (λ found. IfSome found (λ shared. shared ≡ self.now)) }
    {
        if self.is_one_with(earlier) {
            return Ok(None);
        }
        match self.channels.join(alloc, &earlier.channels)? {
            Some(channels) => Ok(Some(SharedChannels::new(alloc, channels)?)),
            None => Ok(None),
        }
    }

    /// The channel from one process to another, by number.
    ///
    /// It takes constant time if something is in transit to each process up to this one, and
    /// nothing from the sender to it, nor from a process whose number is 64, 128 or 192 apart. Else
    /// it searches by halves: for the receiver among the processes that something is in transit to,
    /// and for the sender among the messages to it.
    pub fn between(&self, from: ProcId, to: ProcId) -> &[MsgName]
        requires from { from < length self.now }
        requires to { to < length (slice_index_or self.now from []) }
        ensures { result.now ≡ between self.now from to }
    {
        self.channels.between(from, to)
    }
}
