//! Messages of one sender, as parts of buffers that several inboxes may hold together.
ghost use Rattle.std.specs.Prelude.{◌≡◌, ◌≤◌, ◌<◌, ◌+◌, ◌↔◌, AllPairs, IfOk, IfSome, IsTrue};
ghost use Rattle.std.specs.Prelude.{length, slice_range};
ghost use Rattle.std.specs.Option.{option_copied};
ghost use Rattle.line_rounds.specs.Inboxes.{messages_from, ComeBySender};
ghost use Rattle.line_rounds.specs.Runs.{run_for, runs_in, AreRuns, RunView};

use line_names::{MsgName, ProcId};
use std::alloc::{AllocError, Global};
use std::marker::Model;
use std::rc::Rc;

/// How what one round holds comes to stand in one place with what another one does.
#[derive(Clone, Copy)]
pub(crate) enum Sharing {
    /// It is an earlier round's, and is shown in the later one's buffer, if it stands there.
    Lean,
    /// It is a later round's, and gets a buffer in which the earlier one's messages stand before
    /// it, if the last of these are its first ones.
    Join,
}

/// Whether both are the same messages. It looks no further than the first that is another one.
pub(crate) fn are_equal(one: &[MsgName], other: &[MsgName]) -> bool
    ensures { IsTrue result ↔ (one.now ≡ other.now) }
{
    one == other
}

/// Where one sender's messages stand in a buffer, one after the other, if they do. It searches for
/// the first of them by halves, as messages of one sender stand by number.
fn place_in(buffer: &[MsgName], messages: &[MsgName]) -> Option<usize>
    ensures within { IfSome result (λ place. place + length messages.now ≤ length buffer.now) }
    ensures same { IfSome result (λ place.
        slice_range buffer.now place (place + length messages.now) ≡ messages.now) }
{
    let first = messages.first()?;
    let len = messages.len();
    let number = first.number;
    let place = buffer.partition_point(|message| message.number < number);
    if len > buffer.len() - place {
        return None;
    }
    if !are_equal(&buffer[place..place + len], messages) {
        return None;
    }
    Some(place)
}

/// How many of the earlier messages of a sender are before the first of the later ones, if the
/// others are the first ones of those, and there are some. It searches for them by halves.
fn len_before(earlier: &[MsgName], later: &[MsgName]) -> Option<usize>
    ensures { IfSome result (λ place. place ≤ length earlier.now) }
{
    let first = later.first()?;
    let number = first.number;
    let place = earlier.partition_point(|message| message.number < number);
    let common = earlier.len() - place;
    if common == 0 || common > later.len() {
        return None;
    }
    if !are_equal(&earlier[place..], &later[..common]) {
        return None;
    }
    Some(place)
}

/// Messages of one sender, which are a part of a buffer. Others may hold the buffer too, and show
/// another part of it.
#[derive(Drop)]
pub(crate) struct SenderRun {
    from: ProcId,
    buffer: Rc<Vec<MsgName>>,
    start: usize,
    end: usize,
}

impl Model for SenderRun {
    ghost use Rattle.std.specs.Prelude.{◌≤◌, length, slice_range};
    ghost use Rattle.line_rounds.specs.Runs.{RunView};

    ghost Value = { RunView };

    ghost view = { λ r. record {
      from = r.from;
      messages = slice_range r.buffer.value.items r.start r.end;
    } };

    ghost invariant = { λ r. (r.start ≤ r.end) × (r.end ≤ length r.buffer.value.items) };
}

impl SenderRun {
    /// Messages of one sender, in a buffer of their own.
    fn new(alloc: Global, from: ProcId, messages: &[MsgName]) -> Result<SenderRun, AllocError>
        ensures from { IfOk result (λ run. run.from ≡ from) }
        ensures messages { IfOk result (λ run. run.messages ≡ messages.now) }
    {
        let end = messages.len();
        let messages = Vec::from_slice(alloc, messages)?;
        let buffer = Rc::new(alloc, messages)?;
        let start = 0;
        Ok(SenderRun {
            from,
            buffer,
            start,
            end,
        })
    }

    /// The sender.
    fn from(&self) -> ProcId
        ensures { result ≡ self.now.from }
    {
        self.from
    }

    /// The messages.
    pub(crate) fn messages(&self) -> &[MsgName]
        ensures { result.now ≡ self.now.messages }
    {
        &self.buffer.as_slice()[self.start..self.end]
    }

    /// Whether both are the same messages of the same sender.
    fn is_same(&self, other: &SenderRun) -> bool
        ensures { IsTrue result ↔ (self.now ≡ other.now) }
    {
        self.from == other.from && are_equal(self.messages(), other.messages())
    }

    /// The same messages in the same buffer, with one more holder. It takes no memory.
    fn share(&self) -> Result<SenderRun, AllocError>
        ensures { IfOk result (λ run. run ≡ self.now) }
    {
        let buffer = self.buffer.clone()?;
        Ok(SenderRun {
            from: self.from,
            buffer,
            start: self.start,
            end: self.end,
        })
    }

    /// The same messages in the buffer of a later run, if they stand there and not in one buffer
    /// with it already. It takes no memory.
    fn lean_on(&self, later: &SenderRun) -> Result<Option<SenderRun>, AllocError>
        ensures { IfOk result (λ found. IfSome found (λ run. run ≡ self.now)) }
    {
        if Rc::ptr_eq(&self.buffer, &later.buffer) {
            return Ok(None);
        }
        let messages = self.messages();
        match place_in(later.buffer.as_slice(), messages) {
            Some(start) => {
                let end = start + messages.len();
                let buffer = later.buffer.clone()?;
                Ok(Some(SenderRun {
                    from: self.from,
                    buffer,
                    start,
                    end,
                }))
            }
            None => Ok(None),
        }
    }

    /// The same messages in a buffer that has those of an earlier run before them, if the last of
    /// these are the first ones of this run, and they don't stand in its buffer already.
    ///
    /// It takes memory for the messages of both.
    fn join(&self, alloc: Global, earlier: &SenderRun) -> Result<Option<SenderRun>, AllocError>
        ensures { IfOk result (λ found. IfSome found (λ run. run ≡ self.now)) }
    {
        let before = earlier.messages();
        if place_in(self.buffer.as_slice(), before).is_some() {
            return Ok(None);
        }
        let messages = self.messages();
        match len_before(before, messages) {
            Some(start) => {
                let mut joined = Vec::with_capacity(alloc, start + messages.len())?;
                joined.extend_from_slice(&before[..start])?;
                joined.extend_from_slice(messages)?;
                let end = joined.len();
                let buffer = Rc::new(alloc, joined)?;
                Ok(Some(SenderRun {
                    from: self.from,
                    buffer,
                    start,
                    end,
                }))
            }
            None => Ok(None),
        }
    }

    /// The same messages in one buffer with those of another run, if that can be.
    fn hold_with(
        &self,
        alloc: Global,
        other: &SenderRun,
        sharing: Sharing,
    ) -> Result<Option<SenderRun>, AllocError>
        ensures { IfOk result (λ found. IfSome found (λ run. run ≡ self.now)) }
    {
        match sharing {
            Sharing::Lean => self.lean_on(other),
            Sharing::Join => self.join(alloc, other),
        }
    }
}

/// The run of a process, if it has one. It searches for it by halves.
fn find_run(runs: &[SenderRun], p: ProcId) -> Option<&SenderRun>
    requires { AllPairs (λ (a b : RunView). a.from < b.from) runs.now }
    ensures { option_copied result ≡ run_for runs.now p }
{
    let place = runs.partition_point(|run| run.from().get() < p.get());
    match runs.get(place) {
        Some(run) => {
            if run.from().get() == p.get() {
                Some(run)
            } else {
                None
            }
        }
        None => None,
    }
}

/// What runs show of one sender.
pub(crate) fn shown_of(runs: &[SenderRun], p: ProcId) -> &[MsgName]
    requires { AreRuns runs.now }
    ensures { result.now ≡ messages_from p (runs_in runs.now) }
{
    match find_run(runs, p) {
        Some(run) => run.messages(),
        None => &[],
    }
}

/// The runs of messages that come by sender: together they show all. It searches for the end of
/// each by halves.
pub(crate) fn runs_by_sender(
    alloc: Global,
    messages: &[MsgName],
) -> Result<Vec<SenderRun>, AllocError>
    requires { ComeBySender messages.now }
    ensures runs { IfOk result (λ runs. AreRuns runs.items) }
    ensures all { IfOk result (λ runs. runs_in runs.items ≡ messages.now) }
{
    let mut runs = Vec::new(alloc);
    let mut start = 0;
    'each: while start < messages.len() {
        let from = messages[start].from;
        let end = messages.partition_point(|message| message.from.get() <= from.get());
        let run = SenderRun::new(alloc, from, &messages[start..end])?;
        runs.push(run)?;
        start = end;
    }
    Ok(runs)
}

/// Whether the runs are the same. It looks no further than the first that is another one.
pub(crate) fn are_same_runs(one: &[SenderRun], other: &[SenderRun]) -> bool
    ensures { IsTrue result ↔ (one.now ≡ other.now) }
{
    if one.len() != other.len() {
        return false;
    }
    for (i, run) in one.iter().enumerate() {
        if !run.is_same(&other[i]) {
            return false;
        }
    }
    true
}

/// The same run, in one buffer with the other one of its sender if that can be; `holds` is set
/// where it is, and else it stays where it stands.
fn hold_or_share(
    alloc: Global,
    run: &SenderRun,
    others: &[SenderRun],
    sharing: Sharing,
    holds: &mut bool,
) -> Result<SenderRun, AllocError>
    requires { AllPairs (λ (a b : RunView). a.from < b.from) others.now }
    ensures { IfOk result (λ held. held ≡ run.now) }
{
    let Some(other) = find_run(others, run.from()) else {
        return run.share();
    };
    match run.hold_with(alloc, other, sharing)? {
        Some(held) => {
            *holds = true;
            Ok(held)
        }
        None => run.share(),
    }
}

/// The same runs, if one of them can come to stand in one buffer with the other one of its sender.
/// Each that can does.
///
/// It takes memory for each run, and to join them for the messages of both. It looks at each
/// message up to the first that is another one in the other run.
pub(crate) fn hold_runs(
    alloc: Global,
    runs: &[SenderRun],
    others: &[SenderRun],
    sharing: Sharing,
) -> Result<Option<Vec<SenderRun>>, AllocError>
    requires { AllPairs (λ (a b : RunView). a.from < b.from) others.now }
    ensures { IfOk result (λ found. IfSome found (λ held. held.items ≡ runs.now)) }
{
    let mut held = Vec::with_capacity(alloc, runs.len())?;
    let mut holds = false;
    for run in runs {
        let next = hold_or_share(alloc, run, others, sharing, &mut holds)?;
        held.push(next)?;
    }
    if !holds {
        return Ok(None);
    }
    Ok(Some(held))
}
