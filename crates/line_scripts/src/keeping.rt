//! A command that is kept: 16 bytes, beside those that it carries.

ghost use Rattle.std.specs.Prelude.{◌≡◌, length};
ghost use Rattle.line_scripts.specs.Keeping.{HasShortMessage, with_bytes};
ghost use Rattle.line_scripts.specs.Keeping as spec;
ghost use Rattle.line_scripts.specs.Shown.{HasShortBodyInStep, command_of_ref};

use crate::commands::CommandRef;
use line_names::{MOST_PROCESSES, ProcId, ProcSet};
use line_tape::StepRef;
use std::mem::size_of;

/// A command without the bytes that a message or a state has. Of these it says how many they are.
/// A process takes a byte, so that the whole takes 16.
#[derive(Drop)]
pub(crate) enum Kept {
    Send {
        from: u8,
        to: u8,
        long: usize,
    },
    Deliver {
        from: u8,
        to: u8,
        pick: u32,
        long: usize,
    },
    DeliverFar {
        from: u8,
        to: u8,
        far: Box<Far>,
    },
    Check {
        at: u8,
        long: usize,
    },
    Begin {
        at: u8,
        long: usize,
    },
    Turn {
        at: u8,
        long: usize,
    },
    Refused {
        code: u32,
        long: usize,
    },
    Damage {
        at: u8,
        check: u32,
    },
    Bar {
        at: u8,
        check: u32,
    },
    Recover(Box<ProcSet>),
    Rounds,
    History,
    Bundle(Box<ProcSet>),
    Plan(Box<ProcSet>),
    Live,
    Answer(Box<ProcSet>),
    Forget(Option<u32>),
    Save,
}

const _: () = prove!(size_of::<Kept>() == 16);

/// A pick of more than 32 bits, and how many bytes the state has.
#[derive(Drop)]
pub(crate) struct Far {
    pub(crate) pick: u64,
    pub(crate) long: usize,
}

/// The number of a process in a byte.
#[inline(always)]
pub(crate) fn in_byte(p: ProcId) -> u8
    ensures { result ≡ p }
{
    p.get() as u8
}

// The process whose number stands in a byte.
#[inline(always)]
fn process(byte: u8) -> ProcId
    ensures { result ≡ byte }
{
    match ProcId::try_new(byte as u32, MOST_PROCESSES as u32) {
        Ok(p) => p,
        Err(_) => unreachable!(),
    }
}

/// How many bytes a command carries.
#[inline(always)]
pub(crate) fn long_of(kept: &Kept) -> usize
    ensures { result ≡ spec.long_of kept.now }
{
    match kept {
        Kept::Send { long, .. } => *long,
        Kept::Deliver { long, .. } => *long,
        Kept::DeliverFar { far, .. } => far.long,
        Kept::Check { long, .. } => *long,
        Kept::Begin { long, .. } => *long,
        Kept::Turn { long, .. } => *long,
        Kept::Refused { long, .. } => *long,
        Kept::Damage { .. } => 0,
        Kept::Bar { .. } => 0,
        Kept::Recover(_) => 0,
        Kept::Rounds => 0,
        Kept::History => 0,
        Kept::Bundle(_) => 0,
        Kept::Plan(_) => 0,
        Kept::Live => 0,
        Kept::Answer(_) => 0,
        Kept::Forget(_) => 0,
        Kept::Save => 0,
    }
}

/// The command that it makes with its bytes, which are lent.
#[inline(always)]
pub(crate) fn lent<'a>(kept: &'a Kept, own: &'a [u8]) -> CommandRef<'a>
    requires long { spec.long_of kept.now ≡ length own.now }
    requires short { HasShortMessage kept.now }
    ensures value { command_of_ref result ≡ with_bytes kept.now own.now }
    ensures short { HasShortBodyInStep result }
{
    match kept {
        Kept::Send { from, to, .. } => CommandRef::Do(StepRef::Send {
            from: process(*from),
            to: process(*to),
            body: own,
        }),
        Kept::Deliver { from, to, pick, .. } => CommandRef::Do(StepRef::Deliver {
            from: process(*from),
            to: process(*to),
            pick: *pick as u64,
            state: own,
        }),
        Kept::DeliverFar { from, to, far } => CommandRef::Do(StepRef::Deliver {
            from: process(*from),
            to: process(*to),
            pick: far.pick,
            state: own,
        }),
        Kept::Check { at, .. } => CommandRef::Do(StepRef::Check {
            at: process(*at),
            state: own,
        }),
        Kept::Begin { at, .. } => CommandRef::Do(StepRef::Begin {
            at: process(*at),
            state: own,
        }),
        Kept::Turn { at, .. } => CommandRef::Do(StepRef::Turn {
            at: process(*at),
            state: own,
        }),
        Kept::Refused { code, .. } => CommandRef::Refused(*code),
        Kept::Damage { at, check } => CommandRef::Do(StepRef::Damage {
            at: process(*at),
            check: *check,
        }),
        Kept::Bar { at, check } => CommandRef::Do(StepRef::Bar {
            at: process(*at),
            check: *check,
        }),
        Kept::Recover(failed) => CommandRef::Do(StepRef::Recover { failed }),
        Kept::Rounds => CommandRef::Rounds,
        Kept::History => CommandRef::History,
        Kept::Bundle(failed) => CommandRef::Bundle(failed),
        Kept::Plan(failed) => CommandRef::Plan(failed),
        Kept::Live => CommandRef::Live,
        Kept::Answer(failed) => CommandRef::Answer(failed),
        Kept::Forget(round) => CommandRef::Forget(*round),
        Kept::Save => CommandRef::Save,
    }
}
