//! What is wrong with a line or with a claim.
ghost use Rattle.std.specs.Prelude.{◌≡◌};

use std::fmt;
use thiserror::Error;

/// Why a line is refused.
#[derive(Clone, Copy, Debug, PartialEq, Eq, Hash, Error)]
pub enum LineFault {
    /// It has not one choice for each process, or a choice of a check that is not there.
    #[error("the line names what the history does not have")]
    BadShape = 16,
    /// A message is received before it that is not sent before it.
    #[error("a message is received before the line and not sent before it")]
    NotConsistent = 15,
}

impl LineFault {
    /// The number of the refusal, as verdicts show it.
    pub fn code(self) -> u32
        ensures shape { self ≡ LineFault.BadShape → result ≡ 16 }
        ensures consistent { self ≡ LineFault.NotConsistent → result ≡ 15 }
    {
        self as u32
    }
}

/// What is wrong with a claim or an answer, or with one of its entries.
#[derive(Clone, Copy, Debug, PartialEq, Eq, Hash, Error)]
pub enum FaultCode {
    /// The entry's choice is not the present ceiling of its process.
    #[error("the choice is not the present ceiling of its process")]
    NotTop = 11,
    /// The entry's message is not received before its choice.
    #[error("the message is not received before the choice")]
    NotReceived = 12,
    /// The entry's message is sent before the present ceiling of its sender.
    #[error("the message is sent before the present ceiling of its sender")]
    NotOrphan = 13,
    /// The entries lead to another line.
    #[error("the entries lead to another line")]
    LineDiffers = 14,
    /// A message is received before the line that is not sent before it.
    #[error("a message is received before the line and not sent before it")]
    NotConsistent = 15,
    /// The claim names what the history does not have.
    #[error("the claim names what the history does not have")]
    BadShape = 16,
    /// The state that the process goes on from is not that of its choice.
    #[error("the state is not that of the process's choice")]
    StateDiffers = 41,
    /// The incarnation that the process goes on in is not the one after a restart.
    #[error("the incarnation is not the one that the process has after a restart")]
    IncarnationDiffers = 42,
    /// The message is not sent before the line, or is received before it.
    #[error("the message is not in transit at the line")]
    NotInTransit = 43,
    /// The addressee, the place or the body is not that of the message's Send.
    #[error("the addressee, the place or the body is not that of the message's send")]
    ReplayDiffers = 44,
    /// The message stands there already, or out of order.
    #[error("the message does not follow those before it by sender and number")]
    ReplayRepeated = 45,
    /// A message is in transit at the line and not sent again.
    #[error("a message in transit at the line is not sent again")]
    ReplayMissing = 46,
}

impl FaultCode {
    /// The number of the refusal, as verdicts show it.
    pub fn code(self) -> u32
        ensures top { self ≡ FaultCode.NotTop → result ≡ 11 }
        ensures received { self ≡ FaultCode.NotReceived → result ≡ 12 }
        ensures orphan { self ≡ FaultCode.NotOrphan → result ≡ 13 }
        ensures differs { self ≡ FaultCode.LineDiffers → result ≡ 14 }
        ensures consistent { self ≡ FaultCode.NotConsistent → result ≡ 15 }
        ensures shape { self ≡ FaultCode.BadShape → result ≡ 16 }
        ensures state { self ≡ FaultCode.StateDiffers → result ≡ 41 }
        ensures incarnation { self ≡ FaultCode.IncarnationDiffers → result ≡ 42 }
        ensures transit { self ≡ FaultCode.NotInTransit → result ≡ 43 }
        ensures send { self ≡ FaultCode.ReplayDiffers → result ≡ 44 }
        ensures repeated { self ≡ FaultCode.ReplayRepeated → result ≡ 45 }
        ensures missing { self ≡ FaultCode.ReplayMissing → result ≡ 46 }
    {
        self as u32
    }
}

/// Why a claim or an answer is refused: the first thing that is wrong with it.
#[derive(Clone, Copy, Debug, PartialEq, Eq, Hash, Error)]
#[error(fmt = write_fault)]
pub struct CertFault {
    /// The entry that is wrong, counted from 0; none where the fault is no entry's.
    pub entry: Option<u32>,
    pub code: FaultCode,
}

// Writes what is wrong, after the entry that it is wrong with.
fn write_fault<W: fmt::Write>(
    entry: &Option<u32>,
    code: &FaultCode,
    f: &mut fmt::Formatter<W>,
) -> fmt::Result {
    match entry {
        Some(entry) => write!(f, "entry {entry}: {code}"),
        None => write!(f, "{code}"),
    }
}
