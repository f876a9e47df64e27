//! Where the channels of a round begin and end.
ghost use Rattle.std.specs.Prelude.{◌≡◌};
ghost use Rattle.line_rounds.specs.Spans.{closed_span, channel_in_span, is_over, IsWithin};

use line_names::MsgName;
use std::marker::Model;

/// A channel of a round: how many messages of its sender were kept when the round was recorded, and
/// when its marker came.
#[derive(Clone, Copy)]
pub enum Span {
    /// Recorded, and its marker has not come.
    Open { start: usize },
    /// Recorded, and its marker came when `end` messages were kept.
    Closed { start: usize, end: usize },
}

impl Span {
    /// The channel closed by its marker, which came after so many messages.
    pub fn closed(self, end: usize) -> Span
        ensures { result ≡ closed_span end self }
    {
        match self {
            Span::Open { start } => Span::Closed { start, end },
            Span::Closed { .. } => self,
        }
    }

    /// Whether its marker has come.
    pub fn is_closed(self) -> bool
        ensures { result ≡ is_over self }
    {
        match self {
            Span::Open { .. } => false,
            Span::Closed { .. } => true,
        }
    }

    /// The messages on it, of all that are kept from its sender.
    pub fn messages(self, names: &[MsgName]) -> &[MsgName]
        requires { IsWithin names.now self }
        ensures { result.now ≡ (channel_in_span names.now self).messages }
    {
        match self {
            Span::Open { start } => &names[start..],
            Span::Closed { start, end } => &names[start..end],
        }
    }
}

/// A recorded round, with its channel from each process.
#[derive(Drop)]
pub struct RoundSpans {
    pub number: u32,
    pub spans: Vec<Span>,
}

impl Model for RoundSpans {
    ghost use Rattle.line_rounds.specs.Spans.{RoundView};

    ghost Value = { RoundView };

    ghost view = { λ r. record { number = r.number; spans = r.spans.items } };
}
