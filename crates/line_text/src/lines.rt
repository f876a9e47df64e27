//! The line that has not ended, as far as its bytes have come, and where lines end.

ghost use Rattle.std.specs.Prelude.{◌≡◌, ◌≤◌, ◌↔◌, ◌++◌, ◌∷◌, [], true, IfNone, IfOk, IfSome};
ghost use Rattle.std.specs.Prelude.{IsTrue, length, take, ◌<◌};
ghost use Rattle.line_fields.specs.Bytes.{is_input_text, is_line_text};
ghost use Rattle.line_fields.specs.Records.{without};
ghost use Rattle.line_fields.specs.Rows.{IsLineEnd};
ghost use Rattle.line_text.specs.declared.limits.TheConstants.{MOST_LINE};
ghost use Rattle.line_text.specs.Lines.{IsFirstFeed, Dropped, Kept, has_no_feed};
ghost use Rattle.line_text.specs.Lines.{pending_after};

use crate::limits::MOST_LINE;
use memchr::memchr;
use std::alloc::{AllocError, Global};
use std::marker::Model;

/// What was read of a line that has not ended. It has room for the longest line from its start.
#[derive(Drop)]
pub(crate) struct PendingLine {
    bytes: Vec<u8>,
    // The line has more bytes than a line may have, and none is kept.
    dropped: bool,
}

impl Model for PendingLine {
    ghost use Rattle.line_text.specs.Lines.{Pending};

    ghost Value = { Pending };

    ghost use Rattle.std.specs.Prelude.{◌≡◌, ◌≤◌, true, if◌then◌else◌, vec_capacity, vec_len};
    ghost use Rattle.line_text.specs.declared.limits.TheConstants.{MOST_LINE};
    ghost use Rattle.line_text.specs.Lines.{Dropped, Kept, has_no_feed};

    ghost view = { λ s. if s.dropped then Dropped else Kept s.bytes.items };

    ghost invariant = { λ s. (vec_len s.bytes ≤ MOST_LINE) × (MOST_LINE ≤ vec_capacity s.bytes)
        × (has_no_feed s.bytes.items ≡ true) };
}

impl PendingLine {
    /// A line of which nothing was read.
    pub fn new(alloc: Global) -> Result<PendingLine, AllocError>
        ensures { IfOk result (λ line. line ≡ Kept []) }
    {
        let bytes = Vec::with_capacity(alloc, MOST_LINE)?;
        Ok(PendingLine {
            bytes,
            dropped: false,
        })
    }

    /// Whether nothing was read of it.
    pub fn is_empty(&self) -> bool
        ensures { IsTrue result ↔ (self.now ≡ Kept []) }
    {
        !self.dropped && self.bytes.is_empty()
    }

    /// Its bytes, unless they are more than a line may have.
    pub fn bytes(&self) -> Option<&[u8]>
        ensures some { IfSome result (λ line. self.now ≡ Kept line.now) }
        ensures whole { IfSome result (λ line. has_no_feed line.now ≡ true) }
        ensures none { IfNone result (self.now ≡ Dropped) }
    {
        if self.dropped {
            None
        } else {
            Some(self.bytes.as_slice())
        }
    }

    /// Reads more bytes of it, none of which ends it.
    pub fn add(&mut self, bytes: &[u8])
        requires { has_no_feed bytes.now ≡ true }
        ensures { self.new ≡ pending_after self.old bytes.now }
    {
        if self.dropped {
            return;
        }
        if bytes.len() > MOST_LINE - self.bytes.len() {
            self.dropped = true;
            return;
        }
        let Ok(()) = self.bytes.extend_from_slice(bytes) else {
            unreachable!()
        };
    }

    /// Begins the next line.
    pub fn clear(&mut self)
        ensures { self.new ≡ Kept [] }
    {
        self.bytes.clear();
        self.dropped = false;
    }
}

/// Where the first line feed stands, if there is one.
pub(crate) fn first_feed(bytes: &[u8]) -> Option<usize>
    ensures some { IfSome result (λ at. IsFirstFeed bytes.now at) }
    ensures none { IfNone result (has_no_feed bytes.now ≡ true) }
{
    memchr(b'\n', bytes)
}

/// A line that a line feed ends, without a carriage return directly before that.
pub(crate) fn without_return(line: &[u8]) -> &[u8]
    requires { has_no_feed line.now ≡ true }
    ensures allowed { is_input_text (line.now ++ 10 ∷ []) ≡ is_line_text result.now }
    ensures same { is_line_text result.now ≡ true → without 13 line.now ≡ result.now }
{
    let len = line.len();
    if len == 0 {
        return line;
    }
    let last = len - 1;
    if line[last] != b'\r' {
        return line;
    }
    &line[..last]
}

/// Where the line feed stands after the first line of a plain text, which ends there or at a
/// carriage return.
pub(crate) fn feed_after(text: &[u8], end: usize) -> usize
    requires input { is_input_text text.now ≡ true }
    requires line { IsLineEnd text.now end }
    requires within { end < length text.now }
    ensures feed { IsFirstFeed text.now result }
    ensures allowed { is_input_text (take result text.now ++ 10 ∷ []) ≡ true }
    ensures bare { without 13 (take result text.now) ≡ take end text.now }
{
    if text[end] == b'\r' {
        return end + 1;
    }
    end
}
