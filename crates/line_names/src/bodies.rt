//! What messages carry.
ghost use Rattle.std.specs.Prelude.{◌≡◌, ◌≤◌, length, OkIff};

use crate::limits::MOST_BODY;
use arrayvec::ArrayVec;
use std::marker::Model;
use thiserror::Error;

/// The bytes that a message carries: at most `MOST_BODY` of them, kept in the value itself.
#[derive(Debug, PartialEq, Eq, Drop)]
pub struct Body {
    bytes: ArrayVec<u8, MOST_BODY>,
}

impl Model for Body {
    ghost use Rattle.std.specs.Prelude.{ℕ, List};

    ghost Value = { List ℕ };

    ghost view = { λ b. b.bytes.items };

    ghost inverse = { λ bytes. record { bytes = record { items = bytes } } };
}

impl Body {
    /// A body of these bytes.
    pub fn try_new(bytes: &[u8]) -> Result<Body, BodyError>
        ensures { OkIff result (length bytes.now ≤ MOST_BODY) bytes.now }
    {
        match ArrayVec::try_from(bytes) {
            Ok(bytes) => Ok(Body { bytes }),
            Err(_) => Err(BodyError::BodyTooLong),
        }
    }

    /// Its bytes.
    pub fn bytes(&self) -> &[u8]
        ensures value { result.now ≡ self.now }
        ensures short { length result.now ≤ MOST_BODY }
    {
        self.bytes.as_slice()
    }

    /// The same bytes again.
    pub fn copy(&self) -> Body
        ensures { result ≡ self.now }
    {
        match Body::try_new(self.bytes()) {
            Ok(body) => body,
            Err(_) => unreachable!(),
        }
    }
}

/// Why bytes are no body.
#[derive(Clone, Copy, Debug, PartialEq, Eq, Hash, Error)]
pub enum BodyError {
    /// The body is longer than a message may have.
    #[error("the body is longer than {MOST_BODY} bytes")]
    BodyTooLong = 2,
}

impl BodyError {
    /// The number of the refusal, as replies show it.
    pub fn code(self) -> u32
        ensures { result ≡ 2 }
    {
        self as u32
    }
}
