//! Why a record was not answered.

use line_fields::ReadError;

/// Why a record was not done.
#[derive(Clone, Copy, Debug)]
pub enum Stop {
    /// It has this fault, or memory did not suffice for it.
    Fault(ReadError),
    /// The sink failed.
    Write,
}
