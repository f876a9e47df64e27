//! The kinds of links.
ghost use Rattle.std.specs.Prelude.{◌≡◌};
ghost use Rattle.line_tape.specs.Modes.{is_fifo};

/// How links deliver.
#[derive(Clone, Copy, Debug, PartialEq, Eq)]
pub enum Mode {
    /// Each link delivers in the order of sending.
    Fifo,
    /// Each link holds copies of its messages, delivers any of them, and keeps it.
    Unordered,
}

impl Mode {
    /// Whether links keep their order.
    pub fn is_fifo(self) -> bool
        ensures { result ≡ is_fifo self }
    {
        match self {
            Mode::Fifo => true,
            Mode::Unordered => false,
        }
    }
}
