//! Why what a command is told was not written to its end.

use line_devices::DeviceFault;

/// Why what a command is told was not written to its end.
#[derive(Clone, Copy, Debug, PartialEq, Eq)]
pub enum Halt {
    /// Memory did not suffice for the command. It was not done, and nothing is written.
    Memory,
    /// The sink failed.
    Write,
}

impl From<DeviceFault> for Halt {
    ghost use Rattle.std.specs.Prelude.{◌≡◌};
    ghost use Rattle.line_text.specs.declared.halts.Halt.TheVariants.{Write};

    ghost from_gives = { λ _ halt. halt ≡ Write };

    fn from(_failed: DeviceFault) -> Halt {
        Halt::Write
    }
}
