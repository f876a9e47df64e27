//! Which status goes with which fault.
ghost use Rattle.std.specs.Prelude.{◌≡◌};
ghost use Rattle.line_cli.specs.Status.{status_of, status_of_drill};

/// The status that goes with a fault of a text, by its number: 3 where memory is out (0), or a
/// source (36), a sink (37) or a thread (39) failed, and 2 for the others.
pub fn status_of_fault(code: u32) -> u8
    ensures { result ≡ status_of code }
{
    match code {
        0 | 36 | 37 | 39 => 3,
        _ => 2,
    }
}

/// The status that goes with a drill that was refused, by its number: 3 where memory is out (0), or
/// a thread could not be started (39), and 1 for the others.
pub fn status_of_drill(code: u32) -> u8
    ensures { result ≡ status_of_drill code }
{
    match code {
        0 | 39 => 3,
        _ => 1,
    }
}
