//! Laws of what is kept.
ghost use Rattle.std.specs.Prelude.{◌≡◌, ◌≢◌, ◌<◌, ℕ, Bool, List, false, length, IsTrue, None};
ghost use Rattle.std.specs.Prelude.{Some};
ghost use Rattle.line_names.specs.declared.choices.Choice.{Choice};
ghost use Rattle.line_tape.specs.declared.events.Event.{Event};
ghost use Rattle.line_tape.specs.declared.events.Event.TheVariants.{Check};
ghost use Rattle.line_tape.specs.Colours.{channel_unordered};
ghost use Rattle.line_tape.specs.Event.{incarnation_of};
ghost use Rattle.line_tape.specs.Fit.{IsFitUnordered};
ghost use Rattle.line_tape.specs.History.{Process, tape_at, with_event};
ghost use Rattle.line_tape.specs.Line.{IsLine};
ghost use Rattle.line_tape.specs.Rounds.{checked_round, checks_of, has_check_of, is_check_of};
ghost use Rattle.line_tape.specs.Rounds.{is_checked};
ghost use Rattle.line_tape.specs.Transit.{in_transit_between, received_name};
ghost use Rattle.line_rounds.specs.Channels.{channels_at};
ghost use Rattle.line_rounds.specs.Flags.{AreFlagged};
ghost use Rattle.line_rounds.specs.Kept.{ProcessTurns, AreTurned};
ghost use Rattle.line_rounds.specs.Tables.{between, IsTable};
ghost use Rattle.line_rounds.specs.Turning.{TurningView, IsLastLine, IsTurning};

/// What goes on following the tapes though it is not changed: colours, after each event that is no
/// check of a round; an open round, after each that is no check of it; and which sends are
/// received, after each that neither sends nor receives.
///
/// The call does nothing: its contract is the law.
pub fn other_events_keep()
    ensures colours { (history : List Process) (at : ℕ) (event : Event)
        (colours : List ProcessTurns)
        → at < length history → checked_round event ≡ None
        → AreTurned history colours → AreTurned (with_event history at event) colours }
    ensures turning { (history : List Process) (at : ℕ) (event : Event) (turning : TurningView)
        → at < length history → is_check_of turning.number event ≡ false
        → IsTurning history turning → IsTurning (with_event history at event) turning }
    ensures received { (history : List Process) (at : ℕ) (event : Event) (flags : List (List Bool))
        → at < length history → IsFitUnordered history
        → received_name event ≡ None → incarnation_of event ≡ None → AreFlagged history flags
        → AreFlagged (with_event history at event) flags }
{}

/// How a round of colours is completed (Lai and Yang, Information Processing Letters 25(3), 1987).
/// Before the last process takes its check, the checks of the others make a line with where it
/// stands. What is in transit at that line is what the channels of the round hold once the check is
/// taken. And when every tape has its check, these are the checks that `Turning` keeps.
///
/// The call does nothing: its contract is the law.
pub fn last_check_completes()
    ensures line { (history : List Process) (turning : TurningView) (p : ℕ) (line : List Choice)
        → p < length history → IsTurning history turning → IsLastLine turning p line
        → ((q : ℕ) → q < length history → q ≢ p
        → IsTrue (has_check_of turning.number (tape_at history q)))
        → IsLine history line }
    ensures channels { (history : List Process) (turning : TurningView) (p : ℕ) (line : List Choice)
        (state : List ℕ)
        → p < length history → IsTurning history turning → IsLastLine turning p line
        → ((q : ℕ) → q < length history → q ≢ p
        → IsTrue (has_check_of turning.number (tape_at history q)))
        → has_check_of turning.number (tape_at history p) ≡ false
        → (a b : ℕ) → a < length history → b < length history
        → channel_unordered (with_event history p (Check state (Some turning.number)))
        turning.number a b
        ≡ between (channels_at history line) a b }
    ensures checks { (history : List Process) (turning : TurningView) → IsTurning history turning
        → IsTrue (is_checked history turning.number)
        → turning.checks ≡ checks_of history turning.number }
    ensures between { (history : List Process) (line : List Choice) (p q : ℕ) → p < length history
        → q < length history
        → between (channels_at history line) p q ≡ in_transit_between history line p q }
    ensures table { (history : List Process) (line : List Choice)
        → IsTable (length history) (channels_at history line) }
{}
