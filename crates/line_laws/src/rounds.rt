//! Laws of the rounds of markers, and of snapshots.
ghost use Rattle.std.specs.Prelude.{IsTrue, slice_index_or, if◌then◌else◌, ◌≡◌, ◌≢◌, ◌↔◌, ◌++◌};
ghost use Rattle.std.specs.Prelude.{◌||◌, ◌<◌, ℕ, suc, List, [], ◌∷◌, Bool, false, length};
ghost use Rattle.std.specs.Prelude.{Contains};
ghost use Rattle.line_names.specs.declared.choices.Choice.{Choice};
ghost use Rattle.line_names.specs.declared.choices.Choice.TheVariants.{Check};
ghost use Rattle.line_names.specs.declared.messages.MsgName.{MsgName};
ghost use Rattle.line_names.specs.Lines.{choice_at, IsNowhereLater};
ghost use Rattle.line_tape.specs.declared.events.Event.{Event};
ghost use Rattle.line_tape.specs.declared.items.Item.TheVariants.{Marker};
ghost use Rattle.line_tape.specs.Event.{checks};
ghost use Rattle.line_tape.specs.Fit.{IsFitFifo, link};
ghost use Rattle.line_tape.specs.History.{Process, tape_at, with_event};
ghost use Rattle.line_tape.specs.Line.{IsLine, IsConsistent};
ghost use Rattle.line_tape.specs.Restart.{is_kept, restarted_history};
ghost use Rattle.line_tape.specs.Rounds.{channel_fifo, channel_on, check_line, check_index};
ghost use Rattle.line_tape.specs.Rounds.{checks_of};
ghost use Rattle.line_tape.specs.Rounds.{has_check_of, has_mark_of, is_check_of, is_checked};
ghost use Rattle.line_tape.specs.Rounds.{is_closed_at, is_completed_fifo, is_mark_of, names_from};
ghost use Rattle.line_tape.specs.Rounds.{round_line, rounds_checked, IsSnapshot};
ghost use Rattle.line_tape.specs.Survival.{survives, IsLatest};
ghost use Rattle.line_tape.specs.Transit.{in_transit_between, names_received};
ghost use Rattle.line_tape.specs.Views.{MarksView};

/// On links that keep their order, the checks of a round make a consistent line as soon as every
/// tape has its own; and once each marker is in too, the round is a snapshot: its channels are what
/// is in transit at its line, in order.
///
/// The algorithm of Chandy and Lamport, ACM TOCS 3(1), 1985. The call does nothing: its contract is
/// the law.
pub fn marker_round_holds()
    ensures checked { (history : List Process) (r : ℕ) → IsTrue (is_completed_fifo history r)
        → IsTrue (is_checked history r) }
    ensures line { (history : List Process) (r : ℕ) → IsTrue (is_checked history r)
        → IsLine history (round_line history r) }
    ensures consistent { (history : List Process) (r : ℕ) → IsFitFifo history
        → IsTrue (is_checked history r) → IsConsistent history (round_line history r) }
    ensures snapshot { (history : List Process) (r : ℕ) → IsFitFifo history
        → IsTrue (is_completed_fifo history r)
        → IsSnapshot history (checks_of history r) (channel_fifo history r) }
{}

/// What is in transit at checks of a history is the same after every event; and a snapshot stays
/// one by every event, and by every restart that keeps its checks.
///
/// So the checks and channels of a round, once written down, need not be looked at again until one
/// of the checks is cut. The call does nothing: its contract is the law.
pub fn snapshots_stay()
    ensures transit { (history : List Process) (at : ℕ) (event : Event) (indices : List ℕ)
        → at < length history → IsLine history (check_line indices) → (p q : ℕ)
        → in_transit_between (with_event history at event) (check_line indices) p q
        ≡ in_transit_between history (check_line indices) p q }
    ensures event { (history : List Process) (at : ℕ) (event : Event) (indices : List ℕ)
        (channels : ℕ → ℕ → List MsgName)
        → at < length history → IsSnapshot history indices channels
        → IsSnapshot (with_event history at event) indices channels }
    ensures restart { (history : List Process) (line : List Choice) (indices : List ℕ)
        (channels : ℕ → ℕ → List MsgName)
        → length line ≡ length history
        → ((p : ℕ) → IsTrue (is_kept (choice_at line p) (slice_index_or indices p 0)))
        → IsSnapshot history indices channels
        → IsSnapshot (restarted_history history line) indices channels }
{}

/// How one more event changes what its tape has of a round of markers: its check opens each
/// channel, a message that it receives goes on its sender's channel until that process's marker is
/// in, and from then on the channel stays as it is.
///
/// The call does nothing: its contract is the law.
pub fn channels_grow()
    ensures check { (tape : List Event) (event : Event) (r : ℕ)
        → has_check_of r (tape ++ event ∷ []) ≡ (has_check_of r tape || is_check_of r event) }
    ensures opened { (tape : List Event) (event : Event) (p r : ℕ) → has_check_of r tape ≡ false
        → IsTrue (is_check_of r event)
        → (channel_on p r (tape ++ event ∷ []) ≡ [])
        × (has_mark_of p r (tape ++ event ∷ []) ≡ false) }
    ensures mark { (tape : List Event) (event : Event) (p r : ℕ) → IsTrue (has_check_of r tape)
        → has_mark_of p r (tape ++ event ∷ []) ≡ (has_mark_of p r tape || is_mark_of p r event) }
    ensures channel { (tape : List Event) (event : Event) (p r : ℕ) → IsTrue (has_check_of r tape)
        → channel_on p r (tape ++ event ∷ [])
        ≡ channel_on p r tape
        ++ (if has_mark_of p r tape
        then []
        else names_from p (names_received (event ∷ []))) }
{}

/// A round that is on every tape stays so by every event, and a completed one stays completed.
///
/// The call does nothing: its contract is the law.
pub fn rounds_stay()
    ensures checked { (history : List Process) (at : ℕ) (event : Event) (r : ℕ)
        → at < length history → IsTrue (is_checked history r)
        → IsTrue (is_checked (with_event history at event) r) }
    ensures completed { (history : List Process) (at : ℕ) (event : Event) (r : ℕ)
        → at < length history → IsTrue (is_completed_fifo history r)
        → IsTrue (is_completed_fifo (with_event history at event) r) }
{}

/// Where the checks of a snapshot all survive, the latest line is at every process that check or
/// later.
///
/// The call does nothing: its contract is the law.
pub fn latest_reaches()
    ensures { (history : List Process) (marks : MarksView) (failed : List Bool) (line : List Choice)
        (indices : List ℕ) (channels : ℕ → ℕ → List MsgName)
        → IsLatest history marks failed line → IsSnapshot history indices channels
        → ((p : ℕ) → p < length history
        → IsTrue (survives history marks failed p (Check (slice_index_or indices p 0))))
        → IsNowhereLater (check_line indices) line }
{}

/// When a round is on every tape, and when a round of markers is completed: as soon as each tape
/// has its check and, after it, the marker of each other process. An event that is no check of the
/// round leaves the first as it is, and one that is no marker of it either, the second.
///
/// The call does nothing: its contract is the law.
pub fn rounds_complete()
    ensures checked { (history : List Process) (r : ℕ)
        → IsTrue (is_checked history r)
        ↔ ((q : ℕ) → q < length history → IsTrue (has_check_of r (tape_at history q))) }
    ensures closed { (history : List Process) (r q : ℕ) → IsTrue (is_closed_at history r q)
        ↔ (IsTrue (has_check_of r (tape_at history q))
        × ((p : ℕ) → p < length history → p ≢ q
        → IsTrue (has_mark_of p r (tape_at history q)))) }
    ensures completed { (history : List Process) (r : ℕ)
        → IsTrue (is_completed_fifo history r)
        ↔ ((q : ℕ) → q < length history → IsTrue (is_closed_at history r q)) }
    ensures idle_checked { (history : List Process) (at : ℕ) (event : Event) (r : ℕ)
        → at < length history → is_check_of r event ≡ false
        → is_checked (with_event history at event) r ≡ is_checked history r }
    ensures last { (history : List Process) (at : ℕ) (event : Event) (r : ℕ) → at < length history
        → IsTrue (is_check_of r event)
        → ((q : ℕ) → q < length history → q ≢ at → IsTrue (has_check_of r (tape_at history q)))
        → IsTrue (is_checked (with_event history at event) r) }
    ensures lacking { (history : List Process) (at : ℕ) (event : Event) (r : ℕ)
        → at < length history
        → (q : ℕ) → q < length history → q ≢ at → has_check_of r (tape_at history q) ≡ false
        → is_checked (with_event history at event) r ≡ false }
    ensures idle_completed { (history : List Process) (at : ℕ) (event : Event) (r : ℕ)
        → at < length history → is_check_of r event ≡ false
        → ((p : ℕ) → is_mark_of p r event ≡ false)
        → is_completed_fifo (with_event history at event) r ≡ is_completed_fifo history r }
{}

/// The checks of a round on tapes, and its markers on links: a marker there is of a round that its
/// sender has checked; a new check of a round has the next index, and keeps it by every event; and
/// a restart leaves neither checks of rounds nor markers.
///
/// The call does nothing: its contract is the law.
pub fn markers_follow_checks()
    ensures marker { (history : List Process) (p q r : ℕ) → Contains (link history p q) (Marker r)
        → IsTrue (has_check_of r (tape_at history p)) }
    ensures round { (tape : List Event) (r : ℕ)
        → Contains (rounds_checked tape) r ↔ IsTrue (has_check_of r tape) }
    ensures new { (tape : List Event) (event : Event) (r : ℕ) → has_check_of r tape ≡ false
        → IsTrue (is_check_of r event)
        → check_index r (tape ++ event ∷ []) ≡ suc (checks tape) }
    ensures kept { (tape : List Event) (event : Event) (r : ℕ) → IsTrue (has_check_of r tape)
        → check_index r (tape ++ event ∷ []) ≡ check_index r tape }
    ensures restart_checks { (history : List Process) (line : List Choice) (r p : ℕ)
        → length line ≡ length history
        → has_check_of r (tape_at (restarted_history history line) p) ≡ false }
    ensures restart_rounds { (history : List Process) (line : List Choice) (p : ℕ)
        → length line ≡ length history
        → rounds_checked (tape_at (restarted_history history line) p) ≡ [] }
    ensures restart_markers { (history : List Process) (line : List Choice) (p q r : ℕ)
        → length line ≡ length history
        → Contains (link (restarted_history history line) p q) (Marker r) → ⊥ }
{}
