//! Laws of links that keep their order, and of what is in transit on them.
ghost use Rattle.std.specs.Prelude.{IsTrue, slice_index_or, ◌≡◌, ◌≢◌, ◌<◌, ℕ, List, false, map};
ghost use Rattle.std.specs.Prelude.{filter, length, Contains, Some};
ghost use Rattle.line_names.specs.declared.choices.Choice.{Choice};
ghost use Rattle.line_names.specs.declared.choices.Choice.TheVariants.{Check, Now};
ghost use Rattle.line_names.specs.declared.messages.MsgName.{MsgName};
ghost use Rattle.line_names.specs.Lines.{choice_at};
ghost use Rattle.line_tape.specs.declared.events.Event.TheVariants.{Recv, Check as CheckEvent};
ghost use Rattle.line_tape.specs.declared.items.Item.TheVariants.{Message};
ghost use Rattle.line_tape.specs.Event.{Holds};
ghost use Rattle.line_tape.specs.Fit.{IsFitFifo, IsFitUnordered, IsSentTo, link};
ghost use Rattle.line_tape.specs.History.{Process, tape_at, with_event};
ghost use Rattle.line_tape.specs.Line.{events_before, IsConsistent};
ghost use Rattle.line_tape.specs.Restart.{is_kept, restarted_history};
ghost use Rattle.line_tape.specs.Rounds.{check_index, has_check_of, round_line};
ghost use Rattle.line_tape.specs.Transit.{goes_between, in_transit, in_transit_between};

/// What links that keep their order can lead to, links without an order can lead to as well: what a
/// process received was sent to it, and it received nothing twice.
///
/// The call does nothing: its contract is the law.
pub fn ordered_fits()
    ensures { (history : List Process) → IsFitFifo history → IsFitUnordered history }
{}

/// A restart at a consistent line keeps links in order, and what they then hold is just what was in
/// transit; and what a tape has received, its sender's tape holds.
///
/// The call does nothing: its contract is the law.
pub fn restart_fits()
    ensures fit { (history : List Process) (line : List Choice) → IsFitFifo history
        → IsConsistent history line → length line ≡ length history
        → IsFitFifo (restarted_history history line) }
    ensures links { (history : List Process) (line : List Choice) → IsFitFifo history
        → IsConsistent history line → length line ≡ length history → (p q : ℕ)
        → link (restarted_history history line) p q
        ≡ map (λ m. Message m) (in_transit_between history line p q) }
    ensures agrees { (history : List Process) (line : List Choice) → IsConsistent history line
        → length line ≡ length history → (q : ℕ) (message : MsgName)
        → Contains (tape_at (restarted_history history line) q) (Recv message)
        → Holds (tape_at (restarted_history history line) message.from) message.inc message.number }
{}

/// What is in transit at checks that a restart keeps is the same after it.
///
/// The call does nothing: its contract is the law.
pub fn kept_checks()
    ensures { (history : List Process) (line : List Choice) (checks : List ℕ)
        → length line ≡ length history
        → ((p : ℕ) → IsTrue (is_kept (choice_at line p) (slice_index_or checks p 0))) → (p q : ℕ)
        → in_transit_between (restarted_history history line) (map (λ c. Check c) checks) p q
        ≡ in_transit_between history (map (λ c. Check c) checks) p q }
{}

/// What is in transit at a line, taken apart by sender and addressee, is what is in transit on each
/// link; after a restart there the tapes of its senders still hold it.
///
/// So whoever replays these messages one after another, each to the process that its sender's tape
/// names, gives each link its own in their order. The call does nothing: its contract is the law.
pub fn transit_parts()
    ensures before { (history : List Process) (line : List Choice) (p q : ℕ)
        → filter (goes_between history p q) (in_transit history line)
        ≡ in_transit_between history line p q }
    ensures after { (history : List Process) (line : List Choice) → length line ≡ length history
        → (p q : ℕ)
        → filter (goes_between (restarted_history history line) p q) (in_transit history line)
        ≡ in_transit_between history line p q }
    ensures held { (history : List Process) (line : List Choice) → length line ≡ length history
        → (message : MsgName) → Contains (in_transit history line) message
        → (q : ℕ) × IsSentTo (restarted_history history line) q message }
{}

/// What is in transit from one process to another at a line depends on what stands before it at
/// these two alone; so once every other process has its check of a round, the check of the last
/// leaves in transit at the round's line what was in transit there with the last standing where it
/// was.
///
/// The call does nothing: its contract is the law.
pub fn fronts_decide_transit()
    ensures fronts { (a b : List Process) (line other : List Choice) (p q : ℕ)
        → events_before a line p ≡ events_before b other p
        → events_before a line q ≡ events_before b other q
        → in_transit_between a line p q ≡ in_transit_between b other p q }
    ensures check { (history : List Process) (at : ℕ) (state : List ℕ) (r : ℕ) (line : List Choice)
        → at < length history
        → has_check_of r (tape_at history at) ≡ false → choice_at line at ≡ Now
        → ((q : ℕ) → q < length history → q ≢ at
        → choice_at line q ≡ Check (check_index r (tape_at history q)))
        → (p q : ℕ) → p < length history → q < length history
        → in_transit_between (with_event history at (CheckEvent state (Some r)))
        (round_line (with_event history at (CheckEvent state (Some r))) r) p q
        ≡ in_transit_between history line p q }
{}
