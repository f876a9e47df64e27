//! Laws of colours, and of the rounds without markers.
ghost use Rattle.std.specs.Prelude.{IsTrue, nat_le, if◌then◌else◌, slice_index_or, ◌≡◌, ◌≢◌, ◌++◌};
ghost use Rattle.std.specs.Prelude.{◌<◌, ◌≤◌, ℕ, List, [], ◌∷◌, AllPairs, false, length, replicate};
ghost use Rattle.std.specs.Prelude.{Option, Some, None};
ghost use Rattle.line_names.specs.declared.choices.Choice.{Choice};
ghost use Rattle.line_names.specs.declared.messages.MsgName.{MsgName};
ghost use Rattle.line_tape.specs.declared.events.Event.{Event};
ghost use Rattle.line_tape.specs.declared.events.Event.TheVariants.{Send, Recv, Check};
ghost use Rattle.line_tape.specs.Colours.{channel_unordered, colour, greatest};
ghost use Rattle.line_tape.specs.Colours.{is_completed_unordered, message_colour, AreColoured};
ghost use Rattle.line_tape.specs.Colours.{IsNextColoured};
ghost use Rattle.line_tape.specs.Event.{sends, Holds};
ghost use Rattle.line_tape.specs.Fit.{IsFitUnordered, IsNextUnordered};
ghost use Rattle.line_tape.specs.History.{Process, fresh, tape_at, with_event};
ghost use Rattle.line_tape.specs.Restart.{restarted_history};
ghost use Rattle.line_tape.specs.Rounds.{checked_round, checks_of, has_check_of, is_checked};
ghost use Rattle.line_tape.specs.Rounds.{rounds_checked, IsSnapshot};
ghost use Rattle.line_tape.specs.Spent.{next_name};
ghost use Rattle.line_tape.specs.Turns.{colour_by, rounds_of, turns_of, Turn};

/// On links that may lose, repeat and overtake, a round is a snapshot as soon as every tape has its
/// check, where no process receives a message of a greater colour than its own.
///
/// The algorithm of Lai and Yang, Information Processing Letters 25(3), 1987. The call does
/// nothing: its contract is the law.
pub fn colour_round_holds()
    ensures { (history : List Process) (r : ℕ) → IsFitUnordered history → AreColoured history
        → IsTrue (is_completed_unordered history r)
        → IsSnapshot history (checks_of history r) (channel_unordered history r) }
{}

/// That no process receives a message of a greater colour than its own, and that its rounds rise,
/// stays so by each event that may come next, and by each restart.
///
/// The call does nothing: its contract is the law.
pub fn colours_hold()
    ensures start { (n : ℕ) → AreColoured (replicate n fresh) }
    ensures event { (history : List Process) (at : ℕ) (event : Event) → IsFitUnordered history
        → AreColoured history → at < length history
        → IsNextUnordered history at event → IsNextColoured history at event
        → AreColoured (with_event history at event) }
    ensures restart { (history : List Process) (line : List Choice) → length line ≡ length history
        → AreColoured (restarted_history history line) }
    ensures ascend { (history : List Process) → AreColoured history → (p : ℕ)
        → AllPairs (λ r s. r < s) (rounds_checked (tape_at history p)) }
{}

/// How colours change by events and restarts, and what they say of the checks.
///
/// A message is sent in its sender's colour and keeps it; a check of a round that is no smaller
/// gives the process its number; after a restart all colours are 0. The call does nothing: its
/// contract is the law.
pub fn colours_change()
    ensures check { (tape : List Event) (state : List ℕ) (round : ℕ) → colour tape ≤ round
        → colour (tape ++ Check state (Some round) ∷ []) ≡ round }
    ensures other { (tape : List Event) (event : Event) → checked_round event ≡ None
        → colour (tape ++ event ∷ []) ≡ colour tape }
    ensures sent { (history : List Process) (at to inc : ℕ) (body : List ℕ) → at < length history
        → message_colour (with_event history at (Send to inc body)) (next_name history at)
        ≡ colour (tape_at history at) }
    ensures message { (history : List Process) (at : ℕ) (event : Event) (message : MsgName)
        → at < length history
        → Holds (tape_at history message.from) message.inc message.number
        → message_colour (with_event history at event) message ≡ message_colour history message }
    ensures restart { (history : List Process) (line : List Choice) (p : ℕ)
        → length line ≡ length history → colour (tape_at (restarted_history history line) p) ≡ 0 }
    ensures below { (history : List Process) (message : MsgName)
        → message_colour history message ≤ colour (tape_at history message.from) }
    ensures at_least { (tape : List Event) (r : ℕ) → IsTrue (has_check_of r tape)
        → r ≤ colour tape }
    ensures reached { (tape : List Event) → colour tape ≢ 0
        → IsTrue (has_check_of (colour tape) tape) }
{}

/// The turns of a tape, its checks of rounds each with the count of the sends before it, say its
/// colour and that of each message that it sent.
///
/// The colour of a message is the round of the last turn with no more sends before it than the
/// message's number. The call does nothing: its contract is the law.
pub fn turns_tell()
    ensures colour { (tape : List Event) → greatest (rounds_of (turns_of tape)) ≡ colour tape }
    ensures message { (history : List Process) (message : MsgName)
        → Holds (tape_at history message.from) message.inc message.number
        → message_colour history message
        ≡ colour_by (turns_of (tape_at history message.from)) message.number }
    ensures check { (tape : List Event) (state : List ℕ) (round : ℕ)
        → turns_of (tape ++ Check state (Some round) ∷ [])
        ≡ turns_of tape ++ record { round = round; sends = sends tape } ∷ [] }
    ensures other { (tape : List Event) (event : Event) → checked_round event ≡ None
        → turns_of (tape ++ event ∷ []) ≡ turns_of tape }
    ensures restart { (history : List Process) (line : List Choice) (p : ℕ)
        → length line ≡ length history
        → turns_of (tape_at (restarted_history history line) p) ≡ [] }
    ensures sends { (tape : List Event)
        → AllPairs (λ (s t : Turn). s.sends ≤ t.sends) (turns_of tape) }
    ensures rounds { (tape : List Event) → AllPairs (λ r s. r < s) (rounds_checked tape)
        → AllPairs (λ (s t : Turn). s.round < t.round) (turns_of tape) }
    ensures found { (turns : List Turn) (i number : ℕ) (d : Turn) → i < length turns
        → AllPairs (λ (s t : Turn). s.round < t.round) turns
        → AllPairs (λ (s t : Turn). s.sends ≤ t.sends) turns
        → (slice_index_or turns i d).sends ≤ number
        → ((j : ℕ) → i < j → j < length turns → number < (slice_index_or turns j d).sends)
        → colour_by turns number ≡ (slice_index_or turns i d).round }
    ensures last { (turns : List Turn) (turn : Turn)
        → AllPairs (λ (s t : Turn). s.round < t.round) (turns ++ turn ∷ [])
        → greatest (rounds_of (turns ++ turn ∷ [])) ≡ turn.round }
    ensures push { (turns : List Turn) (turn : Turn) (number : ℕ)
        → greatest (rounds_of turns) ≤ turn.round
        → colour_by (turns ++ turn ∷ []) number
        ≡ (if nat_le turn.sends number then turn.round else colour_by turns number) }
{}

/// Why a message of a greater colour forces a check, and why one check is enough: where every round
/// on a tape but one is on every tape, the message is of that one, its receiver has no check of it,
/// and by that check the message is of no greater colour and may be received as before.
///
/// The call does nothing: its contract is the law.
pub fn forced_checks_suffice()
    ensures open { (history : List Process) (q : ℕ) (message : MsgName) (r : ℕ)
        → colour (tape_at history q) < message_colour history message → q < length history
        → ((p s : ℕ) → IsTrue (has_check_of s (tape_at history p)) → s ≢ r
        → IsTrue (is_checked history s))
        → message_colour history message ≡ r }
    ensures new { (history : List Process) (q : ℕ) (message : MsgName)
        → colour (tape_at history q) < message_colour history message
        → has_check_of (message_colour history message) (tape_at history q) ≡ false }
    ensures next { (history : List Process) (q : ℕ) (message : MsgName) (state : List ℕ)
        → colour (tape_at history q) < message_colour history message
        → q < length history → Holds (tape_at history message.from) message.inc message.number
        → IsNextColoured
        (with_event history q (Check state (Some (message_colour history message)))) q
        (Recv message) }
    ensures received { (history : List Process) (at : ℕ) (state : List ℕ) (round : Option ℕ)
        (message : MsgName)
        → at < length history
        → IsNextUnordered history at (Recv message)
        → IsNextUnordered (with_event history at (Check state round)) at (Recv message) }
    ensures less { (tape : List Event) (r : ℕ) → 1 ≤ r
        → ((s : ℕ) → IsTrue (has_check_of s tape) → s ≤ r) → has_check_of r tape ≡ false
        → colour tape < r }
{}
