//! The law of links that keep their order.
ghost use Rattle.std.specs.Prelude.{◌≡◌, ◌++◌, ◌<◌, ℕ, List, length};
ghost use Rattle.line_tape.specs.declared.events.Event.{Event};
ghost use Rattle.line_tape.specs.declared.items.Item.{Item};
ghost use Rattle.line_tape.specs.Fit.{IsFitFifo, IsNextFifo, items_got, items_put, link};
ghost use Rattle.line_tape.specs.History.{Process, with_event};

/// A history that fits stays so by an event that may come next, which takes the first item of its
/// link and puts its own at the end of others.
///
/// The call does nothing: its contract is the law.
pub fn event_fits()
    ensures fit { (history : List Process) (at : ℕ) (event : Event) → IsFitFifo history
        → at < length history → IsNextFifo history at event
        → IsFitFifo (with_event history at event) }
    ensures links { (history : List Process) (at : ℕ) (event : Event) → IsFitFifo history
        → at < length history → (p q : ℕ) (rest : List Item)
        → link history p q ≡ items_got at event p q ++ rest
        → link (with_event history at event) p q ≡ rest ++ items_put history at event p q }
{}
