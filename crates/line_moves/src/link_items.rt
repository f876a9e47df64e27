//! Items as links keep them.
ghost use Rattle.std.specs.Prelude.{◌≡◌};

use line_names::{MOST_PROCESSES, MsgName, ProcId};
use line_tape::Item;
use std::marker::Model;

/// An item in eight bytes: a message, or the marker of a round.
#[derive(Clone, Copy)]
pub(crate) struct LinkItem {
    /// The number of a message, or the round of a marker.
    value: u32,
    /// The incarnation of a message's sender; 0 for a marker.
    inc: u16,
    /// The sender of a message; 0 for a marker.
    from: u8,
    is_marker: bool,
}

const _: () = prove!(size_of::<LinkItem>() == 8);

impl Model for LinkItem {
    ghost use Rattle.std.specs.Prelude.{◌≡◌};
    ghost use Rattle.line_tape.specs.declared.items.Item.{Item};
    ghost use Rattle.line_moves.specs.LinkItems.{item_kept, kept_form};

    ghost Value = { Item };

    ghost view = { item_kept };

    ghost invariant = { λ kept. kept_form (item_kept kept) ≡ kept };

    ghost inverse = { kept_form };

    ghost inverse_ok = { λ kept again. again };
}

impl LinkItem {
    /// An item as a link keeps it.
    pub(crate) fn of(item: Item) -> LinkItem
        ensures { result ≡ item }
    {
        match item {
            Item::Message(message) => LinkItem {
                value: message.number,
                inc: message.inc,
                from: message.from.get() as u8,
                is_marker: false,
            },
            Item::Marker(round) => LinkItem {
                value: round,
                inc: 0,
                from: 0,
                is_marker: true,
            },
        }
    }

    /// The item that is kept.
    pub(crate) fn item(&self) -> Item
        ensures { result ≡ self.now }
    {
        if self.is_marker {
            return Item::Marker(self.value);
        }
        let from = ProcId::try_new(u32::from(self.from), MOST_PROCESSES as u32).unwrap();
        Item::Message(MsgName {
            from,
            inc: self.inc,
            number: self.value,
        })
    }
}
