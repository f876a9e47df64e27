//! The tree of the receipts that come out of order.
ghost use Rattle.std.specs.Prelude.{◌≡◌, ◌≢◌, ◌<◌, ◌≤◌, Bool, ℕ, suc, List, length, map, vec_len};
ghost use Rattle.std.specs.Prelude.{vec_capacity};
ghost use Rattle.line_tape.specs.Noted.{AreInTree, IsNode, IsPut, IsSeatOf, name_of_receipt};
ghost use Rattle.line_tape.specs.Noted.{link_in_seat};

use super::chains::Receipt;

/// A place in the tree for a receipt: below another one at one of its links, or at the root, where
/// there is none above.
#[derive(Clone, Copy)]
pub struct ReceiptSeat {
    pub above: u32,
    pub far: bool,
}

/// The link to the receipt that a seat has; 0 if it has none.
pub fn link_at(receipts: &[Receipt], root: u32, seat: ReceiptSeat) -> u32
    requires node { IsNode receipts.now seat.above }
    ensures { result ≡ link_in_seat receipts.now root seat.above seat.far }
{
    if seat.above == 0 {
        root
    } else if seat.far {
        receipts[seat.above as usize - 1].far
    } else {
        receipts[seat.above as usize - 1].near
    }
}

/// The seat that a receipt of the message has in the tree, or the empty one that the next such
/// would have.
///
/// It takes at most one step more than a key has bits, and with one sender's numbers in a row one
/// more than the twenty bits of a number that a tape can have.
pub fn seat_of(receipts: &[Receipt], root: u32, wanted: &Receipt) -> ReceiptSeat
    requires tree { AreInTree receipts.now root }
    ensures { IsSeatOf receipts.now root (name_of_receipt wanted.now) result.above result.far }
{
    let mut seat = ReceiptSeat {
        above: 0,
        far: false,
    };
    let mut link = root;
    let mut key = wanted.key();
    while link != 0 {
        if receipts[link as usize - 1].is_of(wanted) {
            return seat;
        }
        seat = ReceiptSeat {
            above: link,
            far: key % 2 == 1,
        };
        link = link_at(receipts, root, seat);
        key /= 2;
    }
    seat
}

/// Puts another link into a seat.
pub fn put_receipt(receipts: &mut Vec<Receipt>, root: &mut u32, seat: ReceiptSeat, link: u32)
    requires node { IsNode receipts.old.items seat.above }
    ensures put { IsPut receipts.old.items root.old receipts.new.items root.new seat.above seat.far
        link }
    ensures len { vec_len receipts.new ≡ vec_len receipts.old }
    ensures capacity { vec_capacity receipts.old ≤ vec_capacity receipts.new }
{
    if seat.above == 0 {
        *root = link;
    } else if seat.far {
        receipts[seat.above as usize - 1].far = link;
    } else {
        receipts[seat.above as usize - 1].near = link;
    }
}
