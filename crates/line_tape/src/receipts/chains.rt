//! Receipts with the links between them, and chains of those that come in order.
ghost use Rattle.std.specs.Prelude.{◌≡◌, ◌≢◌, ◌<◌, ◌≤◌, ◌-◌, ℕ, suc, false, length, IsTrue};
ghost use Rattle.line_names.specs.declared.limits.TheConstants.{MOST_PROCESSES};
ghost use Rattle.line_names.specs.Names.{is_name};
ghost use Rattle.line_tape.specs.Noted.{AreChained, IsAhead, IsBack, IsLastOfSender, IsWayBack};
ghost use Rattle.line_tape.specs.Noted.{key_of};
ghost use Rattle.line_tape.specs.Noted.{name_of_receipt};
ghost use Rattle.line_tape.specs.Noted.{name_at};

use line_names::{MOST_PROCESSES, MsgName, ProcId};

/// A receipt of a message, with two links: each is 0, or one more than the number of a receipt.
///
/// Where it is ahead, its number above those of all receipts before it from its sender, the links
/// go back in a chain: `near` to the last one before it that is ahead and from its sender, and
/// `far` to one further back, by jump pointers after Myers (An applicative random-access stack,
/// 1983). Otherwise they lead down in a tree.
#[derive(Clone, Copy)]
pub struct Receipt {
    pub number: u32,
    pub near: u32,
    pub far: u32,
    pub inc: u16,
    pub from: u8,
    pub height: u8,
}

impl Receipt {
    /// A receipt of the message, with no links yet.
    pub fn of(message: &MsgName) -> Receipt
        ensures message { name_of_receipt result ≡ message.now }
        ensures links { (result.near ≡ 0) × (result.far ≡ 0) }
        ensures sender { result.from < MOST_PROCESSES }
    {
        Receipt {
            number: message.number,
            near: 0,
            far: 0,
            inc: message.inc,
            from: message.from.get() as u8,
            height: 0,
        }
    }

    /// The message that it is of.
    pub fn message(&self) -> MsgName
        ensures { result ≡ name_of_receipt self.now }
    {
        let from = u32::from(self.from);
        let Ok(from) = ProcId::try_new(from, MOST_PROCESSES as u32) else {
            unreachable!()
        };
        MsgName {
            from,
            inc: self.inc,
            number: self.number,
        }
    }

    /// Whether it is of the same message as another.
    pub fn is_of(&self, other: &Receipt) -> bool
        ensures { result ≡ is_name (name_of_receipt self.now) (name_of_receipt other.now) }
    {
        self.from == other.from && self.inc == other.inc && self.number == other.number
    }

    /// The number whose bits, the lowest first, lead to it in the tree: those of the number from
    /// its twentieth down, which are all that a tape's sends have, then those above, and those of
    /// the sender and of the incarnation.
    ///
    /// So messages of about one time share most of their way, and what a receipt passes was passed
    /// by those just before it.
    pub fn key(&self) -> u64
        ensures { result ≡ key_of (name_of_receipt self.now) }
    {
        let number = self.number.rotate_left(12).reverse_bits();
        (u64::from(self.inc) * 256 + u64::from(self.from)) * 4_294_967_296 + u64::from(number)
    }
}

/// Where a search for a number goes on from a link to a receipt of a greater one: as far back as no
/// receipt of the number is passed.
fn back_from(receipts: &[Receipt], link: u32, number: u32) -> u32
    requires chained { AreChained receipts.now }
    requires some { 0 < link }
    requires within { link ≤ length receipts.now }
    requires ahead { IsAhead receipts.now (link - 1) }
    ensures back { IsBack receipts.now (link - 1) (name_at receipts.now (link - 1)).from result }
    ensures passed { number < (name_at receipts.now (link - 1)).number → (j : ℕ) → j < link - 1
        → IsAhead receipts.now j
        → (name_at receipts.now j).from ≡ (name_at receipts.now (link - 1)).from
        → (name_at receipts.now j).number ≡ number → j < result }
{
    let at = receipts[link as usize - 1];
    if at.far == 0 {
        return at.near;
    }
    if receipts[at.far as usize - 1].number < number {
        return at.near;
    }
    at.far
}

/// The receipt of the message that is ahead, searched from one of its sender that is; 0 if none is.
/// The steps are logarithmic in the number of these.
pub fn find_ahead(receipts: &[Receipt], start: u32, wanted: &Receipt) -> u32
    requires chained { AreChained receipts.now }
    requires way { IsWayBack receipts.now (name_of_receipt wanted.now) start }
    ensures found { (i : ℕ) → result ≡ suc i
        → (i < length receipts.now) × IsAhead receipts.now i
        × (name_at receipts.now i ≡ name_of_receipt wanted.now) }
    ensures none { (i : ℕ) → result ≡ 0 → i < length receipts.now → IsAhead receipts.now i
        → name_at receipts.now i ≢ name_of_receipt wanted.now }
{
    let mut link = start;
    while link != 0 {
        let at = receipts[link as usize - 1];
        if at.number <= wanted.number {
            if at.is_of(wanted) {
                return link;
            }
            return 0;
        }
        link = back_from(receipts, link, wanted.number);
    }
    0
}

/// Whether a receipt that comes next is ahead, by the last one of its sender that is.
pub fn is_ahead(receipts: &[Receipt], last: u32, receipt: &Receipt) -> bool
    requires last { IsLastOfSender receipts.now (length receipts.now) receipt.now.from last }
    ensures yes { IsTrue result → (i : ℕ) → i < length receipts.now
        → (name_at receipts.now i).from ≡ receipt.now.from
        → (name_at receipts.now i).number < receipt.now.number }
    ensures no { result ≡ false
        → (i : ℕ) × (i < length receipts.now) × ((name_at receipts.now i).from ≡ receipt.now.from)
        × (receipt.now.number ≤ (name_at receipts.now i).number) }
{
    last == 0 || receipts[last as usize - 1].number < receipt.number
}

/// The receipt with its links back, where it comes next and is ahead.
///
/// The heights are those of the trees that part the chain: two of one height at its end become one,
/// and otherwise the receipt is a tree of its own.
pub fn linked_back(receipts: &[Receipt], last: u32, receipt: Receipt) -> Receipt
    requires chained { AreChained receipts.now }
    requires last { IsLastOfSender receipts.now (length receipts.now) receipt.from last }
    ensures same { name_of_receipt result ≡ name_of_receipt receipt }
    ensures near { result.near ≡ last }
    ensures far { IsBack receipts.now (length receipts.now) receipt.from result.far }
{
    let near = Receipt {
        near: last,
        far: last,
        ..receipt
    };
    if last == 0 {
        return near;
    }
    let before = receipts[last as usize - 1];
    if before.far == 0 {
        return near;
    }
    let further = receipts[before.far as usize - 1];
    if before.height != further.height {
        return near;
    }
    Receipt {
        far: further.far,
        height: before.height.saturating_add(1),
        ..near
    }
}
