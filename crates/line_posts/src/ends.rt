//! One step on one end of a list of ends, and what holds where the two ends of a ring meet.
ghost use Rattle.std.specs.Prelude.{◌≡◌, ◌≢◌, ◌++◌, ◌∷◌, [], ◌<◌, ℕ, List, IsTrue, Some, false};
ghost use Rattle.std.specs.Prelude.{length};
ghost use mathlib.Core.List.{IsPrefix};
ghost use Rattle.line_posts.specs.Ends.{out_ends, in_ends, producer_end, known_at};
ghost use Rattle.line_posts.specs.Ends.{with_item, items_at, ring_at};

use rtrb::{Consumer, Producer};

/// Whether the ring from process `p` has an item, so far as this end can see; the items seen are
/// known from here on.
///
/// It moves nothing. Where items are known already it does not ask the ring, whose answer the
/// sender changes with each push. What is pushed later is seen by a later look.
pub(crate) fn look_at<T>(ins: &mut Vec<Consumer<T>>, p: usize) -> bool
    requires { p < length ins.old.items }
    ensures ends { in_ends ins.new.items ≡ in_ends ins.old.items }
    ensures known { IsTrue result → 0 < length (known_at ins.new.items p) }
    ensures none { result ≡ false → known_at ins.new.items p ≡ [] }
    ensures seen { IsPrefix (known_at ins.old.items p) (known_at ins.new.items p) }
    ensures others { (k : ℕ) → k ≢ p → known_at ins.new.items k ≡ known_at ins.old.items k }
{
    let end = &mut ins[p];
    !end.is_empty()
}

/// The first of the known items from process `p`, which stays on its ring.
pub(crate) fn front_at<T>(ins: &Vec<Consumer<T>>, p: usize) -> &T
    requires within { p < length ins.now.items }
    requires known { 0 < length (known_at ins.now.items p) }
    ensures { (rest : List T) × (known_at ins.now.items p ≡ result.now ∷ rest) }
{
    let end = &ins[p];
    end.peek_known()
}

/// Takes the first of the known items from process `p`, which frees its slot.
pub(crate) fn take_at<T>(ins: &mut Vec<Consumer<T>>, p: usize) -> T
    requires within { p < length ins.old.items }
    requires known { 0 < length (known_at ins.old.items p) }
    ensures ends { in_ends ins.new.items ≡ with_item (in_ends ins.old.items) p result }
    ensures first { known_at ins.old.items p ≡ result ∷ known_at ins.new.items p }
    ensures others { (k : ℕ) → k ≢ p → known_at ins.new.items k ≡ known_at ins.old.items k }
{
    let end = &mut ins[p];
    end.pop_known()
}

/// Brings the two ends of one ring together: what was pushed is what was popped and then what lies
/// between them. It answers how many items lie there, and moves none.
///
/// Each end knows its own past alone, so nothing that is claimed of both is known before this.
pub(crate) fn meet<T>(
    outs: &mut Vec<Producer<T>>,
    q: usize,
    ins: &mut Vec<Consumer<T>>,
    p: usize,
) -> usize
    requires out_within { q < length outs.old.items }
    requires in_within { p < length ins.old.items }
    requires pair { ring_at (out_ends outs.old.items) q ≡ ring_at (in_ends ins.old.items) p }
    ensures outs { out_ends outs.new.items ≡ out_ends outs.old.items }
    ensures ins { in_ends ins.new.items ≡ in_ends ins.old.items }
    ensures seen { IsPrefix (known_at ins.old.items p) (known_at ins.new.items p) }
    ensures others { (k : ℕ) → k ≢ p → known_at ins.new.items k ≡ known_at ins.old.items k }
    ensures fifo { (rest : List T) × (length rest ≡ result)
        × (items_at (in_ends ins.old.items) p ++ rest ≡ items_at (out_ends outs.old.items) q) }
{
    let producer = &mut outs[q];
    let consumer = &mut ins[p];
    consumer.slots_beside(producer)
}

/// As `meet`, for a sending end that stands alone; what lies between the two ends is known from
/// here on, so that it can be taken.
pub(crate) fn meet_end<T>(out: &mut Producer<T>, ins: &mut Vec<Consumer<T>>, p: usize) -> usize
    requires within { p < length ins.old.items }
    requires pair { Some (producer_end out.old).ring ≡ ring_at (in_ends ins.old.items) p }
    ensures out { producer_end out.new ≡ producer_end out.old }
    ensures ins { in_ends ins.new.items ≡ in_ends ins.old.items }
    ensures seen { IsPrefix (known_at ins.old.items p) (known_at ins.new.items p) }
    ensures others { (k : ℕ) → k ≢ p → known_at ins.new.items k ≡ known_at ins.old.items k }
    ensures count { result ≡ length (known_at ins.new.items p) }
    ensures fifo { items_at (in_ends ins.old.items) p ++ known_at ins.new.items p
        ≡ (producer_end out.old).items }
{
    let consumer = &mut ins[p];
    consumer.slots_beside(out)
}
