//! Free slots that are known, so that pushes cannot fail: only the sending end fills slots.
ghost use Rattle.std.specs.Prelude.{◌≡◌, ◌≢◌, ◌<◌, ◌+◌, ℕ, IsTrue, false, length};
ghost use Rattle.line_posts.specs.Ends.{out_ends, free_at, with_item, HasFilled, HasFullEnd};
ghost use Rattle.line_posts.specs.Ends.{HasRoomBelow, IsFilled};

use rtrb::Producer;

/// Whether the ring to process `q` has a free slot; then it is known. Only the ring can tell, since
/// the receiver takes items meanwhile; a slot that is known to be free stays so. It costs a
/// constant.
pub(crate) fn has_slot<T>(outs: &mut Vec<Producer<T>>, q: usize) -> bool
    requires { q < length outs.old.items }
    ensures ends { out_ends outs.new.items ≡ out_ends outs.old.items }
    ensures long { length outs.new.items ≡ length outs.old.items }
    ensures room { IsTrue result → 0 < free_at outs.new.items q }
    ensures full { result ≡ false → free_at outs.new.items q ≡ 0 }
    ensures filled { result ≡ false → IsFilled (out_ends outs.old.items) q }
    ensures succeeds { 0 < free_at outs.old.items q → IsTrue result }
    ensures others { (k : ℕ) → k ≢ q → free_at outs.new.items k ≡ free_at outs.old.items k }
{
    let end = &mut outs[q];
    !end.is_full()
}

/// Whether each ring has a free slot; then these are known. Otherwise some ring has just been seen
/// full. It costs a look at each ring.
pub(crate) fn has_room<T>(outs: &mut Vec<Producer<T>>) -> bool
    ensures ends { out_ends outs.new.items ≡ out_ends outs.old.items }
    ensures long { length outs.new.items ≡ length outs.old.items }
    ensures room { IsTrue result → HasRoomBelow (length outs.new.items) outs.new.items }
    ensures full { result ≡ false → HasFullEnd outs.new.items }
    ensures filled { result ≡ false → HasFilled (out_ends outs.old.items) }
{
    for q in 0..outs.len() {
        if !has_slot(outs, q) {
            return false;
        }
    }
    true
}

/// Pushes an item on the ring to process `q`, which is known to have a free slot.
pub(crate) fn push_known<T>(outs: &mut Vec<Producer<T>>, q: usize, item: T)
    requires within { q < length outs.old.items }
    requires room { 0 < free_at outs.old.items q }
    ensures ends { out_ends outs.new.items ≡ with_item (out_ends outs.old.items) q item }
    ensures free { free_at outs.old.items q ≡ free_at outs.new.items q + 1 }
    ensures others { (k : ℕ) → k ≢ q → free_at outs.new.items k ≡ free_at outs.old.items k }
{
    let end = &mut outs[q];
    end.push_reserved(item);
}
