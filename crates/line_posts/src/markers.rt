//! Markers on the rings.
ghost use Rattle.std.specs.Prelude.{◌≡◌, ◌≢◌, ◌<◌, ◌∷◌, ℕ, length};
ghost use Rattle.line_posts.specs.Ends.{out_ends, in_ends, known_at, with_item};
ghost use Rattle.line_posts.specs.Ends.{HasRoomBelow};
ghost use Rattle.line_posts.specs.Receipts.{BeginsWithMarker};
ghost use Rattle.line_posts.specs.Markers.{with_others};
ghost use Rattle.line_posts.specs.declared.parcels.Parcel.TheVariants.{Marker};

use crate::ends::take_at;
use crate::parcels::Parcel;
use crate::rooms::push_known;
use rtrb::{Consumer, Producer};

/// Puts the marker of a round on the ring to each other process, where slots are known to be free.
pub(crate) fn push_markers(outs: &mut Vec<Producer<Parcel>>, me: usize, round: u32)
    requires { HasRoomBelow (length outs.old.items) outs.old.items }
    ensures { out_ends outs.new.items ≡ with_others (out_ends outs.old.items) me (Marker round) }
{
    for q in 0..outs.len() {
        if q != me {
            push_known(outs, q, Parcel::Marker { round });
        }
    }
}

/// Takes the known item that is first, a marker.
pub(crate) fn take_known_marker(ins: &mut Vec<Consumer<Parcel>>, p: usize, round: u32)
    requires within { p < length ins.old.items }
    requires first { BeginsWithMarker round (known_at ins.old.items p) }
    ensures ends { in_ends ins.new.items ≡ with_item (in_ends ins.old.items) p (Marker round) }
    ensures first { known_at ins.old.items p ≡ Marker round ∷ known_at ins.new.items p }
    ensures others { (k : ℕ) → k ≢ p → known_at ins.new.items k ≡ known_at ins.old.items k }
{
    let _ = take_at(ins, p);
}
