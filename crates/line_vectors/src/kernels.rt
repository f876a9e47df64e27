//! The kernels.
ghost use Rattle.std.specs.Prelude.{◌≡◌, ◌≤◌, ◌↔◌, IsTrue, MatchOption, length};
ghost use Rattle.line_vectors.specs.Lanes.{greater_of, HasNoneOver, HasNoneOverBefore, IsFirstOver};
ghost use Rattle.line_vectors.specs.Lanes.{over_count};

use crate::blocks::{LANES, max_block, over_bits};

/// Each lane of the first list becomes the greater of both.
pub fn max_into(a: &mut [u32], b: &[u32])
    requires { length a.old ≡ length b.now }
    ensures { a.new ≡ greater_of a.old b.now }
{
    let mut at = 0;
    while a.len() - at >= LANES {
        max_block(a, b, at);
        at += LANES;
    }
    for i in at..a.len() {
        a[i] = a[i].max(b[i]);
    }
}

/// Whether no lane of the first list is over that of the second.
pub fn all_le(a: &[u32], b: &[u32]) -> bool
    requires { length a.now ≡ length b.now }
    ensures { IsTrue result ↔ HasNoneOver a.now b.now }
{
    first_over(a, b).is_none()
}

/// The first lane where the first list is over the second; none where there is no such lane.
///
/// It looks at no block after the one where it finds it.
pub fn first_over(a: &[u32], b: &[u32]) -> Option<usize>
    requires { length a.now ≡ length b.now }
    ensures { MatchOption result (HasNoneOver a.now b.now) (IsFirstOver a.now b.now) }
{
    first_over_from(a, b, 0)
}

/// What `first_over` answers, where it is known that in none of so many first lanes the first list
/// is over the second: it looks at no block before the one where these end.
pub fn first_over_from(a: &[u32], b: &[u32], from: usize) -> Option<usize>
    requires lanes { length a.now ≡ length b.now }
    requires from { from ≤ length a.now }
    requires none { HasNoneOverBefore a.now b.now from }
    ensures { MatchOption result (HasNoneOver a.now b.now) (IsFirstOver a.now b.now) }
{
    let mut at = from - from % LANES;
    while a.len() - at >= LANES {
        let bits = over_bits(a, b, at);
        if bits != 0 {
            return Some(at + bits.trailing_zeros() as usize);
        }
        at += LANES;
    }
    for i in at..a.len() {
        if a[i] > b[i] {
            return Some(i);
        }
    }
    None
}

/// In how many lanes the first list is over the second.
pub fn count_over(a: &[u32], b: &[u32]) -> usize
    requires { length a.now ≡ length b.now }
    ensures { result ≡ over_count a.now b.now }
{
    let mut total = 0;
    let mut at = 0;
    while a.len() - at >= LANES {
        total += over_bits(a, b, at).count_ones() as usize;
        at += LANES;
    }
    for i in at..a.len() {
        if a[i] > b[i] {
            total += 1;
        }
    }
    total
}
