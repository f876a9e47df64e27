//! Eight lanes at a time.
ghost use Rattle.std.specs.Prelude.{◌≡◌, ◌≤◌, ◌+◌, length};
ghost use Rattle.line_vectors.specs.Blocks.{over_bits_of, HasGreaterOn};

use std::simd::prelude::*;

/// How many lanes a block has.
pub const LANES: usize = 8;

/// The lanes of a block where the first list is over the second, as bits: bit k is the lane k
/// places past the block's start.
#[inline(always)]
pub fn over_bits(a: &[u32], b: &[u32], at: usize) -> u64
    requires first { at + 8 ≤ length a.now }
    requires second { at + 8 ≤ length b.now }
    ensures { result ≡ over_bits_of a.now b.now at }
{
    let first = u32x8::from_slice(&a[at..]);
    let second = u32x8::from_slice(&b[at..]);
    first.simd_gt(second).to_bitmask()
}

/// Each lane of a block of the first list becomes the greater of both.
#[inline(always)]
pub fn max_block(a: &mut [u32], b: &[u32], at: usize)
    requires first { at + 8 ≤ length a.old }
    requires second { at + 8 ≤ length b.now }
    ensures { HasGreaterOn a.old a.new b.now at (at + 8) }
{
    let first = u32x8::from_slice(&a[at..]);
    let second = u32x8::from_slice(&b[at..]);
    first.simd_max(second).copy_to_slice(&mut a[at..]);
}
