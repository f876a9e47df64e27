//! How the vector of where a process stands is laid after those of its checks.
ghost use Rattle.std.specs.Prelude.{◌≡◌, ◌≢◌, ◌<◌, ◌≤◌, ◌+◌, ◌-◌, ◌*◌, ℕ, false, length, min};
ghost use Rattle.std.specs.Prelude.{slice_index, take, vec_capacity, vec_len};
ghost use Rattle.line_vectors.specs.Parts.{part_count};
ghost use Rattle.line_catalogue.specs.Laid.{AreHeld, EndWith, width_of};

use line_vectors::{PART, Reach, part_count, part_of_lanes};

/// In place of where a part begins: it was changed since it was laid.
pub const NOT_LAID: u32 = u32::MAX;

/// How many parts a vector has at most.
pub const MOST_PARTS: usize = 16;

/// Lays a part of the vector of where a process stands after the other lanes, unless it was not
/// changed since it was laid, in room that was made for it.
fn lay_part(lanes: &mut Vec<u32>, present: &Reach, starts: &mut [u32; MOST_PARTS], k: usize)
    requires part { k < part_count (length present.now) }
    requires few_parts { part_count (length present.now) ≤ MOST_PARTS }
    requires held { AreHeld lanes.old.items starts.old present.now }
    requires few { vec_len lanes.old < NOT_LAID }
    requires room { vec_len lanes.old + min PART (length present.now - k * PART)
        ≤ vec_capacity lanes.old }
    ensures kept { take (vec_len lanes.old) lanes.new.items ≡ lanes.old.items }
    ensures longer { vec_len lanes.old ≤ vec_len lanes.new }
    ensures few { vec_len lanes.new
        ≤ vec_len lanes.old + min PART (length present.now - k * PART) }
    ensures held { AreHeld lanes.new.items starts.new present.now }
    ensures count { length starts.new ≡ MOST_PARTS }
    ensures laid { slice_index starts.new k ≢ NOT_LAID }
    ensures others { (j : ℕ) → j ≢ k → slice_index starts.new j ≡ slice_index starts.old j }
    ensures capacity { vec_capacity lanes.old ≤ vec_capacity lanes.new }
{
    if starts[k] == NOT_LAID {
        let start = lanes.len() as u32;
        lanes
            .extend_from_slice(part_of_lanes(present.lanes(), k))
            .unwrap();
        starts[k] = start;
    }
}

/// Puts the vector of where a process stands after the others, unless it is the last of them
/// already, in room that was made for it: the parts that were changed, and then where all parts
/// begin.
pub fn lay(lanes: &mut Vec<u32>, present: &Reach, starts: &mut [u32; MOST_PARTS], heard: bool)
    requires held { AreHeld lanes.old.items starts.old present.now }
    requires last { heard ≡ false → EndWith lanes.old.items present.now }
    requires few { vec_len lanes.old + width_of (length present.now) < NOT_LAID }
    requires room { vec_len lanes.old + width_of (length present.now) ≤ vec_capacity lanes.old }
    ensures kept { take (vec_len lanes.old) lanes.new.items ≡ lanes.old.items }
    ensures longer { vec_len lanes.old ≤ vec_len lanes.new }
    ensures held { AreHeld lanes.new.items starts.new present.now }
    ensures last { EndWith lanes.new.items present.now }
    ensures len { vec_len lanes.new ≤ vec_len lanes.old + width_of (length present.now) }
    ensures capacity { vec_capacity lanes.old ≤ vec_capacity lanes.new }
{
    if heard {
        let parts = part_count(present.n());
        for k in 0..parts {
            lay_part(lanes, present, starts, k);
        }
        lanes.extend_from_slice(&starts[..parts]).unwrap();
    }
}
