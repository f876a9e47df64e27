//! Lists of numbers in parts of sixteen.
ghost use Rattle.std.specs.Prelude.{◌≡◌, ◌<◌, ◌≤◌, ◌*◌, drop, length, take};
ghost use Rattle.line_vectors.specs.Parts.{part_count};

use line_names::MOST_PROCESSES;

/// How many lanes a part of a vector has, but for the last part, which may have fewer.
pub const PART: usize = 16;

/// How many parts so many lanes have.
pub fn part_count(n: usize) -> usize
    requires { n ≤ MOST_PROCESSES }
    ensures { result ≡ part_count n }
{
    n.div_ceil(PART)
}

/// One part of a list of numbers.
pub fn part_of_lanes(numbers: &[u32], k: usize) -> &[u32]
    requires { k * PART < length numbers.now }
    ensures { result.now ≡ take PART (drop (k * PART) numbers.now) }
{
    let at = k * PART;
    &numbers[at..at + PART.min(numbers.len() - at)]
}
