//! Who may go on.
ghost use Rattle.std.specs.Prelude.{◌<◌, IsTrue};

use line_posts::Post;
use std::thread::yield_now;

/// Whether workers may go on, asked from all their threads at once.
///
/// A gate may say in `lets` whom it lets on, to which order, and how that worker then stands: it
/// answers yes only then. A gate that does not say it may let on whom it likes, and each may answer
/// no where it answered yes before.
pub trait Gate: Sync {
    ghost use Rattle.std.specs.Prelude.{ℕ};
    ghost use Rattle.line_posts.specs.Posts.{PostView};

    ghost lets: { Self → ℕ → ℕ → PostView → Type 0 } = { λ _ _ _ _. Unit {0} };

    /// Whether worker `p` may go on to its order `k`, counted from 0. It is asked again later where
    /// it says no.
    fn pass(&self, p: u32, k: u32, post: &Post) -> bool
        ensures { IsTrue result → lets self.now p k post.now };
}

/// Whether a worker may go on, where it is asked at most so many times.
pub(crate) fn passes<G: Gate>(gate: &G, k: u32, post: &Post, turns: u64) -> bool
    ensures { IsTrue result → (0 < turns) × G.lets gate.now post.now.number k post.now }
{
    for _turn in 0..turns {
        if gate.pass(post.number(), k, post) {
            return true;
        }
        yield_now();
    }
    false
}
