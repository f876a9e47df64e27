//! Workers that are back from their threads: the two ends of each ring are compared.
ghost use Rattle.std.specs.Prelude.{◌≡◌, ◌↔◌, ℕ, IsTrue, slice_get, Some, vec_capacity};
ghost use Rattle.line_tape.specs.Fit.{IsFitFifo};
ghost use Rattle.line_posts.specs.Ends.{ring_at};
ghost use Rattle.line_posts.specs.Posts.{PostView};
ghost use Rattle.line_posts.specs.Generations.{own_history, AreAccounted, AreInOrder, AreLinkedTwo};
ghost use Rattle.line_posts.specs.Generations.{IsGeneration};
ghost use Rattle.line_posts.specs.Gathering.{ArePosts, AreMet, AreMetTwo};

use crate::ends::meet;
use crate::posts::Post;

/// Compares the two ends of the ring from one worker to another.
fn meet_two(from: &mut Post, to: &mut Post)
    requires opened { from.old.opening ≡ to.old.opening }
    requires linked { ring_at from.old.outs to.old.number ≡ ring_at to.old.ins from.old.number }
    ensures from { from.new ≡ from.old }
    ensures to { to.new ≡ to.old }
    ensures met { AreMetTwo from.old to.old }
{
    let q = to.me.get() as usize;
    let p = from.me.get() as usize;
    let _ = meet(&mut from.outs, q, &mut to.ins, p);
}

/// Compares the two ends of a worker's ring to itself.
fn meet_self(post: &mut Post)
    requires { ring_at post.old.outs post.old.number ≡ ring_at post.old.ins post.old.number }
    ensures same { post.new ≡ post.old }
    ensures met { AreMetTwo post.old post.old }
{
    let p = post.me.get() as usize;
    let _ = meet(&mut post.outs, p, &mut post.ins, p);
}

/// Compares the two ends of each ring between one worker and each of the others.
fn meet_each(one: &mut Post, others: &mut Vec<Post>)
    requires linked { (j : ℕ) (other : PostView) → slice_get others.old.items j ≡ Some other
        → AreLinkedTwo one.old other }
    ensures one { one.new ≡ one.old }
    ensures others { others.new.items ≡ others.old.items }
    ensures capacity { vec_capacity others.new ≡ vec_capacity others.old }
    ensures met { (j : ℕ) (other : PostView) → slice_get others.old.items j ≡ Some other
        → AreMetTwo one.old other × AreMetTwo other one.old }
{
    for j in 0..others.len() {
        let other = &mut others[j];
        meet_two(one, other);
        meet_two(other, one);
    }
}

/// Compares the two ends of each ring.
fn meet_all(posts: &mut Vec<Post>)
    requires { IsGeneration posts.old.items }
    ensures same { posts.new.items ≡ posts.old.items }
    ensures capacity { vec_capacity posts.new ≡ vec_capacity posts.old }
    ensures met { AreMet posts.old.items }
{
    let Some(mut last) = posts.pop() else {
        return;
    };
    meet_self(&mut last);
    meet_each(&mut last, posts);
    meet_all(posts);
    posts.push_reserved(last);
}

/// Whether the workers are one for each process, in order. If they are, it compares the two ends of
/// each ring: what a worker received of another, then what it still keeps of it, then what is still
/// on the ring, is what the other sent.
pub(crate) fn account(posts: &mut Vec<Post>) -> bool
    requires { IsGeneration posts.old.items }
    ensures same { posts.new.items ≡ posts.old.items }
    ensures order { IsTrue result ↔ AreInOrder posts.old.items }
    ensures accounted { IsTrue result → AreAccounted posts.old.items }
    ensures fit { IsTrue result → IsFitFifo (own_history posts.old.items) }
    ensures known { IsTrue result → ArePosts posts.old.items }
{
    for p in 0..posts.len() {
        let post = &posts[p];
        if post.number() as usize != p || post.n() != posts.len() {
            return false;
        }
    }
    meet_all(posts);
    true
}
