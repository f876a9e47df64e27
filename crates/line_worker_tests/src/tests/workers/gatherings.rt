//! What is gathered of workers, and who of them failed.
ghost use Rattle.std.specs.Prelude.{◌≡◌, ◌∷◌, ◌++◌, [], ◌<◌, IfErr, List, length};
ghost use Rattle.line_posts.specs.Generations.{AreLined, IsGeneration};
ghost use Rattle.line_posts.specs.Posts.{PostView};

use line_names::{ProcId, ProcIdError, ProcSet};
use line_posts::{Collector, GatherRefused, GatherWhy, Gathered, Post, gather};
use std::test::Fail;

/// The set of process 0 alone.
fn first_alone() -> Result<ProcSet, ProcIdError> {
    Ok(ProcSet::empty().with(ProcId::try_new(0, 2)?))
}

/// The set of both processes.
fn both() -> Result<ProcSet, ProcIdError> {
    Ok(first_alone()?.with(ProcId::try_new(1, 2)?))
}

/// A refusal without what it hands back.
fn why(gathered: Result<Gathered, GatherRefused>) -> Result<Gathered, GatherWhy> {
    match gathered {
        Ok(gathered) => Ok(gathered),
        Err(refused) => Err(refused.why),
    }
}

/// What is gathered where nobody failed.
pub fn gather_all(collector: Collector, posts: Vec<Post>) -> Result<Gathered, GatherWhy>
    requires generation { IsGeneration posts.items }
    requires lines { AreLined collector posts.items }
{
    why(gather(collector, posts, ProcSet::empty()))
}

/// What is gathered where the first worker failed.
pub fn gather_without_first(collector: Collector, posts: Vec<Post>) -> Result<Gathered, Fail>
    requires generation { IsGeneration posts.items }
    requires lines { AreLined collector posts.items }
{
    let failed = first_alone()?;
    Ok(why(gather(collector, posts, failed))?)
}

/// What is gathered where both workers failed.
pub fn gather_reported(collector: Collector, posts: Vec<Post>) -> Result<Gathered, Fail>
    requires generation { IsGeneration posts.items }
    requires lines { AreLined collector posts.items }
{
    let failed = both()?;
    Ok(why(gather(collector, posts, failed))?)
}

/// The first worker goes after the others.
fn rotate(posts: &mut Vec<Post>)
    requires { 0 < length posts.old.items }
    ensures { (first : PostView) × (others : List PostView)
        × (posts.old.items ≡ first ∷ others) × (posts.new.items ≡ others ++ first ∷ []) }
{
    let first = posts.remove(0);
    posts.push_reserved(first);
}

/// What is gathered where the first worker goes after the others.
fn gather_rotated(collector: Collector, posts: Vec<Post>) -> Result<Gathered, GatherRefused>
    requires some { 0 < length posts.items }
    requires generation { IsGeneration posts.items }
    requires lines { AreLined collector posts.items }
    ensures some { IfErr result (λ e. 0 < length e.posts.items) }
    ensures generation { IfErr result (λ e. IsGeneration e.posts.items) }
    ensures lines { IfErr result (λ e. AreLined e.collector e.posts.items) }
{
    let mut posts = posts;
    rotate(&mut posts);
    gather(collector, posts, ProcSet::empty())
}

/// Two workers are gathered in the wrong order, which is refused, and then in the right one. Why
/// they were refused is answered beside what was gathered.
pub fn gather_in_order(
    collector: Collector,
    posts: Vec<Post>,
) -> Result<(Option<GatherWhy>, Gathered), GatherWhy>
    requires some { 0 < length posts.items }
    requires generation { IsGeneration posts.items }
    requires lines { AreLined collector posts.items }
{
    match gather_rotated(collector, posts) {
        Ok(gathered) => Ok((None, gathered)),
        Err(refused) => {
            let first = refused.why;
            let gathered = why(gather_rotated(refused.collector, refused.posts))?;
            Ok((Some(first), gathered))
        }
    }
}
