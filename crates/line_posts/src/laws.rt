//! What a caller that moves workers between threads can rely on.
ghost use Rattle.std.specs.Prelude.{List};
ghost use Rattle.line_posts.specs.Posts.{PostView};
ghost use Rattle.line_posts.specs.Collected.{CollectorView, HasCollectedMore, HasForgotten};
ghost use Rattle.line_posts.specs.Extension.{Extends};
ghost use Rattle.line_posts.specs.Generations.{AreLined, AreSamePosts, IsGeneration};

/// Workers that come back with the rings that they went with are still of one generation, and so is
/// their collector, which may have taken reports, and may have let something go.
pub fn generations_last()
    ensures lines { (collector later : CollectorView) (old new : List PostView)
        → HasCollectedMore collector later → AreSamePosts old new
        → AreLined collector old → AreLined later new }
    ensures forgotten { (collector later : CollectorView) (posts : List PostView)
        → HasForgotten collector later → AreLined collector posts → AreLined later posts }
    ensures workers { (old new : List PostView) → AreSamePosts old new
        → IsGeneration old → IsGeneration new }
    ensures extends { (collector later : CollectorView)
        → HasCollectedMore collector later → Extends later.processes collector.processes }
{}
