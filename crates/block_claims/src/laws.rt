//! What the contracts of drawing come to for a caller, each the contract of a function that does nothing.
ghost use Rattle.block_claims.specs.Laws.{EachHasOneDrawer, NoneButBlocks};
ghost use Rattle.block_claims.specs.Laws.{CountIsSmall, AllIsAlone, EndedHasAll};
ghost use Rattle.block_claims.specs.Laws.{NewHasNone, DrawsOneMore, DrawsAtMost};

/// Where the drawers' lists together have each block exactly once, each block stands in the list of exactly
/// one drawer, and nothing but blocks stands in any.
pub fn each_block_has_one_drawer()
    ensures one { EachHasOneDrawer }
    ensures blocks { NoneButBlocks }
{}

/// A drawer that draws again and again ends by its draw number blocks + 1 at the latest: what it drew rises
/// with each draw and stays below the number of blocks.
pub fn draws_end()
    ensures none { NewHasNone }
    ensures one_more { DrawsOneMore }
    ensures at_most { DrawsAtMost }
{}

/// What follows from the rule at any moment between two steps: the count is at most the number of blocks and
/// drawers together; a share that stands for all drawers is the only one that is not spent; where a share has
/// an ended drawer, each block was drawn once.
pub fn rule_tells()
    ensures small { CountIsSmall }
    ensures alone { AllIsAlone }
    ensures has_all { EndedHasAll }
{}
