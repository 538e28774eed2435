//! The steps on the table, and what each tells of the share that steps.

use crate::share::Share;
use atomic_table::{Join, Play, Split};

/// The fetch and add by which a block is drawn.
pub(crate) struct DrawBlock;

impl Play<(), Share> for DrawBlock {
    ghost use Rattle.block_claims.specs.Plays.{draw_tells};

    ghost then = { draw_tells };
}

/// The load after all seats were joined.
pub(crate) struct AfterJoins;

impl Play<(), Share> for AfterJoins {
    ghost use Rattle.block_claims.specs.Plays.{after_joins_tells};

    ghost then = { after_joins_tells };
}

/// How a seat for one drawer is split off.
pub(crate) struct SplitShare;

impl Split<Share> for SplitShare {
    ghost use Rattle.block_claims.specs.Shares.{parent_share, child_share};

    ghost left = { parent_share };

    ghost right = { child_share };
}

/// How two seats become one.
pub(crate) struct JoinShares;

impl Join<Share> for JoinShares {
    ghost use Rattle.block_claims.specs.Shares.{joined_share, spent_share};

    ghost both = { joined_share };

    ghost spent = { spent_share };
}
