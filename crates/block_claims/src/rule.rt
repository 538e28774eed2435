//! The rule of the table.

use crate::share::{Share, Totals};
use atomic_table::TableRule;

/// The rule of the table: what holds of the count and of all shares between any two steps.
pub struct ClaimsRule;

impl TableRule<(), Share, Totals> for ClaimsRule {
    ghost use Rattle.block_claims.specs.Rule.{AreClaims};
    ghost use Rattle.block_claims.specs.Shares.{first_share};

    ghost holds = { λ totals s. AreClaims totals s.words s.views };

    ghost first = { first_share };
}
