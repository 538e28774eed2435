//! One drawer draws.
ghost use Rattle.std.specs.Prelude.{◌≡◌, ◌<◌, All, IfSome, IfNone, false};
ghost use Rattle.block_claims.specs.Rule.{NoneLeft};
ghost use Rattle.block_claims.specs.Shares.{with_block};
ghost use Rattle.block_claims.specs.Drawers.{BelongsTo, drawn, has_ended};

use crate::claims::Claims;
use crate::drawer::Drawer;
use crate::plays::DrawBlock;

impl Claims {
    /// The next block that nobody drew, or `None` where none is left: then the drawer has ended, and may not
    /// draw again. It neither waits nor takes memory.
    pub fn draw(&self, drawer: &mut Drawer) -> Option<u64>
        requires of { BelongsTo self.now drawer.old }
        requires not_ended { has_ended drawer.old ≡ false }
        ensures of { BelongsTo self.now drawer.new }
        ensures below { IfSome result (λ b. b < self.now.totals.blocks) }
        ensures greater { IfSome result (λ b. All (λ a. a < b) (drawn drawer.old)) }
        ensures gained { IfSome result (λ b. drawer.new.share ≡ with_block b drawer.old.share) }
        ensures ended { IfNone result (drawer.new.share ≡ record drawer.old.share { ended = 1 }) }
        ensures none_left { IfNone result (NoneLeft self.now.totals drawer.old.share) }
    {
        let totals = self.totals();
        let shared = self.shared();
        let found = shared.fetch_add::<DrawBlock>(&mut drawer.seat, 1, 1);
        if found < totals.blocks {
            return Some(found);
        }
        drawer.ended = true;
        None
    }
}
