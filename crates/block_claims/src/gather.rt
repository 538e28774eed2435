//! How drawing ends: for one drawer, and for all of them together.
ghost use Rattle.std.specs.Prelude.{◌≡◌, All, IsTrue, map, vec_len};
ghost use Rattle.std.specs.List.{list_any};
ghost use Rattle.block_claims.specs.Numbers.{EachOnceBelow};
ghost use Rattle.block_claims.specs.Drawers.{BelongsTo, drawn, has_ended};

use crate::claims::Claims;
use crate::drawer::Drawer;
use crate::plays::{AfterJoins, JoinShares};

impl Claims {
    /// Whether the drawer was told that no block is left.
    pub fn has_ended(&self, drawer: &Drawer) -> bool
        ensures { result ≡ has_ended drawer.now }
    {
        drawer.ended
    }

    /// Whether some drawer has ended, given all drawers; then each block was drawn once.
    ///
    /// The drawers' order does not matter. It takes no memory, and the drawers are no more.
    pub fn gather(&self, drawers: Vec<Drawer>) -> bool
        requires of { All (BelongsTo self.now) drawers.items }
        requires all { vec_len drawers ≡ self.now.totals.drawers }
        ensures ended { result ≡ list_any has_ended drawers.items }
        ensures each_once { IsTrue result → EachOnceBelow self.now.totals.blocks (map drawn drawers.items) }
    {
        let shared = self.shared();
        let mut left = drawers;
        let Some(last) = left.pop() else {
            unreachable!()
        };
        let mut ended = self.has_ended(&last);
        let mut seat = last.into_seat();
        while let Some(drawer) = left.pop() {
            ended |= self.has_ended(&drawer);
            shared.join_seat::<JoinShares>(&mut seat, drawer.into_seat());
        }
        shared.load::<AfterJoins>(&mut seat, 1);
        ended
    }
}
