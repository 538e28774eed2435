//! The right to draw.
ghost use Rattle.std.specs.Prelude.{◌≡◌, []};

use crate::share::Share;
use atomic_table::Seat;
use std::marker::Model;

/// The right of one caller to draw blocks. Which blocks it drew stands behind its seat and costs nothing.
///
/// Contracts see it as the table of its claims and its share.
#[derive(Drop)]
pub struct Drawer {
    pub(crate) seat: Seat<(), Share>,
    // Whether it was told that no block is left.
    pub(crate) ended: bool,
}

impl Model for Drawer {
    ghost use Rattle.std.specs.Prelude.{◌≡◌, [], if◌then◌else◌};
    ghost use Rattle.block_claims.specs.Drawers.{Drawing};

    ghost Value = { Drawing };

    ghost view = { λ d. record { table = d.seat.table_id; share = d.seat.me.0 } };

    ghost invariant = { λ d. (d.seat.me.0.drawers ≡ 1) × (d.seat.me.1 ≡ [])
        × (d.seat.me.0.ended ≡ (if d.ended then 1 else 0)) };
}

impl Drawer {
    // The seat alone.
    pub(crate) fn into_seat(self) -> Seat<(), Share>
        ensures table { result.table_id ≡ self.table }
        ensures share { result.me.0 ≡ self.share }
        ensures one { self.share.drawers ≡ 1 }
        ensures no_slots { result.me.1 ≡ [] }
    {
        let Self { seat, ended: _ } = self;
        seat
    }
}
