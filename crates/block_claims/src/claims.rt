//! So many blocks are made for so many drawers.
ghost use Rattle.std.specs.Prelude.{◌≡◌, ◌≤◌, ◌^◌, All, IfOk, vec_len};
ghost use Rattle.block_claims.specs.Shares.{first_share, parent_share};
ghost use Rattle.block_claims.specs.Drawers.{IsNew, IsPool};
ghost use Rattle.block_claims.specs.Seats.{IsSeatOf};

use crate::drawer::Drawer;
use crate::plays::SplitShare;
use crate::rule::ClaimsRule;
use crate::share::{Share, Totals};
use atomic_table::{Seat, Shared, Table};
use std::alloc::Global;
use std::marker::Model;
use tdb_base::NoMemory;

/// So many blocks, numbered from 0, each of which is drawn once.
///
/// Contracts see it as its table, and how many blocks and drawers there are.
#[derive(Drop)]
pub struct Claims {
    table: Table<(), Share, Totals, ClaimsRule, Global>,
    totals: Totals,
}

impl Model for Claims {
    ghost use Rattle.std.specs.Prelude.{◌≡◌};
    ghost use Rattle.block_claims.specs.Drawers.{Pool, IsPool};

    ghost Value = { Pool };

    ghost view = { λ c. record { table = c.table.shared.table_id; totals = c.totals } };

    ghost invariant = { λ c. (c.table.shared.key ≡ c.totals)
        × IsPool (record { table = c.table.shared.table_id; totals = c.totals }) };
}

impl Claims {
    /// So many blocks (1 to 2^32), and so many drawers for them (1 to 64), of which none has drawn anything.
    /// A drawer's number is its place in the list.
    ///
    /// `NoMemory` comes only for want of memory.
    pub fn create(
        alloc: Global,
        blocks: u64,
        drawers: u64,
    ) -> Result<(Claims, Vec<Drawer>), NoMemory>
        requires blocks { (1 ≤ blocks) × (blocks ≤ 2 ^ 32) }
        requires drawers { (1 ≤ drawers) × (drawers ≤ 64) }
        ensures totals { IfOk result (λ made. made.0.totals ≡ record { blocks = blocks; drawers = drawers }) }
        ensures count { IfOk result (λ made. vec_len made.1 ≡ drawers) }
        ensures new { IfOk result (λ made. All (IsNew made.0) made.1.items) }
    {
        let totals = Totals { blocks, drawers };
        let (table, seat) = Table::of_words(alloc, &[0, 0], &totals)?;
        let claims = Claims { table, totals };
        let list = claims.seat_all(alloc, seat)?;
        Ok((claims, list))
    }

    // The words, under the rule.
    pub(crate) fn shared(&self) -> &Shared<(), Share, Totals, ClaimsRule>
        ensures table { result.now.table_id ≡ self.now.table }
        ensures key { result.now.key ≡ self.now.totals }
        ensures pool { IsPool self.now }
    {
        &self.table.shared
    }

    // How many blocks and drawers there are.
    pub(crate) fn totals(&self) -> Totals
        ensures are { result ≡ self.now.totals }
        ensures pool { IsPool self.now }
    {
        self.totals
    }

    // All drawers, from the first seat, which stands for all of them.
    fn seat_all(&self, alloc: Global, first: Seat<(), Share>) -> Result<Vec<Drawer>, NoMemory>
        requires seat { IsSeatOf self.now first }
        requires share { first.me.0 ≡ first_share self.now.totals }
        ensures count { IfOk result (λ list. vec_len list ≡ self.now.totals.drawers) }
        ensures new { IfOk result (λ list. All (IsNew self.now) list.items) }
    {
        let mut seat = first;
        let Totals { blocks: _, drawers } = self.totals();
        let mut list = Vec::with_capacity(alloc, drawers as usize)?;
        for _number in 1..drawers {
            list.push(self.split(&mut seat))?;
        }
        list.push(Drawer { seat, ended: false })?;
        Ok(list)
    }

    // One of the drawers for which a seat stands gets a seat of its own.
    fn split(&self, seat: &mut Seat<(), Share>) -> Drawer
        requires seat { IsSeatOf self.now seat.old }
        requires two { 2 ≤ seat.old.me.0.drawers }
        requires none_ended { seat.old.me.0.ended ≡ 0 }
        ensures seat { IsSeatOf self.now seat.new }
        ensures share { seat.new.me.0 ≡ parent_share seat.old.me.0 }
        ensures new { IsNew self.now result }
    {
        let shared = self.shared();
        Drawer {
            seat: shared.split_seat::<SplitShare>(seat),
            ended: false,
        }
    }
}
