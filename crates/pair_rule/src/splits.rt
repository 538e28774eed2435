//! How passes are split, joined, and told of one another.
ghost use Rattle.std.specs.Prelude.{◌≡◌, IfOk, OnErr};
ghost use Rattle.pair_rule.specs.Rest.{AtRest, SeatRests};
ghost use Rattle.pair_rule.specs.Splits.{HasTaken, IsSplit, IsJoined, IsTold};
ghost use Rattle.pair_rule.specs.View.{parent_view, child_view, joined_view};

use crate::part::RootPart;
use crate::pass::{Buffers, Pass};
use crate::plays::{AfterJoin, JoinViews, SplitView};
use crate::table::PairTable;
use crate::view::View;
use atomic_table::Seat;
use std::alloc::Global;
use tdb_base::NoMemory;

impl<R: RootPart<W, F>, const W: u32, const F: u32> PairTable<R, W, F> {
    // A seat is split from another, whose view is that of a pass.
    fn split_seat(&self, seat: &mut Seat<(), View<R::View>>) -> Seat<(), View<R::View>>
        requires { SeatRests R.part self.now seat.old }
        ensures rest { SeatRests R.part self.now seat.new }
        ensures new_rest { SeatRests R.part self.now result }
        ensures view { seat.new.me.0 ≡ parent_view seat.old.me.0 }
        ensures new_view { result.me.0 ≡ child_view R.part.split seat.old.me.0 }
    {
        let shared = self.shared();
        shared.split_seat::<SplitView<R, W, F>>(seat)
    }

    // A seat takes in another, and then loads word 0, which tells that it now has seen what both had.
    fn join_seat(&self, seat: &mut Seat<(), View<R::View>>, other: Seat<(), View<R::View>>)
        requires seat { SeatRests R.part self.now seat.old }
        requires other { SeatRests R.part self.now other }
        ensures rest { SeatRests R.part self.now seat.new }
        ensures view { seat.new.me.0 ≡ joined_view R.part.join seat.old.me.0 other.me.0 }
        ensures taken { HasTaken R.part seat.old.me.0 seat.new.me.0 }
        ensures other_taken { HasTaken R.part other.me.0 seat.new.me.0 }
    {
        let shared = self.shared();
        shared.join_seat::<JoinViews<R, W, F>>(seat, other);
        shared.load::<AfterJoin<R, W, F>>(seat, 0);
    }

    /// A further pass, which has seen what `pass` had, and has no call of its own, no node, no probe and no
    /// tree.
    ///
    /// Its number was none of `pass`'s before, nor of those that had been split from one of these, and nobody
    /// had called under it. After `NoMemory` the pass is unchanged.
    pub fn split(&self, alloc: Global, pass: &mut Pass<R, W, F>) -> Result<Pass<R, W, F>, NoMemory>
        requires { AtRest R.part self.now pass.old }
        ensures split { IfOk result (IsSplit R.part self.now pass.old pass.new) }
        ensures refused { OnErr result (pass.new ≡ pass.old) }
    {
        let buffers = Buffers::new(alloc, self.slots())?;
        let seat = self.split_seat(&mut pass.seat);
        Ok(buffers.with_seat(seat))
    }

    /// `pass` takes in `other`: it has then seen the longer of both histories, of which each is a front; it
    /// keeps the calls of both under their numbers, and has the nodes, the root pairs, the nodes made and the
    /// probes of both. Its last tree stays.
    pub fn join(&self, pass: &mut Pass<R, W, F>, other: Pass<R, W, F>)
        requires pass { AtRest R.part self.now pass.old }
        requires other { AtRest R.part self.now other }
        ensures { IsJoined R.part self.now pass.old other pass.new }
    {
        let (nodes, names) = (other.nodes_count, other.names_count);
        let seat = other.into_seat();
        self.join_seat(&mut pass.seat, seat);
        pass.nodes_count += nodes;
        pass.names_count += names;
    }

    /// `hearer` has then seen at least what `teller` had: a seat is split from the teller's and joined into
    /// the hearer's, without buffers.
    pub fn meet(&self, teller: &mut Pass<R, W, F>, hearer: &mut Pass<R, W, F>)
        requires teller { AtRest R.part self.now teller.old }
        requires hearer { AtRest R.part self.now hearer.old }
        ensures { IsTold R.part self.now teller.old hearer.old teller.new hearer.new }
    {
        let seat = self.split_seat(&mut teller.seat);
        self.join_seat(&mut hearer.seat, seat);
    }
}
