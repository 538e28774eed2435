//! The rule of a store, as its table has it.

use crate::opening::Opening;
use crate::part::RootPart;
use crate::sizes::About;
use crate::view::View;
use crate::witness::Relation;
use atomic_table::TableRule;
use std::marker::PhantomData;

/// The rule of a store's table: the part that is common to all, and that of its root table.
pub struct NodeRule<R, const W: u32, const F: u32> {
    root: PhantomData<R>,
}

impl<R: RootPart<W, F>, const W: u32, const F: u32> TableRule<
    (),
    View<R::View>,
    Opening<View<R::View>>,
> for NodeRule<R, W, F> {
    ghost use Rattle.pair_rule.specs.Rule.{StoreRule};

    ghost holds = { λ opening. StoreRule opening.about (R.part.roots opening.about) (R.holds opening.about) };

    ghost first = { λ opening. opening.first.value };
}

// Which view the first pass of a new table has, by what the table is about.
pub(crate) struct Newcomer<R, const W: u32, const F: u32> {
    root: PhantomData<R>,
}

impl<R: RootPart<W, F>, const W: u32, const F: u32> Relation<About, View<R::View>>
    for Newcomer<R, W, F> {
    ghost use Rattle.std.specs.Prelude.{◌≡◌};
    ghost use Rattle.pair_rule.specs.View.{newcomer};

    ghost relates = { λ about v. v ≡ newcomer (R.first about) about };
}
