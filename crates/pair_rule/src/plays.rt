//! The steps on a table that every store has, and what each tells of the view that steps.
ghost use Rattle.pair_rule.specs.Plays.{look_tells, begin_tells, put_tells, after_join_tells};

use crate::part::RootPart;
use crate::view::View;
use atomic_table::{Join, Play, Split};
use std::marker::PhantomData;

/// A load of a node's bucket.
pub struct Look<R, const W: u32, const F: u32> {
    root: PhantomData<R>,
}

impl<R: RootPart<W, F>, const W: u32, const F: u32> Play<(), View<R::View>> for Look<R, W, F> {
    ghost then = { look_tells R.part };
}

/// The load of the first bucket of a pair's path: a probe begins.
pub struct Begin<R, const W: u32, const F: u32> {
    root: PhantomData<R>,
}

impl<R: RootPart<W, F>, const W: u32, const F: u32> Play<(), View<R::View>> for Begin<R, W, F> {
    ghost then = { begin_tells R.part };
}

/// A compare and exchange that puts a pair into a node's empty bucket.
pub struct Put<R, const W: u32, const F: u32> {
    root: PhantomData<R>,
}

impl<R: RootPart<W, F>, const W: u32, const F: u32> Play<(), View<R::View>> for Put<R, W, F> {
    ghost then = { put_tells R.part };
}

/// The load of word 0 that follows a join.
pub struct AfterJoin<R, const W: u32, const F: u32> {
    root: PhantomData<R>,
}

impl<R: RootPart<W, F>, const W: u32, const F: u32> Play<(), View<R::View>> for AfterJoin<R, W, F> {
    ghost then = { after_join_tells R.part };
}

/// How a view is split in two.
pub struct SplitView<R, const W: u32, const F: u32> {
    root: PhantomData<R>,
}

impl<R: RootPart<W, F>, const W: u32, const F: u32> Split<View<R::View>> for SplitView<R, W, F> {
    ghost use Rattle.pair_rule.specs.View.{parent_view, child_view};

    ghost left = { parent_view };

    ghost right = { child_view R.part.split };
}

/// How two views are made one.
pub struct JoinViews<R, const W: u32, const F: u32> {
    root: PhantomData<R>,
}

impl<R: RootPart<W, F>, const W: u32, const F: u32> Join<View<R::View>> for JoinViews<R, W, F> {
    ghost use Rattle.pair_rule.specs.View.{joining_view, nobody};

    ghost both = { joining_view R.part.join };

    ghost spent = { nobody R.spent };
}
