//! The calls on a table of roots, plain or compact, as callers in threads make them.

ghost use Rattle.std.specs.Prelude.{◌≡◌, ◌<◌, ◌^◌};
ghost use Rattle.pair_rule.specs.Rest.{AtRest};
ghost use Rattle.region_root.specs.Compact.{compact};
ghost use Rattle.root_plain.specs.Plain.{plain};

use pair_nodes::Nodes;
use pair_rule::PassOf;
use region_root::{CompactRoot, Peek, Regions, peek_root, put_root};
use root_plain::{PlainRoot, Roots};
use std::sync::Wait;
use tdb_base::{Silent, Steps};

/// A table of roots of two slots, which callers in threads may be lent.
pub trait RootCalls: Sync {
    ghost use Rattle.std.specs.Prelude.{◌≡◌, ◌<◌, ◌^◌};
    ghost use Rattle.pair_rule.specs.Part.{Part, Store};
    ghost use Rattle.pair_rule.specs.Rest.{AtRest};

    /// What a pass of the store knows of its roots.
    type View: Send;

    // What the root table gives to contracts, and which store it is.
    ghost part: { Part Self.View };

    ghost store: { Self → Store };

    /// Puts a root: whether there was a place.
    fn put(&self, pass: &mut PassOf<Self::View>, left: u64, right: u64) -> bool
        requires rest { AtRest part (store self.now) pass.old }
        requires width { (store self.now).about.width ≡ 28 }
        requires slots { (store self.now).about.slots ≡ 2 }
        requires parts { (left < 2 ^ 28) × (right < 2 ^ 28) }
        ensures { AtRest part (store self.now) pass.new };

    /// Looks for a root without putting it: whether it found a name.
    fn look(&self, pass: &mut PassOf<Self::View>, left: u64, right: u64) -> bool
        requires rest { AtRest part (store self.now) pass.old }
        requires width { (store self.now).about.width ≡ 28 }
        requires slots { (store self.now).about.slots ≡ 2 }
        requires parts { (left < 2 ^ 28) × (right < 2 ^ 28) }
        ensures { AtRest part (store self.now) pass.new };
}

/// Those of plain roots, which no call looks for without putting them.
#[derive(Drop)]
pub struct PlainCalls<'a> {
    /// The store.
    pub nodes: &'a Nodes<PlainRoot<28, 7>, 28, 7>,
}

impl<'a> RootCalls for PlainCalls<'a> {
    ghost use Rattle.root_plain.specs.Plain.{plain};

    type View = Roots;

    ghost part = { plain };

    ghost store = { λ d. d.nodes.now };

    #[inline]
    fn put(&self, pass: &mut PassOf<Roots>, left: u64, right: u64) -> bool {
        let mut steps = Steps::new(Silent);
        root_plain::put_root(self.nodes, pass, left, right, &mut steps).is_ok()
    }

    #[inline]
    fn look(&self, _pass: &mut PassOf<Roots>, _left: u64, _right: u64) -> bool {
        false
    }
}

/// Those of compact roots. By `H` a call may wait for the lock of a region.
#[derive(Drop)]
pub struct CompactCalls<'a, H> {
    /// By this a call may wait.
    pub rt: &'a H,
    /// The store.
    pub nodes: &'a Nodes<CompactRoot<28, 7>, 28, 7>,
}

impl<'a, H: Wait + Sync> RootCalls for CompactCalls<'a, H> {
    ghost use Rattle.region_root.specs.Compact.{compact};

    type View = Regions;

    ghost part = { compact 28 7 };

    ghost store = { λ d. d.nodes.now };

    #[inline]
    fn put(&self, pass: &mut PassOf<Regions>, left: u64, right: u64) -> bool {
        let mut steps = Steps::new(Silent);
        put_root(self.rt, self.nodes, pass, left, right, &mut steps).is_ok()
    }

    #[inline]
    fn look(&self, pass: &mut PassOf<Regions>, left: u64, right: u64) -> bool {
        let mut steps = Steps::new(Silent);
        match peek_root(self.nodes, pass, left, right, &mut steps) {
            Peek::Seen(_) => true,
            _ => false,
        }
    }
}
