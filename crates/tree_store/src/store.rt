//! A store of vectors.
ghost use Rattle.std.specs.Prelude.{◌≡◌};
ghost use Rattle.pair_rule.specs.Part.{IsTable};

use pair_nodes::Nodes;
use pair_rule::RootPart;
use std::marker::Model;
use tree_shape::Shape;

/// A store of vectors: the shape of their trees, and the shared table of pairs in which these lie.
///
/// Contracts see it as they see that table: which it is, and what it is about.
pub struct TreeStore<R: RootPart<W, F>, const W: u32, const F: u32> {
    pub(crate) shape: Shape,
    pub(crate) nodes: Nodes<R, W, F>,
}

impl<R: RootPart<W, F>, const W: u32, const F: u32> Model for TreeStore<R, W, F> {
    ghost use Rattle.std.specs.Prelude.{◌≡◌};
    ghost use Rattle.pair_rule.specs.Part.{Store, IsTable};

    ghost Value = { Store };

    ghost view = { λ s. s.nodes };

    ghost invariant = { λ s. (s.shape ≡ s.nodes.about.slots) × IsTable W F R.part s.nodes };
}

impl<R: RootPart<W, F>, const W: u32, const F: u32> TreeStore<R, W, F> {
    /// The nodes, over which a root table is opened.
    pub fn nodes(&self) -> &Nodes<R, W, F>
        ensures nodes { result.now ≡ self.now }
        ensures store { IsTable W F R.part self.now }
    {
        &self.nodes
    }

    /// How many slots a vector of this store has.
    pub fn slots(&self) -> usize
        ensures { result ≡ self.now.about.slots }
    {
        self.shape.slots()
    }
}

impl<R: RootPart<W, F>, const W: u32, const F: u32> Drop for TreeStore<R, W, F> {
    fn drop(self) {
        let Self { shape: _, nodes: _ } = self;
    }
}
