//! Whether a store can keep a vector.
ghost use Rattle.std.specs.Prelude.{◌≡◌, ℕ, ◌^◌, ◌<◌, ◌≤◌, ◌↔◌, IsTrue, All, slice_index};
ghost use Rattle.tree_store.specs.Vectors.{IsVector};

use crate::store::TreeStore;
use pair_rule::RootPart;

// Whether each slot is below 2^W, by one pass without a branch: whether the bits of all slots together are.
fn all_below<const W: u32>(vector: &[u32]) -> bool
    requires { W ≤ 31 }
    ensures { IsTrue result ↔ All (λ x. x < 2 ^ W) vector.now }
{
    let mut bits = 0;
    for i in 0..vector.len() {
        bits |= vector[i];
    }
    bits >> W == 0
}

impl<R: RootPart<W, F>, const W: u32, const F: u32> TreeStore<R, W, F> {
    /// Whether the store can keep the vector: it has the store's slots, each below `2^W`.
    pub fn fits(&self, vector: &[u32]) -> bool
        ensures vector { IsTrue result ↔ IsVector self.now.about vector.now }
        ensures width { self.now.about.width ≡ W }
    {
        let shape = &self.shape;
        vector.len() == shape.slots() && all_below::<W>(vector)
    }
}
