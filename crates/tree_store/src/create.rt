//! How a store is made.
ghost use Rattle.std.specs.Prelude.{◌≡◌, ℕ, ◌≤◌, ◌↔◌, IsTrue, IfOk, Err, Some, None, false};
ghost use Rattle.packed_word.specs.Word.{IsLayout};
ghost use Rattle.pair_rule.specs.Part.{IsTable};
ghost use Rattle.pair_rule.specs.Rest.{AtRest, Whole, view};
ghost use Rattle.pair_rule.specs.View.{newcomer};
ghost use Rattle.tree_store.specs.Ranges.{NodesFit, ProbeFits, IsFirstOut};

use crate::store::TreeStore;
use pair_nodes::Nodes;
use pair_rule::{PairTable, Pass, RootPart, Sizes};
use std::alloc::Global;
use thiserror::Error;
use tree_shape::Shape;

/// Why there is no such store.
#[derive(Clone, Copy, Debug, PartialEq, Eq, Drop, Error)]
pub enum CreateError {
    /// A size is out of its range, the first of: 1 the nodes, 2 the roots, 3 a region of compact roots, 4 the
    /// lines of a path.
    #[error("size {0} is out of range, of nodes, roots, region and probe")]
    Sizes(u32),
    /// Memory ran out.
    #[error("no memory")]
    NoMemory,
}

fn nodes_fit<const W: u32>(sizes: &Sizes) -> bool
    ensures { IsTrue result ↔ NodesFit W sizes.now }
{
    3 <= sizes.nodes && sizes.nodes <= 25 && sizes.nodes <= W
}

fn probe_fits(sizes: &Sizes) -> bool
    ensures { IsTrue result ↔ ProbeFits sizes.now }
{
    1 <= sizes.probe && sizes.probe <= 4194304
}

// The number of the first size that is out of its range.
fn first_out<R: RootPart<W, F>, const W: u32, const F: u32>(sizes: &Sizes) -> Option<u32>
    requires { IsLayout W F }
    ensures out { (n : ℕ) → (result ≡ Some n) ↔ IsFirstOut R.part W sizes.now n }
    ensures fit { result ≡ None → NodesFit W sizes.now × R.part.sized sizes.now × ProbeFits sizes.now }
{
    if !nodes_fit::<W>(sizes) {
        return Some(1);
    }
    if let Some(number) = R::first_out(sizes) {
        return Some(number);
    }
    if !probe_fits(sizes) {
        return Some(4);
    }
    None
}

impl<R: RootPart<W, F>, const W: u32, const F: u32> TreeStore<R, W, F> {
    /// A store without vectors, and its first pass, which has the number 0.
    ///
    /// The nodes have `2^nodes` buckets with `nodes` from 3 to 25 and at most `W`, and `probe` is 1 to
    /// 4194304. What `roots` and `region` may be is the root table's: plain ones have `2^roots` buckets with
    /// `roots` from 3 to 24, and don't look at `region`; compact ones have `2^roots` cells with `roots` from 6
    /// to 24 and below `2W`, in regions of `2^region` cells with `region` from 6 to 12 and at most `roots`.
    /// `CreateError::Sizes` says which size is the first out of its range, and comes before `NoMemory`.
    pub fn create(
        alloc: Global,
        shape: Shape,
        sizes: &Sizes,
    ) -> Result<(TreeStore<R, W, F>, Pass<R, W, F>), CreateError>
        requires layout { IsLayout W F }
        ensures sizes { (n : ℕ) → (result ≡ Err (CreateError.Sizes n)) ↔ IsFirstOut R.part W sizes.now n }
        ensures store { IfOk result (λ made. IsTable W F R.part made.0) }
        ensures sizes_are { IfOk result (λ made. made.0.about.sizes ≡ sizes.now) }
        ensures slots { IfOk result (λ made. made.0.about.slots ≡ shape) }
        ensures view { IfOk result (λ made. view made.1 ≡ newcomer (R.first made.0.about) made.0.about) }
        ensures whole { IfOk result (λ made. Whole (view made.1)) }
        ensures no_tree { IfOk result (λ made. made.1.has_last ≡ false) }
        ensures rest { IfOk result (λ made. AtRest R.part made.0 made.1) }
    {
        if let Some(number) = first_out::<R, W, F>(sizes) {
            return Err(CreateError::Sizes(number));
        }
        let Ok((table, pass)) = PairTable::<R, W, F>::create(alloc, sizes, shape.slots()) else {
            return Err(CreateError::NoMemory);
        };
        let nodes = Nodes::over(table);
        Ok((TreeStore { shape, nodes }, pass))
    }
}
