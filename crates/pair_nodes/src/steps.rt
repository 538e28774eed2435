//! The atomic steps on a node's bucket, one function each.
ghost use Rattle.std.specs.Prelude.{◌≡◌, ◌≢◌, ℕ, ◌<◌, true};
ghost use Rattle.tree_shape.specs.Tree.{Has};
ghost use Rattle.pair_rule.specs.Paths.{node_buckets, size, bucket, reach, IsPair};
ghost use Rattle.pair_rule.specs.Plays.{IsWord};
ghost use Rattle.pair_rule.specs.Rest.{AtRest, view};
ghost use Rattle.pair_rule.specs.View.{node_word, learned, begun, published};
ghost use Rattle.pair_nodes.specs.Probe.{HasPassed, KeepsTree, pair_of_word};

use pair_rule::plays::{Begin, Look, Put};
use pair_rule::{PairTable, Pass, RootPart};

// Loads the word of the bucket `at`.
#[inline]
pub(crate) fn look<R: RootPart<W, F>, const W: u32, const F: u32>(
    table: &PairTable<R, W, F>,
    pass: &mut Pass<R, W, F>,
    at: u64,
) -> u64
    requires rest { AtRest R.part table.now pass.old }
    requires inside { at < size (node_buckets table.now.about) }
    ensures rest { AtRest R.part table.now pass.new }
    ensures view { view pass.new ≡ learned at result (view pass.old) }
    ensures word { IsWord table.now.about result }
    ensures free { result ≡ 0 → (pair : ℕ) → Has (at, pair) (view pass.old).known → ⊥ }
    ensures tree { pass.new ≡ record pass.old { seat = pass.new.seat } }
{
    let shared = table.shared();
    shared.load::<Look<R, W, F>>(&mut pass.seat, at as usize + 1)
}

// The same, as the first load of a probe.
#[inline]
pub(crate) fn begin<R: RootPart<W, F>, const W: u32, const F: u32>(
    table: &PairTable<R, W, F>,
    pass: &mut Pass<R, W, F>,
    at: u64,
) -> u64
    requires rest { AtRest R.part table.now pass.old }
    requires inside { at < size (node_buckets table.now.about) }
    ensures rest { AtRest R.part table.now pass.new }
    ensures view { view pass.new ≡ begun at result (view pass.old) }
    ensures word { IsWord table.now.about result }
    ensures free { result ≡ 0 → (pair : ℕ) → Has (at, pair) (view pass.old).known → ⊥ }
    ensures tree { pass.new ≡ record pass.old { seat = pass.new.seat } }
{
    let shared = table.shared();
    shared.load::<Begin<R, W, F>>(&mut pass.seat, at as usize + 1)
}

// Puts the word of a pair into the bucket `at`, the one of this step of the pair's path, if it is empty;
// answers the word that was there.
#[inline]
pub(crate) fn put<R: RootPart<W, F>, const W: u32, const F: u32>(
    table: &PairTable<R, W, F>,
    pass: &mut Pass<R, W, F>,
    at: u64,
    word: u64,
) -> u64
    requires rest { AtRest R.part table.now pass.old }
    requires pair { let pair = pair_of_word word in (word ≡ node_word pair)
        × IsPair (node_buckets table.now.about) pair }
    requires inside { at < size (node_buckets table.now.about) }
    requires passed { (step : ℕ) × (step < reach (node_buckets table.now.about))
        × (bucket (node_buckets table.now.about) (pair_of_word word) step ≡ at)
        × HasPassed (view pass.old) (pair_of_word word) step }
    requires probing { (view pass.old).probing ≡ true }
    ensures rest { AtRest R.part table.now pass.new }
    ensures won { result ≡ 0 → view pass.new ≡ published at (pair_of_word word) (view pass.old) }
    ensures lost { result ≢ 0 → view pass.new ≡ learned at result (view pass.old) }
    ensures word { IsWord table.now.about result }
    ensures free { result ≡ 0 → (pair : ℕ) → Has (at, pair) (view pass.old).known → ⊥ }
    ensures tree { KeepsTree pass.old pass.new }
{
    let shared = table.shared();
    let found = shared.compare_exchange::<Put<R, W, F>>(&mut pass.seat, at as usize + 1, 0, word);
    if found == 0 {
        pass.nodes_count += 1;
    }
    found
}
