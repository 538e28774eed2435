//! The atomic steps on a root's bucket, one function each.
ghost use Rattle.std.specs.Prelude.{◌≡◌, ◌≢◌, ℕ, ◌+◌, ◌^◌, ◌<◌, ◌≤◌, true, [], length};
ghost use mathlib.Core.Option.{none};
ghost use Rattle.atomic_table.specs.Table.{Allows, step};
ghost use Rattle.pair_nodes.specs.Probe.{IsNodeWord, pair_of_word};
ghost use Rattle.pair_rule.specs.Calls.{Called, IsSomeRoot};
ghost use Rattle.pair_rule.specs.Paths.{root_buckets, size};
ghost use Rattle.root_plain.specs.Probe.{IsNextBucket};
ghost use Rattle.pair_rule.specs.Plays.{first_root};
ghost use Rattle.pair_rule.specs.Rest.{AtRest, view};
ghost use Rattle.root_plain.specs.Plain.{plain};
ghost use Rattle.root_plain.specs.Plays.{Shows, wants, sought};
ghost use Rattle.root_plain.specs.declared.plays.Wanted.TheVariants.{Pair};

use crate::plays::{Asks, Claiming, Seeking, Wanted};
use crate::root::{PlainRoot, Roots};
use atomic_table::{Seat, Shared, TableRule};
use pair_rule::{NodeRule, Opening, PairTable, Pass, View};
use std::marker::Brand;

// The word of a root's bucket.
#[inline]
pub(crate) fn root_word(nodes: u32, at: u64) -> usize
    requires { (nodes ≤ 25) × (at < 2 ^ 24) }
    ensures { result ≡ 1 + 2 ^ nodes + at }
{
    1 + (1 << nodes) + at as usize
}

// A load that is told what is wanted. It has no const parameter, since a call could not pick `B` then.
#[inline]
fn load_asked<B: Asks, P: TableRule<(), View<Roots>, Opening<View<Roots>>>>(
    shared: &Shared<(), View<Roots>, Opening<View<Roots>>, P>,
    seat: &mut Seat<(), View<Roots>>,
    word: usize,
    wanted: &Wanted,
) -> u64
    requires wanted { wants wanted.now ≡ B.wanted }
    requires seat { (seat.old.table_id ≡ shared.now.table_id) × (word < shared.now.table_id.words) }
    requires rule { Allows (P.holds shared.now.key) shared.now.table_id.slots seat.old.id seat.old.me word
        (λ n. n) (sought (wants wanted.now) (step shared.now.table_id.slots word 0 0 none) seat.old.me) }
    ensures seat { seat.new.table_id ≡ seat.old.table_id }
    ensures sought { sought (wants wanted.now)
        (step shared.now.table_id.slots word 0 0 none) seat.old.me result seat.new.me }
{
    shared.load::<Seeking<B>>(seat, word)
}

// Loads the word of the bucket `at`.
#[inline]
pub(crate) fn look<const W: u32, const F: u32>(
    table: &PairTable<PlainRoot<W, F>, W, F>,
    pass: &mut Pass<PlainRoot<W, F>, W, F>,
    at: u64,
    wanted: &Wanted,
) -> u64
    requires rest { AtRest plain table.now pass.old }
    requires inside { at < size (root_buckets table.now.about) }
    ensures rest { AtRest plain table.now pass.new }
    ensures shows { Shows (wants wanted.now) at result (view pass.old) (view pass.new) }
    ensures tree { pass.new ≡ record pass.old { seat = pass.new.seat } }
{
    let sizes = table.sizes();
    let place = root_word(sizes.nodes, at);
    load_asked::<Brand, NodeRule<PlainRoot<W, F>, W, F>>(
        table.shared(),
        &mut pass.seat,
        place,
        wanted,
    )
}

// Puts the word of a pair into the bucket `at`, the one of this step of the pair's path, if it is empty;
// answers the word that was there.
#[inline]
pub(crate) fn claim<const W: u32, const F: u32>(
    table: &PairTable<PlainRoot<W, F>, W, F>,
    pass: &mut Pass<PlainRoot<W, F>, W, F>,
    at: u64,
    word: u64,
) -> u64
    requires rest { AtRest plain table.now pass.old }
    requires word { IsNodeWord table.now.about word }
    requires inside { at < size (root_buckets table.now.about) }
    requires passed { IsNextBucket (root_buckets table.now.about) (view pass.old).root.roots
        (pair_of_word word) at }
    requires stands { IsSomeRoot table.now.about (view pass.old).known (pair_of_word word) }
    ensures rest { AtRest plain table.now pass.new }
    ensures won { result ≡ 0 → Called plain true at (pair_of_word word) (view pass.old) (view pass.new) }
    ensures lost { result ≢ 0
        → Shows (wants (Pair (pair_of_word word))) at result (view pass.old) (view pass.new) }
    ensures tree { pass.new ≡ record pass.old { seat = pass.new.seat; names_count = pass.new.names_count } }
{
    let sizes = table.sizes();
    let place = root_word(sizes.nodes, at);
    let shared = table.shared();
    let found = shared.compare_exchange::<Claiming>(&mut pass.seat, place, 0, word);
    if found == 0 {
        pass.names_count += 1;
    }
    found
}
