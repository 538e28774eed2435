//! A root is put, or found, along its pair's path.
ghost use Rattle.std.specs.Prelude.{◌≡◌, ◌≢◌, ℕ, ◌+◌, ◌*◌, ◌^◌, ◌<◌, ◌≤◌, [], true};
ghost use Rattle.std.specs.Prelude.{IfOk, OnErr, IfSome, IfNone, MatchOption, option_map};
ghost use Rattle.packed_word.specs.Word.{pair_of};
ghost use Rattle.tdb_base.specs.Fakes.{counted};
ghost use Rattle.pair_nodes.specs.Probe.{IsNodeWord, pair_of_word};
ghost use Rattle.pair_nodes.specs.Roots.{RootPut, RootRefused};
ghost use Rattle.pair_rule.specs.Calls.{Called, IsSomeRoot, KeepsBuffers};
ghost use Rattle.pair_rule.specs.Part.{IsTable};
ghost use Rattle.pair_rule.specs.Paths.{root_buckets, size, reach, Passed, Listed};
ghost use Rattle.pair_rule.specs.Plays.{Caught};
ghost use Rattle.pair_rule.specs.Rest.{AtRest, view};
ghost use Rattle.root_plain.specs.Plain.{plain};
ghost use Rattle.root_plain.specs.Plays.{Shows, wants};
ghost use Rattle.root_plain.specs.Probe.{HasOther, IsNextBucket, Passes, Along};
ghost use Rattle.root_plain.specs.declared.plays.Wanted.TheVariants.{Pair};

use crate::plays::Wanted;
use crate::root::PlainRoot;
use crate::steps::{claim, look};
use packed_word::Layout;
use pair_nodes::Nodes;
use pair_rule::{PairTable, Pass, RootsFull};
use probe_path::{Path, Walk};
use tdb_base::{Ledger, Steps};

// The present bit.
const PRESENT: u64 = 1 << 63;

// Looks at the bucket `at`, the next one of the path of the word's pair, and puts the word there if it is
// empty. Answers the word that stands there, if it wasn't.
#[inline]
fn settle<const W: u32, const F: u32>(
    table: &PairTable<PlainRoot<W, F>, W, F>,
    pass: &mut Pass<PlainRoot<W, F>, W, F>,
    at: u64,
    word: u64,
) -> Option<u64>
    requires rest { AtRest plain table.now pass.old }
    requires word { IsNodeWord table.now.about word }
    requires inside { at < size (root_buckets table.now.about) }
    requires passed { IsNextBucket (root_buckets table.now.about) (view pass.old).root.roots
        (pair_of_word word) at }
    requires stands { IsSomeRoot table.now.about (view pass.old).known (pair_of_word word) }
    ensures rest { AtRest plain table.now pass.new }
    ensures put { IfNone result (Called plain true at (pair_of_word word) (view pass.old) (view pass.new)) }
    ensures used { IfSome result (λ found. found ≢ 0) }
    ensures found { IfSome result
        (λ found. Shows (wants (Pair (pair_of_word word))) at found (view pass.old) (view pass.new)) }
    ensures buffers { KeepsBuffers pass.old pass.new }
{
    let wanted = Wanted::Pair(word - PRESENT);
    let found = look(table, pass, at, &wanted);
    if found != 0 {
        return Some(found);
    }
    let lost = claim(table, pass, at, word);
    if lost != 0 {
        return Some(lost);
    }
    None
}

// The same, answering the bucket and whether the pair was put, or `None` where another pair stands.
#[inline]
fn visit<const W: u32, const F: u32>(
    table: &PairTable<PlainRoot<W, F>, W, F>,
    pass: &mut Pass<PlainRoot<W, F>, W, F>,
    at: u64,
    word: u64,
) -> Option<(u64, bool)>
    requires store { IsTable W F plain table.now }
    requires rest { AtRest plain table.now pass.old }
    requires word { IsNodeWord table.now.about word }
    requires inside { at < size (root_buckets table.now.about) }
    requires passed { IsNextBucket (root_buckets table.now.about) (view pass.old).root.roots
        (pair_of_word word) at }
    requires stands { IsSomeRoot table.now.about (view pass.old).known (pair_of_word word) }
    ensures rest { AtRest plain table.now pass.new }
    ensures outcome { MatchOption result
        (Caught plain [] (view pass.old) (view pass.new) × HasOther at (pair_of_word word) (view pass.new))
        (λ a. Called plain a.1 a.0 (pair_of_word word) (view pass.old) (view pass.new)) }
    ensures buffers { KeepsBuffers pass.old pass.new }
{
    let Some(found) = settle(table, pass, at, word) else {
        return Some((at, true));
    };
    if Layout::<W, F>::without_flags(found) == word {
        Some((at, false))
    } else {
        None
    }
}

// Visits the buckets of one line of the path of the word's pair, from its bucket `from` on.
#[inline]
fn walk_line<const W: u32, const F: u32>(
    table: &PairTable<PlainRoot<W, F>, W, F>,
    pass: &mut Pass<PlainRoot<W, F>, W, F>,
    walk: &Walk<W>,
    from: u64,
    word: u64,
) -> Option<(u64, bool)>
    requires store { IsTable W F plain table.now }
    requires rest { AtRest plain table.now pass.old }
    requires word { IsNodeWord table.now.about word }
    requires walk { Along table.now.about (pair_of_word word) walk.now.course }
    requires line { walk.now.passed < walk.now.course.lines }
    requires from { from ≤ 8 }
    requires passed { Passed (root_buckets table.now.about) (Listed (view pass.old).root.roots)
        (pair_of_word word)
        (8 * walk.now.passed + from) }
    requires stands { IsSomeRoot table.now.about (view pass.old).known (pair_of_word word) }
    ensures rest { AtRest plain table.now pass.new }
    ensures outcome { MatchOption result
        (Passes table.now.about (pair_of_word word) (8 * walk.now.passed + 8) (view pass.old) (view pass.new))
        (λ a. Called plain a.1 a.0 (pair_of_word word) (view pass.old) (view pass.new)) }
    ensures buffers { KeepsBuffers pass.old pass.new }
{
    for i in from..8 {
        if let Some(found) = visit(table, pass, walk.bucket(i), word) {
            return Some(found);
        }
    }
    None
}

// Visits the buckets of the path of the word's pair but the first one, line by line.
fn walk_on<const W: u32, const F: u32>(
    table: &PairTable<PlainRoot<W, F>, W, F>,
    pass: &mut Pass<PlainRoot<W, F>, W, F>,
    path: &Path<W>,
    word: u64,
) -> Option<(u64, bool)>
    requires store { IsTable W F plain table.now }
    requires rest { AtRest plain table.now pass.old }
    requires word { IsNodeWord table.now.about word }
    requires path { Along table.now.about (pair_of_word word) path.now }
    requires lines { 0 < path.now.lines }
    requires passed { Passed (root_buckets table.now.about) (Listed (view pass.old).root.roots)
        (pair_of_word word) 1 }
    requires stands { IsSomeRoot table.now.about (view pass.old).known (pair_of_word word) }
    ensures rest { AtRest plain table.now pass.new }
    ensures outcome { MatchOption result
        (Passes table.now.about (pair_of_word word) (reach (root_buckets table.now.about)) (view pass.old) (view pass.new))
        (λ a. Called plain a.1 a.0 (pair_of_word word) (view pass.old) (view pass.new)) }
    ensures buffers { KeepsBuffers pass.old pass.new }
{
    let mut walk = path.walk();
    let mut from = 1;
    for line in 0..path.len() / 8 {
        if let Some(found) = walk_line(table, pass, &walk, from, word) {
            return Some(found);
        }
        walk.advance();
        from = 0;
    }
    None
}

// Visits the buckets of the path of the word's pair. Most walks end at the first one.
#[inline]
fn walk_path<const W: u32, const F: u32>(
    table: &PairTable<PlainRoot<W, F>, W, F>,
    pass: &mut Pass<PlainRoot<W, F>, W, F>,
    word: u64,
) -> Option<(u64, bool)>
    requires store { IsTable W F plain table.now }
    requires rest { AtRest plain table.now pass.old }
    requires word { IsNodeWord table.now.about word }
    requires stands { IsSomeRoot table.now.about (view pass.old).known (pair_of_word word) }
    ensures rest { AtRest plain table.now pass.new }
    ensures outcome { MatchOption result
        (Passes table.now.about (pair_of_word word) (reach (root_buckets table.now.about)) (view pass.old) (view pass.new))
        (λ a. Called plain a.1 a.0 (pair_of_word word) (view pass.old) (view pass.new)) }
    ensures buffers { KeepsBuffers pass.old pass.new }
{
    let sizes = table.sizes();
    let path = Path::<W>::new(word - PRESENT, sizes.roots, sizes.probe);
    let walk = path.walk();
    if let Some(found) = visit(table, pass, walk.bucket(0), word) {
        return Some(found);
    }
    walk_on(table, pass, &path, word)
}

/// Gives the vector with the root `(left, right)` a name, or finds its name: its identifier, below `2^roots`,
/// and whether it is new.
///
/// The parts are below `2^W`, and the pair is the root of some vector in the nodes that the pass knows. The
/// answer is one call of the table's history, made at one atomic step; afterwards the pass has seen that
/// history up to this call. It counts one step. `RootsFull` comes only where each bucket of the pair's path
/// has another root, which stays so; no call is made then. It waits for nobody and takes no memory.
pub fn put_root<L: Ledger, const W: u32, const F: u32>(
    nodes: &Nodes<PlainRoot<W, F>, W, F>,
    pass: &mut Pass<PlainRoot<W, F>, W, F>,
    left: u64,
    right: u64,
    steps: &mut Steps<L>,
) -> Result<(u64, bool), RootsFull>
    requires rest { AtRest plain nodes.now pass.old }
    requires left { left < 2 ^ nodes.now.about.width }
    requires right { right < 2 ^ nodes.now.about.width }
    requires stands { IsSomeRoot nodes.now.about (view pass.old).known
        (pair_of nodes.now.about.width left right) }
    ensures put { IfOk result (λ a. RootPut plain nodes.now (pair_of nodes.now.about.width left right) a.0 a.1
        pass.old pass.new) }
    ensures refused { OnErr result (RootRefused plain nodes.now (pair_of nodes.now.about.width left right)
        pass.old pass.new) }
    ensures tick { L.count steps.new ≡ option_map counted (L.count steps.old) }
{
    steps.tick();
    let table = nodes.table();
    let word = Layout::<W, F>::pack(left, right);
    match walk_path(table, pass, word) {
        Some(found) => Ok(found),
        None => Err(RootsFull),
    }
}
