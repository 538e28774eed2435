//! A probe: the buckets of a pair's path, line by line, until the pair is met or put.
ghost use Rattle.std.specs.Prelude.{◌≡◌, ◌≢◌, ℕ, ◌+◌, ◌*◌, ◌<◌, ◌≤◌, MatchOption, true};
ghost use Rattle.tree_shape.specs.Tree.{Has};
ghost use Rattle.pair_rule.specs.Paths.{node_buckets, size, bucket, reach};
ghost use Rattle.pair_rule.specs.Plays.{IsWord};
ghost use Rattle.pair_rule.specs.Rest.{AtRest, view};
ghost use Rattle.pair_nodes.specs.Probe.{pair_of_word, IsNodeWord, course_of, HasPassed, Underway, Ended};
ghost use Rattle.pair_nodes.specs.Probe.{KeepsTree};

use crate::steps::{begin, look, put};
use pair_rule::{PairTable, Pass, RootPart};
use probe_path::{Path, Walk};

// What the word that was found in the bucket `at` means: its pair is the wanted one, or another; or the
// bucket is empty, and gets the wanted one, unless it got a pair between. Answers the bucket, if the wanted
// pair is there.
#[inline]
fn settle<R: RootPart<W, F>, const W: u32, const F: u32>(
    table: &PairTable<R, W, F>,
    pass: &mut Pass<R, W, F>,
    at: u64,
    word: u64,
    found: u64,
) -> Option<u64>
    requires rest { AtRest R.part table.now pass.old }
    requires word { IsNodeWord table.now.about word }
    requires inside { at < size (node_buckets table.now.about) }
    requires on_path { (step : ℕ) × (step < reach (node_buckets table.now.about))
        × (bucket (node_buckets table.now.about) (pair_of_word word) step ≡ at)
        × HasPassed (view pass.old) (pair_of_word word) step }
    requires found { IsWord table.now.about found
        × (found ≢ 0 → Has (at, pair_of_word found) (view pass.old).known) }
    requires probing { (view pass.old).probing ≡ true }
    ensures rest { AtRest R.part table.now pass.new }
    ensures tree { KeepsTree pass.old pass.new }
    ensures ends { MatchOption result
        ((step : ℕ) → bucket (node_buckets table.now.about) (pair_of_word word) step ≡ at
        → HasPassed (view pass.old) (pair_of_word word) step
        → Underway (pair_of_word word) (step + 1) 0 (view pass.old) (view pass.new))
        (λ index. Ended (pair_of_word word) index 0 (view pass.old) (view pass.new)) }
{
    if found == word {
        return Some(at);
    }
    if found != 0 {
        return None;
    }
    let found = put(table, pass, at, word);
    if found == 0 || found == word {
        Some(at)
    } else {
        None
    }
}

// The buckets of the walk's line from the place `from` on.
#[inline]
fn look_along<R: RootPart<W, F>, const W: u32, const F: u32>(
    table: &PairTable<R, W, F>,
    pass: &mut Pass<R, W, F>,
    walk: &Walk<W>,
    from: u64,
    word: u64,
) -> Option<u64>
    requires rest { AtRest R.part table.now pass.old }
    requires word { IsNodeWord table.now.about word }
    requires width { table.now.about.width ≡ W }
    requires walk { (walk.now.course ≡ course_of table.now.about word)
        × (walk.now.passed < walk.now.course.lines) }
    requires from { from ≤ 8 }
    requires passed { HasPassed (view pass.old) (pair_of_word word) (8 * walk.now.passed + from) }
    requires probing { (view pass.old).probing ≡ true }
    ensures rest { AtRest R.part table.now pass.new }
    ensures tree { KeepsTree pass.old pass.new }
    ensures ends { MatchOption result
        (Underway (pair_of_word word) (8 * walk.now.passed + 8) 0 (view pass.old) (view pass.new))
        (λ index. Ended (pair_of_word word) index 0 (view pass.old) (view pass.new)) }
{
    for i in from..8 {
        let at = walk.bucket(i);
        let found = look(table, pass, at);
        if let Some(index) = settle(table, pass, at, word, found) {
            return Some(index);
        }
    }
    None
}

// The first bucket of the path, with which the probe begins.
#[inline]
fn look_first<R: RootPart<W, F>, const W: u32, const F: u32>(
    table: &PairTable<R, W, F>,
    pass: &mut Pass<R, W, F>,
    walk: &Walk<W>,
    word: u64,
) -> Option<u64>
    requires rest { AtRest R.part table.now pass.old }
    requires word { IsNodeWord table.now.about word }
    requires width { table.now.about.width ≡ W }
    requires walk { (walk.now.course ≡ course_of table.now.about word) × (walk.now.passed ≡ 0)
        × (0 < walk.now.course.lines) }
    ensures rest { AtRest R.part table.now pass.new }
    ensures tree { KeepsTree pass.old pass.new }
    ensures ends { MatchOption result (Underway (pair_of_word word) 1 1 (view pass.old) (view pass.new))
        (λ index. Ended (pair_of_word word) index 1 (view pass.old) (view pass.new)) }
{
    let at = walk.bucket(0);
    let found = begin(table, pass, at);
    settle(table, pass, at, word, found)
}

// The first line of the path.
#[inline]
fn look_along_first<R: RootPart<W, F>, const W: u32, const F: u32>(
    table: &PairTable<R, W, F>,
    pass: &mut Pass<R, W, F>,
    walk: &Walk<W>,
    word: u64,
) -> Option<u64>
    requires rest { AtRest R.part table.now pass.old }
    requires word { IsNodeWord table.now.about word }
    requires width { table.now.about.width ≡ W }
    requires walk { (walk.now.course ≡ course_of table.now.about word) × (walk.now.passed ≡ 0)
        × (0 < walk.now.course.lines) }
    ensures rest { AtRest R.part table.now pass.new }
    ensures tree { KeepsTree pass.old pass.new }
    ensures ends { MatchOption result (Underway (pair_of_word word) 8 1 (view pass.old) (view pass.new))
        (λ index. Ended (pair_of_word word) index 1 (view pass.old) (view pass.new)) }
{
    if let Some(index) = look_first(table, pass, walk, word) {
        return Some(index);
    }
    look_along(table, pass, walk, 1, word)
}

// The whole path: the index of the pair, or none where each bucket has another.
#[inline]
pub(crate) fn probe<R: RootPart<W, F>, const W: u32, const F: u32>(
    table: &PairTable<R, W, F>,
    pass: &mut Pass<R, W, F>,
    path: &Path<W>,
    word: u64,
) -> Option<u64>
    requires rest { AtRest R.part table.now pass.old }
    requires word { IsNodeWord table.now.about word }
    requires width { table.now.about.width ≡ W }
    requires path { path.now ≡ course_of table.now.about word }
    ensures rest { AtRest R.part table.now pass.new }
    ensures tree { KeepsTree pass.old pass.new }
    ensures ends { MatchOption result
        (Underway (pair_of_word word) (reach (node_buckets table.now.about)) 1 (view pass.old)
        (view pass.new))
        (λ index. Ended (pair_of_word word) index 1 (view pass.old) (view pass.new)) }
{
    let mut walk = path.walk();
    if let Some(index) = look_along_first(table, pass, &walk, word) {
        return Some(index);
    }
    for line in 1..path.len() >> 3 {
        walk.advance();
        if let Some(index) = look_along(table, pass, &walk, 0, word) {
            return Some(index);
        }
    }
    None
}
