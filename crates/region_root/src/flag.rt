//! The flags of a named vector: they are set, cleared and read under the lock of its root's region.
ghost use Rattle.std.specs.Prelude.{◌≡◌, ℕ, ◌^◌, ◌<◌, List, [], ◌∷◌, Some};
ghost use Rattle.tree_shape.specs.Tree.{Has};
ghost use Rattle.tdb_base.specs.Acts.{act_of};
ghost use Rattle.tdb_base.specs.History.{Set, Clear, Look, with_bit, without_bit};
ghost use Rattle.pair_nodes.specs.Roots.{RootActed};
ghost use Rattle.pair_rule.specs.Calls.{KeepsBuffers};
ghost use Rattle.pair_rule.specs.Rest.{AtRest, view, KnowsName};
ghost use Rattle.region_root.specs.declared.root.Holding.{Holding};
ghost use Rattle.region_root.specs.Layout.{place, IsPacked, KeepsRoots};
ghost use Rattle.region_root.specs.Maps.{Acts};
ghost use Rattle.region_root.specs.Told.{HasFlag, act_on, map_after};
ghost use Rattle.region_root.specs.Compact.{compact};
ghost use Rattle.region_root.specs.Plays.{Told};
ghost use Rattle.region_root.specs.Work.{AtWork, Rewrites, held_words};

use crate::held::{root_flags, set_root_flags};
use crate::lock::lock_region;
use crate::root::CompactRoot;
use crate::steps::unlock;
use crate::words::root_place;
use mix_hash::Place;
use pair_nodes::{Nodes, has_flag};
use pair_rule::{PairTable, Pass};
use std::sync::Wait;
use tdb_base::Act;

// What a call does with a vector's flags.
#[derive(Clone, Copy)]
pub(crate) enum Doing {
    Set(u32),
    Clear(u32),
    Look,
}

// The flags with bit `b` set.
#[inline]
fn with_flag<const F: u32>(flags: u64, b: u32) -> u64
    requires { (b < F) × (F < 64) × (flags < 2 ^ F) }
    ensures value { result ≡ with_bit flags b }
    ensures small { result < 2 ^ F }
{
    if has_flag(flags, b) {
        flags
    } else {
        flags + (1 << b)
    }
}

// The flags with bit `b` cleared.
#[inline]
fn without_flag<const F: u32>(flags: u64, b: u32) -> u64
    requires { (b < F) × (F < 64) × (flags < 2 ^ F) }
    ensures value { result ≡ without_bit flags b }
    ensures small { result < 2 ^ F }
{
    if has_flag(flags, b) {
        flags - (1 << b)
    } else {
        flags
    }
}

// What a call comes to: the flags afterwards, where it may change them, and what is told of it.
#[derive(Drop)]
struct Outcome {
    after: Option<u64>,
    act: Act,
}

// This is done with these flags.
#[inline]
fn turn<const F: u32>(flags: u64, doing: Doing) -> Outcome
    requires flags { (F < 64) × (flags < 2 ^ F) }
    requires bit { HasFlag F doing }
    ensures small { (value : ℕ) → result.after ≡ Some value → value < 2 ^ F }
    ensures act { act_of result.act ≡ act_on doing flags }
    ensures acts { (x : ℕ) (base : List (ℕ × ℕ)) → Has (x, flags) base
        → Acts F x (act_on doing flags) base (map_after x result.after base) }
{
    match doing {
        Doing::Set(b) => Outcome {
            after: Some(with_flag::<F>(flags, b)),
            act: Act::Set(b, !has_flag(flags, b)),
        },
        Doing::Clear(b) => Outcome {
            after: Some(without_flag::<F>(flags, b)),
            act: Act::Clear(b, has_flag(flags, b)),
        },
        Doing::Look => Outcome {
            after: None,
            act: Act::Look(flags),
        },
    }
}

// Sets the flags of a root of the held region, where they may change.
#[inline]
fn write_flags<const W: u32, const F: u32>(
    table: &PairTable<CompactRoot<W, F>, W, F>,
    pass: &mut Pass<CompactRoot<W, F>, W, F>,
    pair: u64,
    at: &Place,
    after: Option<u64>,
)
    requires root { IsPacked table.now.about pair × (at.now ≡ place table.now.about pair) }
    requires small { (value : ℕ) → after ≡ Some value → value < 2 ^ table.now.about.flags }
    requires work { (h : Holding) × AtWork W F table.now h pass.old × (h.region ≡ at.now.region)
        × KeepsRoots table.now.about h.copy h.base }
    ensures rewrites { Rewrites W F table.now pass.old pass.new }
    ensures keeps { (h : Holding) → (view pass.old).root.held ≡ h ∷ []
        → KeepsRoots table.now.about (held_words pass.new) (map_after pair after h.base) }
{
    if let Some(value) = after {
        set_root_flags(table, pass, pair, at, value);
    }
}

// From the lock, of which this is the odd value, to the unlock: this is done with the flags of a root that is
// there, which are answered as they were.
fn act_locked<const W: u32, const F: u32>(
    table: &PairTable<CompactRoot<W, F>, W, F>,
    pass: &mut Pass<CompactRoot<W, F>, W, F>,
    lock: u64,
    pair: u64,
    at: &Place,
    doing: Doing,
) -> u64
    requires root { IsPacked table.now.about pair × (at.now ≡ place table.now.about pair) }
    requires bit { HasFlag F doing }
    requires width { (table.now.about.flags ≡ F) × (F < 64) }
    requires work { (h : Holding) × AtWork W F table.now h pass.old × (h.region ≡ at.now.region)
        × (h.lock ≡ lock) × KeepsRoots table.now.about h.copy h.base × ((f : ℕ) × Has (pair, f) h.base) }
    ensures rest { AtRest (compact W F) table.now pass.new }
    ensures root { (view pass.new).root ≡ record (view pass.old).root { held = [] } }
    ensures told { (h : Holding) → (view pass.old).root.held ≡ h ∷ []
        → Told h.region h.base (Some (pair, act_on doing result)) (view pass.old) (view pass.new) }
    ensures buffers { KeepsBuffers pass.old pass.new }
{
    let flags = root_flags(table, pass, pair, at);
    let Outcome { after, act } = turn::<F>(flags, doing);
    write_flags(table, pass, pair, at, after);
    unlock(table, pass, at.region, lock, &Some((pair, act)));
    flags
}

// This is done with the flags of a named vector, which are answered as they were.
fn act_on_flags<H: Wait, const W: u32, const F: u32>(
    rt: &H,
    table: &PairTable<CompactRoot<W, F>, W, F>,
    pass: &mut Pass<CompactRoot<W, F>, W, F>,
    id: u64,
    doing: Doing,
) -> u64
    requires rest { AtRest (compact W F) table.now pass.old }
    requires named { KnowsName pass.old id }
    requires bit { HasFlag table.now.about.flags doing }
    ensures { RootActed (compact W F) table.now (act_on doing result) id pass.old pass.new }
{
    let at = root_place(table, id);
    let lock = lock_region(rt, table, pass, at.region);
    act_locked(table, pass, lock, id, &at, doing)
}

/// Sets flag `b` of the vector with this identifier, which is one that the pass has seen named: whether it
/// was clear. It is one call of the history, waits for the lock of the root's region, and takes no memory.
pub fn set_flag<H: Wait, const W: u32, const F: u32>(
    rt: &H,
    nodes: &Nodes<CompactRoot<W, F>, W, F>,
    pass: &mut Pass<CompactRoot<W, F>, W, F>,
    id: u64,
    b: u32,
) -> bool
    requires rest { AtRest (compact W F) nodes.now pass.old }
    requires named { KnowsName pass.old id }
    requires bit { b < nodes.now.about.flags }
    ensures { RootActed (compact W F) nodes.now (Set b result) id pass.old pass.new }
{
    let flags = act_on_flags(rt, nodes.table(), pass, id, Doing::Set(b));
    !has_flag(flags, b)
}

/// Clears flag `b` of the vector with this identifier, which is one that the pass has seen named: whether it
/// was set. It is one call of the history, waits for the lock of the root's region, and takes no memory.
pub fn clear_flag<H: Wait, const W: u32, const F: u32>(
    rt: &H,
    nodes: &Nodes<CompactRoot<W, F>, W, F>,
    pass: &mut Pass<CompactRoot<W, F>, W, F>,
    id: u64,
    b: u32,
) -> bool
    requires rest { AtRest (compact W F) nodes.now pass.old }
    requires named { KnowsName pass.old id }
    requires bit { b < nodes.now.about.flags }
    ensures { RootActed (compact W F) nodes.now (Clear b result) id pass.old pass.new }
{
    let flags = act_on_flags(rt, nodes.table(), pass, id, Doing::Clear(b));
    has_flag(flags, b)
}

/// The flags of the vector with this identifier, which is one that the pass has seen named, as one number. It
/// is one call of the history, waits for the lock of the root's region, and takes no memory.
pub fn flags<H: Wait, const W: u32, const F: u32>(
    rt: &H,
    nodes: &Nodes<CompactRoot<W, F>, W, F>,
    pass: &mut Pass<CompactRoot<W, F>, W, F>,
    id: u64,
) -> u64
    requires rest { AtRest (compact W F) nodes.now pass.old }
    requires named { KnowsName pass.old id }
    ensures { RootActed (compact W F) nodes.now (Look result) id pass.old pass.new }
{
    act_on_flags(rt, nodes.table(), pass, id, Doing::Look)
}
