//! The lines of a trace are inserted into a new store, and what is told of them is gathered.
ghost use Rattle.std.specs.Prelude.{◌≡◌, ◌≤◌, ◌<◌, ◌^◌, All, IfOk, OnErr, length};
ghost use Rattle.packed_word.specs.Word.{IsLayout};
ghost use Rattle.pair_rule.specs.Rest.{AtRest};
ghost use Rattle.region_root.specs.Compact.{compact};
ghost use Rattle.root_plain.specs.Plain.{plain};
ghost use Rattle.pair_rule.specs.Callers.{Unused};
ghost use Rattle.command_line.specs.Valid.{IsValid};
ghost use Rattle.command_line.specs.Rules.{flag_count};
ghost use Rattle.treedb.specs.Answered.{AreAnswered};
ghost use Rattle.treedb.specs.Filling.{AreInserted, AwaitsTrace, IsPartFor};
ghost use Rattle.treedb.specs.ReadBack.{AwaitsLines, IfPrinted};

use crate::distinct::{ReadBack, read_back};
use crate::input::form_of;
use crate::insertion::{LineReplies, insert_plainly, insert_waiting};
use crate::stats::stats_of;
use crate::store::make_ready;
use command_line::{Choice, Mode};
use pair_nodes::RootNames;
use pair_rule::Pass;
use region_root::{CompactRoot, CompactTable};
use root_plain::{PlainRoot, PlainTable};
use std::alloc::Global;
use std::sync::Wait;
use std::thread::Threads;
use tdb_base::{Gate, NoMemory};
use trace_csv::{Stats, Trace};
use tree_store::{CompactPass, CompactStore, PlainPass, PlainStore, TreeStore};

/// The reply to each line and who drew it, the counts of the store, if they are asked for, and the vectors
/// that were answered new, if the job prints them.
#[derive(Drop)]
pub struct Answered {
    /// The reply to each line, and what is told beside it.
    pub inserted: LineReplies,
    /// The counts of the store, if they are asked for.
    pub stats: Option<Stats>,
    /// The vectors that were answered new, if the job prints them.
    pub vectors: Option<ReadBack>,
}

// What is told of the lines of a trace that were inserted so.
fn complete_replies<N: RootNames<W, F>, const W: u32, const F: u32>(
    names: &N,
    store: &TreeStore<N::Part, W, F>,
    pass: &mut Pass<N::Part, W, F>,
    choice: &Choice,
    trace: &Trace,
    inserted: LineReplies,
    room: Option<ReadBack>,
) -> Answered
    requires valid { IsValid choice.now }
    requires of_mode { IsPartFor N.Part.part choice.now }
    requires names { N.store names.now ≡ store.now }
    requires rest { AtRest N.Part.part store.now pass.old }
    requires inserted { AreInserted N.Part.part choice.now trace.now inserted store.now pass.old }
    requires room { IfPrinted choice.now.job room (AwaitsLines store.now.about.slots (length trace.now)) }
    ensures { AreAnswered choice.now trace.now result }
{
    let _ = trace;
    let form = form_of(choice);
    let stats = stats_of(names, store, pass, form, choice.stats);
    let vectors = read_back(names, store, pass, &inserted.replies, room, form);
    Answered {
        inserted,
        stats,
        vectors,
    }
}

// Inserts the lines into a plain store that awaits them. After `NoMemory` no line was inserted.
fn fill_plain<R: Threads + Sync, G: Gate, const W: u32, const F: u32>(
    rt: &R,
    alloc: Global,
    store: &PlainStore<W, F>,
    pass: &mut PlainPass<W, F>,
    choice: &Choice,
    trace: &Trace,
    room: Option<ReadBack>,
    gate: &G,
) -> Result<Answered, NoMemory>
    requires valid { IsValid choice.now }
    requires plain { choice.now.mode ≡ Mode.Plain }
    requires ready { AwaitsTrace plain choice.now trace.now store.now pass.old room }
    ensures answered { IfOk result (AreAnswered choice.now trace.now) }
    ensures refused { OnErr result (Unused pass.old pass.new) }
{
    let inserted = insert_plainly(rt, alloc, store, pass, choice, trace, gate)?;
    let names = PlainTable::over(store.nodes());
    Ok(complete_replies(&names, store, pass, choice, trace, inserted, room))
}

// Inserts the lines into a new plain store of this profile.
fn insert_plain<R: Threads + Sync, G: Gate, const W: u32, const F: u32>(
    rt: &R,
    alloc: Global,
    choice: &Choice,
    trace: &Trace,
    gate: &G,
) -> Result<Answered, NoMemory>
    requires valid { IsValid choice.now }
    requires plain { choice.now.mode ≡ Mode.Plain }
    requires profile { (choice.now.profile ≡ W) × (F ≡ flag_count W) }
    requires layout { IsLayout W F }
    requires lines { length trace.now ≤ 2 ^ 32 }
    requires below { All (λ line. All (λ n. n < 2 ^ W) line) trace.now }
    ensures { IfOk result (AreAnswered choice.now trace.now) }
{
    let (store, mut pass, room) = make_ready::<PlainRoot<W, F>, W, F>(alloc, choice, trace)?;
    fill_plain(rt, alloc, &store, &mut pass, choice, trace, room, gate)
}

// Inserts the lines into a compact store that awaits them, and may wait for the locks of its regions. After
// `NoMemory` no line was inserted.
fn fill_compact<R: Threads + Wait + Sync, G: Gate, const W: u32, const F: u32>(
    rt: &R,
    alloc: Global,
    store: &CompactStore<W, F>,
    pass: &mut CompactPass<W, F>,
    choice: &Choice,
    trace: &Trace,
    room: Option<ReadBack>,
    gate: &G,
) -> Result<Answered, NoMemory>
    requires valid { IsValid choice.now }
    requires compact { choice.now.mode ≡ Mode.Compact }
    requires profile { (choice.now.profile ≡ W) × (F ≡ flag_count W) }
    requires ready { AwaitsTrace (compact W F) choice.now trace.now store.now pass.old room }
    ensures answered { IfOk result (AreAnswered choice.now trace.now) }
    ensures refused { OnErr result (Unused pass.old pass.new) }
{
    let inserted = insert_waiting(rt, alloc, store, pass, choice, trace, gate)?;
    let names = CompactTable::over(&(), store.nodes());
    Ok(complete_replies(&names, store, pass, choice, trace, inserted, room))
}

// Inserts the lines into a new compact store of this profile.
fn insert_compact<R: Threads + Wait + Sync, G: Gate, const W: u32, const F: u32>(
    rt: &R,
    alloc: Global,
    choice: &Choice,
    trace: &Trace,
    gate: &G,
) -> Result<Answered, NoMemory>
    requires valid { IsValid choice.now }
    requires compact { choice.now.mode ≡ Mode.Compact }
    requires profile { (choice.now.profile ≡ W) × (F ≡ flag_count W) }
    requires layout { IsLayout W F }
    requires lines { length trace.now ≤ 2 ^ 32 }
    requires below { All (λ line. All (λ n. n < 2 ^ W) line) trace.now }
    ensures { IfOk result (AreAnswered choice.now trace.now) }
{
    let (store, mut pass, room) = make_ready::<CompactRoot<W, F>, W, F>(alloc, choice, trace)?;
    fill_compact(rt, alloc, &store, &mut pass, choice, trace, room, gate)
}

/// Inserts the lines of a trace into a new plain store of the choice's profile and sizes: the reply to each
/// line, the store's counts if they are asked for, and for `distinct` the vectors that were answered new,
/// each read back by its identifier. It waits for nobody.
///
/// `NoMemory` comes before the first line is inserted: that is told where the store is in hand, and no clause
/// here can say it.
pub fn insert_lines<R: Threads + Sync, G: Gate>(
    rt: &R,
    alloc: Global,
    choice: &Choice,
    trace: &Trace,
    gate: &G,
) -> Result<Answered, NoMemory>
    requires valid { IsValid choice.now }
    requires plain { choice.now.mode ≡ Mode.Plain }
    requires lines { length trace.now ≤ 2 ^ 32 }
    requires below { All (λ line. All (λ n. n < 2 ^ choice.now.profile) line) trace.now }
    ensures { IfOk result (AreAnswered choice.now trace.now) }
{
    match choice.profile {
        16 => insert_plain::<R, G, 16, 8>(rt, alloc, choice, trace, gate),
        28 => insert_plain::<R, G, 28, 7>(rt, alloc, choice, trace, gate),
        _ => insert_plain::<R, G, 31, 1>(rt, alloc, choice, trace, gate),
    }
}

/// The same over a compact store, but workers may wait for the locks of its regions.
pub fn insert_lines_waiting<R: Threads + Wait + Sync, G: Gate>(
    rt: &R,
    alloc: Global,
    choice: &Choice,
    trace: &Trace,
    gate: &G,
) -> Result<Answered, NoMemory>
    requires valid { IsValid choice.now }
    requires compact { choice.now.mode ≡ Mode.Compact }
    requires lines { length trace.now ≤ 2 ^ 32 }
    requires below { All (λ line. All (λ n. n < 2 ^ choice.now.profile) line) trace.now }
    ensures { IfOk result (AreAnswered choice.now trace.now) }
{
    match choice.profile {
        16 => insert_compact::<R, G, 16, 8>(rt, alloc, choice, trace, gate),
        28 => insert_compact::<R, G, 28, 7>(rt, alloc, choice, trace, gate),
        _ => insert_compact::<R, G, 31, 1>(rt, alloc, choice, trace, gate),
    }
}
