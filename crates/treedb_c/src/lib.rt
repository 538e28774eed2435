//! A plain store for programs in C: a static library, whose calls include/treedb.h declares.
//!
//! A handle is an object of the C program's own, which stands for a store and a pass of it, or for nothing.
#![tactic(auto)]

ghost use Rattle.std.specs.Prelude.{◌≡◌, ◌⊎◌, ℕ, pos, Option, Some, None, MatchOption, Bool, Result, IsSome};
ghost use Rattle.tdb_base.specs.History.{Set, Clear};
ghost use Rattle.tdb_base.specs.declared.reply.Reply.{Reply as Replied};
ghost use Rattle.treedb_c.specs.declared.code.Code.{Code as Answer};
ghost use Rattle.treedb_c.specs.declared.code.Code.TheVariants as c;
ghost use Rattle.treedb_c.specs.Codes.{number_of};
ghost use Rattle.treedb_c.specs.Calls.{IsInserted, IsUnfit, IsFound, IsCounted};
ghost use Rattle.treedb_c.specs.Flags.{IsFlagged, AreFlags};
ghost use Rattle.treedb_c.specs.Handles.{WhereLive, IsMade, IsDivided, code_of, id_after, found_code};
ghost use Rattle.treedb_c.specs.Handles.{flag_code, flags_code, flags_after};
ghost use Rattle.treedb_c.specs.Room.{IsRoomFor, HasNoRoom, IsAnsweredRoom, sizes_of};

mod answer;
mod caller;
mod code;
mod handle;
mod held;
mod inner;
mod parts;
mod room;

use answer::{flag_cleared, flag_set, found, inserted, read};
use code::Code;
pub use handle::Handle;
use inner::Inner;
use pair_rule::Sizes;
pub use room::Room;
use room::room_for;
use std::alloc::Global;

/// What was done through a handle: the nodes that it put, and the vectors that its calls named.
#[repr(C)]
#[derive(Clone, Copy, Debug, PartialEq, Eq)]
pub struct Sums {
    pub nodes: u64,
    pub names: u64,
}

/// The version: 10000 for each major one, 100 for each minor one, and the patch.
#[unsafe(no_mangle)]
pub extern "C" fn treedb_c_version() -> i32
    ensures { result ≡ pos 10000 }
{
    10_000
}

/// The least room for so many states of so many slots.
#[unsafe(no_mangle)]
pub extern "C" fn treedb_c_sizes(profile: u32, slots: usize, states: u64, room: &mut Room) -> i32
    ensures answered { (code : Answer) × (result ≡ number_of code)
        × IsAnsweredRoom profile slots states code room.old room.new }
{
    match room_for(profile, slots, states) {
        Ok(least) => {
            *room = least;
            Code::Done.number()
        }
        Err(code) => code.number(),
    }
}

// A new store for a handle that stands for nothing.
fn make(alloc: Global, handle: &mut Handle, profile: u32, slots: usize, room: &Room) -> Code
    requires { handle.old.held.inner ≡ None }
    ensures { IsMade profile slots (sizes_of room.now) handle.new.held.inner result }
{
    let sizes = Sizes {
        nodes: room.nodes,
        roots: room.roots,
        region: 0,
        probe: room.probe,
    };
    match Inner::create(alloc, profile, slots, &sizes) {
        Ok(inner) => handle.put(alloc, inner),
        Err(code) => code,
    }
}

/// Makes a store without vectors, and its first handle.
#[unsafe(no_mangle)]
pub extern "C" fn treedb_c_create(
    alloc: Global,
    handle: &mut Handle,
    profile: u32,
    slots: usize,
    room: &Room,
) -> i32
    ensures in_use { IsSome handle.old.held.inner → (result ≡ number_of c.InUse)
        × (handle.new.held.inner ≡ handle.old.held.inner) }
    ensures made { handle.old.held.inner ≡ None → (code : Answer) × (result ≡ number_of code)
        × IsMade profile slots (sizes_of room.now) handle.new.held.inner code }
{
    if handle.is_live() {
        return Code::InUse.number();
    }
    make(alloc, handle, profile, slots, room).number()
}

/// Inserts the vector into the store, and writes its identifier.
#[unsafe(no_mangle)]
pub extern "C" fn treedb_c_insert(
    alloc: Global,
    handle: &mut Handle,
    vector: &[u32],
    id: &mut u64,
) -> i32
    ensures none { handle.old.held.inner ≡ None → (result ≡ number_of c.NoHandle)
        × (handle.new.held.inner ≡ None) × (id.new ≡ id.old) }
    ensures answered { WhereLive handle.old.held.inner handle.new.held.inner (λ old new.
        (reply : Option Replied) × (result ≡ number_of (code_of reply)) × (id.new ≡ id_after reply id.old)
        × MatchOption reply (IsUnfit vector.now old new) (λ r. IsInserted vector.now r old new)) }
{
    match handle.take(alloc) {
        Some(mut inner) => {
            let reply = inner.insert(vector);
            *handle = Handle::of(inner);
            inserted(reply, id).number()
        }
        None => Code::NoHandle.number(),
    }
}

/// Reads the vector with this identifier.
#[unsafe(no_mangle)]
pub extern "C" fn treedb_c_find(alloc: Global, handle: &mut Handle, id: u64, out: &mut [u32]) -> i32
    ensures none { handle.old.held.inner ≡ None → (result ≡ number_of c.NoHandle)
        × (handle.new.held.inner ≡ None) × (out.new ≡ out.old) }
    ensures answered { WhereLive handle.old.held.inner handle.new.held.inner (λ old new.
        (found : Option Bool) × (result ≡ number_of (found_code found))
        × IsFound id out.old out.new found old new) }
{
    match handle.take(alloc) {
        Some(mut inner) => {
            let answer = inner.find(id, out);
            *handle = Handle::of(inner);
            found(answer).number()
        }
        None => Code::NoHandle.number(),
    }
}

/// Sets flag `flag` of the vector with this identifier.
#[unsafe(no_mangle)]
pub extern "C" fn treedb_c_set_flag(alloc: Global, handle: &mut Handle, id: u64, flag: u32) -> i32
    ensures none { handle.old.held.inner ≡ None → (result ≡ number_of c.NoHandle)
        × (handle.new.held.inner ≡ None) }
    ensures answered { WhereLive handle.old.held.inner handle.new.held.inner (λ old new.
        (first : Result Bool Answer) × (result ≡ number_of (flag_code c.WasClear c.WasSet first))
        × IsFlagged (Set flag) flag id first old new) }
{
    match handle.take(alloc) {
        Some(mut inner) => {
            let first = inner.set_flag(id, flag);
            *handle = Handle::of(inner);
            flag_set(first).number()
        }
        None => Code::NoHandle.number(),
    }
}

/// Clears flag `flag` of the vector with this identifier.
#[unsafe(no_mangle)]
pub extern "C" fn treedb_c_clear_flag(alloc: Global, handle: &mut Handle, id: u64, flag: u32) -> i32
    ensures none { handle.old.held.inner ≡ None → (result ≡ number_of c.NoHandle)
        × (handle.new.held.inner ≡ None) }
    ensures answered { WhereLive handle.old.held.inner handle.new.held.inner (λ old new.
        (first : Result Bool Answer) × (result ≡ number_of (flag_code c.WasSet c.WasClear first))
        × IsFlagged (Clear flag) flag id first old new) }
{
    match handle.take(alloc) {
        Some(mut inner) => {
            let first = inner.clear_flag(id, flag);
            *handle = Handle::of(inner);
            flag_cleared(first).number()
        }
        None => Code::NoHandle.number(),
    }
}

/// Reads the flags of the vector with this identifier.
#[unsafe(no_mangle)]
pub extern "C" fn treedb_c_flags(
    alloc: Global,
    handle: &mut Handle,
    id: u64,
    flags: &mut u64,
) -> i32
    ensures none { handle.old.held.inner ≡ None → (result ≡ number_of c.NoHandle)
        × (handle.new.held.inner ≡ None) × (flags.new ≡ flags.old) }
    ensures answered { WhereLive handle.old.held.inner handle.new.held.inner (λ old new.
        (told : Option ℕ) × (result ≡ number_of (flags_code told)) × (flags.new ≡ flags_after told flags.old)
        × AreFlags id told old new) }
{
    match handle.take(alloc) {
        Some(mut inner) => {
            let told = inner.flags(id);
            *handle = Handle::of(inner);
            read(told, flags).number()
        }
        None => Code::NoHandle.number(),
    }
}

/// Tells what was done through a handle.
#[unsafe(no_mangle)]
pub extern "C" fn treedb_c_counts(alloc: Global, handle: &mut Handle, sums: &mut Sums) -> i32
    ensures none { handle.old.held.inner ≡ None → (result ≡ number_of c.NoHandle)
        × (handle.new.held.inner ≡ None) × (sums.new ≡ sums.old) }
    ensures answered { WhereLive handle.old.held.inner handle.new.held.inner (λ old new.
        (result ≡ number_of c.Done) × (new ≡ old) × IsCounted (sums.new.nodes, sums.new.names) old) }
{
    match handle.take(alloc) {
        Some(inner) => {
            let (nodes, names) = inner.counts();
            *sums = Sums { nodes, names };
            *handle = Handle::of(inner);
            Code::Done.number()
        }
        None => Code::NoHandle.number(),
    }
}

// A further handle, for one that stands for nothing.
fn divide(alloc: Global, from: &mut Handle, handle: &mut Handle) -> Code
    requires { handle.old.held.inner ≡ None }
    ensures none { from.old.held.inner ≡ None → (result ≡ c.NoHandle) × (from.new.held.inner ≡ None)
        × (handle.new.held.inner ≡ None) }
    ensures divided { WhereLive from.old.held.inner from.new.held.inner
        (IsDivided handle.new.held.inner result) }
{
    match from.take(alloc) {
        Some(mut inner) => {
            let child = inner.split(alloc);
            *from = Handle::of(inner);
            match child {
                Some(child) => handle.put(alloc, child),
                None => Code::NoMemory,
            }
        }
        None => Code::NoHandle,
    }
}

/// Makes a further handle of the store of `from`.
#[unsafe(no_mangle)]
pub extern "C" fn treedb_c_split(alloc: Global, from: &mut Handle, handle: &mut Handle) -> i32
    ensures in_use { IsSome handle.old.held.inner → (result ≡ number_of c.InUse)
        × (from.new.held.inner ≡ from.old.held.inner) × (handle.new.held.inner ≡ handle.old.held.inner) }
    ensures none { handle.old.held.inner ≡ None → from.old.held.inner ≡ None
        → (result ≡ number_of c.NoHandle) × (from.new.held.inner ≡ None) × (handle.new.held.inner ≡ None) }
    ensures divided { handle.old.held.inner ≡ None
        → WhereLive from.old.held.inner from.new.held.inner (λ old new.
        (code : Answer) × (result ≡ number_of code) × IsDivided handle.new.held.inner code old new) }
{
    if handle.is_live() {
        return Code::InUse.number();
    }
    divide(alloc, from, handle).number()
}

/// The handle stands for nothing from then on.
#[unsafe(no_mangle)]
pub extern "C" fn treedb_c_free(alloc: Global, handle: &mut Handle)
    ensures { handle.new.held.inner ≡ None }
{
    if let Some(inner) = handle.take(alloc) {
        drop(inner);
    }
}
