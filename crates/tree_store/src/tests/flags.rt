//! Flags of vectors, in a plain store and in a compact one: what each call answers, worked out from the calls
//! before it; that they outlive insertions which move the cells of a region; and eight threads that turn the
//! same flags.
ghost use Rattle.std.specs.Prelude.{◌≡◌, All};
ghost use Rattle.pair_rule.specs.Rest.{AtRest};

use super::flagged::{CompactFlags, Doing, Flagged, PlainFlags};
use super::{compact, store};
use pair_rule::Caller;
use std::process::Abort;
use std::test::Fail;
use std::thread;
use std::thread::Threads;

// What is done to the flags of one vector, in turn, and what that answers.
static TURNS: [(Doing, u64); 8] = [
    (Doing::Read, 0),
    (Doing::Set(6), 1),
    (Doing::Set(6), 0),
    (Doing::Read, 64),
    (Doing::Clear(6), 1),
    (Doing::Clear(6), 0),
    (Doing::Clear(5), 0),
    (Doing::Read, 0),
];

#[test]
fn flags_of_a_plain_store(rt: HostRuntime) -> Result<(), Fail> {
    let (store, mut pass) = store::<16, 8>(&rt, rt.alloc(), 2, 3);
    let flags = PlainFlags {
        rt: &rt,
        store: &store,
    };
    for (doing, answer) in &TURNS {
        assert!(rt; flags.act(&mut pass, &[3, 5], *doing) == Some((0, *answer)));
    }
    Ok(())
}

// One root of a region has a flag, and 63 others come into it: none of them gets the flag, and it stays.
#[test]
fn flags_stay_while_a_region_fills(rt: HostRuntime) -> Result<(), Fail> {
    let (store, mut pass) = compact::store::<16, 8>(&rt, rt.alloc(), 2, 3, 6);
    let flags = CompactFlags {
        rt: &rt,
        store: &store,
    };
    assert!(rt; flags.act(&mut pass, &[0, 0], Doing::Set(7)) == Some((0, 1)));
    for right in 1..64u32 {
        let read = flags.act(&mut pass, &[0, right], Doing::Read);
        assert!(rt; read == Some((u64::from(right), 0)));
        let first = flags.act(&mut pass, &[0, 0], Doing::Read);
        assert!(rt; first == Some((0, 128)));
    }
    Ok(())
}

// How often a caller was the first to set a flag and to clear one, and whether it read a flag that nobody
// sets.
#[derive(Clone, Copy)]
struct Turns {
    set: u64,
    cleared: u64,
    wrong: bool,
}

const NONE_YET: Turns = Turns {
    set: 0,
    cleared: 0,
    wrong: false,
};

// Vectors, and which of their flags are set and cleared: 8, 4 and none.
static TURNED: [([u32; 2], u64); 3] = [([0, 1], 255), ([0, 2], 85), ([0, 3], 0)];

// Sets these flags of a vector, or clears them, and reads all after each.
fn turn_flags<D: Flagged>(
    store: &D,
    caller: &mut Caller<D::View, Turns>,
    vector: &[u32],
    mask: u64,
    set: bool,
)
    requires flags { (D.store store.now).about.flags ≡ 8 }
    requires rest { AtRest D.part (D.store store.now) caller.old.pass }
    ensures { AtRest D.part (D.store store.now) caller.new.pass }
{
    for b in 0..8u32 {
        if mask >> b & 1 == 1 {
            let doing = if set { Doing::Set(b) } else { Doing::Clear(b) };
            let first = match store.act(&mut caller.pass, vector, doing) {
                Some((_, changed)) => changed,
                None => 0,
            };
            if set {
                caller.kept.set = caller.kept.set.saturating_add(first);
            } else {
                caller.kept.cleared = caller.kept.cleared.saturating_add(first);
            }
        }
        match store.act(&mut caller.pass, vector, Doing::Read) {
            Some((_, read)) => caller.kept.wrong |= read & !mask != 0,
            None => caller.kept.wrong = true,
        }
    }
}

// The same with all three vectors.
fn turn_vectors<D: Flagged>(store: &D, caller: &mut Caller<D::View, Turns>, set: bool)
    requires flags { (D.store store.now).about.flags ≡ 8 }
    requires rest { AtRest D.part (D.store store.now) caller.old.pass }
    ensures { AtRest D.part (D.store store.now) caller.new.pass }
{
    for (vector, mask) in &TURNED {
        turn_flags(store, caller, vector, *mask, set);
    }
}

// All callers do so, each in a thread of its own.
fn turn_at_once<H: Threads + Sync, D: Flagged>(
    rt: &H,
    store: &D,
    callers: &mut [Caller<D::View, Turns>],
    set: bool,
)
    requires flags { (D.store store.now).about.flags ≡ 8 }
    requires callers { All (λ c. AtRest D.part (D.store store.now) c.pass) callers.old }
    ensures { All (λ c. AtRest D.part (D.store store.now) c.pass) callers.new }
{
    let count = callers.len();
    if count > 0 {
        thread::for_each_mut(
            rt,
            callers,
            count,
            &|_, caller: &mut Caller<D::View, Turns>|
                requires flags { (D.store store.now).about.flags ≡ 8 }
                requires rest { AtRest D.part (D.store store.now) caller.now.pass }
                ensures { AtRest D.part (D.store store.entry.now) caller.exit.now.pass }
            {
                turn_vectors(store, caller, set);
            },
        );
    }
}

// How often a caller was the first to set a flag, and to clear one, if none read a flag that nobody sets.
fn turned_by<T>(callers: &[Caller<T, Turns>]) -> Option<(u64, u64)> {
    let mut set = 0u64;
    let mut cleared = 0u64;
    for caller in callers {
        if caller.kept.wrong {
            return None;
        }
        set = set.saturating_add(caller.kept.set);
        cleared = cleared.saturating_add(caller.kept.cleared);
    }
    Some((set, cleared))
}

// The callers set twelve flags at once, and then clear them at once, and so on: each time one of them is the
// first for each flag.
fn take_turns<H: Threads + Abort + Sync, D: Flagged>(
    rt: &H,
    store: &D,
    callers: &mut [Caller<D::View, Turns>],
)
    requires flags { (D.store store.now).about.flags ≡ 8 }
    requires callers { All (λ c. AtRest D.part (D.store store.now) c.pass) callers.old }
{
    for round in 0..20u64 {
        turn_at_once(rt, store, callers, true);
        assert!(rt; turned_by(callers) == Some((12 * round + 12, 12 * round)));
        turn_at_once(rt, store, callers, false);
        assert!(rt; turned_by(callers) == Some((12 * round + 12, 12 * round + 12)));
    }
}

#[test]
fn one_of_eight_threads_is_first(rt: HostRuntime) -> Result<(), Fail> {
    let (plain, mut pass) = store::<16, 8>(&rt, rt.alloc(), 2, 3);
    let mut callers = plain.split_callers(rt.alloc(), &mut pass, 8, NONE_YET)?;
    let flags = PlainFlags {
        rt: &rt,
        store: &plain,
    };
    take_turns(&rt, &flags, callers.as_mut_slice());
    Ok(())
}

#[test]
fn one_of_eight_threads_is_first_in_regions(rt: HostRuntime) -> Result<(), Fail> {
    let (compact, mut pass) = compact::store::<16, 8>(&rt, rt.alloc(), 2, 3, 6);
    let mut callers = compact.split_callers(rt.alloc(), &mut pass, 8, NONE_YET)?;
    let flags = CompactFlags {
        rt: &rt,
        store: &compact,
    };
    take_turns(&rt, &flags, callers.as_mut_slice());
    Ok(())
}
