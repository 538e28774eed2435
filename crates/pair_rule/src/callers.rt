//! Callers of one table, each with a pass of its own that was split from one pass.
ghost use Rattle.std.specs.Prelude.{◌≡◌, ◌<◌, ℕ, All, IfOk, OnErr, length, map};
ghost use Rattle.pair_rule.specs.Callers.{AreSplitCallers, AreJoined, Unused};
ghost use Rattle.pair_rule.specs.Rest.{AtRest};

use crate::part::RootPart;
use crate::pass::{Pass, PassOf};
use crate::table::PairTable;
use std::alloc::Global;
use tdb_base::NoMemory;

/// A caller of a table, say a thread's: a pass of its own, and what the caller keeps beside it.
///
/// Callers stand one behind the other in memory, and each writes its fields at each call. Two of them on one
/// cache line would wait for each other's writes, so the gap behind a caller's fields keeps the next one's
/// off their lines. The buffers of passes are set apart likewise.
#[repr(C)]
pub struct Caller<T, A> {
    /// Its number among the callers that were split with it, from 0.
    pub number: u64,
    /// Its pass.
    pub pass: PassOf<T>,
    /// What it keeps: its answers, say.
    pub kept: A,
    // Nobody writes it, and nobody reads it.
    gap: [u64; APART],
}

// Two lines of 64 bytes, in words: processors fetch lines in pairs.
const APART: usize = 16;

impl<T, A: Drop> Drop for Caller<T, A> {
    fn drop(self) {
        let Self {
            number: _,
            pass: _,
            kept: _,
            gap: _,
        } = self;
    }
}

impl<T, A: Drop> Caller<T, A> {
    /// A caller with this number, this pass and this to keep.
    pub fn new(number: u64, pass: PassOf<T>, kept: A) -> Self
        ensures number { result.number ≡ number }
        ensures pass { result.pass ≡ pass }
        ensures kept { result.kept ≡ kept }
    {
        Caller {
            number,
            pass,
            kept,
            gap: [0; APART],
        }
    }

    /// Its pass, and what it kept.
    pub fn into_parts(self) -> (PassOf<T>, A)
        ensures pass { result.0 ≡ self.pass }
        ensures kept { result.1 ≡ self.kept }
    {
        let Self {
            number: _,
            pass,
            kept,
            gap: _,
        } = self;
        (pass, kept)
    }
}

impl<R: RootPart<W, F>, const W: u32, const F: u32> PairTable<R, W, F> {
    /// So many callers, each with a pass that is split from this one, and this to keep.
    ///
    /// After `NoMemory` the passes that were split are joined back.
    pub fn split_callers<A: Copy>(
        &self,
        alloc: Global,
        pass: &mut Pass<R, W, F>,
        count: u64,
        kept: A,
    ) -> Result<Vec<Caller<R::View, A>>, NoMemory>
        requires { AtRest R.part self.now pass.old }
        ensures split { IfOk result (λ callers.
            AreSplitCallers R.part self.now kept pass.old pass.new callers.items) }
        ensures all { IfOk result (λ callers. length callers.items ≡ count) }
        ensures callers { IfOk result (λ callers. All (λ c. AtRest R.part self.now c.pass) callers.items) }
        ensures refused { OnErr result (Unused pass.old pass.new) }
        ensures rest { AtRest R.part self.now pass.new }
    {
        let mut callers = Vec::with_capacity(alloc, count as usize)?;
        for number in 0..count {
            let Ok(split) = self.split(alloc, pass) else {
                self.join_callers(pass, callers);
                return Err(NoMemory);
            };
            let Ok(()) = callers.push(Caller::new(number, split, kept)) else {
                unreachable!()
            };
        }
        Ok(callers)
    }

    /// The passes of all callers are joined into this one, and what they kept is dropped.
    pub fn join_callers<A: Drop>(&self, pass: &mut Pass<R, W, F>, callers: Vec<Caller<R::View, A>>)
        requires pass { AtRest R.part self.now pass.old }
        requires callers { All (λ c. AtRest R.part self.now c.pass) callers.items }
        ensures { AreJoined R.part self.now pass.old pass.new (map (λ c. c.pass) callers.items) }
    {
        let mut left = callers;
        while let Some(caller) = left.pop() {
            let (other, _) = caller.into_parts();
            self.join(pass, other);
        }
    }
}
