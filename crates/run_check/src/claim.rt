//! What a report claims of a trace, line by line: which lines are lone, full and named, or never reached.

ghost use Rattle.std.specs.Prelude.{◌≡◌, ◌<◌, ◌≤◌, ◌+◌, ◌↔◌, ◌||◌, ◌≢◌, ◌/◌, ◌^◌, ℕ, true, false};
ghost use Rattle.std.specs.Prelude.{IfOk, IsTrue, length};
ghost use Rattle.run_check.specs.Claim.{AllBlockedIn, BlockedIn, FullNamedIn, HasBlock, HasLine, HasNext};
ghost use Rattle.run_check.specs.Claim.{HasWorkers, IsFirst, IsFirstStuck, IsFirstUndone, IsClaimReady, LoneIn};
ghost use Rattle.run_check.specs.Claim.{PassesIn, SoundIn, left_in};
ghost use Rattle.run_check.specs.Reached.{owner};

use std::alloc::Global;
use tdb_base::{NoMemory, Reply};
use trace_csv::Trace;

// A trace with its replies, for each line the one answered new with its vector, and how lines are dealt out.
#[derive(Drop)]
pub(crate) struct Claim<'a> {
    pub(crate) trace: &'a Trace,
    pub(crate) replies: &'a [Reply],
    pub(crate) found: &'a [Option<u64>],
    pub(crate) workers: u64,
    pub(crate) block: u64,
}

impl<'a> Claim<'a> {
    // The first lone line, from 0.
    pub(crate) fn lone(&self) -> Option<u64>
        requires ready { IsClaimReady self.now }
        ensures few { HasNext result }
        ensures first { IsFirst result (LoneIn self.now) }
    {
        for i in 0..self.trace.len() {
            if self.is_lone(i) {
                return Some(i);
            }
        }
        None
    }

    // The first line that is full and named, from 0.
    pub(crate) fn full_named(&self) -> Option<u64>
        requires ready { IsClaimReady self.now }
        ensures few { HasNext result }
        ensures first { IsFirst result (FullNamedIn self.now) }
    {
        for i in 0..self.trace.len() {
            if self.is_full_named(i) {
                return Some(i);
            }
        }
        None
    }

    // The first line that isn't reached, from 0.
    pub(crate) fn stuck(&self, alloc: Global) -> Result<Option<u64>, NoMemory>
        requires ready { IsClaimReady self.now }
        requires block { HasBlock self.now }
        requires workers { HasWorkers self.now }
        ensures few { IfOk result HasNext }
        ensures first { IfOk result (IsFirstStuck self.now) }
    {
        let mut next = vec![in alloc; 0; self.workers as usize]?;
        Ok(self.settled(&mut next))
    }

    // Whether the line is answered seen, and none with its vector is answered new with its identifier.
    fn is_lone(&self, i: u64) -> bool
        requires ready { IsClaimReady self.now }
        requires within { HasLine self.now i }
        ensures { IsTrue result ↔ LoneIn self.now i }
    {
        let Reply::Seen(id) = self.replies[i as usize] else {
            return false;
        };
        let Some(k) = self.found[i as usize] else {
            return true;
        };
        let Reply::New(other) = self.replies[k as usize] else {
            return true;
        };
        other != id
    }

    // Whether the line is answered full, and its vector new.
    fn is_full_named(&self, i: u64) -> bool
        requires ready { IsClaimReady self.now }
        requires within { HasLine self.now i }
        ensures { IsTrue result ↔ FullNamedIn self.now i }
    {
        if !self.replies[i as usize].is_full() {
            return false;
        }
        self.found[i as usize].is_some()
    }

    // The first line that isn't reached, by workers who have come as far as these numbers say.
    fn settled(&self, next: &mut [u64]) -> Option<u64>
        requires ready { IsClaimReady self.now }
        requires block { HasBlock self.now }
        requires workers { HasWorkers self.now }
        requires sound { SoundIn self.now next.old }
        ensures few { HasNext result }
        ensures first { IsFirstStuck self.now result }
    {
        self.settle(next);
        self.first_undone(next)
    }

    // Brings all workers as far as they can go.
    fn settle(&self, next: &mut [u64])
        requires ready { IsClaimReady self.now }
        requires block { HasBlock self.now }
        requires workers { HasWorkers self.now }
        requires sound { SoundIn self.now next.old }
        ensures sound { SoundIn self.now next.new }
        ensures blocked { AllBlockedIn self.now next.new }
    {
        while self.round(next) {}
    }

    // Brings each worker in turn as far as it can go then, and says whether one moved.
    fn round(&self, next: &mut [u64]) -> bool
        requires ready { IsClaimReady self.now }
        requires block { HasBlock self.now }
        requires workers { HasWorkers self.now }
        requires sound { SoundIn self.now next.old }
        ensures sound { SoundIn self.now next.new }
        ensures idle { result ≡ false → AllBlockedIn self.now next.new }
        ensures less { result ≡ true → left_in self.now next.new < left_in self.now next.old }
    {
        let mut moved = false;
        for j in 0..self.workers as usize {
            let passed = self.drain(next, j);
            moved = either(moved, passed);
        }
        moved
    }

    // Brings a worker as far as it can go now, and says whether it moved.
    fn drain(&self, next: &mut [u64], j: usize) -> bool
        requires ready { IsClaimReady self.now }
        requires block { HasBlock self.now }
        requires workers { HasWorkers self.now }
        requires one { j < self.now.workers }
        requires sound { SoundIn self.now next.old }
        ensures sound { SoundIn self.now next.new }
        ensures blocked { BlockedIn self.now next.new j }
        ensures idle { result ≡ false → next.new ≡ next.old }
        ensures less { result ≡ true → left_in self.now next.new < left_in self.now next.old }
        ensures fewer { left_in self.now next.new ≤ left_in self.now next.old }
    {
        let start = next[j];
        while self.may_pass(next, j) {
            next[j] = self.after(next[j], j);
        }
        next[j] != start
    }

    // Whether the worker can go over the line at its number.
    fn may_pass(&self, next: &[u64], j: usize) -> bool
        requires ready { IsClaimReady self.now }
        requires block { 0 < self.now.block }
        requires workers { HasWorkers self.now }
        requires count { length next.now ≡ self.now.workers }
        requires one { j < self.now.workers }
        ensures passes { IsTrue result → PassesIn self.now next.now j }
        ensures waits { result ≡ false → BlockedIn self.now next.now j }
    {
        let i = next[j];
        if i >= self.trace.len() {
            return false;
        }
        if self.owner(i) != j {
            return true;
        }
        let Reply::Seen(_) = self.replies[i as usize] else {
            return true;
        };
        let Some(k) = self.found[i as usize] else {
            return false;
        };
        k < next[self.owner(k)]
    }

    // A number to which the worker goes on from a line: no line between is its own.
    fn after(&self, i: u64, j: usize) -> u64
        requires block { HasBlock self.now }
        requires workers { HasWorkers self.now }
        requires within { HasLine self.now i }
        ensures further { i < result }
        ensures within { result ≤ length self.now.trace.now }
        ensures foreign { (k : ℕ) → i < k → k < result → owner self.now.workers self.now.block k ≢ j }
    {
        let lines = self.trace.len();
        if self.owner(i) != j {
            return self.end_of_block(i).min(lines);
        }
        let next = i + 1;
        if next % self.block != 0 {
            return next;
        }
        next.saturating_add((self.workers - 1) * self.block)
            .min(lines)
    }

    // The first line after the line's block.
    fn end_of_block(&self, i: u64) -> u64
        requires block { HasBlock self.now }
        requires room { i + 1 < 2 ^ 64 }
        ensures further { i < result }
        ensures same { (k : ℕ) → i ≤ k → k < result → k / self.now.block ≡ i / self.now.block }
    {
        (i - i % self.block).saturating_add(self.block)
    }

    // The first line that its worker hasn't done.
    fn first_undone(&self, next: &[u64]) -> Option<u64>
        requires block { 0 < self.now.block }
        requires workers { HasWorkers self.now }
        requires count { length next.now ≡ self.now.workers }
        ensures few { HasNext result }
        ensures first { IsFirstUndone self.now next.now result }
    {
        for i in 0..self.trace.len() {
            if next[self.owner(i)] <= i {
                return Some(i);
            }
        }
        None
    }

    // Whose line this is.
    fn owner(&self, i: u64) -> usize
        requires block { 0 < self.now.block }
        requires workers { HasWorkers self.now }
        ensures value { result ≡ owner self.now.workers self.now.block i }
        ensures one { result < self.now.workers }
    {
        (i / self.block % self.workers) as usize
    }
}

// Whether one of the two holds.
fn either(a: bool, b: bool) -> bool
    ensures { result ≡ (a || b) }
{
    a || b
}
