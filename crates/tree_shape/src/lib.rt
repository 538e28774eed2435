//! The shape of the tree of pairs that keeps a vector, after the tree database of Laarman, van de Pol and
//! Weber (2011).
#![tactic(auto)]

ghost use Rattle.std.specs.Prelude.{◌≡◌, ℕ, ◌+◌, ◌-◌, ◌*◌, ◌/◌, ◌<◌, ◌≤◌, ◌↔◌, Err, IsTrue, length};
ghost use Rattle.std.specs.Result.{OkIff};
ghost use Rattle.tree_shape.specs.Positions.{IsDepth};
ghost use Rattle.tree_shape.specs.Changed.{DiffersAt, IsChanged, IsMarked, changed_count, marked_count};

mod comparing;
pub mod laws;
mod marking;

use comparing::next_difference;
use marking::{clear, mark_above};
use std::marker::Model;
use thiserror::Error;

/// The tree of pairs that keeps a vector is balanced. The positions of a tree of `k` slots are numbered from
/// 1 to `2k - 1`: position 1 is the root, the pair at a position `p` below `k` has its left part from
/// position `2p` and its right part from position `2p + 1`, and position `k + j` holds slot `j`. The
/// positions from 2 to `k - 1` are the inner nodes. Contracts see a shape as its number of slots, which is
/// from 2 to 1024.
#[derive(Clone, Copy, Debug, PartialEq, Eq)]
pub struct Shape {
    slots: usize,
}

impl Model for Shape {
    ghost Value = { ℕ };

    ghost view = { λ s. s.slots };

    ghost invariant = { λ s. (2 ≤ s.slots) × (s.slots ≤ 1024) };

    ghost inverse = { λ k. record { slots = k } };
}

/// Why there is no shape of so many slots.
#[derive(Clone, Copy, Debug, PartialEq, Eq, Drop, Error)]
pub enum ShapeError {
    /// Fewer than 2 slots.
    #[error("{0} slots are too few, 2 to 1024 are allowed")]
    TooShort(usize),
    /// More than 1024 slots.
    #[error("{0} slots are too many, 2 to 1024 are allowed")]
    TooLong(usize),
}

impl Shape {
    /// The least number of slots.
    pub const LEAST: usize = 2;

    /// The greatest number of slots.
    pub const MOST: usize = 1024;

    /// The shape of vectors of `k` slots, for `k` from 2 to 1024.
    pub fn new(k: usize) -> Result<Self, ShapeError>
        ensures ok { OkIff result ((2 ≤ k) × (k ≤ 1024)) k }
        ensures too_short { (result ≡ Err (ShapeError.TooShort k)) ↔ (k < 2) }
        ensures too_long { (result ≡ Err (ShapeError.TooLong k)) ↔ (1024 < k) }
    {
        if k < Self::LEAST {
            return Err(ShapeError::TooShort(k));
        }
        if k > Self::MOST {
            return Err(ShapeError::TooLong(k));
        }
        Ok(Shape { slots: k })
    }

    /// The number of slots of a vector.
    pub fn slots(&self) -> usize
        ensures value { result ≡ self.now }
        ensures range { (2 ≤ result) × (result ≤ 1024) }
    {
        self.slots
    }

    /// The position of the pair that has position `p` as a part.
    pub fn parent(&self, p: usize) -> usize
        requires { (2 ≤ p) × (p ≤ 2 * self.now - 1) }
        ensures { result ≡ p / 2 }
    {
        p / 2
    }

    /// The position of slot `j`.
    pub fn slot_position(&self, j: usize) -> usize
        requires { j < self.now }
        ensures { result ≡ self.now + j }
    {
        self.slots + j
    }

    /// Whether position `p` is an inner node: neither the root nor a slot.
    pub fn is_inner(&self, p: usize) -> bool
        ensures { IsTrue result ↔ (2 ≤ p) × (p < self.now) }
    {
        2 <= p && p < self.slots
    }

    /// The logarithm of the number of slots to the base 2, rounded up: no slot is more steps below the root.
    pub fn depth(&self) -> u32
        ensures { IsDepth self.now result }
    {
        usize::BITS - (self.slots - 1).leading_zeros()
    }

    /// Marks the inner positions above the slots in which two vectors differ, takes every other mark away,
    /// and answers how many are set. Goes once over the marks, once over the slots, eight at a time where
    /// these are the same, and up from each slot that differs until a position is marked already.
    pub fn changed(&self, old: &[u32], new: &[u32], marks: &mut [bool]) -> usize
        requires old { length old.now ≡ self.now }
        requires new { length new.now ≡ self.now }
        requires marks { length marks.old ≡ self.now }
        ensures marked { (p : ℕ) → IsMarked marks.new p ↔ IsChanged self.now old.now new.now p }
        ensures marks_set { result ≡ marked_count marks.new }
        ensures size { result ≡ changed_count self.now old.now new.now }

        // One changed slot costs at most its inner positions: one fewer than the depth.
        ensures one_slot { (j d : ℕ) → IsDepth self.now d
            → ((i : ℕ) → i < self.now → DiffersAt old.now new.now i → i ≡ j) → result ≤ d - 1 }
    {
        clear(marks);
        let mut count = 0;
        let mut slot = next_difference(old, new, 0);
        while slot < self.slots {
            count += mark_above(marks, self.slots + slot);
            slot = next_difference(old, new, slot + 1);
        }
        count
    }
}

#[cfg(test)]
mod tests;
