//! A region, and its calls.

ghost use Rattle.std.specs.Prelude.{◌≡◌, ℕ, ◌+◌, ◌-◌, ◌*◌, ◌^◌, ◌<◌, ◌≤◌, List, length, MatchBool};
ghost use Rattle.std.specs.Prelude.{MatchResult, ⊤};
ghost use Rattle.cleary_core.specs.Access.{HasReached};
ghost use Rattle.cleary_core.specs.Answers.{Tells, TellsFlags, Decides, DecidesFlags, Answered, StayWithout};
ghost use Rattle.cleary_core.specs.Answers.{flagged};
ghost use Rattle.cleary_core.specs.Cells.{IsRegion, cell_at, sizes_of, word_count};
ghost use Rattle.cleary_core.specs.Change.{InOneRun, OnlyFlags};
ghost use Rattle.cleary_core.specs.Map.{Key, KeepsMap};
ghost use Rattle.cleary_core.specs.Search.{ReachesRun};

use crate::access::{ReadWords, SliceReader, SliceWriter, WriteWords};
use crate::cells::{Cell, Sizes};
use crate::insertion::{RegionFull, insert_key};
use crate::reading::{locate, read_cell};
use crate::writing::{own_cell, write_cell};
use std::marker::Model;

/// One region of a table of `2^r` cells, cut into regions of `2^s`: a map from a home below `2^s` and a
/// quotient below `2^(2W - r)` to flags below `2^F`, kept in the region's `2^(s - 6) * C` words of 64 bits,
/// where a cell has `C = 2W - r + 3 + F` bits. The words are lent to each call. Contracts see a region as its
/// sizes.
#[derive(Drop)]
pub struct Region<const W: u32, const F: u32> {
    sizes: Sizes,
}

impl<const W: u32, const F: u32> Model for Region<W, F> {
    ghost use Rattle.cleary_core.specs.Cells.{IsRegion};
    ghost use Rattle.cleary_core.specs.declared.cells.Sizes.{Sizes};

    ghost Value = { Sizes };

    ghost view = { λ region. region.sizes };

    ghost invariant = { λ region. IsRegion region.sizes };
}

impl<const W: u32, const F: u32> Region<W, F> {
    /// A region of `2^s` cells, `s` from 6 to 12, of a table of `2^r` cells, `r` from `s` to 24.
    #[inline]
    pub fn over(r: u32, s: u32) -> Region<W, F>
        requires sizes { (6 ≤ s) × (s ≤ 12) × (s ≤ r) × (r ≤ 24) }
        requires profile { (r < 2 * W) × (1 ≤ F) × (2 * W + F ≤ 63) }
        ensures sizes { result ≡ sizes_of W F r s }
        ensures region { IsRegion result }
        ensures words { word_count result ≡ 2 ^ (s - 6) * (2 * W - r + 3 + F) }
    {
        let sizes = Sizes {
            cells: 1u64 << s,
            flags: F,
            quotient: 2 * W - r,
        };
        Region { sizes }
    }

    /// How many words the region has.
    #[inline]
    pub fn words(&self) -> usize
        ensures { result ≡ word_count self.now }
    {
        let sizes = self.sizes;
        (sizes.cells / 64 * (3 + u64::from(sizes.flags) + u64::from(sizes.quotient))) as usize
    }

    /// Cell `i`, which is below `2^s`.
    pub fn cell(&self, words: &[u64], i: u64) -> Cell
        requires words { length words.now ≡ word_count self.now }
        requires inside { i < self.now.cells }
        ensures { result ≡ cell_at self.now words.now i }
    {
        let mut access = SliceReader { words };
        read_cell(&self.sizes, &mut access, i)
    }

    /// How many keys the map has that the words keep.
    pub fn count(&self, words: &[u64]) -> u64
        requires { length words.now ≡ word_count self.now }
        ensures { (keys : List Key) → KeepsMap self.now words.now keys → result ≡ length keys }
    {
        let mut access = SliceReader { words };
        let mut keys = 0;
        for i in 0..self.sizes.cells {
            let here = read_cell(&self.sizes, &mut access, i);
            if here.occupied {
                keys += 1;
            }
        }
        keys
    }

    /// Whether the map that the words keep has the key.
    pub fn find(&self, words: &[u64], home: u64, quotient: u64) -> bool
        requires words { length words.now ≡ word_count self.now }
        requires home { home < self.now.cells }
        ensures { (keys : List Key) → KeepsMap self.now words.now keys → Tells result keys home quotient }
    {
        self.find_in(&mut SliceReader { words }, home, quotient)
    }

    /// Whether the map has the key, by words that are reached one at a time: those of the home's run, and of
    /// the cell on either side of it.
    ///
    /// It ends and stays within the region whatever it finds, also where the words are of no one moment and
    /// keep no map. What it reached decides its answer: whatever words agree with that and keep a map, the
    /// answer is true of that map.
    #[inline]
    pub fn find_in<A: ReadWords>(&self, access: &mut A, home: u64, quotient: u64) -> bool
        requires words { A.spans access.old (word_count self.now) }
        requires home { home < self.now.cells }
        ensures decided { Decides self.now (A.reached access.new) home quotient result }
        ensures near { (words : List ℕ) (keys : List Key) → length words ≡ word_count self.now
            → HasReached (A.reached access.new) words → KeepsMap self.now words keys
            → ReachesRun (A.reached access.old) (A.reached access.new) self.now (cell_at self.now words) home }
        ensures words { A.spans access.new (word_count self.now) }
        ensures reads { A.reads access.old access.new }
    {
        match locate(&self.sizes, access, home, quotient) {
            Some(_) => true,
            None => false,
        }
    }

    /// Adds a key with flags 0. `Ok(true)` says that it is new, and `Ok(false)` that it was there.
    /// `RegionFull` comes exactly where the map hasn't the key and has `2^s` keys. With these two the words
    /// stay.
    pub fn insert(&self, words: &mut [u64], home: u64, quotient: u64) -> Result<bool, RegionFull>
        requires words { length words.old ≡ word_count self.now }
        requires home { home < self.now.cells }
        requires quotient { quotient < 2 ^ self.now.quotient }
        requires kept { (keys : List Key) × KeepsMap self.now words.old keys }
        ensures answer { (keys : List Key) → KeepsMap self.now words.old keys
            → Answered result self.now keys home quotient words.new }
        ensures others { InOneRun self.now.cells (cell_at self.now words.old)
            (cell_at self.now words.new) home }
        ensures kept { (keys : List Key) × KeepsMap self.now words.new keys }
        ensures unchanged { MatchResult result (λ fresh. MatchBool fresh ⊤ (words.new ≡ words.old))
            (λ _. words.new ≡ words.old) }
    {
        self.insert_in(&mut SliceWriter { words }, home, quotient)
    }

    /// `insert` into words that are reached one at a time: those of the home's run, and of the cell on either
    /// side of it. It puts only words that change, and only cells of the run change.
    #[inline]
    pub fn insert_in<A: WriteWords>(
        &self,
        access: &mut A,
        home: u64,
        quotient: u64,
    ) -> Result<bool, RegionFull>
        requires words { A.spans access.old (word_count self.now) }
        requires home { home < self.now.cells }
        requires quotient { quotient < 2 ^ self.now.quotient }
        requires kept { (keys : List Key) × KeepsMap self.now (A.words access.old) keys }
        ensures answer { (keys : List Key) → KeepsMap self.now (A.words access.old) keys
            → Answered result self.now keys home quotient (A.words access.new) }
        ensures others { InOneRun self.now.cells (cell_at self.now (A.words access.old))
            (cell_at self.now (A.words access.new)) home }
        ensures near { ReachesRun (A.reached access.old) (A.reached access.new) self.now
            (cell_at self.now (A.words access.old)) home }
        ensures kept { (keys : List Key) × KeepsMap self.now (A.words access.new) keys }
        ensures unchanged { MatchResult result
            (λ fresh. MatchBool fresh ⊤ (A.words access.new ≡ A.words access.old)) (λ _.
            A.words access.new ≡ A.words access.old) }
        ensures words { A.spans access.new (word_count self.now) }
        ensures writes { A.writes access.old access.new }
    {
        insert_key(&self.sizes, access, home, quotient)
    }

    /// The flags of a key that the map has. No clause says what it answers for another.
    pub fn flags(&self, words: &[u64], home: u64, quotient: u64) -> u64
        requires words { length words.now ≡ word_count self.now }
        requires home { home < self.now.cells }
        ensures { (keys : List Key) → KeepsMap self.now words.now keys
            → TellsFlags result keys home quotient }
    {
        self.flags_in(&mut SliceReader { words }, home, quotient)
    }

    /// `flags` of words that are reached one at a time: those of the home's run, and of the cell on either
    /// side of it. As with `find_in`, what it reached decides the answer.
    #[inline]
    pub fn flags_in<A: ReadWords>(&self, access: &mut A, home: u64, quotient: u64) -> u64
        requires words { A.spans access.old (word_count self.now) }
        requires home { home < self.now.cells }
        ensures decided { DecidesFlags self.now (A.reached access.new) home quotient result }
        ensures near { (words : List ℕ) (keys : List Key) → length words ≡ word_count self.now
            → HasReached (A.reached access.new) words → KeepsMap self.now words keys
            → ReachesRun (A.reached access.old) (A.reached access.new) self.now (cell_at self.now words) home }
        ensures words { A.spans access.new (word_count self.now) }
        ensures reads { A.reads access.old access.new }
    {
        match locate(&self.sizes, access, home, quotient) {
            Some(at) => read_cell(&self.sizes, access, at).flags,
            None => 0,
        }
    }

    /// Sets the flags of a key, if the map has it, to a value below `2^F`. All else stays: no other cell
    /// changes, and where the map hasn't the key no word does.
    pub fn set_flags(&self, words: &mut [u64], home: u64, quotient: u64, value: u64)
        requires words { length words.old ≡ word_count self.now }
        requires home { home < self.now.cells }
        requires value { value < 2 ^ self.now.flags }
        requires kept { (keys : List Key) × KeepsMap self.now words.old keys }
        ensures flagged { (keys : List Key) → KeepsMap self.now words.old keys
            → KeepsMap self.now words.new (flagged home quotient value keys) }
        ensures others { OnlyFlags (cell_at self.now words.old) (cell_at self.now words.new) }
        ensures absent { StayWithout self.now words.old words.new home quotient }
        ensures kept { (keys : List Key) × KeepsMap self.now words.new keys }
    {
        self.set_flags_in(&mut SliceWriter { words }, home, quotient, value)
    }

    /// `set_flags` of words that are reached one at a time: those of the home's run, and of the cell on
    /// either side of it. It puts only words that change.
    #[inline]
    pub fn set_flags_in<A: WriteWords>(&self, access: &mut A, home: u64, quotient: u64, value: u64)
        requires words { A.spans access.old (word_count self.now) }
        requires home { home < self.now.cells }
        requires value { value < 2 ^ self.now.flags }
        requires kept { (keys : List Key) × KeepsMap self.now (A.words access.old) keys }
        ensures flagged { (keys : List Key) → KeepsMap self.now (A.words access.old) keys
            → KeepsMap self.now (A.words access.new) (flagged home quotient value keys) }
        ensures others { OnlyFlags (cell_at self.now (A.words access.old))
            (cell_at self.now (A.words access.new)) }
        ensures near { ReachesRun (A.reached access.old) (A.reached access.new) self.now
            (cell_at self.now (A.words access.old)) home }
        ensures absent { StayWithout self.now (A.words access.old) (A.words access.new) home quotient }
        ensures kept { (keys : List Key) × KeepsMap self.now (A.words access.new) keys }
        ensures words { A.spans access.new (word_count self.now) }
        ensures writes { A.writes access.old access.new }
    {
        let Some(at) = locate(&self.sizes, access, home, quotient) else {
            return;
        };
        let here = own_cell(&self.sizes, access, at);
        write_cell(
            &self.sizes,
            access,
            at,
            Cell {
                flags: value,
                ..here
            },
        );
    }
}
