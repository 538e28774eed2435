//! The compact root table as a part of the rule, and what a pass knows of it. No value of the first three
//! types is made: they are what contracts see behind a seat.

use crate::words::{count_regions, count_words, first_out};
use pair_rule::{RootPart, Sizes};
use std::collections::LinkedList;

/// A region that a pass holds.
pub struct Holding {
    /// Its number among the table's regions.
    pub region: u64,
    /// The odd value that it wrote to the region's lock word.
    pub lock: u64,
    /// The region's words as they are now.
    pub copy: LinkedList<u64>,
    /// The roots that the words kept when the region was taken, each as one number, with its flags.
    pub base: LinkedList<(u64, u64)>,
}

/// A region that a pass reads without its lock.
pub struct Reading {
    /// Its number among the table's regions.
    pub region: u64,
    /// The wanted root, as one number.
    pub pair: u64,
    /// The lock word at the first look.
    pub first: u64,
    /// What was loaded: each the place of a word in the region, and the word.
    pub loads: LinkedList<(u64, u64)>,
    /// The lock word at the second look, once there was one.
    pub second: Option<u64>,
}

/// What a pass knows of regions.
pub struct Regions {
    /// The region that it holds, if it holds one.
    pub held: LinkedList<Holding>,
    /// The region that it read last, if it read one.
    pub reader: LinkedList<Reading>,
    /// How often it read one without a lock.
    pub peeks: u64,
    /// How often it took a lock and gave it back.
    pub locks: u64,
}

/// The table of roots of compact mode: `2^roots` cells in regions of `2^region`, with `region` from 6 to 12
/// and `roots` from there to 24, below twice `W`. A root is the quotient in a cell, and its identifier is the
/// root itself, as one number.
///
/// Its words are a lock word for each region, and then the regions' words: `2^(region - 6) * C` each, where a
/// cell has `C = 2W - roots + 3 + F` bits.
pub struct CompactRoot<const W: u32, const F: u32>;

impl<const W: u32, const F: u32> RootPart<W, F> for CompactRoot<W, F> {
    ghost use Rattle.std.specs.Prelude.{◌≡◌, refl};
    ghost use Rattle.pair_rule.specs.Laws.{IsAbout};
    ghost use Rattle.region_root.specs.Compact.{nothing, compact, Compact};
    ghost use Rattle.region_root.specs.Laws.{compact_keeps, compact_keeps_split, compact_keeps_join};
    ghost use Rattle.region_root.specs.Laws.{compact_sounds, compact_houses, compact_starts_of};
    ghost use Rattle.region_root.specs.Laws.{knows_parent, knows_child, compact_ids_below, roots_longer};
    ghost use Rattle.region_root.specs.Laws.{roots_of_one};
    ghost use Rattle.region_root.specs.Names.{roots_nil};

    type View = Regions;

    ghost part = { compact W F };

    ghost holds = { Compact };

    ghost first = { λ about. nothing };

    ghost spent = { nothing };

    fn first_out(sizes: &Sizes) -> Option<u32> {
        first_out::<W>(sizes)
    }

    fn words(sizes: &Sizes) -> usize {
        let regions = count_regions(sizes);
        regions + regions * count_words::<W, F>(sizes)
    }

    ghost keeps = { compact_keeps };

    ghost keeps_split = { compact_keeps_split };

    ghost keeps_join = { λ about log ws views nodes id other v w kept at there apart busy rest fits fits_too.
        compact_keeps_join about log ws views id other v w kept at there apart rest };

    ghost starts = { λ about ws width flags is long blank.
        compact_starts_of W F about ws width flags is long blank };

    ghost sounds = { λ about log ws nodes views id v kept legal at fits live.
        compact_sounds about log ws nodes views id v kept legal at fits };

    ghost houses = { λ about log ws nodes views id v kept legal at fits live all.
        compact_houses about log ws nodes views id v kept legal at fits };

    ghost sound_parent = { knows_parent };

    ghost sound_child = { knows_child };

    ghost ids_small = { compact_ids_below };

    ghost roots_first = { λ about. roots_nil };

    ghost roots_spent = { λ about. roots_nil };

    ghost roots_split = { λ about h t. refl };

    ghost roots_join = { λ about g h t u before after. roots_longer g h before after };

    ghost roots_either = { λ about g h t u id pair there. roots_of_one g h id pair there };
}
