//! The steps on a root's word.
ghost use Rattle.std.specs.Prelude.{◌≡◌, ℕ, ◌<◌, Bool, false};
ghost use mathlib.Core.Option.{none};
ghost use Rattle.atomic_table.specs.Table.{Allows, step};
ghost use Rattle.root_plain.specs.Plays.{sought, claimed, flag_set, flag_cleared, flags_read};

use crate::root::Roots;
use atomic_table::{Play, Seat, Shared, TableRule};
use pair_rule::{About, View};
use std::marker::{Brand, PhantomData};

/// Which pairs, if they are found in a root bucket, are what a call asks for.
#[derive(Clone, Copy, Debug, PartialEq, Eq)]
pub enum Wanted {
    /// This one, a packed pair.
    Pair(u64),
    /// Each.
    Each,
    /// None.
    Nothing,
}

// What a load's `Play` is told: a load has no operand that could tell it. The proof of a call picks it.
pub(crate) trait Asks {
    ghost wanted: { ℕ → Bool };
}

impl Asks for Brand {
    ghost wanted = { λ pair. false };
}

// A load of a root's bucket.
pub(crate) struct Seeking<B> {
    asks: PhantomData<B>,
}

impl<B: Asks> Play<(), View<Roots>> for Seeking<B> {
    ghost then = { sought B.wanted };
}

// A compare and exchange that puts a pair into a root's empty bucket.
pub(crate) struct Claiming;

impl Play<(), View<Roots>> for Claiming {
    ghost then = { claimed };
}

// A fetch and or with a flag's mask on a named root's word.
pub(crate) struct SettingFlag;

impl Play<(), View<Roots>> for SettingFlag {
    ghost then = { flag_set };
}

// A fetch and and with the mask of all other bits.
pub(crate) struct ClearingFlag;

impl Play<(), View<Roots>> for ClearingFlag {
    ghost then = { flag_cleared };
}

// A load that reads the flags there.
pub(crate) struct ReadingFlags;

impl Play<(), View<Roots>> for ReadingFlags {
    ghost then = { flags_read };
}
