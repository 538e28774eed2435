//! The steps on lock words and on regions' words, and what each tells.
ghost use Rattle.region_root.specs.Plays.{takes_tells, copies_tells, stores_tells, frees_tells};
ghost use Rattle.region_root.specs.Plays.{peeks_tells, reads_tells, closes_tells};

use crate::root::Regions;
use atomic_table::Play;
use pair_rule::View;
use std::marker::{Brand, PhantomData};

// A region is taken: its lock word is exchanged from an even value to the next odd one.
pub(crate) struct Takes;

impl Play<(), View<Regions>> for Takes {
    ghost then = { takes_tells };
}

// The holder loads a word of its region.
pub(crate) struct Copies;

impl Play<(), View<Regions>> for Copies {
    ghost then = { copies_tells };
}

// The holder stores a word there.
pub(crate) struct Stores;

impl Play<(), View<Regions>> for Stores {
    ghost then = { stores_tells };
}

// What a step is told that none of its operands could tell it: how the call ends, and which root is wanted.
// The proof of a call picks it.
pub(crate) trait Intends {
    ghost use Rattle.std.specs.Prelude.{ℕ};
    ghost use Rattle.region_root.specs.Plays.{Ending};

    ghost ending: { Ending };

    ghost wanted: { ℕ };
}

impl Intends for Brand {
    ghost use Rattle.std.specs.Prelude.{None};

    ghost ending = { None };

    ghost wanted = { 0 };
}

// The holder gives its region back, which ends a call.
pub(crate) struct Frees<B> {
    intends: PhantomData<B>,
}

impl<B: Intends> Play<(), View<Regions>> for Frees<B> {
    ghost then = { frees_tells B.ending };
}

// A reader looks at a region's lock word before it reads.
pub(crate) struct Peeks<B> {
    intends: PhantomData<B>,
}

impl<B: Intends> Play<(), View<Regions>> for Peeks<B> {
    ghost then = { peeks_tells B.wanted };
}

// It loads a word of the region.
pub(crate) struct Reads;

impl Play<(), View<Regions>> for Reads {
    ghost then = { reads_tells };
}

// It looks at the lock word again.
pub(crate) struct Closes;

impl Play<(), View<Regions>> for Closes {
    ghost then = { closes_tells };
}
