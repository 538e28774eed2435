//! What a history is made of: the calls on a set of vectors with flags, one entry each.

ghost use Rattle.std.specs.Prelude.{◌≡◌};

use std::marker::Model;

/// What a call did with its vector: it found or put it (and whether it was fresh), set or cleared a flag (and
/// whether the flag changed), or read the flags as one number.
#[derive(Clone, Copy, Debug, PartialEq, Eq)]
pub enum Act {
    Put(bool),
    Set(u32, bool),
    Clear(u32, bool),
    Look(u64),
}

/// One call of a history. Contracts see it as an entry.
#[derive(Drop)]
pub struct Entry {
    pub(crate) caller: u64,
    pub(crate) act: Act,
    pub(crate) vector: Vec<u32>,
    pub(crate) id: u64,
}

impl Model for Entry {
    ghost use Rattle.tdb_base.specs.History as h;
    ghost use Rattle.tdb_base.specs.Acts.{act_of};

    ghost Value = { h.Entry };

    ghost view = { λ e. record { caller = e.caller; act = act_of e.act; vector = e.vector.items; id = e.id } };
}

impl Entry {
    ghost use Rattle.tdb_base.specs.Acts.{act_of};

    /// The call of this caller on this vector, by its identifier.
    pub fn new(caller: u64, act: Act, vector: Vec<u32>, id: u64) -> Entry
        ensures { result ≡ record { caller = caller; act = act_of act; vector = vector.items; id = id } }
    {
        Entry {
            caller,
            act,
            vector,
            id,
        }
    }

    /// The slots of the call's vector.
    pub fn vector(&self) -> &[u32]
        ensures { result.now ≡ self.now.vector }
    {
        &self.vector
    }
}
