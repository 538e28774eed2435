//! A caller of a store of one of the three profiles.
ghost use Rattle.std.specs.Prelude.{◌≡◌, IfOk, IfErr, MatchOption};
ghost use Rattle.treedb_c.specs.Calls.{IsCreated, IsNotCreated, IsSplitOff, IsInserted};
ghost use Rattle.treedb_c.specs.Calls.{IsUnfit, IsFound, IsCounted};
ghost use Rattle.treedb_c.specs.Flags.{IsFlagged, AreFlags};
ghost use Rattle.treedb_c.specs.Inner.{holding};
ghost use Rattle.tdb_base.specs.History.{Set, Clear};

use crate::caller::Caller;
use crate::code::Code;
use pair_rule::Sizes;
use std::alloc::Global;
use tdb_base::Reply;

/// A caller of a store of 16 bits a slot and 8 flags, of 28 and 7, or of 31 and 1.
#[derive(Drop)]
pub enum Inner {
    Profile16(Caller<16, 8>),
    Profile28(Caller<28, 7>),
    Profile31(Caller<31, 1>),
}

impl Inner {
    /// A new store without vectors, and its first caller.
    pub fn create(alloc: Global, profile: u32, slots: usize, sizes: &Sizes) -> Result<Inner, Code>
        ensures made { IfOk result (λ made. IsCreated profile slots sizes.now (holding made)) }
        ensures refused { IfErr result (IsNotCreated profile slots sizes.now) }
    {
        match profile {
            16 => match Caller::create(alloc, slots, sizes) {
                Ok(caller) => Ok(Inner::Profile16(caller)),
                Err(code) => Err(code),
            },
            28 => match Caller::create(alloc, slots, sizes) {
                Ok(caller) => Ok(Inner::Profile28(caller)),
                Err(code) => Err(code),
            },
            31 => match Caller::create(alloc, slots, sizes) {
                Ok(caller) => Ok(Inner::Profile31(caller)),
                Err(code) => Err(code),
            },
            _ => Err(Code::BadProfile),
        }
    }

    /// A further caller of the store, which has seen what this one had.
    pub fn split(&mut self, alloc: Global) -> Option<Inner>
        ensures split { MatchOption result (self.new ≡ self.old)
            (λ child. IsSplitOff (holding self.old) (holding self.new) (holding child)) }
    {
        match self {
            Inner::Profile16(caller) => Some(Inner::Profile16(caller.split(alloc)?)),
            Inner::Profile28(caller) => Some(Inner::Profile28(caller.split(alloc)?)),
            Inner::Profile31(caller) => Some(Inner::Profile31(caller.split(alloc)?)),
        }
    }

    /// Inserts the vector, if it fits the store.
    pub fn insert(&mut self, vector: &[u32]) -> Option<Reply>
        ensures answered { MatchOption result (IsUnfit vector.now (holding self.old) (holding self.new))
            (λ reply. IsInserted vector.now reply (holding self.old) (holding self.new)) }
    {
        match self {
            Inner::Profile16(caller) => caller.insert(vector),
            Inner::Profile28(caller) => caller.insert(vector),
            Inner::Profile31(caller) => caller.insert(vector),
        }
    }

    /// Reads the vector with this identifier into `out`, if it is some vector's, and `out` has the store's
    /// slots.
    pub fn find(&mut self, id: u64, out: &mut [u32]) -> Option<bool>
        ensures found { IsFound id out.old out.new result (holding self.old) (holding self.new) }
    {
        match self {
            Inner::Profile16(caller) => caller.find(id, out),
            Inner::Profile28(caller) => caller.find(id, out),
            Inner::Profile31(caller) => caller.find(id, out),
        }
    }

    /// Sets flag `bit` of the vector with this identifier: whether it was clear.
    pub fn set_flag(&mut self, id: u64, bit: u32) -> Result<bool, Code>
        ensures flagged { IsFlagged (Set bit) bit id result (holding self.old) (holding self.new) }
    {
        match self {
            Inner::Profile16(caller) => caller.set_flag(id, bit),
            Inner::Profile28(caller) => caller.set_flag(id, bit),
            Inner::Profile31(caller) => caller.set_flag(id, bit),
        }
    }

    /// Clears flag `bit` of the vector with this identifier: whether it was set.
    pub fn clear_flag(&mut self, id: u64, bit: u32) -> Result<bool, Code>
        ensures flagged { IsFlagged (Clear bit) bit id result (holding self.old) (holding self.new) }
    {
        match self {
            Inner::Profile16(caller) => caller.clear_flag(id, bit),
            Inner::Profile28(caller) => caller.clear_flag(id, bit),
            Inner::Profile31(caller) => caller.clear_flag(id, bit),
        }
    }

    /// The flags of the vector with this identifier, if it is some vector's.
    pub fn flags(&mut self, id: u64) -> Option<u64>
        ensures flags { AreFlags id result (holding self.old) (holding self.new) }
    {
        match self {
            Inner::Profile16(caller) => caller.flags(id),
            Inner::Profile28(caller) => caller.flags(id),
            Inner::Profile31(caller) => caller.flags(id),
        }
    }

    /// How many nodes were put by this caller, and how many names its calls gave.
    pub fn counts(&self) -> (u64, u64)
        ensures counts { IsCounted result (holding self.now) }
    {
        match self {
            Inner::Profile16(caller) => caller.counts(),
            Inner::Profile28(caller) => caller.counts(),
            Inner::Profile31(caller) => caller.counts(),
        }
    }
}
