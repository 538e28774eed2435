//! A caller of a store: a store, which it shares with other callers, and a pass of its own.
ghost use Rattle.std.specs.Prelude.{◌≡◌, ◌<◌, ◌↔◌, IfOk, IfErr, IsTrue, MatchOption};
ghost use Rattle.packed_word.specs.Word.{IsLayout};
ghost use Rattle.pair_rule.specs.Rest.{AtRest};
ghost use Rattle.root_plain.specs.Plain.{plain};
ghost use Rattle.treedb_c.specs.Calls.{IsNew, IsRefused, size_code, IsSplitOff};
ghost use Rattle.treedb_c.specs.Calls.{IsInserted, IsUnfit, IsFound, IsCounted};
ghost use Rattle.treedb_c.specs.Flags.{IsSought, IsFlagged, AreFlags};
ghost use Rattle.tdb_base.specs.History.{Set, Clear};

use crate::code::Code;
use pair_rule::Sizes;
use root_plain::{PlainRoot, find_id};
use std::alloc::Global;
use std::marker::Model;
use std::sync::Arc;
use tdb_base::{Reply, Silent, Steps};
use tree_shape::{Shape, ShapeError};
use tree_store::{CreateError, PlainPass, PlainStore, TreeStore};

/// A caller of a store of one profile: `W` bits a slot, `F` flags a vector.
///
/// Contracts see the store and the pass, which rests between two calls.
pub struct Caller<const W: u32, const F: u32> {
    store: Arc<PlainStore<W, F>>,
    pass: PlainPass<W, F>,
}

impl<const W: u32, const F: u32> Model for Caller<W, F> {
    ghost use Rattle.std.specs.Arc.{arc_value};
    ghost use Rattle.treedb_c.specs.Holding.{Holding, Rested};

    ghost Value = { Holding };

    ghost view = { λ c. record { store = arc_value c.store; pass = c.pass } };

    ghost invariant = { λ c. Rested W F (record { store = arc_value c.store; pass = c.pass }) };
}

impl<const W: u32, const F: u32> Drop for Caller<W, F> {
    fn drop(self) {
        let Self { store: _, pass: _ } = self;
    }
}

// The code for the size with this number.
fn code_of_size(number: u32) -> Code
    ensures { result ≡ size_code number }
{
    match number {
        1 => Code::BadNodes,
        2 => Code::BadRoots,
        _ => Code::BadProbe,
    }
}

// Whether the identifier is some vector's.
fn is_named<const W: u32, const F: u32>(
    store: &PlainStore<W, F>,
    pass: &mut PlainPass<W, F>,
    id: u64,
) -> bool
    requires rest { AtRest plain store.now pass.old }
    ensures rest { AtRest plain store.now pass.new }
    ensures sought { IsSought id result pass.old pass.new }
{
    match find_id(store.nodes(), pass, id) {
        Some(_) => true,
        None => false,
    }
}

impl<const W: u32, const F: u32> Caller<W, F> {
    /// A new store without vectors, and its first caller.
    pub fn create(alloc: Global, slots: usize, sizes: &Sizes) -> Result<Caller<W, F>, Code>
        requires { IsLayout W F }
        ensures made { IfOk result (IsNew W F slots sizes.now) }
        ensures refused { IfErr result (IsRefused W slots sizes.now) }
    {
        let shape = match Shape::new(slots) {
            Ok(shape) => shape,
            Err(ShapeError::TooShort(_)) | Err(ShapeError::TooLong(_)) => {
                return Err(Code::BadSlots);
            }
        };
        match TreeStore::<PlainRoot<W, F>, W, F>::create(alloc, shape, sizes) {
            Ok((store, pass)) => match Arc::new(alloc, store) {
                Ok(store) => Ok(Caller { store, pass }),
                Err(_) => Err(Code::NoMemory),
            },
            Err(CreateError::Sizes(number)) => Err(code_of_size(number)),
            Err(CreateError::NoMemory) => Err(Code::NoMemory),
        }
    }

    /// A further caller of the store, which has seen what this one had.
    pub fn split(&mut self, alloc: Global) -> Option<Caller<W, F>>
        ensures split { MatchOption result (self.new ≡ self.old) (IsSplitOff self.old self.new) }
    {
        let Ok(store) = Arc::try_clone(&self.store) else {
            return None;
        };
        match store.split(alloc, &mut self.pass) {
            Ok(pass) => Some(Caller { store, pass }),
            Err(_) => None,
        }
    }

    /// Inserts the vector, if it fits the store.
    pub fn insert(&mut self, vector: &[u32]) -> Option<Reply>
        ensures answered { MatchOption result (IsUnfit vector.now self.old self.new)
            (λ reply. IsInserted vector.now reply self.old self.new) }
    {
        if !self.store.fits(vector) {
            return None;
        }
        Some(
            self.store
                .insert_from(&mut self.pass, vector, &mut Steps::new(Silent)),
        )
    }

    /// Reads the vector with this identifier into `out`, if it is some vector's, and `out` has the store's
    /// slots.
    pub fn find(&mut self, id: u64, out: &mut [u32]) -> Option<bool>
        ensures found { IsFound id out.old out.new result self.old self.new }
    {
        if out.len() != self.store.slots() {
            return None;
        }
        Some(self.store.lookup(&mut self.pass, id, out))
    }

    // Whether the store has such a flag.
    fn has_flag(&self, bit: u32) -> bool
        ensures { IsTrue result ↔ (bit < self.now.store.about.flags) }
    {
        let _nodes = self.store.nodes();
        bit < F
    }

    /// Sets flag `bit` of the vector with this identifier: whether it was clear.
    pub fn set_flag(&mut self, id: u64, bit: u32) -> Result<bool, Code>
        ensures flagged { IsFlagged (Set bit) bit id result self.old self.new }
    {
        if !self.has_flag(bit) {
            return Err(Code::BadFlag);
        }
        if !is_named(&self.store, &mut self.pass, id) {
            return Err(Code::NoName);
        }
        Ok(self.store.set_flag(&mut self.pass, id, bit))
    }

    /// Clears flag `bit` of the vector with this identifier: whether it was set.
    pub fn clear_flag(&mut self, id: u64, bit: u32) -> Result<bool, Code>
        ensures flagged { IsFlagged (Clear bit) bit id result self.old self.new }
    {
        if !self.has_flag(bit) {
            return Err(Code::BadFlag);
        }
        if !is_named(&self.store, &mut self.pass, id) {
            return Err(Code::NoName);
        }
        Ok(self.store.clear_flag(&mut self.pass, id, bit))
    }

    /// The flags of the vector with this identifier, if it is some vector's.
    pub fn flags(&mut self, id: u64) -> Option<u64>
        ensures flags { AreFlags id result self.old self.new }
    {
        if !is_named(&self.store, &mut self.pass, id) {
            return None;
        }
        Some(self.store.flags(&mut self.pass, id))
    }

    /// How many nodes were put by this caller, and how many names its calls gave.
    pub fn counts(&self) -> (u64, u64)
        ensures counts { IsCounted result self.now }
    {
        (
            self.store.nodes_made(&self.pass),
            self.store.names_made(&self.pass),
        )
    }
}
