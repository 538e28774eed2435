//! A store of vectors with eight flags, plain or compact, as callers in threads turn and read them.
ghost use Rattle.std.specs.Prelude.{◌≡◌};
ghost use Rattle.pair_rule.specs.Rest.{AtRest};

use super::{compact, put};
use crate::{CompactStore, PlainStore};
use pair_rule::PassOf;
use region_root::Regions;
use root_plain::Roots;
use std::process::Abort;
use std::sync::Wait;
use tdb_base::{Reply, Silent, Steps};

// What is done to a vector's flags.
#[derive(Clone, Copy)]
pub(crate) enum Doing {
    Set(u32),
    Clear(u32),
    Read,
}

pub(crate) trait Flagged: Sync {
    ghost use Rattle.std.specs.Prelude.{◌≡◌};
    ghost use Rattle.pair_rule.specs.Part.{Part, Store};
    ghost use Rattle.pair_rule.specs.Rest.{AtRest};

    // What a pass of the store knows of its roots.
    type View: Send;

    // What the root table gives to contracts, and which store it is.
    ghost part: { Part Self.View };

    ghost store: { Self → Store };

    // The vector is inserted, and this is done to its flags: its identifier, and 1 where a flag changed and 0
    // where it did not, or the flags that are read. `None` if it has no place.
    fn act(&self, pass: &mut PassOf<Self::View>, vector: &[u32], doing: Doing) -> Option<(u64, u64)>
        requires flags { (store self.now).about.flags ≡ 8 }
        requires rest { AtRest part (store self.now) pass.old }
        ensures { AtRest part (store self.now) pass.new };
}

#[derive(Drop)]
pub(crate) struct PlainFlags<'a, H> {
    pub(crate) rt: &'a H,
    pub(crate) store: &'a PlainStore<16, 8>,
}

impl<'a, H: Abort + Sync> Flagged for PlainFlags<'a, H> {
    ghost use Rattle.root_plain.specs.Plain.{plain};

    type View = Roots;

    ghost part = { plain };

    ghost store = { λ d. d.store.now };

    fn act(&self, pass: &mut PassOf<Roots>, vector: &[u32], doing: Doing) -> Option<(u64, u64)> {
        let mut steps = Steps::new(Silent);
        let answered = put(self.rt, self.store, pass, vector, &mut steps);
        let (Reply::New(id) | Reply::Seen(id)) = answered else {
            return None;
        };
        let answer = match doing {
            Doing::Set(b) => u64::from(self.store.set_flag(pass, id, b % 8)),
            Doing::Clear(b) => u64::from(self.store.clear_flag(pass, id, b % 8)),
            Doing::Read => self.store.flags(pass, id),
        };
        Some((id, answer))
    }
}

#[derive(Drop)]
pub(crate) struct CompactFlags<'a, H> {
    pub(crate) rt: &'a H,
    pub(crate) store: &'a CompactStore<16, 8>,
}

impl<'a, H: Wait + Abort + Sync> Flagged for CompactFlags<'a, H> {
    ghost use Rattle.region_root.specs.Compact.{compact};

    type View = Regions;

    ghost part = { compact 16 8 };

    ghost store = { λ d. d.store.now };

    fn act(&self, pass: &mut PassOf<Regions>, vector: &[u32], doing: Doing) -> Option<(u64, u64)> {
        let mut steps = Steps::new(Silent);
        let answered = compact::put(self.rt, self.store, pass, vector, &mut steps);
        let (Reply::New(id) | Reply::Seen(id)) = answered else {
            return None;
        };
        let answer = match doing {
            Doing::Set(b) => u64::from(self.store.set_flag(self.rt, pass, id, b % 8)),
            Doing::Clear(b) => u64::from(self.store.clear_flag(self.rt, pass, id, b % 8)),
            Doing::Read => self.store.flags(self.rt, pass, id),
        };
        Some((id, answer))
    }
}
