//! What the holder of a region does with a root there.
ghost use Rattle.std.specs.Prelude.{◌≡◌, ℕ, ◌^◌, ◌<◌, [], ◌∷◌, MatchBool};
ghost use Rattle.tree_shape.specs.Tree.{Has};
ghost use Rattle.pair_rule.specs.Rest.{view};
ghost use Rattle.region_root.specs.declared.root.Holding.{Holding};
ghost use Rattle.region_root.specs.Layout.{place, IsPacked, KeepsRoots};
ghost use Rattle.region_root.specs.Maps.{with_flag_set};
ghost use Rattle.region_root.specs.Work.{AtWork, Added, Rewrites, held_words};

use crate::access::Holder;
use crate::root::CompactRoot;
use crate::words::region_at;
use cleary_core::RegionFull;
use mix_hash::Place;
use pair_rule::{PairTable, Pass};

// Under the lock of its region, adds the root, if it isn't there.
#[inline]
pub(crate) fn add_root<const W: u32, const F: u32>(
    table: &PairTable<CompactRoot<W, F>, W, F>,
    pass: &mut Pass<CompactRoot<W, F>, W, F>,
    pair: u64,
    at: &Place,
) -> Result<bool, RegionFull>
    requires root { IsPacked table.now.about pair × (at.now ≡ place table.now.about pair) }
    requires work { (h : Holding) × AtWork W F table.now h pass.old × (h.region ≡ at.now.region)
        × KeepsRoots table.now.about h.copy h.base }
    ensures rewrites { Rewrites W F table.now pass.old pass.new }
    ensures added { (h : Holding) → (view pass.old).root.held ≡ h ∷ []
        → Added table.now.about pair result h.base (held_words pass.new) }
{
    let (region, from) = region_at(table, at.region);
    region.insert_in(&mut Holder { table, pass, from }, at.home, at.quotient)
}

// Whether the held region has the root.
#[inline]
pub(crate) fn has_root<const W: u32, const F: u32>(
    table: &PairTable<CompactRoot<W, F>, W, F>,
    pass: &mut Pass<CompactRoot<W, F>, W, F>,
    pair: u64,
    at: &Place,
) -> bool
    requires root { IsPacked table.now.about pair × (at.now ≡ place table.now.about pair) }
    requires work { (h : Holding) × AtWork W F table.now h pass.old × (h.region ≡ at.now.region)
        × KeepsRoots table.now.about h.copy h.base }
    ensures same { pass.new ≡ pass.old }
    ensures found { (h : Holding) → (view pass.old).root.held ≡ h ∷ []
        → MatchBool result ((f : ℕ) × Has (pair, f) h.base) ((f : ℕ) → Has (pair, f) h.base → ⊥) }
{
    let (region, from) = region_at(table, at.region);
    region.find_in(&mut Holder { table, pass, from }, at.home, at.quotient)
}

// The flags of a root that the held region has.
pub(crate) fn root_flags<const W: u32, const F: u32>(
    table: &PairTable<CompactRoot<W, F>, W, F>,
    pass: &mut Pass<CompactRoot<W, F>, W, F>,
    pair: u64,
    at: &Place,
) -> u64
    requires root { IsPacked table.now.about pair × (at.now ≡ place table.now.about pair) }
    requires work { (h : Holding) × AtWork W F table.now h pass.old × (h.region ≡ at.now.region)
        × KeepsRoots table.now.about h.copy h.base }
    ensures same { pass.new ≡ pass.old }
    ensures flags { (h : Holding) → (view pass.old).root.held ≡ h ∷ [] → (f : ℕ) → Has (pair, f) h.base
        → (result ≡ f) × (f < 2 ^ table.now.about.flags) }
{
    let (region, from) = region_at(table, at.region);
    region.flags_in(&mut Holder { table, pass, from }, at.home, at.quotient)
}

// Sets the flags of a root of the held region.
pub(crate) fn set_root_flags<const W: u32, const F: u32>(
    table: &PairTable<CompactRoot<W, F>, W, F>,
    pass: &mut Pass<CompactRoot<W, F>, W, F>,
    pair: u64,
    at: &Place,
    value: u64,
)
    requires root { IsPacked table.now.about pair × (at.now ≡ place table.now.about pair) }
    requires value { value < 2 ^ table.now.about.flags }
    requires work { (h : Holding) × AtWork W F table.now h pass.old × (h.region ≡ at.now.region)
        × KeepsRoots table.now.about h.copy h.base }
    ensures rewrites { Rewrites W F table.now pass.old pass.new }
    ensures flagged { (h : Holding) → (view pass.old).root.held ≡ h ∷ []
        → KeepsRoots table.now.about (held_words pass.new) (with_flag_set pair value h.base) }
{
    let (region, from) = region_at(table, at.region);
    let mut holder = Holder { table, pass, from };
    region.set_flags_in(&mut holder, at.home, at.quotient, value);
}
