//! A region's words as they are reached one at a time: by a reader without the lock, and by a holder.
ghost use Rattle.std.specs.Prelude.{◌≡◌};

use crate::root::{CompactRoot, Regions};
use crate::steps::{load_held, load_peeked, store_held};
use cleary_core::{ReadWords, WriteWords};
use pair_rule::{PairTable, PassOf};

// A reader of a region whose words begin at `from`.
#[derive(Drop)]
pub(crate) struct Reader<'a, 'b, const W: u32, const F: u32> {
    pub(crate) table: &'a PairTable<CompactRoot<W, F>, W, F>,
    pub(crate) pass: &'b mut PassOf<Regions>,
    pub(crate) from: usize,
}

impl<'a, 'b, const W: u32, const F: u32> ReadWords for Reader<'a, 'b, W, F> {
    ghost use Rattle.std.specs.Prelude.{refl};
    ghost use Rattle.std.proofs.Common.{◌∙◌, subst};
    ghost use Rattle.region_root.specs.Work.{CanRead, HasLoaded, ReadsOn};
    ghost use Rattle.region_root.specs.Reached.{reads_stay, reads_join, reads_keep, loaded_keep};

    ghost spans = { λ s count. CanRead W F s.table.now s.from s.pass.now count };

    ghost reached = { λ s i m. HasLoaded s.pass.now i m };

    ghost reads = { λ s t. (t.table.now ≡ s.table.now) × (t.from ≡ s.from)
        × (t.pass.ghost_name ≡ s.pass.ghost_name) × ReadsOn W F s.table.now s.pass.now t.pass.now };

    ghost stays = { λ x. (refl, refl, refl, reads_stay W F x.table.now x.pass.now) };

    ghost joins = { λ x y z p q. (
      q.0 ∙ p.0,
      q.1 ∙ p.1,
      q.2 ∙ p.2,
      reads_join W F x.table.now x.pass.now y.pass.now z.pass.now p.3
          (subst (λ s. ReadsOn W F s y.pass.now z.pass.now) p.0 q.3),
    ) };

    ghost keeps = { λ x y r. (
      reads_keep W F (x.table.now, x.from, x.pass.now) (y.table.now, y.from, y.pass.now) r.0 r.1 r.3,
      loaded_keep W F x.table.now x.pass.now y.pass.now r.3,
    ) };

    #[inline]
    fn get(&mut self, place: usize) -> u64 {
        load_peeked(self.table, self.pass, self.from, place)
    }
}

// The holder of a region whose words begin at `from`.
#[derive(Drop)]
pub(crate) struct Holder<'a, 'b, const W: u32, const F: u32> {
    pub(crate) table: &'a PairTable<CompactRoot<W, F>, W, F>,
    pub(crate) pass: &'b mut PassOf<Regions>,
    pub(crate) from: usize,
}

impl<'a, 'b, const W: u32, const F: u32> ReadWords for Holder<'a, 'b, W, F> {
    ghost use Rattle.std.specs.Prelude.{refl, slice_index};
    ghost use Rattle.std.proofs.Common.{◌∙◌, ap};
    ghost use Rattle.region_root.specs.Work.{CanWrite, held_words};
    ghost use Rattle.region_root.specs.Reached.{same_words, same_span};

    ghost spans = { λ s count. CanWrite W F s.table.now s.from s.pass.now count };

    ghost reached = { λ s i m. slice_index (held_words s.pass.now) i ≡ m };

    ghost reads = { λ s t. (t.table.now ≡ s.table.now) × (t.from ≡ s.from)
        × (t.pass.ghost_name ≡ s.pass.ghost_name) × (t.pass.now ≡ s.pass.now) };

    ghost stays = { λ x. (refl, refl, refl, refl) };

    ghost joins = { λ x y z p q. (q.0 ∙ p.0, q.1 ∙ p.1, q.2 ∙ p.2, q.3 ∙ p.3) };

    ghost keeps = { λ x y r. (
      same_span W F (x.table.now, x.from, x.pass.now) (y.table.now, y.from, y.pass.now) r.0 r.1 r.3,
      same_words x.pass.now y.pass.now r.3,
    ) };

    #[inline]
    fn get(&mut self, place: usize) -> u64 {
        load_held(self.table, self.pass, self.from, place)
    }
}

impl<'a, 'b, const W: u32, const F: u32> WriteWords for Holder<'a, 'b, W, F> {
    ghost use Rattle.std.specs.Prelude.{refl};
    ghost use Rattle.std.proofs.Common.{◌∙◌, ap, subst, sym};
    ghost use Rattle.region_root.specs.Work.{Rewrites, held_words};
    ghost use Rattle.region_root.specs.Reached.{rewrites_same, rewrites_join, words_long};

    ghost words = { λ s. held_words s.pass.now };

    ghost writes = { λ s t. (t.table.now ≡ s.table.now) × (t.from ≡ s.from)
        × (t.pass.ghost_name ≡ s.pass.ghost_name) × Rewrites W F s.table.now s.pass.now t.pass.now };

    ghost stands = { λ x count c. (words_long W F x.table.now x.from x.pass.now count c, λ i m h. h) };

    ghost same = { λ x y r. (
      ap held_words r.3,
      (r.0, r.1, r.2, rewrites_same W F x.table.now x.pass.now y.pass.now r.3),
    ) };

    ghost links = { λ x y z p q. (
      q.0 ∙ p.0,
      q.1 ∙ p.1,
      q.2 ∙ p.2,
      rewrites_join W F x.table.now x.pass.now y.pass.now z.pass.now p.3
          (subst (λ s. Rewrites W F s y.pass.now z.pass.now) p.0 q.3),
    ) };

    #[inline]
    fn put(&mut self, place: usize, value: u64) {
        store_held(self.table, self.pass, self.from, place, value);
    }
}
