//! The words of a region of 64 cells of 37 bits, which remember the places that were reached.

ghost use Rattle.std.specs.Prelude.{◌≡◌, ◌<◌, ℕ, List, length, slice_index};
ghost use Rattle.cleary_core.specs.Map.{Key, KeepsMap};
ghost use Rattle.cleary_core.specs.Cells.{sizes_of};

use crate::{ReadWords, WriteWords, laws};

#[derive(Drop)]
pub(crate) struct Recorder {
    pub(crate) words: [u64; 37],
    reached: u64,
    put: u64,
}

impl Recorder {
    pub(crate) fn new() -> Recorder {
        Recorder {
            words: [0; 37],
            reached: 0,
            put: 0,
        }
    }

    pub(crate) fn forget(&mut self)
        ensures { self.new.words ≡ self.old.words }
    {
        self.reached = 0;
        self.put = 0;
    }

    // The places that were read, a bit a place.
    pub(crate) fn reached(&self) -> u64 {
        self.reached
    }

    // The places that were written, a bit a place.
    pub(crate) fn put(&self) -> u64 {
        self.put
    }
}

impl ReadWords for Recorder {
    ghost use Rattle.std.specs.Prelude.{◌≡◌, length, slice_index, refl};
    ghost use Rattle.std.proofs.Common.{◌∙◌, ap};

    ghost spans = { λ s count. length s.words ≡ count };

    ghost reached = { λ s i m. slice_index s.words i ≡ m };

    ghost reads = { λ s t. t.words ≡ s.words };

    ghost stays = { λ x. refl };

    ghost joins = { λ x y z p q. q ∙ p };

    ghost keeps = { λ x y r. (λ count e. ap (λ w. length w) r ∙ e, λ i m h. ap (λ w. slice_index w i) r ∙ h) };

    fn get(&mut self, place: usize) -> u64 {
        self.reached |= 1 << place;
        self.words[place]
    }
}

impl WriteWords for Recorder {
    ghost use Rattle.std.specs.Prelude.{◌≡◌, length, refl};

    ghost words = { λ s. s.words };

    ghost writes = { λ s t. Unit {0} };

    ghost stands = { λ x count e. (e, λ i m h. h) };

    ghost same = { λ x y r. (r, tt) };

    ghost links = { λ x y z p q. tt };

    fn put(&mut self, place: usize, value: u64) {
        self.put |= 1 << place;
        self.words[place] = value;
    }
}
