//! The words of a region, as they are reached one at a time.

ghost use Rattle.std.specs.Prelude.{◌≡◌, ◌⊎◌, ℕ, ◌<◌, List, length, slice_index, slice_set};
ghost use Rattle.cleary_core.specs.Access.{StaysReached, AreReached};

/// The words of a region as they are reached, one at a time.
///
/// A reader without a lock may find two words at one place, if it asks twice, and what it found may be words
/// of no one moment. A contract over `reached` speaks of whatever words agree with all that was found.
pub trait ReadWords {
    /// There are so many words, and they can be reached. What else must hold for that, each `impl` says here.
    ghost spans: { Self → ℕ → Type 0 };

    /// This word was found at this place.
    ghost reached: { Self → ℕ → ℕ → Type 0 };

    /// The second comes from the first by reading alone. What else a reading leaves as it was, each `impl`
    /// says here.
    ghost reads: { Self → Self → Type 0 };

    /// The word at a place.
    fn get(&mut self, place: usize) -> u64
        requires { (count : ℕ) × spans self.old count × (place < count) }
        ensures found { reached self.new place result }
        ensures only { (i m : ℕ) → reached self.new i m → reached self.old i m ⊎ (i ≡ place) }
        ensures reads { reads self.old self.new };

    // To read nothing is to read, and to read on is.
    ghost stays: { (x : Self) → reads x x };

    ghost joins: { (x y z : Self) → reads x y → reads y z → reads x z };

    // Reading leaves how many words there are, and what was found stays found.
    ghost keeps: { (x y : Self) → reads x y → StaysReached (spans x) (spans y) (reached x) (reached y) };
}

/// The words of a region that are the caller's own to read and write, one at a time.
pub trait WriteWords: ReadWords {
    /// The words.
    ghost words: { Self → List ℕ };

    /// The second comes from the first by reading and writing words alone. What else these leave as it was,
    /// each `impl` says here.
    ghost writes: { Self → Self → Type 0 };

    /// Puts a word at a place that has another.
    fn put(&mut self, place: usize, value: u64)
        requires inside { (count : ℕ) × Self.spans self.old count × (place < count) }
        requires other { ¬ (slice_index (words self.old) place ≡ value) }
        ensures put { words self.new ≡ slice_set (words self.old) place value }
        ensures only { (i m : ℕ) → Self.reached self.new i m → Self.reached self.old i m ⊎ (i ≡ place) }
        ensures spans { (count : ℕ) → Self.spans self.old count → Self.spans self.new count }
        ensures writes { writes self.old self.new };

    // The words are so many, and what was found are they.
    ghost stands: { (x : Self) (count : ℕ) → Self.spans x count → AreReached (Self.reached x) (words x) count };

    // Reading leaves them.
    ghost same: { (x y : Self) → Self.reads x y → (words y ≡ words x) × writes x y };

    ghost links: { (x y z : Self) → writes x y → writes y z → writes x z };
}

// The words of a slice, to be read.
#[derive(Drop)]
pub(crate) struct SliceReader<'a> {
    pub(crate) words: &'a [u64],
}

impl<'a> ReadWords for SliceReader<'a> {
    ghost use Rattle.std.specs.Prelude.{refl};
    ghost use Rattle.std.proofs.Common.{◌∙◌, ap};

    ghost spans = { λ s count. length s.words.now ≡ count };

    ghost reached = { λ s i m. slice_index s.words.now i ≡ m };

    ghost reads = { λ s t. t ≡ s };

    ghost stays = { λ x. refl };

    ghost joins = { λ x y z p q. q ∙ p };

    ghost keeps = { λ x y r. (λ count e. ap (λ s. length s.words.now) r ∙ e, λ i m h. ap (λ s. slice_index s.words.now i) r ∙ h) };

    #[inline]
    fn get(&mut self, place: usize) -> u64 {
        self.words[place]
    }
}

// The words of a slice, to be read and written.
#[derive(Drop)]
pub(crate) struct SliceWriter<'a> {
    pub(crate) words: &'a mut [u64],
}

impl<'a> ReadWords for SliceWriter<'a> {
    ghost use Rattle.std.specs.Prelude.{refl};
    ghost use Rattle.std.proofs.Common.{◌∙◌, ap};

    ghost spans = { λ s count. length s.words.now ≡ count };

    ghost reached = { λ s i m. slice_index s.words.now i ≡ m };

    ghost reads = { λ s t. (t.words.now ≡ s.words.now) × (t.words.ghost_name ≡ s.words.ghost_name) };

    ghost stays = { λ x. (refl, refl) };

    ghost joins = { λ x y z p q. (q.0 ∙ p.0, q.1 ∙ p.1) };

    ghost keeps = { λ x y r. (λ count e. ap (λ w. length w) r.0 ∙ e, λ i m h. ap (λ w. slice_index w i) r.0 ∙ h) };

    #[inline]
    fn get(&mut self, place: usize) -> u64 {
        self.words[place]
    }
}

impl<'a> WriteWords for SliceWriter<'a> {
    ghost use Rattle.std.specs.Prelude.{refl};
    ghost use Rattle.std.proofs.Common.{◌∙◌};

    ghost words = { λ s. s.words.now };

    ghost writes = { λ s t. t.words.ghost_name ≡ s.words.ghost_name };

    ghost stands = { λ x count e. (e, λ i m h. h) };

    ghost same = { λ x y r. r };

    ghost links = { λ x y z p q. q ∙ p };

    #[inline]
    fn put(&mut self, place: usize, value: u64) {
        self.words[place] = value;
    }
}
