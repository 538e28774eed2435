//! The word of a bucket: a pair, its flags, and the present bit.

ghost use Rattle.std.specs.Prelude.{◌≡◌, ℕ, ◌+◌, ◌-◌, ◌*◌, ◌/◌, ◌%◌, ◌^◌, ◌<◌, ◌≤◌, ◌↔◌, IsTrue};
ghost use Rattle.std.specs.Int.{bit_at};
ghost use Rattle.packed_word.specs.Word.{IsLayout, right_of, left_of, flag_bits, IsPresent, pair_of};

// The present bit.
const PRESENT: u64 = 1 << 63;

/// A pair of two parts of `W` bits in one word, as the buckets of a table of pairs have it: from the least
/// bit up the right part, the left part and `F` flags, and at bit 63 the present bit. All other bits are 0,
/// and an empty bucket is the word 0. A layout has a `W` from 1 to 31 and an `F` of at least 1 with `2W + F`
/// at most 63, as `(16, 8)`, `(28, 7)` and `(31, 1)`.
pub struct Layout<const W: u32, const F: u32>;

// The number whose bits below `width` are set.
#[inline]
pub(crate) fn ones(width: u32) -> u64
    requires { (1 ≤ width) × (width ≤ 64) }
    ensures { result ≡ 2 ^ width - 1 }
{
    u64::MAX >> (64 - width)
}

impl<const W: u32, const F: u32> Layout<W, F> {
    /// The word of a pair of parts below `2^W`: present, with no flag set.
    #[inline]
    pub fn pack(left: u64, right: u64) -> u64
        requires layout { IsLayout W F }
        requires left { left < 2 ^ W }
        requires right { right < 2 ^ W }
        ensures number { result ≡ 2 ^ 63 + pair_of W left right }
        ensures left { left_of W result ≡ left }
        ensures right { right_of W result ≡ right }
        ensures flags { flag_bits W F result ≡ 0 }
        ensures present { IsPresent result }
    {
        left << W | right | PRESENT
    }

    /// The left part, below `2^W`.
    #[inline]
    pub fn left(word: u64) -> u64
        requires { IsLayout W F }
        ensures { result ≡ left_of W word }
    {
        word >> W & ones(W)
    }

    /// The right part, below `2^W`.
    #[inline]
    pub fn right(word: u64) -> u64
        requires { IsLayout W F }
        ensures { result ≡ right_of W word }
    {
        word & ones(W)
    }

    /// Whether the word has a pair.
    #[inline]
    pub fn is_present(word: u64) -> bool
        ensures { IsTrue result ↔ IsPresent word }
    {
        word >> 63 == 1
    }

    /// Whether the word has this pair, of parts below `2^W`, whatever its other bits are.
    #[inline]
    pub fn same_pair(word: u64, left: u64, right: u64) -> bool
        requires layout { IsLayout W F }
        requires left { left < 2 ^ W }
        requires right { right < 2 ^ W }
        ensures { IsTrue result ↔ IsPresent word × (left_of W word ≡ left) × (right_of W word ≡ right) }
    {
        Self::without_flags(word) == Self::pack(left, right)
    }

    /// The word whose only set bit is that of flag `b`, which is below `F`. `word | flag_mask(b)` sets the
    /// flag of a word, and `word & !flag_mask(b)` clears it.
    #[inline]
    pub fn flag_mask(b: u32) -> u64
        requires layout { IsLayout W F }
        requires flag { b < F }
        ensures { result ≡ 2 ^ (2 * W + b) }
    {
        1 << (2 * W + b)
    }

    /// The flags as a number below `2^F`, whose bit `b` is flag `b`.
    #[inline]
    pub fn flags(word: u64) -> u64
        requires { IsLayout W F }
        ensures { result ≡ flag_bits W F word }
    {
        word >> (2 * W) & ones(F)
    }

    /// The word's present bit and pair, with no flag set.
    #[inline]
    pub fn without_flags(word: u64) -> u64
        requires { IsLayout W F }
        ensures { result ≡ bit_at word 63 * 2 ^ 63 + pair_of W (left_of W word) (right_of W word) }
    {
        word & PRESENT | word & ones(2 * W)
    }
}
