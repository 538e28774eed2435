//! Bit fields in words: a field may begin in one word and end in the next.

ghost use Rattle.std.specs.Prelude.{◌≡◌, ℕ, ◌+◌, ◌-◌, ◌*◌, ◌^◌, ◌<◌, ◌≤◌, length};
ghost use Rattle.std.specs.Int.{bit_at};
ghost use Rattle.packed_word.specs.Slice.{bit, field, IsApart};

use crate::words::ones;

/// Bit fields in a slice of words. The bits are counted through the slice, 64 a word, and a field is the
/// number of the bits from its place on, the first of them its least.
pub struct Bits;

// The word with `width` bits from `offset` on replaced by the value's.
#[inline]
fn splice(word: u64, offset: u32, width: u32, value: u64) -> u64
    requires width { (1 ≤ width) × (offset + width ≤ 64) }
    requires value { value < 2 ^ width }
    ensures inside { (i : ℕ) → i < width → bit_at result (offset + i) ≡ bit_at value i }
    ensures before { (i : ℕ) → i < offset → bit_at result i ≡ bit_at word i }
    ensures after { (i : ℕ) → offset + width ≤ i → i < 64 → bit_at result i ≡ bit_at word i }
{
    let hole = ones(width) << offset;
    (word & !hole) | (value << offset)
}

impl Bits {
    /// The field of `width` bits, from 1 to 64, from bit `at` on. It lies within the slice.
    #[inline]
    pub fn get(words: &[u64], at: u64, width: u32) -> u64
        requires width { (1 ≤ width) × (width ≤ 64) }
        requires inside { at + width ≤ 64 * length words.now }
        ensures { result ≡ field words.now at width }
    {
        let word = (at / 64) as usize;
        let offset = (at % 64) as u32;
        let low = words[word] >> offset;
        if offset + width <= 64 {
            low & ones(width)
        } else {
            let have = 64 - offset;
            let high = words[word + 1] & ones(width - have);
            (high << have) | low
        }
    }

    /// Writes the value, which fits `width` bits, into the field of `width` bits, from 1 to 64, from bit `at`
    /// on, which lies within the slice. All other bits stay.
    #[inline]
    pub fn put(words: &mut [u64], at: u64, width: u32, value: u64)
        requires width { (1 ≤ width) × (width ≤ 64) }
        requires inside { at + width ≤ 64 * length words.old }
        requires value { value < 2 ^ width }
        ensures value { field words.new at width ≡ value }
        ensures before { (t : ℕ) → t < at → bit words.new t ≡ bit words.old t }
        ensures after { (t : ℕ) → at + width ≤ t → bit words.new t ≡ bit words.old t }
        ensures apart { (other other_width : ℕ) → IsApart at width other other_width
            → field words.new other other_width ≡ field words.old other other_width }
    {
        let word = (at / 64) as usize;
        let offset = (at % 64) as u32;
        if offset + width <= 64 {
            words[word] = splice(words[word], offset, width, value);
        } else {
            let have = 64 - offset;
            words[word] = splice(words[word], offset, have, value & ones(have));
            words[word + 1] = splice(words[word + 1], 0, width - have, value >> have);
        }
    }
}
