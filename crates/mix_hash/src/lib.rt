//! An invertible hash of packed pairs, and the cut of a hash into a region, a home and a quotient.
//!
//! A pair of two parts of `W` bits is packed into one number of `2 * W` bits. `mix` maps these numbers one to
//! one onto themselves, so a table may keep a part of the hash in place of the pair (Cleary 1984: the home is
//! told by where an entry stands, and only the quotient is stored).
#![tactic(auto)]

ghost use Rattle.std.specs.Prelude.{◌≡◌, ℕ, ◌+◌, ◌-◌, ◌*◌, ◌/◌, ◌%◌, ◌^◌, ◌<◌, ◌≤◌};
ghost use Rattle.mix_hash.specs.Hash.{folded, scaled, mix_of, IsOneToOneBelow, IsOntoBelow};
ghost use Rattle.mix_hash.specs.Places.{place_of, hash_of, IsPlaceInRange};

const FIRST_MULTIPLIER: u64 = 0x9E37_79B9_7F4A_7C15;

const SECOND_MULTIPLIER: u64 = 0xBF58_476D_1CE4_E5B9;

// Each times its multiplier is 1 modulo 2 ^ 64.
const FIRST_INVERSE: u64 = 0xF1DE_83E1_9937_733D;

const SECOND_INVERSE: u64 = 0x96DE_1B17_3F11_9089;

// The lowest `count` bits.
#[inline]
fn low_bits(x: u64, count: u32) -> u64
    requires { count < 64 }
    ensures { result ≡ x % 2 ^ count }
{
    x & ((1 << count) - 1)
}

// The upper half of `2 * W` bits xored onto the lower half.
#[inline]
fn fold<const W: u32>(x: u64) -> u64
    requires { (1 ≤ W) × (W ≤ 31) }
    ensures { result ≡ folded W x }
{
    x ^ (x >> W)
}

// The product of `2 * W` bits.
#[inline]
fn scale<const W: u32>(x: u64, multiplier: u64) -> u64
    requires { (1 ≤ W) × (W ≤ 31) }
    ensures { result ≡ scaled W multiplier x }
{
    low_bits(x.wrapping_mul(multiplier), 2 * W)
}

/// The hash of a packed pair whose parts have `W` bits each, `1 <= W <= 31`: a number of `2 * W` bits, as `x`
/// is.
///
/// No two numbers have one hash, and `unmix` goes back. It costs two products, three shifts, three xors, and
/// a mask after each product, since the shift that follows must see no bit from above.
#[inline]
pub fn mix<const W: u32>(x: u64) -> u64
    requires width { (1 ≤ W) × (W ≤ 31) }
    requires fits { x < 2 ^ (2 * W) }
    ensures steps { result ≡ mix_of W x }
    ensures fits { result < 2 ^ (2 * W) }
{
    let x = fold::<W>(x);
    let x = fold::<W>(scale::<W>(x, FIRST_MULTIPLIER));
    fold::<W>(scale::<W>(x, SECOND_MULTIPLIER))
}

/// The number of `2 * W` bits whose hash is `h`, for `1 <= W <= 31` and `h` of `2 * W` bits.
#[inline]
pub fn unmix<const W: u32>(h: u64) -> u64
    requires width { (1 ≤ W) × (W ≤ 31) }
    requires fits { h < 2 ^ (2 * W) }
    ensures hashes_to { mix_of W result ≡ h }
    ensures fits { result < 2 ^ (2 * W) }

    // So what was hashed comes back.
    ensures only { (x : ℕ) → x < 2 ^ (2 * W) → mix_of W x ≡ h → result ≡ x }
{
    let x = fold::<W>(h);
    let x = fold::<W>(scale::<W>(x, SECOND_INVERSE));
    fold::<W>(scale::<W>(x, FIRST_INVERSE))
}

/// The law of the hash, for callers' proofs: it maps the numbers of `2 * W` bits one to one onto themselves.
/// Running it does nothing.
#[inline]
pub fn mix_is_one_to_one<const W: u32>()
    requires { (1 ≤ W) × (W ≤ 31) }
    ensures one_to_one { IsOneToOneBelow (2 ^ (2 * W)) (mix_of W) }
    ensures onto { IsOntoBelow (2 ^ (2 * W)) (mix_of W) }
{}

/// Where a hash of `2 * W` bits belongs in a table of `2^r` homes, cut into regions of `2^s` homes.
#[derive(Clone, Copy, Debug, PartialEq, Eq)]
pub struct Place {
    /// The region, below `2^(r - s)`.
    pub region: u64,
    /// The home within the region, below `2^s`.
    pub home: u64,
    /// What the region and the home leave of the hash, below `2^(2 * W - r)`.
    pub quotient: u64,
}

/// Cuts a hash of `2 * W` bits, for `6 <= s <= r <= 24` and `r <= 2 * W`. `unsplit` goes back.
#[inline]
pub fn split<const W: u32>(h: u64, r: u32, s: u32) -> Place
    requires width { (1 ≤ W) × (W ≤ 31) }
    requires fits { h < 2 ^ (2 * W) }
    requires region { (6 ≤ s) × (s ≤ r) }
    requires table { (r ≤ 24) × (r ≤ 2 * W) }
    ensures place { result ≡ place_of r s h }
    ensures parts { hash_of r s result ≡ h }
    ensures in_range { IsPlaceInRange W r s result }
{
    let global_home = low_bits(h, r);
    let (region, home) = (global_home >> s, low_bits(global_home, s));
    let quotient = h >> r;
    Place {
        region,
        home,
        quotient,
    }
}

/// The hash of `2 * W` bits that has this place, for `6 <= s <= r <= 24`, `r <= 2 * W` and parts in range.
#[inline]
pub fn unsplit<const W: u32>(place: &Place, r: u32, s: u32) -> u64
    requires width { (1 ≤ W) × (W ≤ 31) }
    requires in_range { IsPlaceInRange W r s place.now }
    requires region { (6 ≤ s) × (s ≤ r) }
    requires table { (r ≤ 24) × (r ≤ 2 * W) }
    ensures parts { result ≡ hash_of r s place.now }
    ensures splits_to { place_of r s result ≡ place.now }
    ensures fits { result < 2 ^ (2 * W) }

    // So what was split comes back.
    ensures only { (h : ℕ) → place_of r s h ≡ place.now → result ≡ h }
{
    (place.quotient << r) | (place.region << s) | place.home
}

#[cfg(test)]
mod tests;
