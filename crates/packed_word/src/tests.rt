//! Words and fields computed apart from the program.

ghost use Rattle.std.specs.Prelude.{◌^◌, ◌<◌};
ghost use Rattle.packed_word.specs.Word.{IsLayout};

use super::{Bits, Layout};
use crate::words::ones;

// Whether the word of the pair is this one, and has the pair's parts, also with each of its flags set.
fn packs<const W: u32, const F: u32>(left: u64, right: u64, word: u64) -> bool
    requires layout { IsLayout W F }
    requires left { left < 2 ^ W }
    requires right { right < 2 ^ W }
{
    let mut flagged = word;
    for b in 0..F {
        flagged |= Layout::<W, F>::flag_mask(b);
    }
    Layout::<W, F>::pack(left, right) == word
        && Layout::<W, F>::flags(word) == 0
        && Layout::<W, F>::flags(flagged) == u64::MAX >> (64 - F)
        && reads::<W, F>(left, right, word)
        && reads::<W, F>(left, right, flagged)
}

// Whether the word has this pair, and one bit less of it is another word.
fn reads<const W: u32, const F: u32>(left: u64, right: u64, word: u64) -> bool
    requires layout { IsLayout W F }
    requires left { left < 2 ^ W }
    requires right { right < 2 ^ W }
{
    Layout::<W, F>::left(word) == left
        && Layout::<W, F>::right(word) == right
        && Layout::<W, F>::is_present(word)
        && Layout::<W, F>::same_pair(word, left, right)
        && !Layout::<W, F>::same_pair(word ^ 1, left, right)
        && !Layout::<W, F>::same_pair(word ^ 1 << 63, left, right)
}

// The words in which fields are read and put.
const WORDS: [u64; 3] = [0xD6645FA9E8A8529F, 0x42650644781F9C58, 0x3BFD1D338D0038EC];

// Of each row: the place, the width, what is there, what is put there, and the words then.
static FIELDS: [(u64, u32, u64, u64, [u64; 3]); 7] = [
    (
        0,
        64,
        0xD6645FA9E8A8529F,
        0xFEE2947631162427,
        [0xFEE2947631162427, 0x42650644781F9C58, 0x3BFD1D338D0038EC],
    ),
    (
        1,
        63,
        0x6B322FD4F454294F,
        0x6B112B3A8A7D43B5,
        [0xD622567514FA876B, 0x42650644781F9C58, 0x3BFD1D338D0038EC],
    ),
    (
        3,
        64,
        0x1ACC8BF53D150A53,
        0x79F248B08CB4A0D7,
        [0xCF92458465A506BF, 0x42650644781F9C5B, 0x3BFD1D338D0038EC],
    ),
    (
        60,
        8,
        0x8D,
        0x65,
        [0x56645FA9E8A8529F, 0x42650644781F9C56, 0x3BFD1D338D0038EC],
    ),
    (
        64,
        1,
        0,
        1,
        [0xD6645FA9E8A8529F, 0x42650644781F9C59, 0x3BFD1D338D0038EC],
    ),
    (
        100,
        60,
        0x8D0038EC4265064,
        0xA2863A73B5F3D86,
        [0xD6645FA9E8A8529F, 0xB5F3D864781F9C58, 0x3BFD1D33A2863A73],
    ),
    (
        191,
        1,
        0,
        1,
        [0xD6645FA9E8A8529F, 0x42650644781F9C58, 0xBBFD1D338D0038EC],
    ),
];

// Whether a row's field is read and put as it says.
fn changes(at: u64, width: u32, had: u64, value: u64, after: [u64; 3]) -> bool {
    if 1 <= width && width <= 64 && at <= 191 && at + u64::from(width) <= 192 {
        if value <= ones(width) {
            let mut words = WORDS;
            Bits::put(&mut words, at, width, value);
            return Bits::get(&WORDS, at, width) == had && words.as_slice() == after.as_slice();
        }
    }
    false
}

#[test]
fn words_and_fields(rt: HostRuntime) {
    assert!(rt; packs::<16, 8>(3, 5, 0x8000000000030005));
    assert!(rt; packs::<16, 8>(65535, 0, 0x80000000FFFF0000));
    assert!(rt; packs::<16, 8>(31190, 17094, 0x8000000079D642C6));
    assert!(rt; packs::<28, 7>(3, 5, 0x8000000030000005));
    assert!(rt; packs::<28, 7>(0, 268435455, 0x800000000FFFFFFF));
    assert!(rt; packs::<28, 7>(198618164, 254505555, 0x80BD6AC34F2B7253));
    assert!(rt; packs::<31, 1>(3, 5, 0x8000000180000005));
    assert!(rt; packs::<31, 1>(2147483647, 2147483647, 0xBFFFFFFFFFFFFFFF));
    assert!(rt; packs::<31, 1>(281444313, 56556069, 0x88633FEC835EFA25));
    assert!(rt; Layout::<16, 8>::flag_mask(0) == 0x100000000);
    assert!(rt; Layout::<28, 7>::flag_mask(6) == 0x4000000000000000);
    assert!(rt; !Layout::<28, 7>::is_present(0));
    let mut pair = [0u64; 2];
    Bits::put(&mut pair, 60, 8, 255);
    assert!(rt; pair.as_slice() == [0xF000000000000000, 0xF].as_slice());
    for i in 0..FIELDS.len() {
        let (at, width, had, value, after) = FIELDS[i];
        assert!(rt; changes(at, width, had, value, after), "row {i}");
    }
}
