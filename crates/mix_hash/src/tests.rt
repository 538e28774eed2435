//! Hashes and places computed outside, from the five steps alone.

use super::{
    FIRST_MULTIPLIER, Place, SECOND_MULTIPLIER, fold, mix, mix_is_one_to_one, scale, split, unmix,
    unsplit,
};

// A packed pair of two parts of 16 bits, and what each of the five steps makes of it.
static STEPS: [[u32; 6]; 6] = [
    [
        0x0000_0000,
        0x0000_0000,
        0x0000_0000,
        0x0000_0000,
        0x0000_0000,
        0x0000_0000,
    ],
    [
        0x0000_0001,
        0x0000_0001,
        0x7F4A_7C15,
        0x7F4A_035F,
        0x961C_6AA7,
        0x961C_FCBB,
    ],
    [
        0x0001_0000,
        0x0001_0001,
        0xFB5F_7C15,
        0xFB5F_874A,
        0xB1F5_F67A,
        0xB1F5_478F,
    ],
    [
        0x0003_0005,
        0x0003_0006,
        0x6FFD_E87E,
        0x6FFD_8783,
        0xBD1B_1CAB,
        0xBD1B_A1B0,
    ],
    [
        0x0005_0003,
        0x0005_0006,
        0x6827_E87E,
        0x6827_8059,
        0xA59F_5D51,
        0xA59F_F8CE,
    ],
    [
        0xFFFF_FFFF,
        0xFFFF_0000,
        0x83EB_0000,
        0x83EB_83EB,
        0x337F_8BD3,
        0x337F_B8AC,
    ],
];

fn steps_are(row: [u32; 6]) -> bool {
    let [packed, first, second, third, fourth, hash] = row;
    fold::<16>(packed as u64) == first as u64
        && scale::<16>(first as u64, FIRST_MULTIPLIER) == second as u64
        && fold::<16>(second as u64) == third as u64
        && scale::<16>(third as u64, SECOND_MULTIPLIER) == fourth as u64
        && mix::<16>(packed as u64) == hash as u64
        && unmix::<16>(hash as u64) == packed as u64
}

// Packed pairs of two parts of 28 bits, and of 31, with their hashes.
static WIDER: [[u64; 2]; 4] = [
    [0x0000_0000_0000_0001, 0x0003_EFFC_90A5_693B],
    [0x0000_0000_3000_0005, 0x00B6_5305_CC39_286C],
    [0x00FF_FFFF_FFFF_FFFF, 0x00F3_6D86_4C4F_53B7],
    [0x0012_3456_789A_BCDE, 0x0057_5A2C_AF0B_5F0F],
];

static WIDEST: [[u64; 2]; 4] = [
    [0x0000_0000_0000_0001, 0x0110_1C0B_374E_FC79],
    [0x0000_0001_8000_0005, 0x02F6_89E5_04FC_3F54],
    [0x3FFF_FFFF_FFFF_FFFF, 0x1C78_9AB2_AB88_BEB6],
    [0x1234_5678_9ABC_DEF0, 0x09C9_16E8_5136_B953],
];

fn hashes_28(row: [u64; 2]) -> bool {
    let [packed, hash] = row;
    if packed >= 0x0100_0000_0000_0000 || hash >= 0x0100_0000_0000_0000 {
        return false;
    }
    mix::<28>(packed) == hash && unmix::<28>(hash) == packed
}

fn hashes_31(row: [u64; 2]) -> bool {
    let [packed, hash] = row;
    if packed >= 0x4000_0000_0000_0000 || hash >= 0x4000_0000_0000_0000 {
        return false;
    }
    mix::<31>(packed) == hash && unmix::<31>(hash) == packed
}

// Whether a place has this region, home and quotient.
fn is_place(place: &Place, region: u64, home: u64, quotient: u64) -> bool {
    place.region == region && place.home == home && place.quotient == quotient
}

#[test]
fn hashes_and_places(rt: HostRuntime) {
    mix_is_one_to_one::<16>();
    for i in 0..STEPS.len() {
        assert!(rt; steps_are(STEPS[i]), "steps {i}");
    }
    for i in 0..WIDER.len() {
        assert!(rt; hashes_28(WIDER[i]) && hashes_31(WIDEST[i]), "wider {i}");
    }
    let small = split::<16>(0xBD1B_A1B0, 6, 6);
    assert!(rt; is_place(&small, 0, 48, 49_573_510));
    assert!(rt; unsplit::<16>(&small, 6, 6) == 0xBD1B_A1B0);
    let large = split::<16>(0xBD1B_A1B0, 24, 12);
    assert!(rt; is_place(&large, 442, 432, 189));
    assert!(rt; unsplit::<16>(&large, 24, 12) == 0xBD1B_A1B0);
    let wider = split::<28>(0x00B6_5305_CC39_286C, 24, 12);
    assert!(rt; is_place(&wider, 914, 2156, 3_058_894_284));
    assert!(rt; unsplit::<28>(&wider, 24, 12) == 0x00B6_5305_CC39_286C);
    let widest = split::<31>(0x02F6_89E5_04FC_3F54, 20, 10);
    assert!(rt; is_place(&widest, 783, 852, 203_618_668_623));
    assert!(rt; unsplit::<31>(&widest, 20, 10) == 0x02F6_89E5_04FC_3F54);
}
