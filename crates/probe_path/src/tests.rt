//! Buckets computed outside, from the definition alone.

use super::Path;

// The buckets of a path of three lines, line by line.
static THREE_LINES: [[u64; 8]; 3] = [
    [59, 60, 61, 62, 63, 56, 57, 58],
    [35, 36, 37, 38, 39, 32, 33, 34],
    [11, 12, 13, 14, 15, 8, 9, 10],
];

// Whether the path's steps have these buckets, step by step.
fn steps_along(path: &Path<16>) -> bool {
    let mut step = 0;
    for i in 0..THREE_LINES.len() {
        for j in 0..8 {
            if step >= path.len() || path.bucket(step) != THREE_LINES[i][j] {
                return false;
            }
            step += 1;
        }
    }
    true
}

// Whether a walk along the path meets these buckets, line by line, and no others.
fn walks_along(path: &Path<16>) -> bool {
    let mut walk = path.walk();
    for i in 0..THREE_LINES.len() {
        let line = THREE_LINES[i];
        if walk.is_done() || walk.line() != line[0] & !7 {
            return false;
        }
        for j in 0..8 {
            if walk.bucket(j) != line[j as usize] {
                return false;
            }
        }
        walk.advance();
    }
    walk.is_done()
}

// The exponent of a table, how many lines are walked at most, and how many steps the path has.
static LENGTHS: [(u32, u64, u64); 5] = [
    (6, 1, 8),
    (6, 8, 64),
    (6, 9, 64),
    (3, 4_194_304, 8),
    (25, 4_194_304, 33_554_432),
];

fn has_length(row: (u32, u64, u64)) -> bool {
    let (d, lines, steps) = row;
    if d < 3 || d > 25 || lines < 1 {
        return false;
    }
    Path::<16>::new(1, d, lines).len() == steps
}

// Whether the steps have these buckets: pairs of a step and its bucket.
fn has_buckets<const W: u32>(path: &Path<W>, rows: &[(u64, u64)]) -> bool {
    for (step, bucket) in rows {
        if *step >= path.len() || path.bucket(*step) != *bucket {
            return false;
        }
    }
    true
}

static OF_28_BITS: [(u64, u64); 6] = [
    (0, 3_745_900),
    (7, 3_745_899),
    (8, 13_719_252),
    (16, 23_692_604),
    (8005, 11_431_593),
    (33_554_431, 27_326_979),
];

static OF_31_BITS: [(u64, u64); 6] = [
    (0, 16_531_284),
    (7, 16_531_283),
    (8, 21_718_908),
    (16, 26_906_532),
    (8005, 3_218_321),
    (33_554_431, 11_343_659),
];

static OF_1_BIT: [(u64, u64); 5] = [
    (0, 2),
    (7, 1),
    (8, 10),
    (8005, 8007),
    (33_554_431, 33_554_425),
];

static OF_16_BITS: [(u64, u64); 3] = [(0, 4), (1, 5), (7, 3)];

#[test]
fn paths_and_walks(rt: HostRuntime) {
    let path = Path::<16>::new(1, 6, 3);
    assert!(rt; path.pair() == 1);
    assert!(rt; path.len() == 24);
    assert!(rt; steps_along(&path));
    assert!(rt; walks_along(&path));
    for i in 0..LENGTHS.len() {
        assert!(rt; has_length(LENGTHS[i]), "length {i}");
    }
    assert!(rt; has_buckets(&Path::<28>::new(0x3000_0005, 25, 4_194_304), &OF_28_BITS));
    assert!(rt; has_buckets(&Path::<31>::new(0x1_8000_0005, 25, 4_194_304), &OF_31_BITS));
    assert!(rt; has_buckets(&Path::<1>::new(3, 25, 4_194_304), &OF_1_BIT));
    assert!(rt; has_buckets(&Path::<16>::new(0xFFFF_FFFF, 3, 1), &OF_16_BITS));
}
