//! Regions of three profiles on worked cases, also over words that remember what was reached.

ghost use Rattle.std.specs.Prelude.{◌≡◌, ℕ, ◌≤◌, ◌<◌, ◌^◌, List, length, slice_index};
ghost use Rattle.cleary_core.specs.Cells.{sizes_of, word_count};
ghost use Rattle.cleary_core.specs.Map.{Key, KeepsMap};

mod recorder;

use super::{Region, RegionFull, laws};
use recorder::Recorder;
use std::process::Abort;
use std::test::Fail;

// Words that are all 0 keep a map.
fn keeps_nothing<const W: u32, const F: u32>(_region: &Region<W, F>, _words: &[u64])
    requires { (i : ℕ) → slice_index _words.now i ≡ 0 }
    ensures { (keys : List Key) × KeepsMap _region.now _words.now keys }
{
    laws::zeros_keep_nothing();
}

// Makes the words all 0.
fn clear<const W: u32, const F: u32>(region: &Region<W, F>, words: &mut [u64])
    ensures kept { (keys : List Key) × KeepsMap region.now words.new keys }
    ensures length { length words.new ≡ length words.old }
{
    for word in words.iter_mut() {
        *word = 0;
    }
    keeps_nothing(region, words);
}

// The marks of the first 64 cells, a bit a cell.
#[derive(Drop)]
struct Marks {
    occupied: u64,
    virgin: u64,
    change: u64,
}

fn marks_of<const W: u32, const F: u32>(region: &Region<W, F>, words: &[u64]) -> Marks
    requires words { length words.now ≡ word_count region.now }
    requires cells { 64 ≤ region.now.cells }
{
    let mut marks = Marks {
        occupied: 0,
        virgin: 0,
        change: 0,
    };
    for i in 0..64u64 {
        let cell = region.cell(words, i);
        marks.occupied |= u64::from(cell.occupied) << i;
        marks.virgin |= u64::from(cell.virgin) << i;
        marks.change |= u64::from(cell.change) << i;
    }
    marks
}

// Two keys of the last home: the one that comes later pushes the run down, over the region's end nothing
// goes.
fn keeps_two_keys<const W: u32, const F: u32>(
    rt: &impl Abort,
    region: &Region<W, F>,
    words: &mut [u64],
)
    requires words { length words.old ≡ word_count region.now }
    requires sizes { (region.now.cells ≡ 64) × (64 ≤ 2 ^ region.now.quotient) × (2 ≤ 2 ^ region.now.flags) }
{
    clear(region, words);
    assert!(rt; matches!(region.insert(words, 63, 1), Ok(true)));
    assert!(rt; matches!(region.insert(words, 63, 2), Ok(true)));
    let marks = marks_of(region, words);
    assert!(rt; marks.occupied == 0b11 << 62);
    assert!(rt; marks.virgin == 1 << 63);
    assert!(rt; marks.change == 1 << 63);
    assert!(rt; region.count(words) == 2);
    assert!(rt; matches!(region.insert(words, 63, 1), Ok(false)));
    assert!(rt; region.find(words, 63, 1));
    assert!(rt; !region.find(words, 62, 1));
}

fn expect_key<const W: u32, const F: u32>(
    rt: &impl Abort,
    region: &Region<W, F>,
    words: &[u64],
    home: u64,
    quotient: u64,
    flags: u64,
)
    requires words { length words.now ≡ word_count region.now }
    requires home { home < region.now.cells }
{
    assert!(rt; region.find(words, home, quotient));
    assert!(rt; region.flags(words, home, quotient) == flags);
}

fn expect_no_key<const W: u32, const F: u32>(
    rt: &impl Abort,
    region: &Region<W, F>,
    words: &[u64],
    home: u64,
    quotient: u64,
)
    requires words { length words.now ≡ word_count region.now }
    requires home { home < region.now.cells }
{
    assert!(rt; !region.find(words, home, quotient));
}

// Two groups in one run, and flags that move with their key.
fn keeps_three_keys<const W: u32, const F: u32>(
    rt: &impl Abort,
    region: &Region<W, F>,
    words: &mut [u64],
)
    requires words { length words.old ≡ word_count region.now }
    requires sizes { (region.now.cells ≡ 64) × (64 ≤ 2 ^ region.now.quotient) × (2 ≤ 2 ^ region.now.flags) }
{
    clear(region, words);
    assert!(rt; matches!(region.insert(words, 10, 1), Ok(true)));
    region.set_flags(words, 10, 1, 1);
    assert!(rt; matches!(region.insert(words, 10, 2), Ok(true)));
    assert!(rt; matches!(region.insert(words, 11, 3), Ok(true)));
    let marks = marks_of(region, words);
    assert!(rt; marks.occupied == 0b111 << 9 || marks.occupied == 0b111 << 10);
    assert!(rt; marks.virgin == 0b11 << 10);
    assert!(rt; marks.change.count_ones() == 2);
    assert!(rt; region.count(words) == 3);
    expect_key(rt, region, words, 10, 1, 1);
    expect_key(rt, region, words, 10, 2, 0);
    expect_key(rt, region, words, 11, 3, 0);
    expect_no_key(rt, region, words, 10, 3);
    expect_no_key(rt, region, words, 11, 1);
    expect_no_key(rt, region, words, 11, 2);
    expect_no_key(rt, region, words, 9, 1);
    expect_no_key(rt, region, words, 12, 3);
}

// As many keys of one home as there are cells, and then one of another.
fn fills_up<const W: u32, const F: u32>(rt: &impl Abort, region: &Region<W, F>, words: &mut [u64])
    requires words { length words.old ≡ word_count region.now }
    requires sizes { (region.now.cells ≡ 64) × (64 ≤ 2 ^ region.now.quotient) × (2 ≤ 2 ^ region.now.flags) }
{
    clear(region, words);
    for quotient in 0..64u64 {
        assert!(rt; matches!(region.insert(words, 0, quotient), Ok(true)));
    }
    for quotient in 0..64u64 {
        assert!(rt; region.find(words, 0, quotient));
    }
    assert!(rt; matches!(region.insert(words, 63, 0), Err(RegionFull)));
    assert!(rt; matches!(region.insert(words, 0, 63), Ok(false)));
    assert!(rt; region.count(words) == 64);
}

// Adds a key of home 10 or 11, where only such keys are. Cells of 37 bits: cells 9 to 13 lie in words 5 to 8,
// cells 10 to 12 in words 5 to 7.
fn adds_nearby(
    rt: &impl Abort,
    region: &Region<16, 8>,
    words: &mut Recorder,
    home: u64,
    quotient: u64,
)
    requires sizes { region.now ≡ sizes_of 16 8 6 6 }
    requires key { (home < 64) × (quotient < 64) }
    requires kept { (keys : List Key) × KeepsMap region.now words.old.words keys }
    ensures kept { (keys : List Key) × KeepsMap region.now words.new.words keys }
{
    words.forget();
    assert!(rt; matches!(region.insert_in(words, home, quotient), Ok(true)));
    assert!(rt; words.reached() & !(0b1111 << 5) == 0);
    assert!(rt; words.put() & !(0b111 << 5) == 0);
    assert!(rt; words.put() != 0);
}

// A search and an insertion that finds its key write nothing, and reach nothing else.
fn looks_nearby(rt: &impl Abort, region: &Region<16, 8>, words: &mut Recorder)
    requires sizes { region.now ≡ sizes_of 16 8 6 6 }
    requires kept { (keys : List Key) × KeepsMap region.now words.old.words keys }
{
    words.forget();
    assert!(rt; matches!(region.insert_in(words, 10, 2), Ok(false)));
    assert!(rt; region.find_in(words, 11, 3));
    assert!(rt; !region.find_in(words, 12, 3));
    assert!(rt; words.reached() & !(0b1111 << 5) == 0);
    assert!(rt; words.put() == 0);
    region.set_flags_in(words, 10, 1, 255);
    assert!(rt; region.flags_in(words, 10, 1) == 255);
    assert!(rt; region.flags_in(words, 10, 2) == 0);
    // Cell 40 lies in word 23, and is the home of no key.
    words.forget();
    assert!(rt; !region.find_in(words, 40, 1));
    assert!(rt; words.reached() == 1 << 23);
}

// Keys of one run over words that remember what was reached.
fn reaches_one_run(rt: &impl Abort) {
    let region = Region::<16, 8>::over(6, 6);
    let mut words = Recorder::new();
    clear(&region, &mut words.words);
    adds_nearby(rt, &region, &mut words, 10, 1);
    adds_nearby(rt, &region, &mut words, 10, 2);
    adds_nearby(rt, &region, &mut words, 11, 3);
    looks_nearby(rt, &region, &mut words);
}

// The cases of a region of 64 cells.
fn keeps_keys<const W: u32, const F: u32>(rt: &impl Abort, region: &Region<W, F>, words: &mut [u64])
    requires words { length words.old ≡ word_count region.now }
    requires sizes { (region.now.cells ≡ 64) × (64 ≤ 2 ^ region.now.quotient) × (2 ≤ 2 ^ region.now.flags) }
{
    keeps_two_keys(rt, region, words);
    keeps_three_keys(rt, region, words);
    fills_up(rt, region, words);
}

#[test]
fn keeps_keys_of_three_profiles(rt: HostRuntime) {
    keeps_keys(&rt, &Region::<16, 8>::over(6, 6), &mut [0u64; 37]);
    keeps_keys(&rt, &Region::<28, 7>::over(6, 6), &mut [0u64; 60]);
    keeps_keys(&rt, &Region::<31, 1>::over(24, 6), &mut [0u64; 42]);
    reaches_one_run(&rt);
}

#[test]
fn errors_tell_what_is_wrong(rt: HostRuntime) -> Result<(), Fail> {
    let alloc = rt.alloc();
    assert!(rt; RegionFull.to_string(alloc)?.as_str() == "the region is full");
    Ok(())
}
