//! Times a region's calls on drawn keys.

ghost use Rattle.std.specs.Prelude.{◌≡◌, ℕ, ◌<◌, ◌≤◌, ◌^◌, List, length, slice_index};
ghost use Rattle.cleary_core.specs.Cells.{word_count};
ghost use Rattle.cleary_core.specs.Map.{Key, KeepsMap};

use crate::clock::nanoseconds_since;
use cleary_core::{Region, laws};
use std::io;
use std::process::ExitCode;
use std::time::Instant;

// A table of 2^24 roots of pairs of 28 bits with 7 flags.
type Measured = Region<28, 7>;

const ROOTS: u32 = 24;

// Keys are drawn for so many cells in all, a region at a time.
const CELLS: u64 = 1 << 16;

// How often each search is repeated between two looks at the clock.
const REPEATS: u64 = 16;

// What keys are drawn: how many, and the bits that their quotients have besides.
#[derive(Clone, Copy)]
struct Keys {
    count: u64,
    seed: u64,
    high: u64,
}

// The draw after one.
fn after(draw: u64) -> u64 {
    draw.wrapping_mul(6364136223846793005)
        .wrapping_add(1442695040888963407)
}

fn home_of(draw: u64, cells: u64) -> u64
    requires { 0 < cells }
    ensures { result < cells }
{
    (draw >> 40) & (cells - 1)
}

fn quotient_of(draw: u64, high: u64) -> u64
    requires { high ≤ 2 ^ 31 }
    ensures { result < 2 ^ 32 }
{
    ((draw >> 8) & 0x7FFF_FFFF) + high
}

// Words that are all 0 keep a map.
fn keeps_nothing(_region: &Measured, _words: &[u64])
    requires { (i : ℕ) → slice_index _words.now i ≡ 0 }
    ensures { (keys : List Key) × KeepsMap _region.now _words.now keys }
{
    laws::zeros_keep_nothing();
}

fn clear(region: &Measured, words: &mut [u64])
    ensures kept { (keys : List Key) × KeepsMap region.now words.new keys }
    ensures length { length words.new ≡ length words.old }
{
    for word in words.iter_mut() {
        *word = 0;
    }
    keeps_nothing(region, words);
}

// Adds the keys to words that are cleared before, and says how many were new.
fn fill(region: &Measured, words: &mut [u64], cells: u64, keys: Keys) -> u64
    requires words { length words.old ≡ word_count region.now }
    requires sizes { (cells ≡ region.now.cells) × (0 < cells) × (2 ^ 32 ≤ 2 ^ region.now.quotient) }
    requires high { keys.high ≤ 2 ^ 31 }
{
    clear(region, words);
    let mut draw = keys.seed;
    let mut added = 0u64;
    for _ in 0..keys.count {
        draw = after(draw);
        if let Ok(true) = region.insert(words, home_of(draw, cells), quotient_of(draw, keys.high)) {
            added = added.wrapping_add(1);
        }
    }
    added
}

// How many of the keys are there. The seed is moved by `off`, which is 0 and isn't known to be: so no two
// searches are known to be the same.
fn look(region: &Measured, words: &[u64], cells: u64, keys: Keys, off: u64) -> u64
    requires words { length words.now ≡ word_count region.now }
    requires sizes { (cells ≡ region.now.cells) × (0 < cells) }
    requires high { keys.high ≤ 2 ^ 31 }
{
    let mut draw = keys.seed.wrapping_add(off);
    let mut found = 0u64;
    for _ in 0..keys.count {
        draw = after(draw);
        if region.find(words, home_of(draw, cells), quotient_of(draw, keys.high)) {
            found = found.wrapping_add(1);
        }
    }
    found
}

// The times of the calls, in nanoseconds in all, and a sum of their answers.
#[derive(Clone, Copy)]
struct Times {
    insert: u64,
    present: u64,
    absent: u64,
    sum: u64,
}

// Fills the words with drawn keys and looks for them and for others, and adds the times.
fn time_calls(
    rt: &HostRuntime,
    region: &Measured,
    words: &mut [u64],
    cells: u64,
    keys: Keys,
    before: Times,
) -> io::Result<Times>
    requires words { length words.old ≡ word_count region.now }
    requires sizes { (cells ≡ region.now.cells) × (0 < cells) × (2 ^ 32 ≤ 2 ^ region.now.quotient) }
    requires high { keys.high ≤ 2 ^ 31 }
{
    let mut sum = before.sum;
    let start = Instant::now(rt)?;
    for _ in 0..REPEATS {
        sum = sum.wrapping_add(fill(region, words, cells, keys));
    }
    let insert = nanoseconds_since(rt, &start)?;
    let start = Instant::now(rt)?;
    let mut off = 0u64;
    for _ in 0..REPEATS {
        let found = look(region, words, cells, keys, off);
        off = off.wrapping_add(found).wrapping_sub(keys.count);
        sum = sum.wrapping_add(found);
    }
    let present = nanoseconds_since(rt, &start)?;
    let others = Keys {
        high: 1 << 31,
        ..keys
    };
    let start = Instant::now(rt)?;
    let mut off = 0u64;
    for _ in 0..REPEATS {
        off = off.wrapping_add(look(region, words, cells, others, off));
    }
    sum = sum.wrapping_add(off);
    let absent = nanoseconds_since(rt, &start)?;
    Ok(Times {
        insert: before.insert.wrapping_add(insert),
        present: before.present.wrapping_add(present),
        absent: before.absent.wrapping_add(absent),
        sum,
    })
}

/// Regions of `2^exponent` cells of 42 bits, filled to so many percent of their keys, each so many times:
/// prints the nanoseconds of all calls.
pub fn time(rt: &HostRuntime, exponent: u32, percent: u64, rounds: u64) -> io::Result<ExitCode>
    requires sizes { (6 ≤ exponent) × (exponent ≤ 12) }
    requires percent { percent ≤ 100 }
{
    let region = Measured::over(ROOTS, exponent);
    let mut words = vec![in rt.alloc(); 0u64; region.words()]?;
    let words = words.as_mut_slice();
    let times = time_rounds(rt, &region, words, 1 << exponent, percent, rounds)?;
    eprintln!(rt;
        "insert {} present {} absent {} ns, sum {}",
        times.insert, times.present, times.absent, times.sum
    )?;
    Ok(ExitCode::from(0))
}

// Keys for so many cells in all, a region at a time, so many times.
fn time_rounds(
    rt: &HostRuntime,
    region: &Measured,
    words: &mut [u64],
    cells: u64,
    percent: u64,
    rounds: u64,
) -> io::Result<Times>
    requires words { length words.old ≡ word_count region.now }
    requires sizes { (cells ≡ region.now.cells) × (0 < cells) × (cells ≤ 4096)
        × (2 ^ 32 ≤ 2 ^ region.now.quotient) }
    requires percent { percent ≤ 100 }
{
    let mut times = Times {
        insert: 0,
        present: 0,
        absent: 0,
        sum: 0,
    };
    for round in 0..rounds {
        for seed in 0..CELLS / cells {
            let keys = Keys {
                count: cells * percent / 100,
                seed: seed.wrapping_add(round.wrapping_mul(CELLS)),
                high: 0,
            };
            times = time_calls(rt, region, words, cells, keys, times)?;
        }
    }
    Ok(times)
}
