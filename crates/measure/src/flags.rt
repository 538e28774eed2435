//! Times `set_flag` of plain roots that are there beside a plain `fetch_or` on the words of as large a table.

ghost use Rattle.std.specs.Prelude.{◌≡◌, ◌≤◌, ◌<◌, ◌^◌, ℕ, All, IfOk, IfSome};
ghost use Rattle.pair_rule.specs.Rest.{AtRest, KnowsName};
ghost use Rattle.root_plain.specs.Plain.{plain};

use crate::clock::nanoseconds_since;
use pair_nodes::Nodes;
use pair_rule::{PairTable, Pass, RootsFull, Sizes};
use root_plain::{PlainRoot, put_root, set_flag};
use std::alloc::Global;
use std::io;
use std::process::ExitCode;
use std::sync::atomic::{AtomicU64, Ordering};
use std::time::Instant;
use tdb_base::{NoMemory, Silent, Steps};

type Roots = Nodes<PlainRoot<28, 7>, 28, 7>;

type RootsPass = Pass<PlainRoot<28, 7>, 28, 7>;

// Puts a root: its bucket, if it has a place.
fn put_pair(roots: &Roots, pass: &mut RootsPass, left: u64, right: u64) -> Option<u64>
    requires width { roots.now.about.width ≡ 28 }
    requires slots { roots.now.about.slots ≡ 2 }
    requires rest { AtRest plain roots.now pass.old }
    requires parts { (left < 2 ^ 28) × (right < 2 ^ 28) }
    ensures rest { AtRest plain roots.now pass.new }
    ensures named { IfSome result (KnowsName pass.new) }
    ensures stay { (id : ℕ) → KnowsName pass.old id → KnowsName pass.new id }
{
    let mut steps = Steps::new(Silent);
    match put_root(roots, pass, left, right, &mut steps) {
        Ok(found) => Some(found.0),
        Err(RootsFull) => None,
    }
}

// Puts the roots with the first numbers, and answers their buckets in this order, up to one that has no place.
fn fill(
    alloc: Global,
    roots: &Roots,
    pass: &mut RootsPass,
    count: u64,
) -> Result<Vec<u64>, NoMemory>
    requires width { roots.now.about.width ≡ 28 }
    requires slots { roots.now.about.slots ≡ 2 }
    requires rest { AtRest plain roots.now pass.old }
    ensures rest { AtRest plain roots.now pass.new }
    ensures named { IfOk result (λ ids. All (KnowsName pass.new) ids.items) }
{
    let mut ids = Vec::new(alloc);
    for number in 0..count {
        let Some(id) = put_pair(roots, pass, number >> 9 & 0xFFFFF, number & 0x1FF) else {
            return Ok(ids);
        };
        ids.push(id)?;
    }
    Ok(ids)
}

// Sets a flag of each; answers for how many it was clear.
fn set_all(roots: &Roots, pass: &mut RootsPass, ids: &[u64], b: u32) -> u64
    requires flag { (roots.now.about.flags ≡ 7) × (b ≤ 6) }
    requires rest { AtRest plain roots.now pass.old }
    requires named { All (KnowsName pass.old) ids.now }
    ensures rest { AtRest plain roots.now pass.new }
    ensures named { All (KnowsName pass.new) ids.now }
{
    let mut first = 0u64;
    for id in ids {
        first = first.saturating_add(u64::from(set_flag(roots, pass, *id, b)));
    }
    first
}

// Sets a bit of the words with these numbers; answers for how many it was clear.
fn or_all(words: &[AtomicU64], ids: &[u64], b: u32) -> u64
    requires { b ≤ 6 }
{
    let mask = 1u64 << b;
    let mut first = 0u64;
    for id in ids {
        if let Some(word) = words.get(*id as usize) {
            let old = word.fetch_or(mask, Ordering::SeqCst);
            first = first.saturating_add(u64::from(old & mask == 0));
        }
    }
    first
}

// So many words, all zero.
fn zeros(alloc: Global, count: u64) -> Result<Vec<AtomicU64>, NoMemory> {
    let mut words = Vec::new(alloc);
    for _ in 0..count {
        words.push(AtomicU64::new(0))?;
    }
    Ok(words)
}

// Nanoseconds for all flags of all roots that are set, and for as many bits of words, in turns; and how often
// a flag or a bit was clear.
fn time_turns(
    rt: &HostRuntime,
    roots: &Roots,
    pass: &mut RootsPass,
    ids: &[u64],
    words: &[AtomicU64],
) -> io::Result<(u64, u64, u64)>
    requires flags { roots.now.about.flags ≡ 7 }
    requires rest { AtRest plain roots.now pass.old }
    requires named { All (KnowsName pass.old) ids.now }
{
    let (mut flags, mut bits, mut first) = (0u64, 0u64, 0u64);
    for b in 0..7u32 {
        let start = Instant::now(rt)?;
        let set = set_all(roots, pass, ids, b);
        flags = flags.saturating_add(nanoseconds_since(rt, &start)?);
        let start = Instant::now(rt)?;
        let ored = or_all(words, ids, b);
        bits = bits.saturating_add(nanoseconds_since(rt, &start)?);
        first = first.saturating_add(set).saturating_add(ored);
    }
    Ok((flags, bits, first))
}

fn sizes_of(roots: u32) -> Sizes
    ensures { result ≡ record { nodes = 3; roots = roots; region = 6; probe = 4194304 } }
{
    Sizes {
        nodes: 3,
        roots,
        region: 6,
        probe: 4_194_304,
    }
}

fn time_table(rt: &HostRuntime, exponent: u32) -> Result<io::Result<(u64, u64, u64)>, NoMemory>
    requires { (6 ≤ exponent) × (exponent ≤ 24) }
{
    let sizes = sizes_of(exponent);
    let (table, mut pass) = PairTable::<PlainRoot<28, 7>, 28, 7>::create(rt.alloc(), &sizes, 2)?;
    let roots = Nodes::over(table);
    let ids = fill(rt.alloc(), &roots, &mut pass, 1 << (exponent - 1))?;
    let words = zeros(rt.alloc(), 1 << exponent)?;
    Ok(time_turns(rt, &roots, &mut pass, ids.as_slice(), words.as_slice()))
}

/// Fills half of a plain table of `2^exponent` roots, and prints the microseconds for all seven flags of all
/// of them that are set, those for as many bits that are set in the words of an array of that length, in the
/// same order, and how often a flag or a bit was clear.
pub fn time(rt: &HostRuntime, exponent: u32) -> io::Result<ExitCode>
    requires { (6 ≤ exponent) × (exponent ≤ 24) }
{
    match time_table(rt, exponent) {
        Ok(times) => {
            let (flags, bits, first) = times?;
            eprintln!(rt; "flags {} {} {}", flags / 1000, bits / 1000, first)?;
        }
        Err(NoMemory) => eprintln!(rt; "measure: no memory")?,
    }
    Ok(ExitCode::from(0))
}
