//! Where the words of a compact root table lie.
ghost use Rattle.std.specs.Prelude.{◌≡◌, ℕ, ◌+◌, ◌*◌, ◌^◌, ◌<◌, ◌≤◌, ◌↔◌, IsTrue, Some, None};
ghost use Rattle.region_root.specs.Layout.{CellsFit, RegionFits, IsOut};
ghost use Rattle.packed_word.specs.Word.{pair_of};
ghost use Rattle.pair_rule.specs.Part.{IsTable};
ghost use Rattle.pair_rule.specs.Plays.{first_root};
ghost use Rattle.region_root.specs.Compact.{compact};
ghost use Rattle.region_root.specs.Layout.{IsSized, region_count, region_words, regions, start, words_each};
ghost use Rattle.region_root.specs.Layout.{IsPacked, cells_of, place};

use crate::root::CompactRoot;
use cleary_core::Region;
use mix_hash::{Place, mix, split};
use packed_word::Layout;
use pair_rule::{PairTable, Sizes};

// The present bit.
const PRESENT: u64 = 1 << 63;

fn cells_fit<const W: u32>(sizes: &Sizes) -> bool
    requires { W ≤ 31 }
    ensures { IsTrue result ↔ CellsFit W sizes.now }
{
    6 <= sizes.roots && sizes.roots <= 24 && sizes.roots < 2 * W
}

fn region_fits(sizes: &Sizes) -> bool
    ensures { IsTrue result ↔ RegionFits sizes.now }
{
    6 <= sizes.region && sizes.region <= 12 && sizes.region <= sizes.roots
}

// The number of the first of the table's sizes that is out of its range.
pub(crate) fn first_out<const W: u32>(sizes: &Sizes) -> Option<u32>
    requires { W ≤ 31 }
    ensures out { (n : ℕ) → (result ≡ Some n) ↔ IsOut W sizes.now n }
    ensures fit { (result ≡ None) ↔ CellsFit W sizes.now × RegionFits sizes.now }
{
    if !cells_fit::<W>(sizes) {
        return Some(2);
    }
    if !region_fits(sizes) {
        return Some(3);
    }
    None
}

// How many regions there are.
#[inline]
#[tactic(auto, unfolding(crate::specs::Layout::region_count))]
pub(crate) fn count_regions(sizes: &Sizes) -> usize
    requires { (sizes.now.region ≤ sizes.now.roots) × (sizes.now.roots ≤ sizes.now.region + 18) }
    ensures same { result ≡ region_count sizes.now }
    ensures small { result ≤ 262144 }
{
    1 << (sizes.roots - sizes.region)
}

// How many words each has.
#[inline]
pub(crate) fn count_words<const W: u32, const F: u32>(sizes: &Sizes) -> usize
    requires { IsSized W F sizes.now }
    ensures same { result ≡ region_words W F sizes.now }
    ensures small { result ≤ 4224 }
{
    let region = Region::<W, F>::over(sizes.roots, sizes.region);
    region.words()
}

// How many bytes the cells of so many roots take, rounded up once.
#[inline]
pub(crate) fn root_bytes<const W: u32, const F: u32>(
    table: &PairTable<CompactRoot<W, F>, W, F>,
    roots: u64,
) -> u64
    requires { roots ≤ 16777216 }
    ensures all { result ≡ (compact W F).bytes table.now.about roots }
    ensures most { result ≤ 8 * roots }
{
    let sizes = table.sizes();
    let bits = 3 + F + (2 * W - sizes.roots);
    (roots * u64::from(bits) + 7) / 8
}

// The first root word of the table.
#[inline]
fn first_word(nodes: u32) -> usize
    requires { nodes ≤ 25 }
    ensures same { result ≡ 1 + 2 ^ nodes }
    ensures small { result ≤ 33554433 }
{
    1 + (1 << nodes)
}

// The lock word of a region.
#[inline]
pub(crate) fn lock_word<const W: u32, const F: u32>(
    table: &PairTable<CompactRoot<W, F>, W, F>,
    region: u64,
) -> usize
    requires { region < regions table.now.about }
    ensures place { result ≡ first_root table.now.about + region }
    ensures inside { result < table.now.table.words }
{
    let sizes = table.sizes();
    first_word(sizes.nodes) + region as usize
}

// Where the words of a region begin.
#[inline]
pub(crate) fn region_start<const W: u32, const F: u32>(
    table: &PairTable<CompactRoot<W, F>, W, F>,
    region: u64,
) -> usize
    requires { region < regions table.now.about }
    ensures place { result ≡ first_root table.now.about + start table.now.about region }
    ensures inside { result + words_each table.now.about ≤ table.now.table.words }
{
    let sizes = table.sizes();
    let before = count_regions(sizes) + region as usize * count_words::<W, F>(sizes);
    first_word(sizes.nodes) + before
}

// A region as a map of its words, and where these begin.
#[inline]
pub(crate) fn region_at<const W: u32, const F: u32>(
    table: &PairTable<CompactRoot<W, F>, W, F>,
    region: u64,
) -> (Region<W, F>, usize)
    requires { region < regions table.now.about }
    ensures cells { result.0 ≡ cells_of table.now.about }
    ensures begins { result.1 ≡ first_root table.now.about + start table.now.about region }
    ensures store { IsTable W F (compact W F) table.now }
{
    let sizes = table.sizes();
    let from = region_start(table, region);
    (Region::over(sizes.roots, sizes.region), from)
}

// Where the root belongs, which is a packed pair.
#[inline]
pub(crate) fn root_place<const W: u32, const F: u32>(
    table: &PairTable<CompactRoot<W, F>, W, F>,
    pair: u64,
) -> Place
    requires { IsPacked table.now.about pair }
    ensures same { result ≡ place table.now.about pair }
    ensures region { result.region < regions table.now.about }
    ensures store { IsTable W F (compact W F) table.now }
{
    let sizes = table.sizes();
    split::<W>(mix::<W>(pair), sizes.roots, sizes.region)
}

// The root of two parts, as one number.
#[inline]
pub(crate) fn pack_root<const W: u32, const F: u32>(
    table: &PairTable<CompactRoot<W, F>, W, F>,
    left: u64,
    right: u64,
) -> u64
    requires left { left < 2 ^ table.now.about.width }
    requires right { right < 2 ^ table.now.about.width }
    ensures same { result ≡ pair_of table.now.about.width left right }
    ensures packed { IsPacked table.now.about result }
{
    let _ = table.slots();
    Layout::<W, F>::pack(left, right) - PRESENT
}
