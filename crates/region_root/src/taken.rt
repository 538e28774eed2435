//! How often the locks of regions were taken.

use crate::root::CompactRoot;
use crate::words::{count_regions, lock_word};
use pair_nodes::Nodes;

/// How often the locks of all regions were taken so far, as the lock words tell: half their sum, since a lock
/// and an unlock raise a word by one each.
///
/// The words are read one after the other, so where others call meanwhile it is a number between the first
/// look and the last. A measure only: that it is right is tested, and no clause.
pub fn locks_taken<const W: u32, const F: u32>(nodes: &Nodes<CompactRoot<W, F>, W, F>) -> u64 {
    let table = nodes.table();
    let mut risen = 0u64;
    for region in 0..count_regions(table.sizes()) {
        let word = table.shared().peek(lock_word(table, region as u64));
        risen = risen.wrapping_add(word);
    }
    risen / 2
}
