//! How a region's lock is waited for.
ghost use Rattle.std.specs.Prelude.{◌≡◌, ◌<◌, true};
ghost use Rattle.pair_rule.specs.Rest.{AtRest, view};
ghost use Rattle.region_root.specs.Layout.{regions};
ghost use Rattle.region_root.specs.Compact.{IsEven, compact};
ghost use Rattle.region_root.specs.Work.{Locked};

use crate::root::CompactRoot;
use crate::steps::take;
use crate::words::lock_word;
use pair_rule::{PairTable, Pass};
use std::sync::Wait;
use std::{hint, thread};

// How often a waiter looks before it yields its processor.
const LOOKS: u32 = 64;

// Whether a region with this lock word is free.
#[inline]
fn is_free(lock: u64) -> bool
    ensures { result ≡ true → IsEven lock }
{
    lock % 2 == 0
}

// A waiter that has looked so often waits for its next look.
#[inline]
fn pause(looks: u32) -> u32 {
    if looks < LOOKS {
        hint::spin_loop();
        looks + 1
    } else {
        thread::yield_now();
        looks
    }
}

// Takes a region, for which it waits while another holds it. Answers the odd value of the lock word.
#[inline]
pub(crate) fn lock_region<H: Wait, const W: u32, const F: u32>(
    rt: &H,
    table: &PairTable<CompactRoot<W, F>, W, F>,
    pass: &mut Pass<CompactRoot<W, F>, W, F>,
    region: u64,
) -> u64
    requires rest { AtRest (compact W F) table.now pass.old }
    requires region { region < regions table.now.about }
    ensures { Locked W F table.now region result pass.old pass.new }
{
    let word = lock_word(table, region);
    let mut looks = 0;
    for _ in rt.forever() {
        let lock = table.shared().peek(word);
        if is_free(lock) {
            if take(table, pass, region, lock) {
                return lock + 1;
            }
        }
        looks = pause(looks);
    }
    unreachable!()
}
