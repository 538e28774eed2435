//! Callers of one table and their shares of some numbers.

use pair_rule::Caller;

/// A caller's share of some numbers, and how many of its calls found no place or no name.
#[derive(Clone, Copy)]
pub struct Share {
    callers: u64,
    numbers: u64,
    /// How many of the caller's calls found no place or no name.
    pub missed: u64,
}

impl Share {
    /// That of each of so many callers, of so many numbers.
    pub fn of(callers: u64, numbers: u64) -> Share {
        Share {
            callers,
            numbers,
            missed: 0,
        }
    }

    /// The first number of the share of the caller with this number, and the number behind the share.
    pub fn range(&self, caller: u64) -> (u64, u64) {
        let callers = self.callers.max(1);
        let next = caller.saturating_add(1);
        (
            caller.saturating_mul(self.numbers) / callers,
            next.saturating_mul(self.numbers) / callers,
        )
    }
}

/// How many calls of all callers found no place or no name.
pub fn missed_by<T>(callers: &[Caller<T, Share>]) -> u64 {
    let mut missed = 0u64;
    for caller in callers {
        missed = missed.saturating_add(caller.kept.missed);
    }
    missed
}
