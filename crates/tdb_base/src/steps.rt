//! Where the steps of an insertion are counted, or not.

ghost use Rattle.std.specs.Prelude.{◌≡◌, ℕ, Option, Some, None, option_map};
ghost use Rattle.tdb_base.specs.Fakes.{counted};

use std::marker::Model;

/// Where steps are counted, or not.
pub trait Ledger {
    /// The count, where it tells one.
    ghost count: { Self → Option ℕ };

    /// Raises a told count by one; at 2^64 - 1 it stands still.
    fn tick(&mut self)
        ensures { count self.new ≡ option_map counted (count self.old) };
}

/// Counts nothing.
#[derive(Clone, Copy, Debug, PartialEq, Eq)]
pub struct Silent;

impl Ledger for Silent {
    ghost count = { λ s. None };

    fn tick(&mut self) {}
}

/// Keeps a count, and shows it.
#[derive(Clone, Copy, Debug, PartialEq, Eq)]
pub struct Kept {
    /// The count. It stands still at 2^64 - 1.
    pub shown: u64,
}

impl Ledger for Kept {
    ghost count = { λ k. Some k.shown };

    fn tick(&mut self) {
        self.shown = self.shown.saturating_add(1);
    }
}

/// The steps of an insertion, as a ledger counts them. Contracts see the ledger.
#[derive(Drop)]
pub struct Steps<L> {
    ledger: L,
}

impl<L> Model for Steps<L> {
    ghost Value = { L };

    ghost view = { λ s. s.ledger };
}

impl<L: Ledger> Steps<L> {
    /// The steps that the ledger has counted so far.
    pub fn new(ledger: L) -> Steps<L>
        ensures { result ≡ ledger }
    {
        Steps { ledger }
    }

    /// One step more.
    pub fn tick(&mut self)
        ensures { L.count self.new ≡ option_map counted (L.count self.old) }
    {
        self.ledger.tick();
    }
}

impl Steps<Kept> {
    /// The count.
    pub fn shown(&self) -> u64
        ensures { result ≡ self.now.shown }
    {
        let kept = &self.ledger;
        kept.shown
    }
}
