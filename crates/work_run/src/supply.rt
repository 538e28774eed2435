//! Where a worker has its lines from.

/// Gives a worker one line after another, as long as there are lines for it.
pub(crate) trait Supply: Drop {
    ghost use Rattle.std.specs.Prelude.{◌≡◌};
    ghost use Rattle.work_run.specs.Giving.{Giving, AddsUp, Asked};

    ghost giving: { Giving Self };

    /// The number of the next line, from 0. After the last one it answers `None`.
    fn next(&mut self) -> Option<u64>
        ensures { Asked giving result self.old self.new };

    // What is given adds up.
    ghost adds_up: { AddsUp giving };
}
