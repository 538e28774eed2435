//! A worker and its lines.
ghost use Rattle.std.specs.Prelude.{◌≡◌};

use pair_rule::PassOf;

/// A worker with a pass of its own, what it has its lines from, and the answers to its lines so far.
///
/// Workers stand one behind the other in memory, and each writes its fields at each line. The gap behind them
/// sets the next worker's apart, as that of a `Caller` does.
#[repr(C)]
pub struct Worker<T, S, A> {
    /// Its number among the workers, from 0.
    pub number: u64,
    /// Its pass.
    pub pass: PassOf<T>,
    /// What it has its lines from.
    pub lines: S,
    /// The answers to the lines that it took, in their order.
    pub answers: Vec<A>,
    // Nobody writes it, and nobody reads it.
    gap: [u64; APART],
}

// Two lines of 64 bytes, in words: processors fetch lines in pairs.
const APART: usize = 16;

impl<T, S: Drop, A: Drop> Worker<T, S, A> {
    pub(crate) fn new(number: u64, pass: PassOf<T>, lines: S, answers: Vec<A>) -> Self
        ensures number { result.number ≡ number }
        ensures pass { result.pass ≡ pass }
        ensures lines { result.lines ≡ lines }
        ensures answers { result.answers ≡ answers }
    {
        Worker {
            number,
            pass,
            lines,
            answers,
            gap: [0; APART],
        }
    }

    // Its number, its pass, what it had its lines from, and its answers.
    pub(crate) fn into_parts(self) -> (u64, PassOf<T>, S, Vec<A>)
        ensures number { result.0 ≡ self.number }
        ensures pass { result.1 ≡ self.pass }
        ensures lines { result.2 ≡ self.lines }
        ensures answers { result.3 ≡ self.answers }
    {
        let Self {
            number,
            pass,
            lines,
            answers,
            gap: _,
        } = self;
        (number, pass, lines, answers)
    }

    // The pass alone: the answers are freed.
    pub(crate) fn into_pass(self) -> PassOf<T>
        ensures { result ≡ self.pass }
    {
        let Self {
            number: _,
            pass,
            lines: _,
            answers: _,
            gap: _,
        } = self;
        pass
    }
}

impl<T, S: Drop, A: Drop> Drop for Worker<T, S, A> {
    fn drop(self) {
        let Self {
            number: _,
            pass: _,
            lines: _,
            answers: _,
            gap: _,
        } = self;
    }
}
