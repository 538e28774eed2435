//! The order in which a table's buckets are looked at for a pair: a path of lines of 8 neighbouring buckets.
//!
//! A line is walked whole before the next one is computed, since a line's buckets come from memory together
//! (Laarman, van de Pol and Weber 2010). The stride from line to line is odd, so a path meets no bucket
//! twice.
#![tactic(auto)]

ghost use Rattle.std.specs.Prelude.{◌≡◌, ℕ, ◌+◌, ◌-◌, ◌*◌, ◌/◌, ◌%◌, ◌^◌, ◌<◌, ◌≤◌, ◌↔◌, IsTrue};
ghost use Rattle.probe_path.specs.Path.{table_lines, walked_lines, path_length, line_at, bucket_at};
ghost use Rattle.probe_path.specs.Path.{BucketsDiffer, MeetsEachBucket};

use mix_hash::mix;
use std::marker::Model;

/// The path of a packed pair whose parts have `W` bits each, through a table of `2^d` buckets in lines of 8.
///
/// Contracts see what it is for: the pair, `d`, and how many lines are walked.
#[derive(Clone, Copy)]
pub struct Path<const W: u32> {
    pair: u64,
    d: u32,
    lines: u64,
    // What all steps share.
    first_line: u64,
    offset: u64,
    stride: u64,
    mask: u64,
}

impl<const W: u32> Model for Path<W> {
    ghost use Rattle.std.specs.Prelude.{◌-◌, ◌/◌, ◌%◌};
    ghost use Rattle.std.proofs.Common.{sym};
    ghost use Rattle.probe_path.specs.Path.{Course, IsPrepared, table_lines, first_bucket, stride as stride_of};

    ghost Value = { Course };

    ghost view = { λ p. record { pair = p.pair; d = p.d; lines = p.lines } };

    ghost invariant = { λ p.
        IsPrepared W (record { pair = p.pair; d = p.d; lines = p.lines })
        p.first_line p.offset p.stride p.mask };

    ghost inverse = { λ c. record {
      pair = c.pair;
      d = c.d;
      lines = c.lines;
      first_line = first_bucket W c.d c.pair / 8;
      offset = first_bucket W c.d c.pair % 8;
      stride = stride_of W c.d c.pair;
      mask = table_lines c.d - 1;
    } };

    ghost inverse_ok = { λ p kept i. record {
      pair = p.pair;
      d = p.d;
      lines = p.lines;
      first_line = sym kept.first_line_is i;
      offset = sym kept.offset_is i;
      stride = sym kept.stride_is i;
      mask = sym kept.mask_is i;
    } };
}

// The lowest `count` bits.
#[inline]
fn low_bits(x: u64, count: u32) -> u64
    requires { count < 64 }
    ensures { result ≡ x % 2 ^ count }
{
    x & ((1 << count) - 1)
}

// The place after `i` others in a line whose walk begins at `offset`.
#[inline]
fn place_in_line(offset: u64, i: u64) -> u64
    requires { offset + i < 2 ^ 64 }
    ensures { result ≡ (offset + i) % 8 }
{
    (offset + i) & 7
}

impl<const W: u32> Path<W> {
    /// The path of `pair`, a number below `2^(2 * W)`, for `1 <= W <= 31` and `3 <= d <= 25`.
    ///
    /// Of the table's `2^(d - 3)` lines at most `lines` are walked, which is 1 or more. No bucket comes
    /// twice, and where all lines are walked, each bucket of the table comes.
    #[inline]
    pub fn new(pair: u64, d: u32, lines: u64) -> Self
        requires width { (1 ≤ W) × (W ≤ 31) }
        requires pair { pair < 2 ^ (2 * W) }
        requires table { (3 ≤ d) × (d ≤ 25) }
        requires lines { 1 ≤ lines }
        ensures course { result ≡ record { pair = pair; d = d; lines = walked_lines d lines } }
        ensures differ { BucketsDiffer W d pair (path_length d lines) }
        ensures met { table_lines d ≤ lines → MeetsEachBucket W d pair (path_length d lines) }
    {
        let hash = mix::<W>(pair);
        let first_bucket = low_bits(hash, d);
        let table_lines = 1 << (d - 3);
        let mask = table_lines - 1;
        Path {
            pair,
            d,
            lines: lines.min(table_lines),
            first_line: first_bucket >> 3,
            offset: first_bucket & 7,
            stride: (((hash >> d) & mask) << 1) | 1,
            mask,
        }
    }

    /// The packed pair.
    #[inline]
    pub fn pair(&self) -> u64
        ensures { result ≡ self.now.pair }
    {
        self.pair
    }

    /// How many steps the path has: 8 for each line that is walked, so at most `2^d`.
    #[inline]
    pub fn len(&self) -> u64
        ensures steps { result ≡ 8 * self.now.lines }
        ensures within { result ≤ 2 ^ self.now.d }
    {
        self.lines << 3
    }

    /// The bucket of step `i`, which is below `len`: a number below `2^d`. It costs a product; a walk needs
    /// none.
    #[inline]
    pub fn bucket(&self, i: u64) -> u64
        requires { i < 8 * self.now.lines }
        ensures bucket { result ≡ bucket_at W self.now.d self.now.pair i }
        ensures below { result < 2 ^ self.now.d }
    {
        let line = (self.first_line + (i >> 3) * self.stride) & self.mask;
        (line << 3) + place_in_line(self.offset, i & 7)
    }

    /// A walk along the path, at its first line.
    #[inline]
    pub fn walk(&self) -> Walk<W>
        ensures { result ≡ record { course = self.now; passed = 0 } }
    {
        Walk {
            path: *self,
            passed: 0,
            line: self.first_line,
        }
    }
}

/// A walk along a path, line by line. To go on it adds the stride and masks.
///
/// Contracts see what the path is for, and how many lines have been passed.
#[derive(Clone, Copy)]
pub struct Walk<const W: u32> {
    path: Path<W>,
    passed: u64,
    line: u64,
}

impl<const W: u32> Model for Walk<W> {
    ghost use Rattle.std.proofs.Common.{sym};
    ghost use Rattle.probe_path.specs.Path.{Progress, IsUnderway, line_at};

    ghost Value = { Progress };

    ghost view = { λ w. record { course = w.path; passed = w.passed } };

    ghost invariant = { λ w. IsUnderway W w.path w.passed w.line };

    ghost inverse = { λ p. record {
      path = p.course;
      passed = p.passed;
      line = line_at W p.course.d p.course.pair p.passed;
    } };

    ghost inverse_ok = { λ w kept i. record {
      path = w.path;
      passed = w.passed;
      line = sym kept.line_is i;
    } };
}

impl<const W: u32> Walk<W> {
    /// Whether all lines of the path have been passed.
    #[inline]
    pub fn is_done(&self) -> bool
        ensures done { IsTrue result ↔ (self.now.passed ≡ self.now.course.lines) }
        ensures within { self.now.passed ≤ self.now.course.lines }
    {
        let path = &self.path;
        self.passed == path.lines
    }

    /// The lowest of the line's 8 buckets, a multiple of 8.
    #[inline]
    pub fn line(&self) -> u64
        ensures lowest { result ≡ 8 * line_at W self.now.course.d self.now.course.pair self.now.passed }
        ensures below { result + 8 ≤ 2 ^ self.now.course.d }
    {
        self.line << 3
    }

    /// The bucket of the line's step `i`, which is below 8: the path's step `8 * passed + i`.
    #[inline]
    pub fn bucket(&self, i: u64) -> u64
        requires { i < 8 }
        ensures bucket { result ≡ bucket_at W self.now.course.d self.now.course.pair
            (8 * self.now.passed + i) }
        ensures below { result < 2 ^ self.now.course.d }
    {
        let path = &self.path;
        self.line() + place_in_line(path.offset, i)
    }

    /// Passes the line, which is one of the path: the walk is not done yet.
    #[inline]
    pub fn advance(&mut self)
        requires { self.old.passed < self.old.course.lines }
        ensures { self.new ≡ record self.old { passed = self.old.passed + 1 } }
    {
        let path = &self.path;
        self.line = (self.line + path.stride) & path.mask;
        self.passed += 1;
    }
}

#[cfg(test)]
mod tests;
