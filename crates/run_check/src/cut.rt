//! An input is cut into a trace and a report.

ghost use Rattle.std.specs.Prelude.{◌≡◌, ◌<◌, ◌↔◌, IsTrue, MatchOption, Some, length, slice_get};
ghost use Rattle.run_check.specs.Cut.{IsCut, IsWhole};
ghost use Rattle.run_check.specs.Sentences.{IsLeast};

/// The first place of a line that is `#` alone, with its LF, also within quotes; `None` where there is none.
///
/// The trace is what stands before the place, and the report what stands from two bytes after it.
pub fn divide(bytes: &[u8]) -> Option<usize>
    ensures { MatchOption result (IsWhole bytes.now) (IsLeast (IsCut bytes.now)) }
{
    for i in 0..bytes.len() {
        if is_cut(bytes, i) {
            return Some(i);
        }
    }
    None
}

// Whether a line that is `#` alone begins at a place.
fn is_cut(bytes: &[u8], i: usize) -> bool
    requires { i < length bytes.now }
    ensures { IsTrue result ↔ IsCut bytes.now i }
{
    bytes[i] == b'#' && ends_line(bytes, i + 1) && (i == 0 || bytes[i - 1] == b'\n')
}

// Whether there is a line feed at a place.
fn ends_line(bytes: &[u8], i: usize) -> bool
    ensures { IsTrue result ↔ (slice_get bytes.now i ≡ Some 10) }
{
    bytes.get(i) == Some(&b'\n')
}
