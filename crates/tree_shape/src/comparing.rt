//! Where two vectors differ next.

ghost use Rattle.std.specs.Prelude.{◌≡◌, ℕ, ◌+◌, ◌<◌, ◌≤◌, IsTrue, length};
ghost use Rattle.tree_shape.specs.Changed.{DiffersAt, AreSame};

// Whether the eight slots from this one on are the same in both vectors.
#[inline]
fn are_eight_same(old: &[u32], new: &[u32], from: usize) -> bool
    requires old { from + 8 ≤ length old.now }
    requires new { from + 8 ≤ length new.now }
    ensures { IsTrue result → AreSame old.now new.now from (from + 8) }
{
    (old[from] == new[from])
        & (old[from + 1] == new[from + 1])
        & (old[from + 2] == new[from + 2])
        & (old[from + 3] == new[from + 3])
        & (old[from + 4] == new[from + 4])
        & (old[from + 5] == new[from + 5])
        & (old[from + 6] == new[from + 6])
        & (old[from + 7] == new[from + 7])
}

// The slot after as many times eight slots from this one on as are the same in both vectors.
fn skip_eights(old: &[u32], new: &[u32], from: usize) -> usize
    requires lengths { length new.now ≡ length old.now }
    requires from { from ≤ length old.now }
    ensures range { (from ≤ result) × (result ≤ length old.now) }
    ensures same { AreSame old.now new.now from result }
{
    let mut at = from;
    while old.len() - at >= 8 && are_eight_same(old, new, at) {
        at += 8;
    }
    at
}

// The first slot from this one on in which the vectors differ; their length where there is none.
pub(crate) fn next_difference(old: &[u32], new: &[u32], from: usize) -> usize
    requires lengths { length new.now ≡ length old.now }
    requires from { from ≤ length old.now }
    ensures range { (from ≤ result) × (result ≤ length old.now) }
    ensures same { AreSame old.now new.now from result }
    ensures differs { result < length old.now → DiffersAt old.now new.now result }
{
    let mut at = skip_eights(old, new, from);
    while at < old.len() && old[at] == new[at] {
        at += 1;
    }
    at
}
