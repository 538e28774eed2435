//! Marks on the inner positions above a slot.

ghost use Rattle.std.specs.Prelude.{◌≡◌, ℕ, ◌+◌, ◌-◌, ◌*◌, ◌/◌, ◌^◌, ◌<◌, ◌≤◌, ◌↔◌, ◌⊎◌, length};
ghost use Rattle.tree_shape.specs.Positions.{IsAbove};
ghost use Rattle.tree_shape.specs.Changed.{IsMarked, marked_count};

// Takes every mark away.
pub(crate) fn clear(marks: &mut [bool])
    ensures none { (p : ℕ) → IsMarked marks.new p → ⊥ }
    ensures count { marked_count marks.new ≡ 0 }
{
    marks.fill(false);
}

// Marks the positions from 2 on that are above the slot's position `from`, and answers how many of them had
// no mark. A position that has a mark ends the climb, since all above it have one.
pub(crate) fn mark_above(marks: &mut [bool], from: usize) -> usize
    requires inside { from < 2 * length marks.old }
    requires upwards { (p : ℕ) → IsMarked marks.old p → 2 ≤ p / 2 → IsMarked marks.old (p / 2) }
    ensures marked { (p : ℕ) → IsMarked marks.new p
        ↔ IsMarked marks.old p ⊎ ((2 ≤ p) × IsAbove p (from / 2)) }
    ensures count { marked_count marks.new ≡ marked_count marks.old + result }
    ensures few { (d : ℕ) → from < 2 ^ (d + 1) → result ≤ d - 1 }
{
    let mut p = from / 2;
    let mut added = 0;
    while p > 1 && !marks[p] {
        marks[p] = true;
        added += 1;
        p /= 2;
    }
    added
}
