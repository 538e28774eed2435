//! What a root table adds to the rule.

use crate::sizes::Sizes;

/// A table of roots, as far as the rule that is common to all of them goes. The laws are what the rule's
/// proofs take from it.
pub trait RootPart<const W: u32, const F: u32> {
    ghost use Rattle.std.specs.Prelude.{◌≡◌, ◌<◌, ◌^◌, ℕ, List, [], ◌∷◌, ◌++◌, slice_set, slice_index, length};
    ghost use Rattle.std.specs.Prelude.{true, false, ◌⊎◌, ◌↔◌, Some, None};
    ghost use mathlib.Core.Option.{some};
    ghost use lib.ListN.{get_elem?};
    ghost use Rattle.packed_word.specs.Word.{IsLayout};
    ghost use Rattle.tree_shape.specs.Tree.{Has, IsPart};
    ghost use Rattle.tdb_base.specs.History.{History};
    ghost use Rattle.tdb_base.specs.Legal.{IsLegal, Extends};
    ghost use Rattle.pair_rule.specs.declared.view.View.{View};
    ghost use Rattle.pair_rule.specs.declared.sizes.Sizes.{Sizes};
    ghost use Rattle.pair_rule.specs.declared.sizes.About.{About};
    ghost use Rattle.pair_rule.specs.View.{Grown, longer, parent_view, child_view, joining_view};
    ghost use Rattle.pair_rule.specs.View.{newcomer, nobody};
    ghost use Rattle.pair_rule.specs.Rule.{Fits};
    ghost use Rattle.pair_rule.specs.Laws.{IsAbout};
    ghost use Rattle.pair_rule.specs.Part.{Part};

    /// What a pass knows of the root table.
    type View;

    /// What it gives to contracts.
    ghost part: { Part Self.View };

    /// The rule on the history, the root words and the views.
    ghost holds: { About → History → List ℕ → List (View Self.View) → Type 0 };

    /// What the first pass of a new table knows, and what is left of a pass that was joined into another.
    ghost first: { About → Self.View };

    ghost spent: { Self.View };

    /// The number of the first of the table's sizes that is out of its range: 2 is that of the roots, 3 that
    /// of a region.
    fn first_out(sizes: &Sizes) -> Option<u32>
        requires { IsLayout W F }
        ensures out { (n : ℕ) → (result ≡ Some n) ↔ part.is_out sizes.now n }
        ensures sized { (result ≡ None) ↔ part.sized sizes.now };

    /// How many words the table has.
    fn words(sizes: &Sizes) -> usize
        requires { part.sized sizes.now }
        ensures all { result ≡ part.count sizes.now }
        ensures small { result < 2 ^ 32 };

    // The rule is kept where one view learns of nodes.
    ghost keeps: { (about : About) (log : History) (ws : List ℕ) (views : List (View Self.View))
        (id : ℕ) (v w : View Self.View)
        → holds about log ws views → get_elem? views id ≡ some v → Grown v w
        → holds about log ws (slice_set views id w) };

    // It is kept where a pass is split from another.
    ghost keeps_split: { (about : About) (log : History) (ws : List ℕ) (views : List (View Self.View))
        (id : ℕ) (v : View Self.View)
        → holds about log ws views → get_elem? views id ≡ some v
        → holds about log ws (slice_set views id (parent_view v) ++ child_view part.split v ∷ []) };

    // It is kept where two passes are joined that have no call under way.
    ghost keeps_join: { (about : About) (log : History) (ws : List ℕ) (views : List (View Self.View)) (nodes : ℕ → ℕ)
        (id other : ℕ) (v w : View Self.View)
        → holds about log ws views → get_elem? views id ≡ some v → get_elem? views other ≡ some w
        → ¬ (other ≡ id) → v.busy ≡ false → w.busy ≡ false
        → Fits about (part.roots about) log nodes v → Fits about (part.roots about) log nodes w
        → holds about log ws (slice_set (slice_set views id (joining_view part.join v w)) other (nobody spent)) };

    // It holds of a new table.
    ghost starts: { (about : About) (ws : List ℕ) → about.width ≡ W → about.flags ≡ F
        → IsAbout part.sized part.count about → length ws ≡ about.root_words
        → ((i : ℕ) → slice_index ws i ≡ 0) → holds about [] ws (newcomer (first about) about ∷ []) };

    // It tells of each pass's view,
    ghost sounds: { (about : About) (log : History) (ws : List ℕ) (nodes : ℕ → ℕ) (views : List (View Self.View))
        (id : ℕ) (v : View Self.View)
        → holds about log ws views → IsLegal about.flags log → get_elem? views id ≡ some v
        → Fits about (part.roots about) log nodes v → v.live ≡ true → part.sound about v };

    // and, of one that has seen the whole history, how the roots lie.
    ghost houses: { (about : About) (log : History) (ws : List ℕ) (nodes : ℕ → ℕ) (views : List (View Self.View))
        (id : ℕ) (v : View Self.View)
        → holds about log ws views → IsLegal about.flags log → get_elem? views id ≡ some v
        → Fits about (part.roots about) log nodes v → v.live ≡ true → v.seen ≡ log
        → part.house about (part.roots about v.seen v.root) };

    // What is told stays true of both views after a split.
    ghost sound_parent: { (about : About) (v : View Self.View) → part.sound about v → part.sound about (parent_view v) };

    ghost sound_child: { (about : About) (v : View Self.View)
        → part.sound about v → part.sound about (child_view part.split v) };

    // Identifiers are small.
    ghost ids_small: { (about : About) (v : View Self.View) → part.sound about v
        → (id pair : ℕ) → Has (id, pair) (part.roots about v.seen v.root) → id < 2 ^ 62 };

    // The root pairs: none at first, the same after a split, those of both after a join.
    ghost roots_first: { (about : About) → part.roots about [] (first about) ≡ [] };

    ghost roots_spent: { (about : About) → part.roots about [] spent ≡ [] };

    ghost roots_split: { (about : About) (h : History) (t : Self.View)
        → part.roots about h (part.split t) ≡ part.roots about h t };

    ghost roots_join: { (about : About) (g h : History) (t u : Self.View)
        → Extends g (longer g h) → Extends h (longer g h)
        → IsPart (part.roots about g t) (part.roots about (longer g h) (part.join t u))
        × IsPart (part.roots about h u) (part.roots about (longer g h) (part.join t u)) };

    ghost roots_either: { (about : About) (g h : History) (t u : Self.View) (id pair : ℕ)
        → Has (id, pair) (part.roots about (longer g h) (part.join t u))
        → Has (id, pair) (part.roots about g t) ⊎ Has (id, pair) (part.roots about h u) };
}
