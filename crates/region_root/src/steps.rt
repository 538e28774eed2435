//! The atomic steps on a region, one function each.
ghost use Rattle.std.specs.Prelude.{◌≡◌, ℕ, suc, ◌+◌, ◌<◌, ◌≤◌, List, [], ◌∷◌, true, false};
ghost use Rattle.std.specs.Prelude.{slice_index, slice_set};
ghost use mathlib.Core.Option.{none};
ghost use Rattle.atomic_table.specs.Table.{Allows, step};
ghost use Rattle.pair_rule.specs.Calls.{KeepsBuffers};
ghost use Rattle.pair_rule.specs.Plays.{first_root};
ghost use Rattle.pair_rule.specs.Rest.{AtRest, view};
ghost use Rattle.region_root.specs.declared.root.Holding.{Holding};
ghost use Rattle.region_root.specs.declared.root.Reading.{Reading};
ghost use Rattle.region_root.specs.Layout.{regions, words_each, start, KeepsRoots};
ghost use Rattle.region_root.specs.Compact.{IsEven, last, compact};
ghost use Rattle.region_root.specs.Plays.{MayEnd, Told, IsNextLock, frees_tells, peeks_tells, recopied};
ghost use Rattle.region_root.specs.Plays.{reading, peeking, reloaded, Closed};
ghost use Rattle.region_root.specs.Work.{ending_of, gives_name, AtWork, Locked};

use crate::plays::{Closes, Copies, Frees, Intends, Peeks, Reads, Stores, Takes};
use crate::root::{CompactRoot, Regions};
use crate::words::lock_word;
use atomic_table::{Seat, Shared, TableRule};
use pair_rule::{NodeRule, Opening, PairTable, Pass, View};
use std::marker::Brand;
use tdb_base::Act;

// Takes a region whose lock word was found even, if it still is what it was: whether it did.
#[inline]
pub(crate) fn take<const W: u32, const F: u32>(
    table: &PairTable<CompactRoot<W, F>, W, F>,
    pass: &mut Pass<CompactRoot<W, F>, W, F>,
    region: u64,
    even: u64,
) -> bool
    requires rest { AtRest (compact W F) table.now pass.old }
    requires region { region < regions table.now.about }
    requires even { IsEven even × (even ≤ last) }
    ensures won { result ≡ true → Locked W F table.now region (suc even) pass.old pass.new }
    ensures lost { result ≡ false → pass.new ≡ pass.old }
{
    let word = lock_word(table, region);
    let shared = table.shared();
    shared.compare_exchange::<Takes>(&mut pass.seat, word, even, even + 1) == even
}

// Loads a word of the held region, whose words begin at `from`.
#[inline]
pub(crate) fn load_held<const W: u32, const F: u32>(
    table: &PairTable<CompactRoot<W, F>, W, F>,
    pass: &mut Pass<CompactRoot<W, F>, W, F>,
    from: usize,
    place: usize,
) -> u64
    requires work { (h : Holding) × AtWork W F table.now h pass.old
        × (from ≡ first_root table.now.about + start table.now.about h.region) }
    requires inside { place < words_each table.now.about }
    ensures word { (h : Holding) → (view pass.old).root.held ≡ h ∷ [] → result ≡ slice_index h.copy place }
    ensures same { pass.new ≡ pass.old }
{
    let shared = table.shared();
    shared.load::<Copies>(&mut pass.seat, from + place)
}

// Stores a word there.
#[inline]
pub(crate) fn store_held<const W: u32, const F: u32>(
    table: &PairTable<CompactRoot<W, F>, W, F>,
    pass: &mut Pass<CompactRoot<W, F>, W, F>,
    from: usize,
    place: usize,
    value: u64,
)
    requires work { (h : Holding) × AtWork W F table.now h pass.old
        × (from ≡ first_root table.now.about + start table.now.about h.region) }
    requires inside { place < words_each table.now.about }
    ensures work { (h : Holding) → AtWork W F table.now h pass.old
        → AtWork W F table.now (record h { copy = slice_set h.copy place value }) pass.new }
    ensures view { (h : Holding) → (view pass.old).root.held ≡ h ∷ []
        → view pass.new ≡ recopied (slice_set h.copy place value) h (view pass.old) }
    ensures others { pass.new ≡ record pass.old { seat = pass.new.seat } }
{
    let shared = table.shared();
    shared.store::<Stores>(&mut pass.seat, from + place, value);
}

// The value of a lock word after the unlock of an odd one.
#[inline]
pub(crate) fn next_even(odd: u64) -> u64
    ensures { IsNextLock odd result }
{
    if odd == u64::MAX {
        u64::MAX - 1
    } else {
        odd + 1
    }
}

// Whether the ending gives a vector a name.
#[inline]
fn is_new(ending: &Option<(u64, Act)>) -> bool
    ensures { result ≡ gives_name (ending_of ending.now) }
{
    match *ending {
        Some((_, Act::Put(fresh))) => fresh,
        _ => false,
    }
}

// A swap that is told how the call ends. It has no const parameter, since a call could not pick `B` then.
#[inline]
fn swap_ending<B: Intends, P: TableRule<(), View<Regions>, Opening<View<Regions>>>>(
    shared: &Shared<(), View<Regions>, Opening<View<Regions>>, P>,
    seat: &mut Seat<(), View<Regions>>,
    word: usize,
    new: u64,
    ending: &Option<(u64, Act)>,
) -> u64
    requires ending { ending_of ending.now ≡ B.ending }
    requires seat { (seat.old.table_id ≡ shared.now.table_id) × (word < shared.now.table_id.words) }
    requires rule { Allows (P.holds shared.now.key) shared.now.table_id.slots seat.old.id seat.old.me word
        (λ n. new) (frees_tells (ending_of ending.now)
        (step shared.now.table_id.slots word new 0 none) seat.old.me) }
    ensures seat { seat.new.table_id ≡ seat.old.table_id }
    ensures told { frees_tells (ending_of ending.now)
        (step shared.now.table_id.slots word new 0 none) seat.old.me result seat.new.me }
{
    shared.swap::<Frees<B>>(seat, word, new)
}

// Gives the held region back, whose lock word is this odd value; the call ends so.
#[inline]
pub(crate) fn unlock<const W: u32, const F: u32>(
    table: &PairTable<CompactRoot<W, F>, W, F>,
    pass: &mut Pass<CompactRoot<W, F>, W, F>,
    region: u64,
    lock: u64,
    ending: &Option<(u64, Act)>,
)
    requires work { (h : Holding) × (next : List (ℕ × ℕ)) × AtWork W F table.now h pass.old
        × (h.region ≡ region) × (h.lock ≡ lock) × KeepsRoots table.now.about h.copy next
        × MayEnd table.now.about (view pass.old).known h.region h.base (ending_of ending.now) next }
    ensures rest { AtRest (compact W F) table.now pass.new }
    ensures root { (view pass.new).root ≡ record (view pass.old).root { held = [] } }
    ensures told { (h : Holding) → (view pass.old).root.held ≡ h ∷ []
        → Told h.region h.base (ending_of ending.now) (view pass.old) (view pass.new) }
    ensures buffers { KeepsBuffers pass.old pass.new }
{
    let word = lock_word(table, region);
    swap_ending::<Brand, NodeRule<CompactRoot<W, F>, W, F>>(
        table.shared(),
        &mut pass.seat,
        word,
        next_even(lock),
        ending,
    );
    if is_new(ending) {
        pass.names_count += 1;
    }
}

// A load that is told which root is wanted. It has no const parameter, as above.
#[inline]
fn load_wanted<B: Intends, P: TableRule<(), View<Regions>, Opening<View<Regions>>>>(
    shared: &Shared<(), View<Regions>, Opening<View<Regions>>, P>,
    seat: &mut Seat<(), View<Regions>>,
    word: usize,
    pair: u64,
) -> u64
    requires pair { pair ≡ B.wanted }
    requires seat { (seat.old.table_id ≡ shared.now.table_id) × (word < shared.now.table_id.words) }
    requires rule { Allows (P.holds shared.now.key) shared.now.table_id.slots seat.old.id seat.old.me word
        (λ n. n) (peeks_tells pair (step shared.now.table_id.slots word 0 0 none) seat.old.me) }
    ensures seat { (seat.new.table_id ≡ seat.old.table_id) × (seat.new.id ≡ seat.old.id) }
    ensures told { peeks_tells pair
        (step shared.now.table_id.slots word 0 0 none) seat.old.me result seat.new.me }
{
    shared.load::<Peeks<B>>(seat, word)
}

// A reader's first look at the lock word of a region, in which it wants the root.
#[inline]
pub(crate) fn open_peek<const W: u32, const F: u32>(
    table: &PairTable<CompactRoot<W, F>, W, F>,
    pass: &mut Pass<CompactRoot<W, F>, W, F>,
    region: u64,
    pair: u64,
) -> u64
    requires rest { AtRest (compact W F) table.now pass.old }
    requires region { region < regions table.now.about }
    ensures rest { AtRest (compact W F) table.now pass.new }
    ensures view { view pass.new ≡ peeking (reading region pair result) (view pass.old) }
    ensures others { pass.new ≡ record pass.old { seat = pass.new.seat } }
{
    let word = lock_word(table, region);
    load_wanted::<Brand, NodeRule<CompactRoot<W, F>, W, F>>(
        table.shared(),
        &mut pass.seat,
        word,
        pair,
    )
}

// It loads a word of the region, whose words begin at `from`.
#[inline]
pub(crate) fn load_peeked<const W: u32, const F: u32>(
    table: &PairTable<CompactRoot<W, F>, W, F>,
    pass: &mut Pass<CompactRoot<W, F>, W, F>,
    from: usize,
    place: usize,
) -> u64
    requires rest { AtRest (compact W F) table.now pass.old }
    requires reader { (q : Reading) × ((view pass.old).root.reader ≡ q ∷ [])
        × (q.region < regions table.now.about)
        × (from ≡ first_root table.now.about + start table.now.about q.region) }
    requires inside { place < words_each table.now.about }
    ensures rest { AtRest (compact W F) table.now pass.new }
    ensures view { (q : Reading) → (view pass.old).root.reader ≡ q ∷ []
        → view pass.new ≡ reloaded ((place, result) ∷ q.loads) q (view pass.old) }
    ensures others { pass.new ≡ record pass.old { seat = pass.new.seat } }
{
    let shared = table.shared();
    shared.load::<Reads>(&mut pass.seat, from + place)
}

// Its second look at the lock word.
#[inline]
pub(crate) fn close_peek<const W: u32, const F: u32>(
    table: &PairTable<CompactRoot<W, F>, W, F>,
    pass: &mut Pass<CompactRoot<W, F>, W, F>,
    region: u64,
) -> u64
    requires rest { AtRest (compact W F) table.now pass.old }
    requires reader { (q : Reading) × ((view pass.old).root.reader ≡ q ∷ []) × (q.region ≡ region) }
    requires region { region < regions table.now.about }
    ensures rest { AtRest (compact W F) table.now pass.new }
    ensures told { (q : Reading) → (view pass.old).root.reader ≡ q ∷ []
        → Closed result q (view pass.old) (view pass.new) }
    ensures others { pass.new ≡ record pass.old { seat = pass.new.seat } }
{
    let word = lock_word(table, region);
    let shared = table.shared();
    shared.load::<Closes>(&mut pass.seat, word)
}
