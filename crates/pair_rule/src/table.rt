//! The one table of a store's words, and how it is made.
ghost use Rattle.std.specs.Prelude.{◌≡◌, false, ◌+◌, ◌*◌, ◌^◌, ◌<◌, ◌≤◌, IfOk, replicate};
ghost use Rattle.pair_rule.specs.Laws.{InRange};
ghost use Rattle.pair_rule.specs.Part.{IsTable};
ghost use Rattle.pair_rule.specs.Rest.{AtRest, Whole, view};
ghost use Rattle.pair_rule.specs.View.{newcomer};

use crate::opening::Opening;
use crate::part::RootPart;
use crate::pass::{Buffers, Pass};
use crate::rule::{Newcomer, NodeRule};
use crate::sizes::{About, Sizes};
use crate::view::View;
use crate::witness::Witness;
use atomic_table::{Shared, Table};
use std::alloc::Global;
use std::marker::Model;
use tdb_base::NoMemory;

/// The one table of a store's words. `W` is the width of a slot and of an index, `F` the number of flags.
///
/// Contracts see it as the store: which table it is, and what that is about.
pub struct PairTable<R: RootPart<W, F>, const W: u32, const F: u32> {
    table: Table<(), View<R::View>, Opening<View<R::View>>, NodeRule<R, W, F>, Global>,
    about: About,
}

impl<R: RootPart<W, F>, const W: u32, const F: u32> Model for PairTable<R, W, F> {
    ghost use Rattle.std.specs.Prelude.{◌≡◌};
    ghost use Rattle.pair_rule.specs.Part.{Store, IsTable};

    ghost Value = { Store };

    ghost view = { λ t. record { table = t.table.shared.table_id; about = t.about } };

    ghost invariant = { λ t. (t.table.shared.key.about ≡ t.about)
        × IsTable W F R.part (record { table = t.table.shared.table_id; about = t.about }) };
}

fn zeros(alloc: Global, count: usize) -> Result<Vec<u64>, NoMemory>
    ensures { IfOk result (λ v. v.items ≡ replicate count 0) }
{
    Ok(vec![in alloc; 0; count]?)
}

fn bucket_count(nodes: u32) -> usize
    requires { nodes ≤ 25 }
    ensures same { result ≡ 2 ^ nodes }
    ensures small { result < 2 ^ 26 }
{
    1usize << nodes
}

impl<R: RootPart<W, F>, const W: u32, const F: u32> PairTable<R, W, F> {
    /// A table of these sizes for vectors of `slots` slots, in which no pair stands and nobody called, and
    /// its first pass, which has the number 0.
    ///
    /// The words come from one list of zeros, which is freed before this returns.
    pub fn create(
        alloc: Global,
        sizes: &Sizes,
        slots: usize,
    ) -> Result<(PairTable<R, W, F>, Pass<R, W, F>), NoMemory>
        requires { InRange W F R.part.sized sizes.now slots }
        ensures table { IfOk result (λ made. IsTable W F R.part made.0) }
        ensures sizes { IfOk result (λ made. made.0.about.sizes ≡ sizes.now) }
        ensures slots { IfOk result (λ made. made.0.about.slots ≡ slots) }
        ensures view { IfOk result (λ made. view made.1 ≡ newcomer (R.first made.0.about) made.0.about) }
        ensures whole { IfOk result (λ made. Whole (view made.1)) }
        ensures no_tree { IfOk result (λ made. made.1.has_last ≡ false) }
        ensures rest { IfOk result (λ made. AtRest R.part made.0 made.1) }
    {
        let root_words = R::words(sizes);
        let about = About {
            sizes: *sizes,
            slots,
            root_words,
            width: W,
            flags: F,
        };
        let buffers = Buffers::new(alloc, slots)?;
        let words = zeros(alloc, 1 + bucket_count(sizes.nodes) + root_words)?;
        let opening = Opening {
            about,
            first: Witness::of::<About, Newcomer<R, W, F>>(&about),
        };
        let (table, seat) = Table::of_words(alloc, words.as_slice(), &opening)?;
        Ok((PairTable { table, about }, buffers.with_seat(seat)))
    }

    /// The words, under the rule. The layers of the store step through it.
    pub fn shared(&self) -> &Shared<(), View<R::View>, Opening<View<R::View>>, NodeRule<R, W, F>>
        ensures table { result.now.table_id ≡ self.now.table }
        ensures key { result.now.key.about ≡ self.now.about }
        ensures store { IsTable W F R.part self.now }
    {
        &self.table.shared
    }

    /// How many words the table has, word 0 and those of the roots among them.
    pub fn words(&self) -> usize
        ensures { result ≡ self.now.table.words }
    {
        self.table.word_count()
    }

    /// The sizes with which the table was made.
    pub fn sizes(&self) -> &Sizes
        ensures sizes { result.now ≡ self.now.about.sizes }
        ensures store { IsTable W F R.part self.now }
    {
        let about = &self.about;
        &about.sizes
    }

    /// The number of slots of a vector, 2 to 1024.
    pub fn slots(&self) -> usize
        ensures slots { result ≡ self.now.about.slots }
        ensures store { IsTable W F R.part self.now }
    {
        let about = &self.about;
        about.slots
    }
}

impl<R: RootPart<W, F>, const W: u32, const F: u32> Drop for PairTable<R, W, F> {
    fn drop(self) {
        let Self { table: _, about: _ } = self;
    }
}
