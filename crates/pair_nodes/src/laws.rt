//! The laws of passes, each as the contract of a function that does nothing. They hold over any root table.
ghost use Rattle.pair_nodes.specs.PassLaws.{NamesDiffer, RootsAreNaming, NewNames, WholeHasAll};
ghost use Rattle.pair_nodes.specs.Roots.{Refusals};

use crate::roots::RootTable;
use pair_rule::RootPart;

/// In the history that a pass has seen, whoever made the calls, different vectors have different identifiers.
pub fn names_differ<R: RootPart<W, F>, const W: u32, const F: u32>()
    ensures { NamesDiffer R.part }
{}

/// An identifier has one root, and a root one identifier.
pub fn roots_are_naming<R: RootPart<W, F>, const W: u32, const F: u32>()
    ensures { RootsAreNaming R.part }
{}

/// A call that is new named a vector that had no name, with an identifier that no vector had.
pub fn new_names<R: RootPart<W, F>, const W: u32, const F: u32>()
    ensures { NewNames R.part }
{}

/// A root that was refused since there was no place for it has none later, and gets no name.
pub fn full_for_good<D: RootTable<W, F>, const W: u32, const F: u32>()
    ensures { Refusals D.Part.part }
{}

/// What a pass that stands for all passes knows is a store: it put all of its nodes, all calls are its own,
/// nodes fill their paths, and the roots are those of the history's names and lie as their table has them.
pub fn whole_has_all<R: RootPart<W, F>, const W: u32, const F: u32>()
    ensures { WholeHasAll R.part }
{}
