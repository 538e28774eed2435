//! The laws of trees of pairs, each as the contract of a function that does nothing.
ghost use Rattle.tree_shape.specs.Laws.{PartsOfPair, StandsAtSlot, StandsAtPair, OneVector, OneRoot};
ghost use Rattle.tree_shape.specs.Laws.{OneNumber, StandsWithMore, RootStandsWithMore, StandsWhereSame};
ghost use Rattle.tree_shape.specs.Laws.{TestsChanged};

/// The parts of a pair that is packed into one number.
pub fn parts_of_a_pair()
    ensures { PartsOfPair }
{}

/// What stands for a part of a vector, at a slot and at an inner position.
pub fn stands_by_cases()
    ensures at_slot { StandsAtSlot }
    ensures at_pair { StandsAtPair }
{}

/// Over a naming of pairs a root pair stands for at most one vector.
pub fn one_vector()
    ensures { OneVector }
{}

/// Over a naming of pairs a vector has at most one root pair.
pub fn one_root()
    ensures { OneRoot }
{}

/// Over a naming of pairs a position has at most one number for a vector.
pub fn one_number()
    ensures { OneNumber }
{}

/// What a number stands for, it stands for with more nodes.
pub fn stands_with_more()
    ensures { StandsWithMore }
{}

/// What a root pair stands for, it stands for with more nodes.
pub fn root_stands_with_more()
    ensures { RootStandsWithMore }
{}

/// Below a position under which two vectors have the same slots, a number that stands for the one stands for
/// the other.
pub fn stands_where_same()
    ensures { StandsWhereSame }
{}

/// The test of the changed set answers whether a position is in it.
pub fn tests_changed()
    ensures { TestsChanged }
{}
