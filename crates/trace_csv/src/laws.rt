//! The laws of the texts, each as the contract of a function that does nothing.
ghost use Rattle.trace_csv.specs.Signed.{HalvesOfTold, OneSignedVector, ToldByHalves};
ghost use Rattle.trace_csv.specs.Sorted.{OneSortedSet, OneSortedText};

/// Lists with the same vectors have the same vectors in rising order.
pub fn one_sorted_set()
    ensures { OneSortedSet }
{}

/// Lists with the same vectors have one text of their different vectors in rising order.
pub fn one_sorted_text()
    ensures { OneSortedText }
{}

/// The halves of a signed vector tell it.
pub fn signed_vector_of_halves()
    ensures { ToldByHalves }
{}

/// Slots of 16 bits, two for each number, are the halves of the signed vector that they tell.
pub fn halves_of_signed_vector()
    ensures { HalvesOfTold }
{}

/// Different signed vectors have different halves.
pub fn one_signed_vector()
    ensures { OneSignedVector }
{}
