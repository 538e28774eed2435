//! The law of passes that is a compact store's own, as the contract of a function that does nothing. Those of
//! every store are in `pair_nodes`.
ghost use Rattle.region_root.specs.PassLaws.{NamesArePacked};

/// In the history that a pass has seen, whoever made the calls, all identifiers are below `2^(2W)`.
pub fn names_are_packed<const W: u32, const F: u32>()
    ensures { NamesArePacked W F }
{}
