//! The law of passes that is a plain store's own, as the contract of a function that does nothing. Those of
//! every store are in `pair_nodes`.
ghost use Rattle.root_plain.specs.PassLaws.{NamesAreBuckets};

/// In the history that a pass has seen, whoever made the calls, all identifiers are below `2^roots`.
pub fn names_are_buckets()
    ensures { NamesAreBuckets }
{}
