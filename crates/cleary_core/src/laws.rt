//! The laws of the maps that words keep, each as the contract of a function that does nothing.
ghost use Rattle.cleary_core.specs.Laws.{KeepsBySentences, HasFewKeys, HasOneEntry, HasKeysInRange};
ghost use Rattle.cleary_core.specs.Laws.{ZerosKeepNothing};

/// Words keep a map exactly where the sentences hold that say so of groups and runs: those are what a reader
/// believes, and the contracts' own form, which names the key of each cell, is the same.
pub fn keeping_is_the_sentences()
    ensures { KeepsBySentences }
{}

/// What a region keeps is a map, of at most as many keys as it has cells, with homes, quotients and flags of
/// its widths.
pub fn kept_is_a_map()
    ensures map { HasOneEntry }
    ensures few { HasFewKeys }
    ensures range { HasKeysInRange }
{}

/// Words that are all 0 keep the empty map.
pub fn zeros_keep_nothing()
    ensures { ZerosKeepNothing }
{}
