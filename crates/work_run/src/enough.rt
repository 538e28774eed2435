//! Which sizes of a root table have a place for each root.
ghost use Rattle.work_run.specs.Enough.{PlainRootsSuffice, CompactRootsSuffice};

/// A root table with a bucket for each line has a place for each root where all its buckets are walked.
pub fn plain_roots_suffice()
    ensures { PlainRootsSuffice }
{}

/// A compact root table of which each region has a cell for each line has a place for each root.
pub fn compact_roots_suffice<const W: u32, const F: u32>()
    ensures { CompactRootsSuffice W F }
{}
