//! What a table is opened with.

use crate::sizes::About;
use crate::witness::Witness;

/// The key of a table, which it is told once, when it is made: what it is about, and the view of its first
/// pass.
///
/// That view is chosen by the call that makes the table, and not by the rule, so that a table may also be
/// opened with words in which nodes and roots stand: its first pass then knows them. As yet every table is
/// new.
#[derive(Drop)]
pub struct Opening<V> {
    /// What the table is about.
    pub about: About,
    /// The view that the first pass begins with.
    pub first: Witness<V>,
}
