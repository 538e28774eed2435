//! Room for what is told of drawn blocks when all lines are answered.

use crate::worker::Worker;
use block_claims::Drawer;

/// It is taken before the first line is answered.
#[derive(Drop)]
pub(crate) struct Room<T, A> {
    /// For the workers, with the blocks that they drew.
    pub(crate) rest: Vec<Worker<T, Vec<u32>, A>>,
    /// For their drawers.
    pub(crate) drawers: Vec<Drawer>,
    /// For the worker of each block.
    pub(crate) marks: Vec<u32>,
    /// For the worker of each line.
    pub(crate) drawn: Vec<u32>,
}
