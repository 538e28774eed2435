//! A caller's pass: its seat at the table, its buffers and its counts.
ghost use Rattle.std.specs.Prelude.{◌≡◌, ◌*◌, ◌<◌, ◌≤◌, IfOk, length, false};

use crate::part::RootPart;
use crate::view::View;
use atomic_table::Seat;
use std::alloc::Global;
use tdb_base::NoMemory;

/// A caller's token: a seat at a table, and the buffers that its calls use. What it knows of the table, its
/// view, stands behind the seat and costs nothing.
///
/// The call that makes a pass takes its buffers, and no later call grows them. The fields are for the layers
/// of the store alone.
pub struct PassOf<T> {
    /// The seat at the table, behind which the view stands.
    pub seat: Seat<(), View<T>>,
    /// The values of the last tree by position, where it has one: twice as many as a vector has slots.
    pub last_tree: Vec<u32>,
    /// Those of the tree that is being put.
    pub next_tree: Vec<u32>,
    /// A mark for each position of a pair.
    pub marks: Vec<bool>,
    /// Whether there is a last tree.
    pub has_last: bool,
    /// How many nodes were put by this pass and by those that were joined into it.
    pub nodes_count: u64,
    /// How many names their calls gave.
    pub names_count: u64,
}

/// The token of a caller of a store with this root part.
pub type Pass<R, const W: u32, const F: u32> = PassOf<<R as RootPart<W, F>>::View>;

impl<T> Drop for PassOf<T> {
    fn drop(self) {
        let Self {
            seat: _,
            last_tree: _,
            next_tree: _,
            marks: _,
            has_last: _,
            nodes_count: _,
            names_count: _,
        } = self;
    }
}

impl<T> PassOf<T> {
    // The seat alone: the buffers are freed.
    pub(crate) fn into_seat(self) -> Seat<(), View<T>>
        ensures { result ≡ self.seat }
    {
        let Self {
            seat,
            last_tree: _,
            next_tree: _,
            marks: _,
            has_last: _,
            nodes_count: _,
            names_count: _,
        } = self;
        seat
    }
}

// So many equal elements, and room for more that nobody uses. Threads write the buffers of their passes at
// each call: so no buffer shares a cache line with what is allocated behind it, wherever that is.
fn set_apart<X: Copy>(alloc: Global, value: X, count: usize) -> Result<Vec<X>, NoMemory>
    requires { count ≤ 2048 }
    ensures { IfOk result (λ buffer. length buffer.items ≡ count) }
{
    let mut buffer = Vec::with_capacity(alloc, count + APART)?;
    buffer.resize(count, value)?;
    Ok(buffer)
}

// Two lines of 64 bytes, since processors fetch lines in pairs. An element has a byte or more.
const APART: usize = 128;

// The buffers of a pass, before it has a seat.
#[derive(Drop)]
pub(crate) struct Buffers {
    last_tree: Vec<u32>,
    next_tree: Vec<u32>,
    marks: Vec<bool>,
}

impl Buffers {
    pub(crate) fn new(alloc: Global, slots: usize) -> Result<Buffers, NoMemory>
        requires { slots ≤ 1024 }
        ensures last { IfOk result (λ b. length b.last_tree.items ≡ 2 * slots) }
        ensures next { IfOk result (λ b. length b.next_tree.items ≡ 2 * slots) }
        ensures marks { IfOk result (λ b. length b.marks.items ≡ slots) }
    {
        Ok(Buffers {
            last_tree: set_apart(alloc, 0, 2 * slots)?,
            next_tree: set_apart(alloc, 0, 2 * slots)?,
            marks: set_apart(alloc, false, slots)?,
        })
    }

    // The pass with this seat and these buffers, which has no tree, and made and named nothing yet.
    pub(crate) fn with_seat<T>(self, seat: Seat<(), View<T>>) -> PassOf<T>
        ensures { result ≡ record {
          seat = seat;
          last_tree = self.last_tree;
          next_tree =
              self.next_tree;
          marks = self.marks;
          has_last = false;
          nodes_count = 0;
          names_count = 0;
        } }
    {
        PassOf {
            seat,
            last_tree: self.last_tree,
            next_tree: self.next_tree,
            marks: self.marks,
            has_last: false,
            nodes_count: 0,
            names_count: 0,
        }
    }
}
