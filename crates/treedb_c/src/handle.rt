//! A handle, as a C program keeps it.
ghost use Rattle.std.specs.Prelude.{◌≡◌, ◌↔◌, ◌⊎◌, IsTrue, IsSome, Some, None, IfSome, MatchOption};
ghost use Rattle.treedb_c.specs.declared.code.Code.TheVariants as c;

use crate::code::Code;
use crate::held::Held;
use crate::inner::Inner;
use crate::parts::Parts;
use std::alloc::Global;
use std::mem;

/// A handle: a caller of a store, or nothing. All its bytes are zero where it was never made.
#[repr(C)]
#[derive(Drop)]
pub struct Handle {
    held: Held,
    live: bool,
    pub ghost tells: { IsTrue live ↔ IsSome held.inner },
}

// A C program may pass a handle to another thread, since this compiles.
fn sent<T: Send>(value: T) -> T
    ensures { result ≡ value }
{
    value
}

impl Handle {
    /// A handle that stands for what the box has.
    pub(crate) fn of(inner: Box<Inner>) -> Handle
        ensures { result.held.inner ≡ Some inner.value }
    {
        sent(Handle {
            held: Held::of_parts(Parts::of(inner)),
            live: true,
        })
    }

    // A handle that stands for nothing.
    fn none(alloc: Global) -> Handle
        ensures { result.held.inner ≡ None }
    {
        Handle {
            held: Held::none(alloc),
            live: false,
        }
    }

    /// Whether the handle stands for something.
    pub(crate) fn is_live(&self) -> bool
        ensures { IsTrue result ↔ IsSome self.now.held.inner }
    {
        self.live
    }

    // The box of what the handle stands for.
    fn open(self) -> Option<Box<Inner>>
        ensures { MatchOption result (self.held.inner ≡ None) (λ b. self.held.inner ≡ Some b.value) }
    {
        let Handle { held, live } = self;
        if live {
            Some(held.into_parts().into_box())
        } else {
            None
        }
    }

    /// Takes what the handle stands for, which is nothing from then on.
    pub(crate) fn take(&mut self, alloc: Global) -> Option<Box<Inner>>
        ensures taken { MatchOption result (self.old.held.inner ≡ None)
            (λ b. self.old.held.inner ≡ Some b.value) }
        ensures none { self.new.held.inner ≡ None }
    {
        mem::replace(self, Handle::none(alloc)).open()
    }

    /// Has a handle that stands for nothing stand for this.
    pub(crate) fn put(&mut self, alloc: Global, inner: Inner) -> Code
        requires { self.old.held.inner ≡ None }
        ensures { ((result ≡ c.Done) × (self.new.held.inner ≡ Some inner))
            ⊎ ((result ≡ c.NoMemory) × (self.new.held.inner ≡ None)) }
    {
        match Box::new(alloc, inner) {
            Ok(inner) => {
                *self = Handle::of(inner);
                Code::Done
            }
            Err(_) => Code::NoMemory,
        }
    }
}
