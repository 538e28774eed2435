//! A box, or none, as a pointer.
ghost use Rattle.std.specs.Prelude.{◌≡◌, Option, Some, None, IsSome};
ghost use Rattle.treedb_c.specs.declared.inner.Inner.{Inner};
ghost use Rattle.treedb_c.specs.Held.{held_owns, held_coded};

use crate::inner::Inner;
use crate::parts::Parts;
use std::alloc::Global;
use std::marker::Model;

/// What a handle stands for: a pointer to a box of it, or a null pointer.
#[repr(C)]
#[derive(Drop)]
pub struct Held {
    at: *mut u8,
    alloc: Global,
    pub ghost inner: { Option Inner } by { held_coded },
}

impl Model for Held {
    ghost also_owns = { λ h. held_owns h.alloc h.at h.inner };
}

impl Held {
    /// What a box had that was taken apart.
    pub fn of_parts(parts: Parts<Inner, Global>) -> Held
        ensures { result.inner ≡ Some parts.value }
    {
        let Parts { ptr, alloc } = parts;
        Held {
            at: ptr as *mut u8,
            alloc,
        }
    }

    /// The parts of the box, which there is.
    pub fn into_parts(self) -> Parts<Inner, Global>
        requires { IsSome self.inner }
        ensures { Some result.value ≡ self.inner }
    {
        let Held { at, alloc } = self;
        Parts {
            ptr: at as *mut Inner,
            alloc,
        }
    }

    /// Nothing.
    pub fn none(alloc: Global) -> Held
        ensures { result.inner ≡ None }
    {
        Held {
            at: std::ptr::null_mut(),
            alloc,
        }
    }
}

unsafe impl Send for Held {}
