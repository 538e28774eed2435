//! A value that is known to exist, and that only contracts see.
ghost use base.Fml.{ftrue};

use std::marker::{Model, PhantomData};

/// Which values of `V` belong to a value of `X`.
pub(crate) trait Relation<X, V> {
    ghost relates: { X → V → Type 0 };
}

/// A witness, as of a statement that something exists: some value that stands in a relation. Only contracts
/// see it, and it has no bytes.
#[derive(Drop)]
pub struct Witness<V> {
    marker: PhantomData<V>,
    pub ghost value: { V },
}

impl<V> Model for Witness<V> {
    ghost also_owns = { λ _. ftrue };
}

impl<V> Witness<V> {
    // Some value that belongs to `x`, where there is one.
    pub(crate) fn of<X, R: Relation<X, V>>(x: &X) -> Witness<V>
        requires { (v : V) × R.relates x.now v }
        ensures { R.relates x.now result.value }
    {
        let _ = x;
        Witness {
            marker: PhantomData,
        }
    }
}
