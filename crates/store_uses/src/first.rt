//! The shortest use: a state goes into a new store and is read back by its identifier. The front page has it.
ghost use Rattle.std.specs.Prelude.{◌≡◌, [], ◌∷◌, IfOk};

use pair_rule::Sizes;
use std::alloc::Global;
use tdb_base::{Reply, Silent, Steps};
use tree_shape::Shape;
use tree_store::{CreateError, PlainStore};

/// Inserts a state of three numbers into a new store with room for a million, and reads it back.
pub fn insert_and_read(alloc: Global) -> Result<[u32; 3], CreateError>
    ensures same { IfOk result (λ read. read ≡ 7 ∷ 0 ∷ 1 ∷ []) }
{
    let sizes = Sizes {
        nodes: 21,
        roots: 20,
        region: 0,
        probe: 4_194_304,
    };
    let (store, mut pass) = PlainStore::<28, 7>::create(alloc, Shape::new(3).unwrap(), &sizes)?;
    let mut state = [7, 0, 1];
    match store.insert(&mut pass, &state, &mut Steps::new(Silent)) {
        Reply::New(id) | Reply::Seen(id) => store.read(&mut pass, id, &mut state),
        Reply::FullNodes | Reply::FullRoots => {}
    }
    Ok(state)
}
