//! Passes of a table of nodes alone are split, told of one another, and joined.

use super::{NoRoot, NodesFull, PairTable, RootsFull, Sizes};
use std::test::Fail;

#[test]
fn passes_are_split_and_joined(rt: HostRuntime) -> Result<(), Fail> {
    let sizes = Sizes {
        nodes: 4,
        roots: 3,
        region: 6,
        probe: 2,
    };
    let (table, mut first) = PairTable::<NoRoot, 28, 7>::create(rt.alloc(), &sizes, 5)?;
    assert!(rt; *table.sizes() == sizes && table.slots() == 5);
    assert!(rt; table.words() == 17);
    let mut second = table.split(rt.alloc(), &mut first)?;
    assert!(rt; !second.has_last && second.last_tree.len() == 10 && second.marks.len() == 5);
    table.meet(&mut second, &mut first);
    table.meet(&mut first, &mut second);
    table.join(&mut first, second);
    assert!(rt; !first.has_last && first.nodes_count == 0 && first.names_count == 0);
    let callers = table.split_callers(rt.alloc(), &mut first, 3, 7u32)?;
    assert!(rt; callers.len() == 3);
    for (place, caller) in callers.iter().enumerate() {
        assert!(rt; caller.number == place as u64 && caller.kept == 7 && !caller.pass.has_last);
    }
    table.join_callers(&mut first, callers);
    assert!(rt; !first.has_last && first.nodes_count == 0 && first.names_count == 0);
    Ok(())
}

#[test]
fn errors_tell_what_is_wrong(rt: HostRuntime) -> Result<(), Fail> {
    let alloc = rt.alloc();
    assert!(rt; NodesFull.to_string(alloc)?.as_str() == "the table of nodes is full");
    assert!(rt; RootsFull.to_string(alloc)?.as_str() == "the root table is full");
    Ok(())
}
