//! The searches, whose numbers of states were found by a program of a few lines in another language.

use crate::{
    Found, Protocol, SearchError, State, insert_and_read, path_to_error, search_peterson,
    search_together,
};
use std::test::Fail;

#[test]
fn a_state_is_read_back(rt: HostRuntime) -> Result<(), Fail> {
    assert!(rt; insert_and_read(rt.alloc()) == Ok([7, 0, 1]));
    Ok(())
}

// examples/peterson.py searches the same protocol by a set of tuples: 20 states, and never both critical.
#[test]
fn peterson_has_twenty_states(rt: HostRuntime) -> Result<(), Fail> {
    let found = search_peterson(rt.alloc(), 6).expect(&rt, "it is searched to its end");
    let wanted = Found {
        states: 20,
        both_critical: false,
    };
    assert_eq!(rt; found, wanted);
    let full = search_peterson(rt.alloc(), 3);
    assert!(rt; matches!(full, Err(SearchError::Full)));
    Ok(())
}

#[test]
fn two_threads_find_the_same(rt: HostRuntime) -> Result<(), Fail> {
    let found = search_together(&rt, rt.alloc(), 6).expect(&rt, "it is searched to its end");
    assert!(rt; found.states == 20 && !found.both_critical);
    Ok(())
}

// What examples/peterson.py --hasty prints.
static PATH: [State; 7] = [
    [0, 0, 0, 0, 0],
    [0, 1, 0, 1, 0],
    [0, 2, 0, 1, 0],
    [0, 3, 0, 1, 0],
    [1, 3, 1, 1, 0],
    [2, 3, 1, 1, 0],
    [3, 3, 1, 1, 0],
];

#[test]
fn a_shortest_path_to_an_error_is_read_back(rt: HostRuntime) -> Result<(), Fail> {
    let none = path_to_error(&rt, rt.alloc(), Protocol::Peterson, 6).expect(
        &rt,
        "it is searched to its end",
    );
    assert!(rt; none.is_none());
    let path = path_to_error(&rt, rt.alloc(), Protocol::Hasty, 6)
        .expect(&rt, "it is searched to its end")
        .expect(&rt, "there is an error");
    assert!(rt; path.as_slice() == PATH.as_slice());
    Ok(())
}
