//! What the sinks in memory take, write by write.

use super::{MemSink, Sink, SureSink};
use crate::tests::takes;
use std::test::Fail;

#[test]
fn sinks_take_what_fits_and_fail_when_full(rt: HostRuntime) -> Result<(), Fail> {
    let alloc = rt.alloc();
    let mut sink = MemSink::new(alloc, 3, vec![in alloc; 2u64]?, 2)?;
    takes(&rt, &mut sink, b"abcd", Some(2));
    assert!(rt; !sink.settled);
    takes(&rt, &mut sink, b"cd", None);
    assert!(rt; sink.faults == 1);
    takes(&rt, &mut sink, b"cd", Some(1));
    takes(&rt, &mut sink, b"d", None);
    assert!(rt; sink.faults == 2);
    assert!(rt; sink.finish().is_ok());
    takes(&rt, &mut sink, b"", Some(0));
    assert!(rt; sink.settled);
    assert!(rt; sink.bytes() == b"abc".as_slice());

    let mut sure = SureSink::new();
    takes(&rt, &mut sure, b"", Some(0));
    assert!(rt; sure.settled);
    takes(&rt, &mut sure, b"abc", Some(3));
    assert!(rt; !sure.settled);
    assert!(rt; sure.finish().is_ok());
    assert!(rt; sure.settled);
    Ok(())
}
