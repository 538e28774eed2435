//! Whole texts over sinks that fail.
use super::write_text;
use crate::WriteFault;
use std::test::Fail;
use tdb_base::MemSink;

#[test]
fn a_text_is_written_whole_or_up_to_a_fault(rt: HostRuntime) -> Result<(), Fail> {
    let alloc = rt.alloc();
    for (fault, want, taken) in [
        (0, Ok(()), "a line\n"),
        (1, Err(WriteFault), ""),
        (4, Err(WriteFault), "a line"),
    ] {
        let mut sink = MemSink::new(alloc, 16, vec![in alloc; fault]?, 2)?;
        assert_eq!(rt; write_text(b"a line\n", &mut sink), want);
        assert_eq!(rt; sink.bytes(), taken.as_bytes());
    }
    Ok(())
}
