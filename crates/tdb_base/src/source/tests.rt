//! What the sources in memory give, read by read.

use super::{MemSource, SureSource};
use crate::tests::gives;
use std::test::Fail;

#[test]
fn sources_give_what_fits_and_fail_without_a_byte(rt: HostRuntime) -> Result<(), Fail> {
    let alloc = rt.alloc();
    let mut source = MemSource::new(b"12345".to_vec(alloc)?, vec![in alloc; 3u64]?, 2);
    gives(&rt, &mut source, 8, Some(b"12"));
    gives(&rt, &mut source, 1, Some(b"3"));
    assert!(rt; source.faults == 0);
    gives(&rt, &mut source, 8, None);
    assert!(rt; source.faults == 1);
    gives(&rt, &mut source, 8, Some(b"45"));
    gives(&rt, &mut source, 8, Some(b""));
    assert!(rt; source.faults == 1);

    let mut listed = MemSource::new(b"3,5\n".to_vec(alloc)?, vec![in alloc; 3u64]?, 2);
    gives(&rt, &mut listed, 8, Some(b"3,"));
    gives(&rt, &mut listed, 8, Some(b"5\n"));
    gives(&rt, &mut listed, 8, None);
    gives(&rt, &mut listed, 8, Some(b""));

    let mut sure = SureSource::new(b"123".to_vec(alloc)?);
    gives(&rt, &mut sure, 0, Some(b""));
    gives(&rt, &mut sure, 2, Some(b"12"));
    gives(&rt, &mut sure, 8, Some(b"3"));
    gives(&rt, &mut sure, 8, Some(b""));
    Ok(())
}
