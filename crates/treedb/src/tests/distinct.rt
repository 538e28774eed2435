//! `distinct` over bytes in memory: what it writes, and with which status it ends.
ghost use Rattle.std.specs.Prelude.{◌<◌};

use crate::run::run_plain;
use std::alloc::Global;
use std::sync::Wait;
use std::test::Fail;
use std::thread::Threads;
use tdb_base::{MemSink, MemSource, NoGate, Status};

// `distinct` over bytes in memory with these further words: its status, and what the sink took.
fn distinct_of<R: Threads + Wait + Sync>(
    rt: &R,
    alloc: Global,
    words: &[&str],
    input: Vec<u8>,
    write: u64,
) -> Result<(Status, MemSink), Fail> {
    let mut all = vec![in alloc; "treedb".to_string(alloc)?, "distinct".to_string(alloc)?]?;
    for word in words {
        all.push(word.to_string(alloc)?)?;
    }
    let mut source = MemSource::new(input, Vec::new(alloc), 7);
    let mut sink = MemSink::new(alloc, 1 << 16, vec![in alloc; write]?, 5)?;
    let mut notes = MemSink::new(alloc, 64, Vec::new(alloc), 64)?;
    let status = run_plain(rt, alloc, &all, &mut source, &mut sink, &mut notes, &NoGate);
    Ok((status, sink))
}

#[test]
fn prints_each_vector_once_in_rising_order(rt: HostRuntime) -> Result<(), Fail> {
    let alloc = rt.alloc();
    for (words, input, text) in [
        ([].as_slice(), "3,5\n5,3\n3,5\n", "3,5\n5,3\n"),
        (&[], "5,3\n3,5", "3,5\n5,3\n"),
        (
            &["--workers", "8", "--block", "1"],
            "7,1,2\n0,9,9\n7,1,0\n0,9,9\n7,0,5\n7,1,2\n0,0,1\n",
            "0,0,1\n0,9,9\n7,0,5\n7,1,0\n7,1,2\n",
        ),
        (&[], "10,0\n9,0\n100,0\n", "9,0\n10,0\n100,0\n"),
        (
            &["--profile", "31"],
            "2147483647,0\n0,2147483647\n",
            "0,2147483647\n2147483647,0\n",
        ),
    ] {
        let (status, sink) = distinct_of(&rt, alloc, words, input.as_bytes().to_vec(alloc)?, 0)?;
        assert_eq!(rt; status, Status::Done, "{input}");
        assert_eq!(rt; sink.bytes(), text.as_bytes(), "{input}");
    }
    Ok(())
}

// The pairs of 0 and the numbers below `count`, from the last one down or from the first one up.
fn pairs_below(alloc: Global, count: u32, rising: bool) -> Result<Vec<u8>, Fail> {
    let mut text = Vec::new(alloc);
    for i in 0..count {
        let number = if rising { i } else { count - 1 - i };
        let line = format!(in alloc; "0,{number}\n")?;
        text.extend_from_slice(line.as_bytes())?;
    }
    Ok(text)
}

#[test]
fn prints_thousands_of_vectors(rt: HostRuntime) -> Result<(), Fail> {
    let alloc = rt.alloc();
    let rising = pairs_below(alloc, 6000, true)?;
    for words in [[].as_slice(), &["--workers", "5", "--block", "3"]] {
        let mut input = pairs_below(alloc, 6000, false)?;
        input.extend_from_slice(&rising)?;
        let (status, sink) = distinct_of(&rt, alloc, words, input, 0)?;
        assert_eq!(rt; status, Status::Done);
        assert_eq!(rt; sink.bytes(), rising.as_slice());
    }
    Ok(())
}

#[test]
fn prints_what_was_named_where_the_store_is_full(rt: HostRuntime) -> Result<(), Fail> {
    let alloc = rt.alloc();
    let input = b"0,8\n0,7\n0,6\n0,5\n0,4\n0,3\n0,2\n0,1\n0,0\n".to_vec(alloc)?;
    let (status, sink) = distinct_of(&rt, alloc, &["--roots", "3"], input, 0)?;
    assert_eq!(rt; status, Status::Full);

    // The store has eight roots, so the last line finds none.
    let text = b"0,1\n0,2\n0,3\n0,4\n0,5\n0,6\n0,7\n0,8\n";
    assert_eq!(rt; sink.bytes(), text.as_slice());
    Ok(())
}

#[test]
fn refuses_no_lines_and_tells_of_faults(rt: HostRuntime) -> Result<(), Fail> {
    let alloc = rt.alloc();
    let (status, sink) = distinct_of(&rt, alloc, &[], Vec::new(alloc), 0)?;
    assert_eq!(rt; status, Status::BadTrace);
    assert!(rt; sink.bytes().is_empty());

    let (status, sink) = distinct_of(&rt, alloc, &[], b"5,3\n3,5\n".to_vec(alloc)?, 2)?;
    assert_eq!(rt; status, Status::WriteFault);
    assert_eq!(rt; sink.bytes(), b"3,5\n5".as_slice());
    Ok(())
}
