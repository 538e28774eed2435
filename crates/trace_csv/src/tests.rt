//! Inputs, drawn traces and texts, with values from outside.

use crate::{
    InError, Stats, Summary, TraceError, WriteFault, generate, read_all, write_drawn, write_marks,
    write_report, write_signed, write_summary, write_vectors,
};
use std::alloc::Global;
use std::process::Abort;
use std::test::Fail;
use tdb_base::{MemSink, MemSource, Reply, SureSource};

#[test]
fn inputs_are_read_to_their_end(rt: HostRuntime) -> Result<(), Fail> {
    let alloc = rt.alloc();
    let mut source = MemSource::new(b"3,5\n".to_vec(alloc)?, Vec::new(alloc), 2);
    let all = read_all(alloc, &mut source).expect(&rt, "no call fails");
    assert_eq!(rt; all.as_slice(), b"3,5\n".as_slice());
    let mut source = MemSource::new(b"3,5\n".to_vec(alloc)?, vec![in alloc; 3u64]?, 2);
    assert!(rt; matches!(read_all(alloc, &mut source), Err(InError::ReadFault)));
    let mut source = MemSource::new(vec![in alloc; b'0'; 100_000]?, Vec::new(alloc), 1);
    let all = read_all(alloc, &mut source).expect(&rt, "a byte at a time");
    assert_eq!(rt; all.len(), 100_000);
    let mut source = SureSource::new(vec![in alloc; b'0'; 67_108_864]?);
    let all = read_all(alloc, &mut source).expect(&rt, "the limit");
    assert_eq!(rt; all.len(), 67_108_864);
    let mut source = SureSource::new(vec![in alloc; b'0'; 67_108_865]?);
    assert!(rt; matches!(read_all(alloc, &mut source), Err(InError::TooMuch)));
    Ok(())
}

#[test]
fn reports_are_written(rt: HostRuntime) -> Result<(), Fail> {
    let alloc = rt.alloc();
    let replies = [
        Reply::New(805306373),
        Reply::New(18446744073709551615),
        Reply::Seen(805306373),
        Reply::FullNodes,
        Reply::FullRoots,
    ];
    let summary = Summary {
        lines: 5,
        distinct: 2,
        stats: Some(Stats {
            nodes: 0,
            stored: 15,
            raw: 16,
        }),
    };
    let text =
        b"1,805306373,new\n2,18446744073709551615,new\n3,805306373,seen\n4,,full-nodes\n5,,full-roots\nlines 5\ndistinct 2\nnodes 0\nstored 15\nraw 16\n";
    let mut sink = MemSink::new(alloc, 1000, Vec::new(alloc), 7)?;
    assert!(rt; write_report(&replies, &summary, &mut sink).is_ok());
    assert_eq!(rt; sink.bytes(), text.as_slice());
    let text =
        b"1,805306373,new,63\n2,18446744073709551615,new,0\n3,805306373,seen,4294967295\n4,,full-nodes,7\n5,,full-roots,0\nlines 5\ndistinct 2\nnodes 0\nstored 15\nraw 16\n";
    let mut sink = MemSink::new(alloc, 1000, Vec::new(alloc), 7)?;
    let workers = [63, 0, 4294967295, 7, 0];
    assert!(rt; write_drawn(&replies, &workers, &summary, &mut sink).is_ok());
    assert_eq!(rt; sink.bytes(), text.as_slice());
    let mut sink = MemSink::new(alloc, 1000, vec![in alloc; 4u64]?, 6)?;
    assert!(rt; write_drawn(&replies, &workers, &summary, &mut sink) == Err(WriteFault));
    assert_eq!(rt; sink.bytes(), b"1,805306373,new,63".as_slice());
    let text =
        b"1,805306373,new,first\n2,18446744073709551615,new,first\n3,805306373,seen,again\n4,,full-nodes\n5,,full-roots\nlines 5\ndistinct 2\nmarked 2\nnodes 0\nstored 15\nraw 16\n";
    let first = [true, true, false, true, false];
    let mut sink = MemSink::new(alloc, 1000, Vec::new(alloc), 7)?;
    assert!(rt; write_marks(&replies, &first, &summary, &mut sink).is_ok());
    assert_eq!(rt; sink.bytes(), text.as_slice());
    let mut sink = MemSink::new(alloc, 1000, vec![in alloc; 4u64]?, 7)?;
    assert!(rt; write_marks(&replies, &first, &summary, &mut sink) == Err(WriteFault));
    assert_eq!(rt; sink.bytes(), b"1,805306373,new,first".as_slice());
    let mut sink = MemSink::new(alloc, 1000, Vec::new(alloc), 1000)?;
    let bare = Summary {
        lines: 10,
        distinct: 1,
        stats: None,
    };
    assert!(rt; write_summary(&bare, &mut sink).is_ok());
    assert_eq!(rt; sink.bytes(), b"lines 10\ndistinct 1\n".as_slice());
    let mut sink = MemSink::new(alloc, 1000, vec![in alloc; 2u64]?, 4)?;
    assert!(rt; write_report(&replies, &summary, &mut sink) == Err(WriteFault));
    assert_eq!(rt; sink.bytes(), b"1,80".as_slice());
    Ok(())
}

// How many lines, slots and values, the seed, and the numbers of all lines.
type Drawn = (u64, usize, u64, u64, &'static [u32]);

static DRAWN: [Drawn; 4] = [
    (1, 2, 4, 1, &[0, 0]),
    (5, 2, 5, 0, &[0, 0, 0, 2, 0, 1, 0, 0, 4, 0]),
    (
        7,
        3,
        65536,
        18446744073709551615,
        &[
            0, 0, 0, 33659, 0, 0, 40286, 0, 0, 40286, 0, 40885, 40286, 0, 52580, 63263, 0, 52580,
            63263, 0, 19124,
        ],
    ),
    (
        8,
        8,
        4,
        1,
        &[
            0, 0, 0, 0, 0, 0, 0, 0, 0, 0, 0, 0, 0, 0, 0, 0, 0, 0, 0, 0, 0, 0, 0, 2, 0, 0, 0, 0, 0,
            0, 0, 2, 0, 0, 0, 2, 0, 0, 0, 2, 2, 0, 0, 2, 0, 0, 0, 2, 1, 0, 0, 2, 0, 0, 0, 2, 1, 0,
            0, 2, 0, 2, 0, 2,
        ],
    ),
];

// The numbers of all lines of a drawn trace.
fn drawn(
    rt: &impl Abort,
    alloc: Global,
    lines: u64,
    slots: usize,
    values: u64,
    seed: u64,
) -> Result<Vec<u32>, Fail> {
    assert!(rt; 1 <= lines && lines <= 1000 && 2 <= slots && slots <= 16);
    assert!(rt; 1 <= values && values <= 65536);
    let trace = generate(alloc, lines, slots, values, seed)?;
    assert_eq!(rt; trace.len(), lines);
    let mut numbers = Vec::new(alloc);
    for i in 0..trace.len() {
        assert_eq!(rt; trace.line(i).len(), slots);
        numbers.extend_from_slice(trace.line(i))?;
    }
    Ok(numbers)
}

#[test]
fn traces_are_drawn(rt: HostRuntime) -> Result<(), Fail> {
    let alloc = rt.alloc();
    for i in 0..DRAWN.len() {
        let (lines, slots, values, seed, numbers) = DRAWN[i];
        let all = drawn(&rt, alloc, lines, slots, values, seed)?;
        assert_eq!(rt; all.as_slice(), numbers);
    }
    let zeros = drawn(&rt, alloc, 10, 8, 1, 1)?;
    assert_eq!(rt; zeros.as_slice(), [0; 80].as_slice());
    let last = drawn(&rt, alloc, 1000, 8, 4, 1)?;
    assert!(rt; last.len() == 8000);
    assert_eq!(rt; &last[7992..], [3, 3, 2, 2, 1, 2, 1, 1].as_slice());
    Ok(())
}

#[test]
fn vectors_are_written(rt: HostRuntime) -> Result<(), Fail> {
    let alloc = rt.alloc();
    let flat = [5, 3, 7, 0, 4294967295, 10, 3, 5, 0];
    let text = b"3,5,0\n5,3,7\n0,4294967295,10\n5,3,7\n";
    let mut sink = MemSink::new(alloc, 1000, Vec::new(alloc), 7)?;
    assert!(rt; write_vectors(3, &flat, &[2, 0, 1, 0], &mut sink).is_ok());
    assert_eq!(rt; sink.bytes(), text.as_slice());
    let mut sink = MemSink::new(alloc, 1000, vec![in alloc; 3u64]?, 5)?;
    assert!(rt; write_vectors(3, &flat, &[2, 0, 1, 0], &mut sink) == Err(WriteFault));
    assert_eq!(rt; sink.bytes(), b"3,5,0\n5,3,".as_slice());
    let mut sink = MemSink::new(alloc, 1000, Vec::new(alloc), 7)?;
    assert!(rt; write_vectors(2, &flat, &[], &mut sink).is_ok());
    assert!(rt; sink.bytes().is_empty());
    Ok(())
}

#[test]
fn signed_vectors_are_written(rt: HostRuntime) -> Result<(), Fail> {
    let alloc = rt.alloc();
    let flat = [65535, 65535, 0, 0, 32768, 0, 32767, 65535, 0, 10, 65535, 0];
    let text = b"-2147483648,2147483647\n-1,0\n10,-65536\n-1,0\n";
    let mut sink = MemSink::new(alloc, 1000, Vec::new(alloc), 7)?;
    assert!(rt; write_signed(4, &flat, &[1, 0, 2, 0], &mut sink).is_ok());
    assert_eq!(rt; sink.bytes(), text.as_slice());
    let mut sink = MemSink::new(alloc, 1000, vec![in alloc; 3u64]?, 5)?;
    assert!(rt; write_signed(4, &flat, &[1, 0, 2, 0], &mut sink) == Err(WriteFault));
    assert_eq!(rt; sink.bytes(), b"-214748364".as_slice());
    let mut sink = MemSink::new(alloc, 1000, Vec::new(alloc), 7)?;
    assert!(rt; write_signed(6, &flat, &[1], &mut sink).is_ok());
    assert_eq!(rt; sink.bytes(), b"2147483647,10,-65536\n".as_slice());
    Ok(())
}

#[test]
fn long_texts_are_written_in_pages(rt: HostRuntime) -> Result<(), Fail> {
    let alloc = rt.alloc();
    let flat = [123456789u32; 1024];
    let mut text = Vec::new(alloc);
    for i in 0..3072 {
        text.extend_from_slice(b"123456789")?;
        text.push(if i % 1024 == 1023 { b'\n' } else { b',' })?;
    }
    let mut sink = MemSink::new(alloc, 40000, Vec::new(alloc), 40000)?;
    assert!(rt; write_vectors(1024, &flat, &[0, 0, 0], &mut sink).is_ok());
    assert_eq!(rt; sink.bytes(), text.as_slice());
    Ok(())
}

#[test]
fn errors_tell_what_is_wrong(rt: HostRuntime) -> Result<(), Fail> {
    let alloc = rt.alloc();
    assert!(rt;
        TraceError::NotANumber(3, 2).to_string(alloc)?.as_str()
            == "record 3 field 2 is not a number"
    );
    assert!(rt;
        TraceError::TooBig(1, 2).to_string(alloc)?.as_str() == "record 1 field 2 is too big"
    );
    assert!(rt;
        TraceError::Ragged(2, 1, 4).to_string(alloc)?.as_str()
            == "record 2 has 1 fields, the first has 4"
    );
    assert!(rt;
        TraceError::Length(1, 7).to_string(alloc)?.as_str()
            == "record 1 has 7 fields, too few or too many"
    );
    assert!(rt; TraceError::NoRecords.to_string(alloc)?.as_str() == "no records");
    assert!(rt; TraceError::NoMemory.to_string(alloc)?.as_str() == "no memory");
    assert!(rt; InError::ReadFault.to_string(alloc)?.as_str() == "a read failed");
    assert!(rt; InError::TooMuch.to_string(alloc)?.as_str() == "input is over 67108864 bytes");
    assert!(rt; WriteFault.to_string(alloc)?.as_str() == "a write failed");
    assert!(rt; InError::NoMemory.to_string(alloc)?.as_str() == "no memory");
    Ok(())
}
