//! Inputs and devices that fail.
use super::{Devices, Ran, SOUND, run_on, run_plain_on, words_of};
use crate::run::run;
use std::alloc::Global;
use std::process::Abort;
use std::sync::Wait;
use std::test::Fail;
use std::thread::Threads;
use tdb_base::{NoGate, Sink, Source, Status, SureSink, SureSource};

#[test]
fn refuses_what_is_no_trace(rt: HostRuntime) -> Result<(), Fail> {
    let alloc = rt.alloc();
    for (input, note) in [
        ("", "treedb: no records\n"),
        (
            "1,2\n1\n",
            "treedb: record 2 has 1 fields, the first has 2\n",
        ),
        (
            "7\n",
            "treedb: record 1 has 1 fields, 2 to 1024 are allowed\n",
        ),
        (
            "x\n",
            "treedb: record 1 has 1 fields, 2 to 1024 are allowed\n",
        ),
        ("268435456,0\n", "treedb: record 1 field 1 is too big\n"),
        ("1,,2\n", "treedb: record 1 field 2 is not a number\n"),
        (
            "\"1,2\n",
            "treedb: record 1 has 1 fields, 2 to 1024 are allowed\n",
        ),
        (
            "1,2\n00000000001,2\n",
            "treedb: record 2 field 1 is not a number\n",
        ),
    ] {
        for mode in ["plain", "compact"] {
            let words = ["insert", "--mode", mode];
            let bytes = input.as_bytes().to_vec(alloc)?;
            let ran = run_on(&rt, alloc, &words, bytes, SOUND, &NoGate)?;
            assert_eq!(rt; ran.status, Status::BadTrace, "{input} in {mode} mode");
            assert!(rt; ran.text.bytes().is_empty(), "{input} in {mode} mode");
            assert_eq!(rt;
                ran.notes.bytes(),
                note.as_bytes(),
                "{input} in {mode} mode"
            );
        }
    }
    Ok(())
}

// A source of twelve bytes that gives one a call is read thirteen times: each read that fails ends the run,
// and there is no fourteenth.
#[test]
fn tells_of_each_failing_read(rt: HostRuntime) -> Result<(), Fail> {
    let alloc = rt.alloc();
    for mode in ["plain", "compact"] {
        let words = ["insert", "--mode", mode];
        for read in 1..15 {
            let devices = Devices {
                piece: 1,
                read,
                ..SOUND
            };
            let bytes = b"3,5\n5,3\n3,5\n".to_vec(alloc)?;
            let ran = run_on(&rt, alloc, &words, bytes, devices, &NoGate)?;
            if read == 14 {
                assert_eq!(rt; ran.status, Status::Done);
                assert!(rt; ran.notes.bytes().is_empty());
            } else {
                assert_eq!(rt; ran.status, Status::ReadFault);
                assert!(rt; ran.text.bytes().is_empty());
                assert_eq!(rt; ran.notes.bytes(), "treedb: read fault\n".as_bytes());
            }
        }
    }
    Ok(())
}

// What these words after the program's name do with a sink that takes one byte a call and whose n-th write
// fails: for each write of the text the run ends there, and the write isn't tried again; there is no further one.
pub(super) fn fail_each_write<R: Threads + Wait + Abort + Sync>(
    rt: &R,
    alloc: Global,
    words: &[&str],
    input: &[u8],
    text: &[u8],
) -> Result<(), Fail> {
    let past = text.len().saturating_add(1);
    for write in 1..past.saturating_add(1) {
        let devices = Devices {
            piece: 1,
            write: write as u64,
            ..SOUND
        };
        let ran = run_on(rt, alloc, words, input.to_vec(alloc)?, devices, &NoGate)?;
        if write == past {
            assert_eq!(rt; ran.status, Status::Done);
            assert_eq!(rt; ran.text.bytes(), text);
            assert!(rt; ran.notes.bytes().is_empty());
        } else {
            assert_eq!(rt; ran.status, Status::WriteFault);
            assert_eq!(rt; ran.text.bytes(), &text[..write - 1]);
            assert_eq!(rt; ran.notes.bytes(), "treedb: write fault\n".as_bytes());
        }
    }
    Ok(())
}

#[test]
fn tells_of_each_failing_write(rt: HostRuntime) -> Result<(), Fail> {
    let alloc = rt.alloc();
    for (mode, text) in [
        ("plain", "1,4,new\nlines 1\ndistinct 1\n".as_bytes()),
        ("compact", b"1,805306373,new\nlines 1\ndistinct 1\n"),
    ] {
        fail_each_write(&rt, alloc, &["insert", "--mode", mode], b"3,5", text)?;
    }

    // Pieces of four bytes, the second of which fails.
    let devices = Devices {
        piece: 4,
        write: 2,
        ..SOUND
    };
    let words = ["insert", "--mode", "compact"];
    let ran = run_on(&rt, alloc, &words, b"3,5".to_vec(alloc)?, devices, &NoGate)?;
    assert_eq!(rt; ran.status, Status::WriteFault);
    assert_eq!(rt; ran.text.bytes(), "1,80".as_bytes());

    // A fault of the sink is the answer where lines are full, too.
    let devices = Devices { write: 1, ..SOUND };
    let words = ["insert", "--roots", "3"];
    let input = b"0,0\n0,1\n0,2\n0,3\n0,4\n0,5\n0,6\n0,7\n0,8\n";
    let ran = run_on(&rt, alloc, &words, input.to_vec(alloc)?, devices, &NoGate)?;
    assert_eq!(rt; ran.status, Status::WriteFault);
    assert!(rt; ran.text.bytes().is_empty());
    Ok(())
}

// What comes first is the answer, and what stands behind it isn't called: a device whose first call fails
// does so after the run.
#[test]
fn calls_nothing_behind_a_refusal(rt: HostRuntime) -> Result<(), Fail> {
    let alloc = rt.alloc();
    let devices = Devices {
        read: 1,
        write: 1,
        ..SOUND
    };
    let words = ["insert", "--mode", "fast"];
    let ran = run_on(
        &rt,
        alloc,
        &words,
        b"3,5\n".to_vec(alloc)?,
        devices,
        &NoGate,
    )?;
    assert_eq!(rt; ran.status, Status::Usage);
    let Ran {
        mut source,
        mut text,
        ..
    } = ran;
    assert!(rt; source.read(&mut [0; 1]).is_err());
    assert!(rt; text.write(b"x").is_err());

    let devices = Devices { write: 1, ..SOUND };
    let ran = run_on(
        &rt,
        alloc,
        &["insert"],
        b"1,x".to_vec(alloc)?,
        devices,
        &NoGate,
    )?;
    assert_eq!(rt; ran.status, Status::BadTrace);
    let Ran { mut text, .. } = ran;
    assert!(rt; text.write(b"x").is_err());
    Ok(())
}

// Devices that can't fail.
#[test]
fn needs_no_device_that_fails(rt: HostRuntime) -> Result<(), Fail> {
    let alloc = rt.alloc();
    for mode in ["plain", "compact"] {
        let words = words_of(alloc, &["insert", "--mode", mode])?;
        let mut source = SureSource::new(b"0,0\n".to_vec(alloc)?);
        let mut text = SureSink::new();
        let mut notes = SureSink::new();
        let status = run(
            &rt,
            alloc,
            &words,
            &mut source,
            &mut text,
            &mut notes,
            &NoGate,
        );
        assert_eq!(rt; status, Status::Done);
    }
    Ok(())
}

#[test]
fn refuses_a_field_that_is_no_text(rt: HostRuntime) -> Result<(), Fail> {
    let alloc = rt.alloc();
    let ran = run_on(
        &rt,
        alloc,
        &["insert"],
        b"1,\xff\n".to_vec(alloc)?,
        SOUND,
        &NoGate,
    )?;
    assert_eq!(rt; ran.status, Status::BadTrace);
    assert!(rt; ran.text.bytes().is_empty());
    assert_eq!(rt;
        ran.notes.bytes(),
        "treedb: record 1 field 2 is not a number\n".as_bytes()
    );
    Ok(())
}

// Notes that fail take a front of the note, and the run is answered as if they hadn't.
#[test]
fn passes_over_failing_notes(rt: HostRuntime) -> Result<(), Fail> {
    let alloc = rt.alloc();
    let note = b"treedb: record 1 field 1 is not a number\n";
    for fault in 1..10 {
        let devices = Devices {
            piece: 3,
            note: fault,
            ..SOUND
        };
        let bytes = b"x,1\n".to_vec(alloc)?;
        let ran = run_plain_on(&rt, alloc, &["insert"], bytes, devices, &NoGate)?;
        assert_eq!(rt; ran.status, Status::BadTrace);
        assert!(rt; ran.text.bytes().is_empty());
        assert_eq!(rt; ran.notes.bytes(), &note[..(fault as usize - 1) * 3]);
    }
    let devices = Devices { note: 1, ..SOUND };
    let ran = run_on(&rt, alloc, &["insert"], Vec::new(alloc), devices, &NoGate)?;
    assert_eq!(rt; ran.status, Status::BadTrace);
    assert!(rt; ran.text.bytes().is_empty());
    assert!(rt; ran.notes.bytes().is_empty());
    Ok(())
}

#[test]
fn refuses_too_much(rt: HostRuntime) -> Result<(), Fail> {
    let alloc = rt.alloc();

    // A faulty first line doesn't end the reading: it is too much all the same.
    let mut input = vec![in alloc; b'0'; 67_108_865]?;
    assert!(rt; input.len() == 67_108_865);
    input[1] = b'\n';
    let devices = Devices {
        piece: 1 << 20,
        ..SOUND
    };
    let ran = run_on(&rt, alloc, &["insert"], input, devices, &NoGate)?;
    assert_eq!(rt; ran.status, Status::TooMuch);
    assert!(rt; ran.text.bytes().is_empty());
    assert_eq!(rt;
        ran.notes.bytes(),
        "treedb: input is over 67108864 bytes\n".as_bytes()
    );
    Ok(())
}
