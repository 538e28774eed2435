//! The program over bytes in memory: what it answers, writes and notes. The identifiers in plain mode were
//! computed apart from the program, by a script of the hash, the probe path and the tree.
ghost use Rattle.std.specs.Prelude.{◌<◌};

mod changed;
mod checks;
mod claims;
mod compact;
mod distinct;
mod faults;
mod marks;
mod notes;
mod schedules;
mod signed;

use crate::run::{run, run_plain};
use command_line::USAGE;
use std::alloc::Global;
use std::sync::Wait;
use std::test::Fail;
use std::thread::Threads;
use tdb_base::{Gate, MemSink, MemSource, NoGate, Status};

// How a run's source, sink and notes behave: their bytes at a call, and the call that fails (0: none).
#[derive(Clone, Copy)]
struct Devices {
    piece: usize,
    read: u64,
    write: u64,
    note: u64,
}

// Devices that don't fail.
const SOUND: Devices = Devices {
    piece: 7,
    read: 0,
    write: 0,
    note: 0,
};

// What a run answered, what it left of its source, and what its sink and its notes took.
#[derive(Drop)]
struct Ran {
    status: Status,
    source: MemSource,
    text: MemSink,
    notes: MemSink,
}

// The words of a command line, the program's name first.
fn words_of(alloc: Global, words: &[&str]) -> Result<Vec<String>, Fail> {
    let mut all = vec![in alloc; "treedb".to_string(alloc)?]?;
    for word in words {
        all.push(word.to_string(alloc)?)?;
    }
    Ok(all)
}

// A sink of so much room.
fn sink_of(alloc: Global, room: usize, piece: usize, fails: u64) -> Result<MemSink, Fail>
    requires { 0 < piece }
{
    Ok(MemSink::new(alloc, room, vec![in alloc; fails]?, piece)?)
}

// What these words after the program's name do.
fn run_on<R: Threads + Wait + Sync, G: Gate>(
    rt: &R,
    alloc: Global,
    words: &[&str],
    input: Vec<u8>,
    devices: Devices,
    gate: &G,
) -> Result<Ran, Fail>
    requires { 0 < devices.piece }
{
    let mut source = MemSource::new(input, vec![in alloc; devices.read]?, devices.piece);
    let mut text = sink_of(alloc, 1 << 17, devices.piece, devices.write)?;
    let mut notes = sink_of(alloc, 512, devices.piece, devices.note)?;
    let words = words_of(alloc, words)?;
    let status = run(rt, alloc, &words, &mut source, &mut text, &mut notes, gate);
    Ok(Ran {
        status,
        source,
        text,
        notes,
    })
}

// What they do in plain mode.
fn run_plain_on<R: Threads + Sync, G: Gate>(
    rt: &R,
    alloc: Global,
    words: &[&str],
    input: Vec<u8>,
    devices: Devices,
    gate: &G,
) -> Result<Ran, Fail>
    requires { 0 < devices.piece }
{
    let mut source = MemSource::new(input, vec![in alloc; devices.read]?, devices.piece);
    let mut text = sink_of(alloc, 1 << 17, devices.piece, devices.write)?;
    let mut notes = sink_of(alloc, 512, devices.piece, devices.note)?;
    let words = words_of(alloc, words)?;
    let status = run_plain(rt, alloc, &words, &mut source, &mut text, &mut notes, gate);
    Ok(Ran {
        status,
        source,
        text,
        notes,
    })
}

#[test]
fn answers_traces_in_plain_mode(rt: HostRuntime) -> Result<(), Fail> {
    let alloc = rt.alloc();
    for (words, input, text) in [
        (
            ["insert"].as_slice(),
            "0,0\n",
            "1,0,new\nlines 1\ndistinct 1\n",
        ),
        (
            &["insert", "--profile", "16"],
            "3,5\n5,3\n3,5\n",
            "1,0,new\n2,6,new\n3,0,seen\nlines 3\ndistinct 2\n",
        ),
        (
            &["insert", "--mode", "plain"],
            "3,5\n5,3\n3,5\n",
            "1,4,new\n2,7,new\n3,4,seen\nlines 3\ndistinct 2\n",
        ),
        (
            &["insert", "--profile", "31"],
            "3,5\n5,3\n3,5",
            "1,4,new\n2,0,new\n3,4,seen\nlines 3\ndistinct 2\n",
        ),
        (
            &["insert"],
            "\"1\",\" 2 \"\r\n1,2\r\n\n",
            "1,6,new\n2,6,seen\nlines 2\ndistinct 1\n",
        ),
        (
            &["insert", "--stats"],
            "0,0,0,0,0\n",
            "1,0,new\nlines 1\ndistinct 1\nnodes 1\nstored 16\nraw 20\n",
        ),
        (
            &["insert"],
            "5,0,0\n6,0,0\n6,0,1\n",
            "1,1,new\n2,2,new\n3,4,new\nlines 3\ndistinct 3\n",
        ),
        (
            &["insert", "--profile", "16", "--stats"],
            "0,0,0,0\n0,1,0,0\n0,1,1,0\n0,0,1,0\n0,0,0,0\n",
            "1,0,new\n2,1,new\n3,2,new\n4,5,new\n5,0,seen\nlines 5\ndistinct 4\nnodes 3\nstored 56\nraw 64\n",
        ),
    ] {
        let bytes = input.as_bytes().to_vec(alloc)?;
        let ran = run_on(&rt, alloc, words, bytes, SOUND, &NoGate)?;
        assert_eq!(rt; ran.status, Status::Done, "{input}");
        assert_eq!(rt; ran.text.bytes(), text.as_bytes(), "{input}");
        assert!(rt; ran.notes.bytes().is_empty(), "{input}");

        let bytes = input.as_bytes().to_vec(alloc)?;
        let ran = run_plain_on(&rt, alloc, words, bytes, SOUND, &NoGate)?;
        assert_eq!(rt; ran.status, Status::Done, "{input}");
        assert_eq!(rt; ran.text.bytes(), text.as_bytes(), "{input}");
        assert!(rt; ran.notes.bytes().is_empty(), "{input}");
    }
    Ok(())
}

#[test]
fn tells_of_full_tables(rt: HostRuntime) -> Result<(), Fail> {
    let alloc = rt.alloc();
    for (words, input, text, note) in [
        (
            ["insert", "--nodes", "3"].as_slice(),
            "0,1,2,3\n4,5,6,7\n8,9,10,11\n12,13,14,15\n16,17,18,19\n0,1,2,3\n16,17,18,19\n0,1,6,7\n",
            "1,6,new\n2,1,new\n3,7,new\n4,4,new\n5,,full-nodes\n6,6,seen\n7,,full-nodes\n8,5,new\nlines 8\ndistinct 5\n",
            "treedb: 2 lines full\n",
        ),
        (
            &["insert", "--nodes", "3", "--stats"],
            "0,1,2,3\n4,5,6,7\n8,9,10,11\n12,13,14,15\n16,17,18,19\n0,1,2,3\n16,17,18,19\n0,1,6,7\n",
            "1,6,new\n2,1,new\n3,7,new\n4,4,new\n5,,full-nodes\n6,6,seen\n7,,full-nodes\n8,5,new\nlines 8\ndistinct 5\nnodes 8\nstored 104\nraw 80\n",
            "treedb: 2 lines full\n",
        ),
        (
            &["insert", "--roots", "3"],
            "0,0\n0,1\n0,2\n0,3\n0,4\n0,5\n0,6\n0,7\n0,8\n",
            "1,0,new\n2,3,new\n3,6,new\n4,7,new\n5,2,new\n6,1,new\n7,4,new\n8,5,new\n9,,full-roots\nlines 9\ndistinct 8\n",
            "treedb: 1 lines full\n",
        ),
    ] {
        let bytes = input.as_bytes().to_vec(alloc)?;
        let ran = run_on(&rt, alloc, words, bytes, SOUND, &NoGate)?;
        assert_eq!(rt; ran.status, Status::Full, "{input}");
        assert_eq!(rt; ran.text.bytes(), text.as_bytes(), "{input}");
        assert_eq!(rt; ran.notes.bytes(), note.as_bytes(), "{input}");
    }
    Ok(())
}

#[test]
fn draws_lines_and_reads_none(rt: HostRuntime) -> Result<(), Fail> {
    let alloc = rt.alloc();
    for (words, text) in [
        (
            ["bench", "--lines", "10", "--values", "1"].as_slice(),
            "lines 10\ndistinct 1\n",
        ),
        (&["bench", "--lines", "1"], "lines 1\ndistinct 1\n"),
        (
            &[
                "bench", "--lines", "10", "--values", "1", "--slots", "5", "--stats",
            ],
            "lines 10\ndistinct 1\nnodes 1\nstored 16\nraw 20\n",
        ),
    ] {
        let broken = Devices { read: 1, ..SOUND };
        let ran = run_on(&rt, alloc, words, b"x".to_vec(alloc)?, broken, &NoGate)?;
        assert_eq!(rt; ran.status, Status::Done);
        assert_eq!(rt; ran.text.bytes(), text.as_bytes());
        assert!(rt; ran.notes.bytes().is_empty());
    }
    Ok(())
}

#[test]
fn takes_no_other_words(rt: HostRuntime) -> Result<(), Fail> {
    let alloc = rt.alloc();
    for words in [
        [].as_slice(),
        &["insert", "--mode", "fast"],
        &["insert", "--profile", "16", "--nodes", "17"],
        &["insert", "--mode", "compact", "--roots", "5"],
        &["bench", "--lines", "65536", "--slots", "1024"],
        &["insert", "--workers", "65"],
        &["--mode", "plain"],
        &["insert", "--mode=fast"],
        &[
            "insert", "--mode", "compact", "--roots", "6", "--region", "7",
        ],
    ] {
        let broken = Devices {
            read: 1,
            write: 1,
            ..SOUND
        };
        let ran = run_on(&rt, alloc, words, b"3,5\n".to_vec(alloc)?, broken, &NoGate)?;
        assert_eq!(rt; ran.status, Status::Usage);
        assert!(rt; ran.text.bytes().is_empty());
        assert_eq!(rt; ran.notes.bytes(), USAGE.as_bytes());
    }
    let words = ["insert", "--mode", "compact"];
    let ran = run_plain_on(&rt, alloc, &words, b"3,5\n".to_vec(alloc)?, SOUND, &NoGate)?;
    assert_eq!(rt; ran.status, Status::Usage);
    assert!(rt; ran.text.bytes().is_empty());
    assert_eq!(rt; ran.notes.bytes(), USAGE.as_bytes());
    Ok(())
}
