//! Signed traces over bytes in memory: each number is kept as two slots of 16 bits.

use super::{SOUND, run_on};
use std::alloc::Global;
use std::process::Abort;
use std::sync::Wait;
use std::test::Fail;
use std::thread::Threads;
use tdb_base::{NoGate, Status};

// What these words do with an input: the status, and that the text and the note are these.
fn assert_ends<R: Threads + Wait + Sync + Abort>(
    rt: &R,
    alloc: Global,
    words: &[&str],
    input: &str,
    status: Status,
    text: &str,
    note: &str,
) -> Result<(), Fail> {
    let bytes = input.as_bytes().to_vec(alloc)?;
    let ran = run_on(rt, alloc, words, bytes, SOUND, &NoGate)?;
    assert_eq!(rt; ran.status, status, "{input}");
    assert_eq!(rt; ran.text.bytes(), text.as_bytes(), "{input}");
    assert_eq!(rt; ran.notes.bytes(), note.as_bytes(), "{input}");
    Ok(())
}

#[test]
fn answers_signed_traces_in_both_modes(rt: HostRuntime) -> Result<(), Fail> {
    let alloc = rt.alloc();
    for (words, input, text) in [
        (
            ["insert", "--mode", "compact", "--profile", "16", "--signed"].as_slice(),
            "-1,0\n0,-1\n-1,0\n",
            "1,262144,new\n2,4,new\n3,262144,seen\nlines 3\ndistinct 2\n",
        ),
        (
            &["distinct", "--signed"],
            "0,0\n-1,0\n1,0\n",
            "-1,0\n0,0\n1,0\n",
        ),
        (
            &["distinct", "--mode", "compact", "--signed"],
            "0,0\n-1,0\n1,0\n",
            "-1,0\n0,0\n1,0\n",
        ),
        (
            &["distinct", "--signed", "--workers", "8", "--block", "1"],
            "2147483647,-5\n-2147483648,7\n-2147483648,-7\n 65536 , -65536 \n-0,0\n0,-0\n\"-10\",0\n-9,0\n",
            "-2147483648,-7\n-2147483648,7\n-10,0\n-9,0\n0,0\n65536,-65536\n2147483647,-5\n",
        ),
    ] {
        assert_ends(&rt, alloc, words, input, Status::Done, text, "")?;
    }
    Ok(())
}

// A signed run reports of its lines what a run that isn't signed reports of their halves, in each mode, but
// for the bytes of the vectors, of which it counts half: those of their numbers.
#[test]
fn reports_signed_lines_as_lines_of_halves(rt: HostRuntime) -> Result<(), Fail> {
    let alloc = rt.alloc();
    let signed = "-1,0\n65537,-65536\n-1,-0\n-2147483648,2147483647\n-1,1\n";
    let halves =
        "65535,65535,0,0\n1,1,65535,0\n65535,65535,0,0\n32768,0,32767,65535\n65535,65535,0,1\n";
    for mode in ["plain", "compact"] {
        for profile in ["16", "28", "31"] {
            let words = [
                "insert",
                "--mode",
                mode,
                "--profile",
                profile,
                "--stats",
                "--signed",
            ];
            let bytes = halves.as_bytes().to_vec(alloc)?;
            let unsigned = run_on(&rt, alloc, &words[..6], bytes, SOUND, &NoGate)?;
            let bytes = signed.as_bytes().to_vec(alloc)?;
            let ran = run_on(&rt, alloc, &words, bytes, SOUND, &NoGate)?;
            assert_eq!(rt; ran.status, Status::Done);
            let (Some(text), Some(other)) = (
                ran.text.bytes().strip_suffix(b"raw 32\n"),
                unsigned.text.bytes().strip_suffix(b"raw 64\n"),
            ) else {
                return Err(Fail::new("a report that doesn't end with its raw bytes"));
            };
            assert_eq!(rt; text, other);
        }
    }
    Ok(())
}

#[test]
fn takes_all_signed_numbers_and_no_others(rt: HostRuntime) -> Result<(), Fail> {
    let alloc = rt.alloc();
    let words = ["distinct", "--signed"];
    let ends = "-2147483648,2147483647\n";
    assert_ends(&rt, alloc, &words, ends, Status::Done, ends, "")?;
    for (input, note) in [
        (
            "2147483648,0\n",
            "treedb: record 1 field 1 is out of range\n",
        ),
        (
            "0,-2147483649\n",
            "treedb: record 1 field 2 is out of range\n",
        ),
        ("- 1,0\n", "treedb: record 1 field 1 is not a number\n"),
        ("+1,0\n", "treedb: record 1 field 1 is not a number\n"),
        ("--1,0\n", "treedb: record 1 field 1 is not a number\n"),
        ("1,-\n", "treedb: record 1 field 2 is not a number\n"),
        (
            "1\n",
            "treedb: record 1 has 1 fields, 2 to 512 are allowed\n",
        ),
        (
            "1,2\n1\n",
            "treedb: record 2 has 1 fields, the first has 2\n",
        ),
        ("", "treedb: no records\n"),
    ] {
        assert_ends(&rt, alloc, &words, input, Status::BadTrace, "", note)?;
    }
    Ok(())
}

// A line of so many fields that are all -1.
fn line_of(alloc: Global, fields: u32) -> Result<String, Fail> {
    let mut line = "-1".to_string(alloc)?;
    for _ in 1..fields {
        line.push_str(",-1")?;
    }
    line.push_str("\n")?;
    Ok(line)
}

#[test]
fn takes_512_fields_and_no_more(rt: HostRuntime) -> Result<(), Fail> {
    let alloc = rt.alloc();
    let words = ["distinct", "--signed"];
    let most = line_of(alloc, 512)?;
    assert_ends(&rt, alloc, &words, &most, Status::Done, &most, "")?;
    let more = line_of(alloc, 513)?;
    let note = "treedb: record 1 has 513 fields, 2 to 512 are allowed\n";
    assert_ends(&rt, alloc, &words, &more, Status::BadTrace, "", note)?;
    Ok(())
}

#[test]
fn marks_and_checks_signed_lines(rt: HostRuntime) -> Result<(), Fail> {
    let alloc = rt.alloc();
    for (words, input, status, text) in [
        (
            ["mark", "--signed", "--mode", "compact", "--profile", "16"].as_slice(),
            "-1,0\n0,-1\n-1,0\n",
            Status::Done,
            "1,262144,new,first\n2,4,new,first\n3,262144,seen,again\nlines 3\ndistinct 2\nmarked 2\n",
        ),
        (
            &["check", "--signed"],
            "-1,0\n0,-1\n-1,-0\n#\n1,7,new\n2,4,new\n3,7,seen\nlines 3\ndistinct 2\n",
            Status::Done,
            "yes\n",
        ),
        (
            &["check", "--signed"],
            "-1,0\n0,-1\n-1,-0\n#\n1,7,new\n2,4,new\n3,7,new\nlines 3\ndistinct 3\n",
            Status::Refuted,
            "no twice 1 3\n",
        ),
    ] {
        assert_ends(&rt, alloc, words, input, status, text, "")?;
    }
    Ok(())
}

// A job that reads no trace draws as it does without the flag, and without the flag a minus is no number.
#[test]
fn other_runs_are_as_they_were(rt: HostRuntime) -> Result<(), Fail> {
    let alloc = rt.alloc();
    let words = [
        "bench", "--lines", "10", "--values", "1", "--stats", "--signed",
    ];
    let drawn = "lines 10\ndistinct 1\nnodes 1\nstored 16\nraw 32\n";
    assert_ends(&rt, alloc, &words, "", Status::Done, drawn, "")?;
    let note = "treedb: record 1 field 2 is not a number\n";
    assert_ends(
        &rt,
        alloc,
        &["insert"],
        "1,-1\n",
        Status::BadTrace,
        "",
        note,
    )?;
    Ok(())
}
