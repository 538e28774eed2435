//! Runs of one worker and of many, in several orders.
use super::{Devices, SOUND, run_on, run_plain_on};
use std::alloc::Global;
use std::test::Fail;
use tdb_base::{NoGate, Status, TurnGate};

// So many turns that only a body without threads uses them up.
pub(super) const LONG: u64 = 1_000_000_000;

// So many lines of two slots, each of which is one of `distinct` vectors.
pub(super) fn input_of(alloc: Global, lines: u32, distinct: u32) -> Result<Vec<u8>, Fail> {
    let mut input = Vec::new(alloc);
    for i in 0..lines {
        let at = i.checked_rem(distinct).unwrap_or(0);
        let line = format!(in alloc; "{},{}\n", at, at / 7)?;
        input.extend_from_slice(line.as_bytes())?;
    }
    Ok(input)
}

// How often a line of a text ends so.
pub(super) fn count_ends(text: &[u8], end: &[u8]) -> usize {
    text.split(|byte| *byte == b'\n')
        .filter(|line| line.ends_with(end))
        .count()
}

#[test]
fn answers_many_lines(rt: HostRuntime) -> Result<(), Fail> {
    let alloc = rt.alloc();
    for words in [
        ["insert", "--mode", "compact"].as_slice(),
        &[
            "insert",
            "--mode",
            "compact",
            "--workers",
            "64",
            "--block",
            "1",
        ],
        &["insert"],
        &["insert", "--workers", "3", "--block", "5"],
        &["insert", "--workers", "64", "--block", "1"],
    ] {
        let input = input_of(alloc, 3000, 1500)?;
        let devices = Devices {
            piece: 4096,
            ..SOUND
        };
        let ran = run_on(&rt, alloc, words, input, devices, &NoGate)?;
        assert_eq!(rt; ran.status, Status::Done);
        let text = ran.text.bytes();
        assert_eq!(rt; count_ends(text, b",new"), 1500);
        assert_eq!(rt; count_ends(text, b",seen"), 1500);
        assert!(rt; text.ends_with(b"lines 3000\ndistinct 1500\n"));
    }
    Ok(())
}

#[test]
fn one_of_eight_workers_names_a_vector(rt: HostRuntime) -> Result<(), Fail> {
    let alloc = rt.alloc();
    let mut input = Vec::new(alloc);
    for _ in 0..1000 {
        input.extend_from_slice(b"3,5\n")?;
    }
    let words = [
        "insert",
        "--profile",
        "16",
        "--workers",
        "8",
        "--block",
        "1",
        "--roots",
        "3",
    ];
    let ran = run_plain_on(&rt, alloc, &words, input, SOUND, &NoGate)?;
    assert_eq!(rt; ran.status, Status::Done);
    let text = ran.text.bytes();
    assert_eq!(rt; count_ends(text, b",0,new"), 1);
    assert_eq!(rt; count_ends(text, b",0,seen"), 999);
    assert!(rt; text.ends_with(b"lines 1000\ndistinct 1\n"));
    Ok(())
}

// One of two lines waits for the other one, which only another worker can insert meanwhile.
#[test]
fn workers_run_at_once(rt: HostRuntime) -> Result<(), Fail> {
    let alloc = rt.alloc();
    for workers in ["2", "8", "64"] {
        for (held, until) in [(1, 2), (2, 1)] {
            let gate = TurnGate::new(held, until, LONG);
            let words = ["insert", "--workers", workers, "--block", "1"];
            let input = b"1,2\n3,4\n".to_vec(alloc)?;
            let ran = run_plain_on(&rt, alloc, &words, input, SOUND, &gate)?;
            assert_eq!(rt; ran.status, Status::Done);
            assert!(rt; !gate.timed_out(), "line {held} held until line {until}");
        }
    }
    Ok(())
}

// A line that waits for its equal is inserted after it.
#[test]
fn the_line_that_waits_is_seen(rt: HostRuntime) -> Result<(), Fail> {
    let alloc = rt.alloc();
    for (held, until, text) in [
        (1, 2, "1,6,seen\n2,6,new\nlines 2\ndistinct 1\n"),
        (2, 1, "1,6,new\n2,6,seen\nlines 2\ndistinct 1\n"),
    ] {
        let gate = TurnGate::new(held, until, LONG);
        let words = ["insert", "--workers", "2", "--block", "1"];
        let input = b"1,2\n1,2\n".to_vec(alloc)?;
        let ran = run_plain_on(&rt, alloc, &words, input, SOUND, &gate)?;
        assert_eq!(rt; ran.status, Status::Done);
        assert!(rt; !gate.timed_out());
        assert_eq!(rt; ran.text.bytes(), text.as_bytes());
    }
    Ok(())
}

#[test]
fn one_worker_keeps_the_order(rt: HostRuntime) -> Result<(), Fail> {
    let alloc = rt.alloc();
    for mode in ["plain", "compact"] {
        for (held, until, late) in [(2, 1, false), (1, 2, true), (1, 1, true), (3, 1, false)] {
            let gate = TurnGate::new(held, until, 1000);
            let words = ["insert", "--workers", "1", "--mode", mode];
            let input = b"1,2\n3,4\n".to_vec(alloc)?;
            let ran = run_on(&rt, alloc, &words, input, SOUND, &gate)?;
            assert_eq!(rt; ran.status, Status::Done);
            assert_eq!(rt;
                gate.timed_out(),
                late,
                "line {held} held until line {until}"
            );
        }
    }
    Ok(())
}

// What is drawn and counted is the same for any number of workers.
#[test]
fn counts_drawn_lines_alike(rt: HostRuntime) -> Result<(), Fail> {
    let alloc = rt.alloc();
    for workers in ["1", "8"] {
        let words = [
            "bench",
            "--lines",
            "2000",
            "--slots",
            "3",
            "--values",
            "2",
            "--workers",
            workers,
        ];
        let ran = run_plain_on(&rt, alloc, &words, Vec::new(alloc), SOUND, &NoGate)?;
        assert_eq!(rt; ran.status, Status::Done);
        assert_eq!(rt; ran.text.bytes(), "lines 2000\ndistinct 8\n".as_bytes());
    }
    Ok(())
}
