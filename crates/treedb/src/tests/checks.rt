//! Reports that are judged: those that were worked out by hand, and those of this program's own runs.
use super::{Devices, SOUND, run_on, run_plain_on};
use command_line::USAGE;
use std::alloc::Global;
use std::test::Fail;
use std::thread::Threads;
use tdb_base::{NoGate, Status};

// The further words of a check, its input, how it ends, and what it writes and notes.
#[derive(Clone, Copy)]
struct Case {
    words: &'static [&'static str],
    input: &'static str,
    status: Status,
    text: &'static str,
    note: &'static str,
}

const CROSSED: &str =
    "1,2\n3,4\n3,4\n1,2\n#\n1,7,seen\n2,9,seen\n3,9,new\n4,7,new\nlines 4\ndistinct 2\n";

static CASES: [Case; 16] = [
    Case {
        words: &[],
        input: "3,5\n5,3\n3,5\n#\n1,805306373,new\n2,1342177283,new\n3,805306373,seen\nlines 3\ndistinct 2\nnodes 0\nstored 15\nraw 16\n",
        status: Status::Done,
        text: "yes\n",
        note: "",
    },
    Case {
        words: &["--profile", "16"],
        input: "3,5\n5,3\n3,5\n#\n1,0,new\n2,6,new\n3,0,seen\nlines 3\ndistinct 2\n",
        status: Status::Done,
        text: "yes\n",
        note: "",
    },
    Case {
        words: &["--workers", "2", "--block", "2"],
        input: CROSSED,
        status: Status::Done,
        text: "yes\n",
        note: "",
    },
    Case {
        words: &["--workers", "2", "--block", "1"],
        input: CROSSED,
        status: Status::Refuted,
        text: "no stuck 1\n",
        note: "",
    },
    Case {
        words: &[],
        input: "1,2\n1,2\n#\n1,7,new\n2,7,new\nlines 2\ndistinct 2\n",
        status: Status::Refuted,
        text: "no twice 1 2\n",
        note: "",
    },
    Case {
        words: &[],
        input: "1,2\n1,2\n#\n1,7,new\n2,8,seen\nlines 2\ndistinct 1\n",
        status: Status::Refuted,
        text: "no lone 2\n",
        note: "",
    },
    Case {
        words: &["--stats", "--lines", "5"],
        input: "1,2\n1,2\n#\n1,7,new\n2,,full-nodes\nlines 2\ndistinct 1\nnodes 0\nstored 8\nraw 8\n",
        status: Status::Refuted,
        text: "no full 2\n",
        note: "",
    },
    Case {
        words: &[],
        input: "0,0,0\n#\n1,,full-roots\nlines 1\ndistinct 0\n",
        status: Status::Done,
        text: "yes\n",
        note: "",
    },
    Case {
        words: &[],
        input: "3,5\n",
        status: Status::BadReport,
        text: "",
        note: "treedb: no report\n",
    },
    Case {
        words: &[],
        input: "3,5\n5,3\n3,5\n#\n1,805306373,new\nlines 1\ndistinct 1\n",
        status: Status::BadReport,
        text: "",
        note: "treedb: report line 2 is wrong\n",
    },
    Case {
        words: &[],
        input: "3,5\n#\n1,7,new\nlines 1\ndistinct 1",
        status: Status::BadReport,
        text: "",
        note: "treedb: report line 4 is wrong\n",
    },
    // No report comes before a trace that is none, and that before a report that is wrong.
    Case {
        words: &[],
        input: "x\n",
        status: Status::BadReport,
        text: "",
        note: "treedb: no report\n",
    },
    Case {
        words: &[],
        input: "3,5\n3,x\n#\n1,x\n",
        status: Status::BadTrace,
        text: "",
        note: "treedb: record 2 field 2 is not a number\n",
    },
    Case {
        words: &[],
        input: "#\n1,0,new\nlines 1\ndistinct 1\n",
        status: Status::BadTrace,
        text: "",
        note: "treedb: no records\n",
    },
    Case {
        words: &["--profile", "16"],
        input: "65536,0\n#\n1,0,new\nlines 1\ndistinct 1\n",
        status: Status::BadTrace,
        text: "",
        note: "treedb: record 1 field 1 is too big\n",
    },
    // A mark that does not stand alone on its line is no mark, so this is all trace.
    Case {
        words: &[],
        input: "3,5\n#,#\n#\r\n",
        status: Status::BadReport,
        text: "",
        note: "treedb: no report\n",
    },
];

// The words of a check with these further ones.
fn words_with<'a>(alloc: Global, words: &[&'a str]) -> Result<Vec<&'a str>, Fail> {
    let mut all = vec![in alloc; "check"]?;
    for word in words {
        all.push(*word)?;
    }
    Ok(all)
}

#[test]
fn judges_reports_in_either_mode(rt: HostRuntime) -> Result<(), Fail> {
    let alloc = rt.alloc();
    for i in 0..CASES.len() {
        let case = CASES[i];
        for mode in ["plain", "compact"] {
            let mut words = words_with(alloc, case.words)?;
            words.push("--mode")?;
            words.push(mode)?;
            let bytes = case.input.as_bytes().to_vec(alloc)?;
            let ran = run_on(&rt, alloc, &words, bytes, SOUND, &NoGate)?;
            assert_eq!(rt; ran.status, case.status, "case {i}");
            assert_eq!(rt; ran.text.bytes(), case.text.as_bytes(), "case {i}");
            assert_eq!(rt; ran.notes.bytes(), case.note.as_bytes(), "case {i}");
        }
        let words = words_with(alloc, case.words)?;
        let bytes = case.input.as_bytes().to_vec(alloc)?;
        let ran = run_plain_on(&rt, alloc, &words, bytes, SOUND, &NoGate)?;
        assert_eq!(rt; ran.status, case.status, "case {i}");
        assert_eq!(rt; ran.text.bytes(), case.text.as_bytes(), "case {i}");
    }
    Ok(())
}

#[test]
fn run_plain_takes_no_compact_words(rt: HostRuntime) -> Result<(), Fail> {
    let alloc = rt.alloc();
    let words = ["check", "--mode", "compact"];
    let input = CROSSED.as_bytes().to_vec(alloc)?;
    let ran = run_plain_on(&rt, alloc, &words, input, SOUND, &NoGate)?;
    assert_eq!(rt; ran.status, Status::Usage);
    assert!(rt; ran.text.bytes().is_empty());
    assert_eq!(rt; ran.notes.bytes(), USAGE.as_bytes());
    Ok(())
}

#[test]
fn a_verdict_meets_faults(rt: HostRuntime) -> Result<(), Fail> {
    let alloc = rt.alloc();
    for write in 1..4 {
        let devices = Devices {
            piece: 1,
            write,
            ..SOUND
        };
        let input = CROSSED.as_bytes().to_vec(alloc)?;
        let words = ["check", "--workers", "2", "--block", "2"];
        let ran = run_on(&rt, alloc, &words, input, devices, &NoGate)?;
        assert_eq!(rt; ran.status, Status::WriteFault);
        assert_eq!(rt; ran.text.bytes(), &b"yes\n"[..write as usize - 1]);
        assert_eq!(rt; ran.notes.bytes(), "treedb: write fault\n".as_bytes());

        let broken = Devices {
            read: write,
            ..SOUND
        };
        let input = CROSSED.as_bytes().to_vec(alloc)?;
        let ran = run_on(&rt, alloc, &["check"], input, broken, &NoGate)?;
        assert_eq!(rt; ran.status, Status::ReadFault);
        assert!(rt; ran.text.bytes().is_empty());
    }
    Ok(())
}

// 200 lines of two slots, each of which is one of 60 vectors.
pub(super) fn lines_of(alloc: Global) -> Result<Vec<u8>, Fail> {
    let mut text = Vec::new(alloc);
    for i in 0..200u32 {
        let at = i % 60;
        let line = format!(in alloc; "{},{}\n", at, at / 7)?;
        text.extend_from_slice(line.as_bytes())?;
    }
    Ok(text)
}

// These lines, and this program's report of them by so many workers.
pub(super) fn own_run<R: Threads + Sync>(
    rt: &R,
    alloc: Global,
    workers: &str,
    block: &str,
    roots: &str,
) -> Result<Vec<u8>, Fail> {
    let words = [
        "insert",
        "--workers",
        workers,
        "--block",
        block,
        "--roots",
        roots,
    ];
    let ran = run_plain_on(rt, alloc, &words, lines_of(alloc)?, SOUND, &NoGate)?;
    let mut input = lines_of(alloc)?;
    input.extend_from_slice(b"#\n")?;
    input.extend_from_slice(ran.text.bytes())?;
    Ok(input)
}

// Whether the report in an input is one of so many workers.
fn is_own<R: Threads + Sync>(
    rt: &R,
    alloc: Global,
    workers: &str,
    block: &str,
    input: Vec<u8>,
) -> Result<bool, Fail> {
    let words = ["check", "--workers", workers, "--block", block];
    let ran = run_plain_on(rt, alloc, &words, input, SOUND, &NoGate)?;
    Ok(ran.status == Status::Done && ran.text.bytes() == b"yes\n".as_slice())
}

// In the smaller table of roots some lines are full.
#[test]
fn reports_of_own_runs_have_a_history(rt: HostRuntime) -> Result<(), Fail> {
    let alloc = rt.alloc();
    for count in 1..65u32 {
        let workers = count.to_string(alloc)?;
        let input = own_run(&rt, alloc, &workers, "1", "8")?;
        assert!(rt;
            is_own(&rt, alloc, &workers, "1", input)?,
            "{count} workers"
        );
        let input = own_run(&rt, alloc, &workers, "3", "5")?;
        assert!(rt;
            is_own(&rt, alloc, &workers, "3", input)?,
            "{count} workers, full"
        );
    }
    Ok(())
}
