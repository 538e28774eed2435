//! Compact mode: an identifier is its root as one number, so the reports were worked out without the program.
use super::schedules::{LONG, count_ends, input_of};
use super::{SOUND, run_on, run_plain_on};
use std::alloc::Global;
use std::sync::Wait;
use std::sync::atomic::{AtomicU64, Ordering};
use std::test::Fail;
use std::thread::Threads;
use tdb_base::{Gate, NoGate, Status, TurnGate};

// The words of a run that ends well, its input, and what it writes.
#[derive(Clone, Copy)]
struct Row {
    words: &'static [&'static str],
    input: &'static str,
    text: &'static str,
}

// Three slots, of which the first stands under the root alone and the last one under position 2.
const STEPS: &str = "5,0,0\n6,0,0\n6,0,1\n";

// A small protocol's states.
const STATES: &str = "0,0,0,0\n0,1,0,0\n0,1,1,0\n0,0,1,0\n0,0,0,0\n";

static ROWS: [Row; 12] = [
    Row {
        words: &["insert", "--mode", "compact"],
        input: "3,5\n",
        text: "1,805306373,new\nlines 1\ndistinct 1\n",
    },
    Row {
        words: &["insert", "--mode", "compact", "--stats"],
        input: "3,5\n5,3\n3,5\n",
        text: "1,805306373,new\n2,1342177283,new\n3,805306373,seen\nlines 3\ndistinct 2\nnodes 0\nstored 15\nraw 16\n",
    },
    Row {
        words: &["insert", "--mode", "compact"],
        input: "268435455,0\n",
        text: "1,72057593769492480,new\nlines 1\ndistinct 1\n",
    },
    Row {
        words: &["insert", "--mode", "compact", "--profile", "31"],
        input: "2147483647,2147483647\n",
        text: "1,4611686018427387903,new\nlines 1\ndistinct 1\n",
    },
    Row {
        words: &["insert", "--mode", "compact"],
        input: "\"1\",\" 2 \"\r\n1,2\r\n\n",
        text: "1,268435458,new\n2,268435458,seen\nlines 2\ndistinct 1\n",
    },
    Row {
        words: &["insert", "--mode", "compact", "--profile", "16"],
        input: "0,1\n1,0\n0,1\n",
        text: "1,1,new\n2,65536,new\n3,1,seen\nlines 3\ndistinct 2\n",
    },
    Row {
        words: &["insert", "--mode", "compact", "--profile", "16"],
        input: STEPS,
        text: "1,5,new\n2,6,new\n3,196614,new\nlines 3\ndistinct 3\n",
    },
    Row {
        words: &["insert", "--mode", "compact", "--profile", "16", "--stats"],
        input: STATES,
        text: "1,0,new\n2,720896,new\n3,720911,new\n4,15,new\n5,0,seen\nlines 5\ndistinct 4\nnodes 3\nstored 43\nraw 64\n",
    },
    Row {
        words: &["distinct", "--mode", "compact"],
        input: "5,3\n3,5\n5,3\n",
        text: "3,5\n5,3\n",
    },
    Row {
        words: &["distinct", "--mode", "compact", "--profile", "16"],
        input: STATES,
        text: "0,0,0,0\n0,0,1,0\n0,1,0,0\n0,1,1,0\n",
    },
    Row {
        words: &[
            "bench", "--mode", "compact", "--lines", "10", "--values", "1",
        ],
        input: "x",
        text: "lines 10\ndistinct 1\n",
    },
    Row {
        words: &[
            "bench",
            "--mode",
            "compact",
            "--lines",
            "2000",
            "--slots",
            "3",
            "--values",
            "2",
            "--workers",
            "8",
        ],
        input: "x",
        text: "lines 2000\ndistinct 8\n",
    },
];

// A row's run writes its text, and notes nothing.
fn is_answered<R: Threads + Wait + Sync>(rt: &R, alloc: Global, row: Row) -> Result<bool, Fail> {
    let bytes = row.input.as_bytes().to_vec(alloc)?;
    let ran = run_on(rt, alloc, row.words, bytes, SOUND, &NoGate)?;
    Ok(
        ran.status == Status::Done
            && ran.text.bytes() == row.text.as_bytes()
            && ran.notes.bytes().is_empty(),
    )
}

#[test]
fn answers_rows_in_compact_mode(rt: HostRuntime) -> Result<(), Fail> {
    let alloc = rt.alloc();
    for i in 0..ROWS.len() {
        assert!(rt; is_answered(&rt, alloc, ROWS[i])?);
    }
    Ok(())
}

// The one region's 64 cells take 64 roots, a further root has no place, and the first is still there.
#[test]
fn fills_a_region_to_its_last_cell(rt: HostRuntime) -> Result<(), Fail> {
    let alloc = rt.alloc();
    let mut input = Vec::new(alloc);
    let mut text = Vec::new(alloc);
    for right in 0..65u64 {
        input.extend_from_slice(format!(in alloc; "0,{right}\n")?.as_bytes())?;
        if right < 64 {
            let line = format!(in alloc; "{},{right},new\n", right + 1)?;
            text.extend_from_slice(line.as_bytes())?;
        }
    }
    input.extend_from_slice(b"0,0\n")?;
    text.extend_from_slice(b"65,,full-roots\n66,0,seen\nlines 66\ndistinct 64\n")?;
    let words = [
        "insert", "--mode", "compact", "--roots", "6", "--region", "6",
    ];
    let ran = run_on(&rt, alloc, &words, input, SOUND, &NoGate)?;
    assert!(rt; ran.status == Status::Full);
    assert!(rt; ran.text.bytes() == text.as_slice());
    assert!(rt; ran.notes.bytes() == b"treedb: 1 lines full\n".as_slice());
    Ok(())
}

#[test]
fn one_of_eight_waiting_workers_names_a_vector(rt: HostRuntime) -> Result<(), Fail> {
    let alloc = rt.alloc();
    let mut input = Vec::new(alloc);
    for _ in 0..1000 {
        input.extend_from_slice(b"3,5\n")?;
    }
    let words = [
        "insert",
        "--mode",
        "compact",
        "--workers",
        "8",
        "--block",
        "1",
    ];
    let ran = run_on(&rt, alloc, &words, input, SOUND, &NoGate)?;
    assert!(rt; ran.status == Status::Done);
    let text = ran.text.bytes();
    assert!(rt; count_ends(text, b",805306373,new") == 1);
    assert!(rt; count_ends(text, b",805306373,seen") == 999);
    assert!(rt; text.ends_with(b"lines 1000\ndistinct 1\n"));
    Ok(())
}

// One of two lines waits for the other one, which only another worker can insert meanwhile.
#[test]
fn waiting_workers_run_at_once(rt: HostRuntime) -> Result<(), Fail> {
    let alloc = rt.alloc();
    for (held, until) in [(1, 2), (2, 1)] {
        let gate = TurnGate::new(held, until, LONG);
        let words = [
            "insert",
            "--mode",
            "compact",
            "--workers",
            "2",
            "--block",
            "1",
        ];
        let input = b"1,2\n3,4\n".to_vec(alloc)?;
        let ran = run_on(&rt, alloc, &words, input, SOUND, &gate)?;
        assert!(rt; ran.status == Status::Done && !gate.timed_out());
    }
    Ok(())
}

// Adds up the steps of all lines.
#[derive(Drop)]
struct StepGate {
    steps: AtomicU64,
}

impl Gate for StepGate {
    fn before(&self, _worker: u64, _line: u64) {}

    fn after(&self, _worker: u64, _line: u64, ticks: u64) {
        self.steps.fetch_add(ticks, Ordering::SeqCst);
    }
}

// Nodes that didn't change are not put again: 2 steps, 1 and 2.
#[test]
fn counts_the_steps_of_changed_nodes(rt: HostRuntime) -> Result<(), Fail> {
    let alloc = rt.alloc();
    let gate = StepGate {
        steps: AtomicU64::new(0),
    };
    let words = ["insert", "--profile", "16"];
    let input = STEPS.as_bytes().to_vec(alloc)?;
    let ran = run_plain_on(&rt, alloc, &words, input, SOUND, &gate)?;
    assert!(rt; ran.status == Status::Done && gate.steps.load(Ordering::SeqCst) == 5);

    let words = ["insert", "--profile", "16", "--mode", "compact"];
    let input = STEPS.as_bytes().to_vec(alloc)?;
    let ran = run_on(&rt, alloc, &words, input, SOUND, &gate)?;
    assert!(rt; ran.status == Status::Done && gate.steps.load(Ordering::SeqCst) == 10);
    Ok(())
}

// Whether so many workers' report of 200 lines with 80 vectors, over regions of 64 cells, has a history; and
// whether the one region of 64 cells was filled to its last cell.
fn is_history_of<R: Threads + Wait + Sync>(
    rt: &R,
    alloc: Global,
    workers: &str,
    roots: &str,
) -> Result<bool, Fail> {
    let words = [
        "insert",
        "--mode",
        "compact",
        "--workers",
        workers,
        "--block",
        "1",
        "--roots",
        roots,
        "--region",
        "6",
    ];
    let ran = run_on(rt, alloc, &words, input_of(alloc, 200, 80)?, SOUND, &NoGate)?;
    let filled = ran.status == Status::Full && ran.text.bytes().ends_with(b"distinct 64\n");
    let ample = ran.status == Status::Done && ran.text.bytes().ends_with(b"distinct 80\n");
    let mut input = input_of(alloc, 200, 80)?;
    input.extend_from_slice(b"#\n")?;
    input.extend_from_slice(ran.text.bytes())?;
    let words = ["check", "--workers", workers, "--block", "1"];
    let judged = run_plain_on(rt, alloc, &words, input, SOUND, &NoGate)?;
    Ok(judged.status == Status::Done && if roots == "6" { filled } else { ample })
}

#[test]
fn reports_over_small_regions_have_a_history(rt: HostRuntime) -> Result<(), Fail> {
    let alloc = rt.alloc();
    for workers in ["1", "2", "3", "5", "8", "16", "33", "64"] {
        for roots in ["6", "9"] {
            assert!(rt; is_history_of(&rt, alloc, workers, roots)?);
        }
    }
    Ok(())
}
