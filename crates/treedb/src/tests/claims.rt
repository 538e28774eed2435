//! Runs whose blocks the workers draw: the reports of compact mode were worked out by hand, since an identifier
//! is its root as one number.
use super::faults::fail_each_write;
use super::schedules::{LONG, count_ends, input_of};
use super::{Devices, SOUND, run_on, run_plain_on};
use std::alloc::Global;
use std::test::Fail;
use tdb_base::{NoGate, Status, TurnGate};

// How often a line of a text ends so, and then in the number of one of so many workers.
fn count_drawn(alloc: Global, text: &[u8], end: &str, workers: u64) -> Result<usize, Fail> {
    let mut count = 0usize;
    for worker in 0..workers {
        let ending = format!(in alloc; "{end},{worker}")?;
        count = count.saturating_add(count_ends(text, ending.as_bytes()));
    }
    Ok(count)
}

#[test]
fn one_worker_draws_all_lines(rt: HostRuntime) -> Result<(), Fail> {
    let alloc = rt.alloc();
    for (words, text) in [
        (
            ["insert", "--mode", "compact", "--claims"].as_slice(),
            "1,805306373,new,0\nlines 1\ndistinct 1\n",
        ),
        (&["--claims", "insert"], "1,4,new,0\nlines 1\ndistinct 1\n"),
        (
            &["insert", "--mode", "compact", "--claims", "--stats"],
            "1,805306373,new,0\nlines 1\ndistinct 1\nnodes 0\nstored 8\nraw 8\n",
        ),
        (&["distinct", "--claims"], "3,5\n"),
        (&["distinct", "--claims", "--mode", "compact"], "3,5\n"),
    ] {
        let ran = run_on(&rt, alloc, words, b"3,5\n".to_vec(alloc)?, SOUND, &NoGate)?;
        assert_eq!(rt; ran.status, Status::Done);
        assert_eq!(rt; ran.text.bytes(), text.as_bytes());
        assert!(rt; ran.notes.bytes().is_empty());
    }
    Ok(())
}

#[test]
fn full_lines_tell_who_drew_them(rt: HostRuntime) -> Result<(), Fail> {
    let alloc = rt.alloc();
    let input = "0,0\n0,1\n0,2\n0,3\n0,4\n0,5\n0,6\n0,7\n0,8\n".as_bytes();
    let text =
        "1,0,new,0\n2,3,new,0\n3,6,new,0\n4,7,new,0\n5,2,new,0\n6,1,new,0\n7,4,new,0\n8,5,new,0\n9,,full-roots,0\nlines 9\ndistinct 8\n";
    let words = ["insert", "--roots", "3", "--claims", "--block", "2"];
    let ran = run_plain_on(&rt, alloc, &words, input.to_vec(alloc)?, SOUND, &NoGate)?;
    assert_eq!(rt; ran.status, Status::Full);
    assert_eq!(rt; ran.text.bytes(), text.as_bytes());
    assert_eq!(rt; ran.notes.bytes(), "treedb: 1 lines full\n".as_bytes());
    let words = [
        "bench", "--roots", "3", "--claims", "--lines", "9", "--slots", "2",
    ];
    let ran = run_plain_on(&rt, alloc, &words, Vec::new(alloc), SOUND, &NoGate)?;
    assert!(rt; ran.text.bytes().starts_with(b"lines 9\ndistinct "));
    Ok(())
}

// A line that waits for its equal is inserted after it, by the other worker.
#[test]
fn drawing_workers_run_at_once(rt: HostRuntime) -> Result<(), Fail> {
    let alloc = rt.alloc();
    for (mode, id) in [("plain", "6"), ("compact", "268435458")] {
        let gate = TurnGate::new(1, 2, LONG);
        let words = [
            "insert",
            "--workers",
            "2",
            "--block",
            "1",
            "--claims",
            "--mode",
            mode,
        ];
        let input = b"1,2\n1,2\n".to_vec(alloc)?;
        let ran = run_on(&rt, alloc, &words, input, SOUND, &gate)?;
        assert!(rt; ran.status == Status::Done && !gate.timed_out());
        let one = format!(in alloc; "1,{id},seen,0\n2,{id},new,1\nlines 2\ndistinct 1\n")?;
        let other = format!(in alloc; "1,{id},seen,1\n2,{id},new,0\nlines 2\ndistinct 1\n")?;
        let text = ran.text.bytes();
        assert!(rt; text == one.as_bytes() || text == other.as_bytes());
    }
    Ok(())
}

// While the first of three lines waits for the third, the other worker draws both that are left. Were the lines
// dealt in turn, the third would belong to the worker that waits.
#[test]
fn a_worker_draws_what_another_leaves(rt: HostRuntime) -> Result<(), Fail> {
    let alloc = rt.alloc();
    for (mode, ids) in [
        ("plain", [6, 7, 3]),
        ("compact", [268435458, 805306372, 1342177286]),
    ] {
        let gate = TurnGate::new(1, 3, LONG);
        let words = [
            "insert",
            "--workers",
            "2",
            "--block",
            "1",
            "--claims",
            "--mode",
            mode,
        ];
        let input = b"1,2\n3,4\n5,6\n".to_vec(alloc)?;
        let ran = run_on(&rt, alloc, &words, input, SOUND, &gate)?;
        assert!(rt; ran.status == Status::Done && !gate.timed_out());
        let [first, second, third] = ids;
        let one = format!(in alloc;
            "1,{first},new,0\n2,{second},new,1\n3,{third},new,1\nlines 3\ndistinct 3\n"
        )?;
        let other = format!(in alloc;
            "1,{first},new,1\n2,{second},new,0\n3,{third},new,0\nlines 3\ndistinct 3\n"
        )?;
        let text = ran.text.bytes();
        assert!(rt; text == one.as_bytes() || text == other.as_bytes());
    }
    Ok(())
}

#[test]
fn drawn_lines_wait_for_one_another(rt: HostRuntime) -> Result<(), Fail> {
    let alloc = rt.alloc();
    for mode in ["plain", "compact"] {
        for (held, until) in [(1, 2), (2, 1)] {
            let gate = TurnGate::new(held, until, LONG);
            let words = [
                "insert",
                "--workers",
                "2",
                "--block",
                "1",
                "--claims",
                "--mode",
                mode,
            ];
            let input = b"1,2\n3,4\n".to_vec(alloc)?;
            let ran = run_on(&rt, alloc, &words, input, SOUND, &gate)?;
            assert!(rt; ran.status == Status::Done && !gate.timed_out());
            assert_eq!(rt; count_drawn(alloc, ran.text.bytes(), ",new", 2)?, 2);
            assert!(rt; ran.text.bytes().ends_with(b"lines 2\ndistinct 2\n"));
        }
        for (held, until, late) in [(2, 1, false), (1, 2, true)] {
            let gate = TurnGate::new(held, until, 1000);
            let words = ["insert", "--block", "1", "--claims", "--mode", mode];
            let input = b"1,2\n3,4\n".to_vec(alloc)?;
            let ran = run_on(&rt, alloc, &words, input, SOUND, &gate)?;
            assert_eq!(rt; ran.status, Status::Done);
            assert_eq!(rt; gate.timed_out(), late);
        }
    }
    Ok(())
}

#[test]
fn one_of_eight_drawing_workers_names_a_vector(rt: HostRuntime) -> Result<(), Fail> {
    let alloc = rt.alloc();
    let mut input = Vec::new(alloc);
    for _ in 0..1000 {
        input.extend_from_slice(b"3,5\n")?;
    }
    let words = [
        "insert",
        "--mode",
        "compact",
        "--workers",
        "8",
        "--block",
        "1",
        "--claims",
    ];
    let ran = run_on(&rt, alloc, &words, input, SOUND, &NoGate)?;
    assert_eq!(rt; ran.status, Status::Done);
    let text = ran.text.bytes();
    assert_eq!(rt; count_drawn(alloc, text, ",805306373,new", 8)?, 1);
    assert_eq!(rt; count_drawn(alloc, text, ",805306373,seen", 8)?, 999);
    assert!(rt; text.ends_with(b"lines 1000\ndistinct 1\n"));
    Ok(())
}

#[test]
fn many_drawn_lines_are_answered(rt: HostRuntime) -> Result<(), Fail> {
    let alloc = rt.alloc();
    let devices = Devices {
        piece: 4096,
        ..SOUND
    };
    for mode in ["plain", "compact"] {
        for (workers, number, block) in [("1", 1, "64"), ("3", 3, "5"), ("64", 64, "1")] {
            let words = [
                "insert",
                "--mode",
                mode,
                "--claims",
                "--workers",
                workers,
                "--block",
                block,
            ];
            let input = input_of(alloc, 3000, 1500)?;
            let ran = run_on(&rt, alloc, &words, input, devices, &NoGate)?;
            assert_eq!(rt; ran.status, Status::Done);
            let text = ran.text.bytes();
            assert_eq!(rt; count_drawn(alloc, text, ",new", number)?, 1500);
            assert_eq!(rt; count_drawn(alloc, text, ",seen", number)?, 1500);
            assert!(rt; text.ends_with(b"lines 3000\ndistinct 1500\n"));
        }
    }
    Ok(())
}

// What is drawn and counted is the same for any number of workers.
#[test]
fn drawing_workers_count_alike(rt: HostRuntime) -> Result<(), Fail> {
    let alloc = rt.alloc();
    for mode in ["plain", "compact"] {
        for workers in ["1", "8"] {
            let words = [
                "bench",
                "--lines",
                "2000",
                "--slots",
                "3",
                "--values",
                "2",
                "--claims",
                "--mode",
                mode,
                "--workers",
                workers,
            ];
            let ran = run_on(&rt, alloc, &words, Vec::new(alloc), SOUND, &NoGate)?;
            assert_eq!(rt; ran.status, Status::Done);
            assert_eq!(rt; ran.text.bytes(), "lines 2000\ndistinct 8\n".as_bytes());
        }
    }
    Ok(())
}

#[test]
fn a_failing_sink_took_a_front_of_a_drawn_report(rt: HostRuntime) -> Result<(), Fail> {
    let words = ["insert", "--mode", "compact", "--claims"];
    let text = "1,805306373,new,0\nlines 1\ndistinct 1\n".as_bytes();
    fail_each_write(&rt, rt.alloc(), &words, b"3,5\n", text)
}
