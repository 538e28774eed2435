//! Runs that mark their lines, with the reports worked out by hand: identifiers in plain mode are those of the
//! same lines without marks, and in compact mode an identifier is its root as one number.
use super::faults::fail_each_write;
use super::schedules::{LONG, count_ends, input_of};
use super::{Devices, SOUND, run_on, run_plain_on};
use command_line::USAGE;
use std::alloc::Global;
use std::sync::Wait;
use std::test::Fail;
use std::thread::Threads;
use tdb_base::{NoGate, Status, TurnGate};

// Words between spaces, an input, and the report.
const ROWS: [(&str, &str, &str); 9] = [
    (
        "mark --mode compact",
        "3,5\n5,3\n3,5\n",
        "1,805306373,new,first\n2,1342177283,new,first\n3,805306373,seen,again\nlines 3\ndistinct 2\nmarked 2\n",
    ),
    (
        "mark",
        "3,5\n5,3\n3,5\n",
        "1,4,new,first\n2,7,new,first\n3,4,seen,again\nlines 3\ndistinct 2\nmarked 2\n",
    ),
    (
        "mark --profile 31 --flag 0",
        "0,0\n",
        "1,0,new,first\nlines 1\ndistinct 1\nmarked 1\n",
    ),
    (
        "mark --profile 31 --flag 0 --mode compact",
        "0,0\n",
        "1,0,new,first\nlines 1\ndistinct 1\nmarked 1\n",
    ),
    (
        "mark --profile 16 --flag 7 --mode compact",
        "0,0\n0,0\n",
        "1,0,new,first\n2,0,seen,again\nlines 2\ndistinct 1\nmarked 1\n",
    ),
    (
        "mark --profile 16 --flag 7",
        "0,0\n0,0\n",
        "1,0,new,first\n2,0,seen,again\nlines 2\ndistinct 1\nmarked 1\n",
    ),
    (
        "mark --stats",
        "0,0,0,0,0\n",
        "1,0,new,first\nlines 1\ndistinct 1\nmarked 1\nnodes 1\nstored 16\nraw 20\n",
    ),
    (
        "mark --claims --mode compact --stats",
        "3,5\n",
        "1,805306373,new,first\nlines 1\ndistinct 1\nmarked 1\nnodes 0\nstored 8\nraw 8\n",
    ),
    (
        "insert --flag 7 --profile 31",
        "0,0\n",
        "1,0,new\nlines 1\ndistinct 1\n",
    ),
];

// A row's run writes its text, and notes nothing.
fn is_answered<R: Threads + Wait + Sync>(
    rt: &R,
    alloc: Global,
    row: (&str, &str, &str),
) -> Result<bool, Fail> {
    let mut words = Vec::new(alloc);
    for word in row.0.split(' ') {
        words.push(word)?;
    }
    let bytes = row.1.as_bytes().to_vec(alloc)?;
    let ran = run_on(rt, alloc, &words, bytes, SOUND, &NoGate)?;
    let text = ran.text.bytes() == row.2.as_bytes();
    Ok(ran.status == Status::Done && text && ran.notes.bytes().is_empty())
}

#[test]
fn marks_are_reported(rt: HostRuntime) -> Result<(), Fail> {
    let alloc = rt.alloc();
    for i in 0..ROWS.len() {
        assert!(rt; is_answered(&rt, alloc, ROWS[i])?);
    }
    Ok(())
}

#[test]
fn flags_past_the_profile_are_refused(rt: HostRuntime) -> Result<(), Fail> {
    let alloc = rt.alloc();
    for words in [
        ["mark", "--profile", "31", "--flag", "1"],
        ["mark", "--profile", "28", "--flag", "7"],
        ["mark", "--profile", "16", "--flag", "8"],
        ["bench", "--profile", "16", "--flag", "8"],
    ] {
        let ran = run_on(&rt, alloc, &words, b"0,0\n".to_vec(alloc)?, SOUND, &NoGate)?;
        assert!(rt; ran.status == Status::Usage);
        assert!(rt; ran.text.bytes().is_empty());
        assert!(rt; ran.notes.bytes() == USAGE.as_bytes());
    }
    Ok(())
}

#[test]
fn full_lines_are_not_marked(rt: HostRuntime) -> Result<(), Fail> {
    let alloc = rt.alloc();
    let input = "0,0\n0,1\n0,2\n0,3\n0,4\n0,5\n0,6\n0,7\n0,8\n".as_bytes();
    let text =
        "1,0,new,first\n2,3,new,first\n3,6,new,first\n4,7,new,first\n5,2,new,first\n6,1,new,first\n7,4,new,first\n8,5,new,first\n9,,full-roots\nlines 9\ndistinct 8\nmarked 8\n";
    let words = ["mark", "--roots", "3"];
    let ran = run_plain_on(&rt, alloc, &words, input.to_vec(alloc)?, SOUND, &NoGate)?;
    assert!(rt; ran.status == Status::Full);
    assert!(rt; ran.text.bytes() == text.as_bytes());
    assert!(rt; ran.notes.bytes() == b"treedb: 1 lines full\n".as_slice());
    Ok(())
}

// A region of 64 cells takes 64 roots, and a further one has no place.
#[test]
fn full_lines_of_a_region_are_not_marked(rt: HostRuntime) -> Result<(), Fail> {
    let alloc = rt.alloc();
    let mut input = Vec::new(alloc);
    let mut text = Vec::new(alloc);
    for right in 0..64u64 {
        input.extend_from_slice(format!(in alloc; "0,{right}\n")?.as_bytes())?;
        let line = format!(in alloc; "{},{right},new,first\n", right + 1)?;
        text.extend_from_slice(line.as_bytes())?;
    }
    input.extend_from_slice(b"0,64\n0,0\n")?;
    text.extend_from_slice(b"65,,full-roots\n66,0,seen,again\n")?;
    text.extend_from_slice(b"lines 66\ndistinct 64\nmarked 64\n")?;
    let words = ["mark", "--mode", "compact", "--roots", "6", "--region", "6"];
    let ran = run_on(&rt, alloc, &words, input, SOUND, &NoGate)?;
    assert!(rt; ran.status == Status::Full);
    assert!(rt; ran.text.bytes() == text.as_slice());
    assert!(rt; ran.notes.bytes() == b"treedb: 1 lines full\n".as_slice());
    Ok(())
}

#[test]
fn one_of_eight_workers_marks_a_vector_first(rt: HostRuntime) -> Result<(), Fail> {
    let alloc = rt.alloc();
    let mut input = Vec::new(alloc);
    for _ in 0..1000 {
        input.extend_from_slice(b"3,5\n")?;
    }
    for mode in ["plain", "compact"] {
        let words = ["mark", "--mode", mode, "--workers", "8", "--block", "1"];
        let ran = run_on(&rt, alloc, &words, input.clone()?, SOUND, &NoGate)?;
        assert!(rt; ran.status == Status::Done);
        let text = ran.text.bytes();
        let new = count_ends(text, b",new,first");
        assert!(rt; new.saturating_add(count_ends(text, b",new,again")) == 1);
        assert!(rt; count_ends(text, b",first") == 1);
        assert!(rt; count_ends(text, b",again") == 999);
        assert!(rt; text.ends_with(b"lines 1000\ndistinct 1\nmarked 1\n"));
    }
    Ok(())
}

// One of two lines waits for the other one, which only another worker can insert and mark meanwhile. With one
// worker one of the two waits in vain.
#[test]
fn marking_workers_run_at_once(rt: HostRuntime) -> Result<(), Fail> {
    let alloc = rt.alloc();
    for mode in ["plain", "compact"] {
        for (held, until) in [(1, 2), (2, 1)] {
            let gate = TurnGate::new(held, until, LONG);
            let words = ["mark", "--workers", "2", "--block", "1", "--mode", mode];
            let input = b"1,2\n3,4\n".to_vec(alloc)?;
            let ran = run_on(&rt, alloc, &words, input, SOUND, &gate)?;
            assert!(rt; ran.status == Status::Done && !gate.timed_out());
            assert!(rt; count_ends(ran.text.bytes(), b",new,first") == 2);
            assert!(rt;
                ran.text
                    .bytes()
                    .ends_with(b"lines 2\ndistinct 2\nmarked 2\n")
            );
        }
        for (held, until, late) in [(2, 1, false), (1, 2, true)] {
            let gate = TurnGate::new(held, until, 1000);
            let words = ["mark", "--block", "1", "--mode", mode];
            let input = b"1,2\n3,4\n".to_vec(alloc)?;
            let ran = run_on(&rt, alloc, &words, input, SOUND, &gate)?;
            assert!(rt; ran.status == Status::Done && gate.timed_out() == late);
        }
    }
    Ok(())
}

// A line that waits for its equal is inserted and marked after it.
#[test]
fn the_line_that_waits_is_marked_again(rt: HostRuntime) -> Result<(), Fail> {
    let alloc = rt.alloc();
    for (mode, id) in [("plain", "6"), ("compact", "268435458")] {
        let gate = TurnGate::new(1, 2, LONG);
        let words = ["mark", "--workers", "2", "--block", "1", "--mode", mode];
        let input = b"1,2\n1,2\n".to_vec(alloc)?;
        let ran = run_on(&rt, alloc, &words, input, SOUND, &gate)?;
        assert!(rt; ran.status == Status::Done && !gate.timed_out());
        let text = format!(in alloc;
            "1,{id},seen,again\n2,{id},new,first\nlines 2\ndistinct 1\nmarked 1\n"
        )?;
        assert!(rt; ran.text.bytes() == text.as_bytes());
    }
    Ok(())
}

// Of the lines that hold each of so many vectors in turn, each vector is first once.
fn is_first_once(alloc: Global, text: &[u8], distinct: usize) -> Result<bool, Fail> {
    let mut firsts = vec![in alloc; 0u64; distinct]?;
    for (i, line) in text.split(|byte| *byte == b'\n').enumerate() {
        if line.ends_with(b",first") {
            let at = i.checked_rem(distinct).unwrap_or(0);
            if let Some(count) = firsts.get_mut(at) {
                *count = count.saturating_add(1);
            }
        }
    }
    Ok(firsts.iter().all(|count| *count == 1))
}

#[test]
fn many_lines_are_marked(rt: HostRuntime) -> Result<(), Fail> {
    let alloc = rt.alloc();
    let devices = Devices {
        piece: 4096,
        ..SOUND
    };
    for mode in ["plain", "compact"] {
        for (workers, block) in [("1", "64"), ("2", "1"), ("3", "5"), ("64", "1")] {
            let words = [
                "mark",
                "--mode",
                mode,
                "--workers",
                workers,
                "--block",
                block,
            ];
            let input = input_of(alloc, 3000, 1500)?;
            let ran = run_on(&rt, alloc, &words, input, devices, &NoGate)?;
            assert!(rt; ran.status == Status::Done);
            let text = ran.text.bytes();
            assert!(rt; is_first_once(alloc, text, 1500)?);
            assert!(rt; count_ends(text, b",again") == 1500);
            assert!(rt; text.ends_with(b"lines 3000\ndistinct 1500\nmarked 1500\n"));
        }
    }
    Ok(())
}

#[test]
fn a_failing_sink_took_a_front_of_the_marks(rt: HostRuntime) -> Result<(), Fail> {
    let words = ["mark", "--mode", "compact"];
    let text = "1,805306373,new,first\nlines 1\ndistinct 1\nmarked 1\n".as_bytes();
    fail_each_write(&rt, rt.alloc(), &words, b"3,5\n", text)
}

#[test]
fn a_marked_run_refuses_what_is_no_trace(rt: HostRuntime) -> Result<(), Fail> {
    let alloc = rt.alloc();
    for mode in ["plain", "compact"] {
        let words = ["mark", "--mode", mode];
        let ran = run_on(
            &rt,
            alloc,
            &words,
            b"1,2\n1\n".to_vec(alloc)?,
            SOUND,
            &NoGate,
        )?;
        assert!(rt; ran.status == Status::BadTrace);
        let note = "treedb: record 2 has 1 fields, the first has 2\n";
        assert!(rt; ran.notes.bytes() == note.as_bytes());
        let devices = Devices { read: 1, ..SOUND };
        let ran = run_on(
            &rt,
            alloc,
            &words,
            b"3,5\n".to_vec(alloc)?,
            devices,
            &NoGate,
        )?;
        assert!(rt; ran.status == Status::ReadFault && ran.text.bytes().is_empty());
    }
    Ok(())
}
