//! The lines of workers against the definition, tried line by line.

mod crowd;
mod drawn;
mod marks;
mod schedules;
mod waiting;

use super::dealt::{Dealt, Owners};
use super::line_of;
use super::lines::count_of;
use super::supply::Supply;
use super::turns::Turns;
use std::process::Abort;

// Tries all lines of all workers, and that each worker has no more.
fn expect_dealt(rt: &impl Abort, lines: u64, workers: u64, block: u64) {
    assert!(rt; lines <= 1000);
    assert!(rt; 1 <= workers && workers <= 64);
    assert!(rt; 1 <= block && block <= 65536);
    for worker in 0..workers {
        let mut turns = Turns::new(lines, workers, block, worker);
        let mut number = 0;
        for i in 0..lines {
            if i / block % workers == worker {
                assert!(rt; number <= i);
                assert_eq!(rt; line_of(lines, workers, block, worker, number), Some(i));
                assert!(rt;
                    Dealt {
                        lines,
                        workers,
                        block
                    }
                    .owner_of(i)
                        == worker
                );
                assert_eq!(rt; turns.next(), Some(i));
                number += 1;
            }
        }
        assert_eq!(rt; turns.next(), None);
        assert_eq!(rt; turns.next(), None);
        assert!(rt; number <= lines);
        assert_eq!(rt; line_of(lines, workers, block, worker, number), None);
        assert_eq!(rt; line_of(lines, workers, block, worker, 4_294_967_296), None);
        assert_eq!(rt; count_of(lines, workers, block, worker), number);
    }
}

// Tries one number of one worker: its line, or that the worker has no more than so many.
fn expect_line(
    rt: &impl Abort,
    (lines, workers, block): (u64, u64, u64),
    worker: u64,
    n: u64,
    line: Option<u64>,
) {
    assert!(rt; lines <= 4_294_967_296 && n <= 4_294_967_296);
    assert!(rt; worker < workers && workers <= 64);
    assert!(rt; 1 <= block && block <= 65_536);
    assert_eq!(rt; line_of(lines, workers, block, worker, n), line);
    match line {
        Some(i) => assert!(rt;
            Dealt {
                lines,
                workers,
                block
            }
            .owner_of(i)
                == worker
        ),
        None => assert!(rt; count_of(lines, workers, block, worker) <= n),
    }
}

#[test]
fn deals_out_seven_lines(rt: HostRuntime) {
    for (n, line) in [(0, Some(2)), (1, Some(3)), (2, Some(6)), (3, None)] {
        expect_line(&rt, (7, 2, 2), 1, n, line);
    }
}

#[test]
fn deals_out_all_lines(rt: HostRuntime) {
    for (lines, workers, block) in [
        (0, 1, 1),
        (1, 1, 64),
        (1, 64, 1),
        (7, 1, 3),
        (7, 2, 2),
        (7, 3, 1),
        (8, 2, 2),
        (9, 2, 2),
        (24, 4, 3),
        (25, 4, 3),
        (5, 3, 65_536),
        (200, 64, 1),
        (333, 5, 16),
        (1000, 7, 13),
    ] {
        expect_dealt(&rt, lines, workers, block);
    }
}

#[test]
fn deals_out_the_longest_trace(rt: HostRuntime) {
    for (workers, block, worker, n, line) in [
        (64, 65_536, 63, 67_108_863, Some(4_294_967_295)),
        (64, 65_536, 63, 67_108_864, None),
        (3, 65_536, 0, 1_431_699_455, Some(4_294_967_295)),
        (3, 65_536, 0, 1_431_699_456, None),
        (3, 65_536, 2, 1_431_633_920, None),
        (1, 1, 0, 4_294_967_296, None),
    ] {
        expect_line(&rt, (4_294_967_296, workers, block), worker, n, line);
    }
}
