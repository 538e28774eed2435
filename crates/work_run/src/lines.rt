//! Which lines are a worker's. A trace's lines are numbered from 0 and cut into blocks; of `n` workers,
//! worker `j` has the blocks `j`, `j + n`, `j + 2n` and so on.

ghost use Rattle.std.specs.Prelude.{◌≡◌, ◌<◌, ◌≤◌, ◌^◌, ◌↔◌, None, length};
ghost use Rattle.std.specs.List.{slice_get};
ghost use Rattle.tdb_base.specs.Lines.{mine};
ghost use Rattle.work_run.specs.Dealing.{WithinTheTrace, OneWorkerEach, OneTurnEach, EachHasAWorker};
ghost use Rattle.work_run.specs.Dealing.{OneWorkerHasAll};

/// The number of a worker's line, where `n` counts that worker's lines from 0: `None` where it has no more
/// than `n` lines.
///
/// Of 1 to 64 workers it is number `worker`, from 0. There are at most `2^32` lines, and 1 to 65536 in a
/// block.
pub fn line_of(lines: u64, workers: u64, block: u64, worker: u64, n: u64) -> Option<u64>
    requires workers { (worker < workers) × (workers ≤ 64) }
    requires block { (1 ≤ block) × (block ≤ 65536) }
    requires few { (lines ≤ 2 ^ 32) × (n ≤ 2 ^ 32) }
    ensures line { result ≡ slice_get (mine lines workers block worker) n }
    ensures none { (result ≡ None) ↔ (length (mine lines workers block worker) ≤ n) }
{
    let line = (n / block) * (block * workers) + worker * block + n % block;
    if line < lines { Some(line) } else { None }
}

/// How many lines a worker has.
pub(crate) fn count_of(lines: u64, workers: u64, block: u64, worker: u64) -> u64
    requires workers { (worker < workers) × (workers ≤ 64) }
    requires block { (1 ≤ block) × (block ≤ 65536) }
    requires few { lines ≤ 2 ^ 32 }
    ensures { result ≡ length (mine lines workers block worker) }
{
    let round = block * workers;
    let rest = (lines % round).saturating_sub(worker * block);
    lines / round * block + rest.min(block)
}

/// The lines of a trace are dealt out to its workers: each worker's are lines of the trace, no line has two
/// workers or comes twice, each line has a worker, and a worker alone has all lines in order.
pub fn lines_are_dealt_out()
    ensures within_the_trace { WithinTheTrace }
    ensures one_worker_each { OneWorkerEach }
    ensures one_turn_each { OneTurnEach }
    ensures each_has_a_worker { EachHasAWorker }
    ensures one_worker_has_all { OneWorkerHasAll }
{}
