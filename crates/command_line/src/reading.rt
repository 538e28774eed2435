//! The values of the words, read one by one.

ghost use Rattle.std.specs.Prelude.{◌≡◌, ◌<◌, ◌^◌, IfSome, codes, option_map};
ghost use Rattle.std.specs.Option.{ForSome};
ghost use Rattle.command_line.specs.Choose.{bench_of, choice_of, given, is_given, job_named, mode_named};
ghost use Rattle.command_line.specs.Choose.{number_in, profile_named, size_in, tables_of, task_of};
ghost use Rattle.command_line.specs.Choose.{workers_of};
ghost use Rattle.command_line.specs.Matches.{value_in};
ghost use Rattle.command_line.specs.Valid.{IsFrom, IsInRange, IsProfile};

use crate::outcome::{Choice, Job, Mode};
use clap::ArgMatches;

/// What is to be done and reported.
#[derive(Clone, Copy)]
pub struct TaskWords {
    /// The job.
    pub job: Job,
    /// The kind of the root table.
    pub mode: Mode,
    /// The bits of a slot: 16, 28 or 31.
    pub profile: u32,
    /// Whether the numbers of a trace are signed.
    pub signed: bool,
    /// Whether statistics are reported.
    pub stats: bool,
}

/// How the lines are shared out, and how they are marked.
#[derive(Clone, Copy)]
pub struct WorkerWords {
    /// How many workers: 1 to 64.
    pub workers: u64,
    /// The lines of a block: 1 to 65536.
    pub block: u64,
    /// Whether workers draw their blocks.
    pub claims: bool,
    /// The number of the flag that `mark` sets.
    pub flag: u32,
}

/// The tables, and how far a path goes in them.
#[derive(Clone, Copy)]
pub struct TableWords {
    /// The exponent of the node table, if it is given.
    pub nodes: Option<u32>,
    /// The exponent of the root table, if it is given.
    pub roots: Option<u32>,
    /// The exponent of a region, if it is given.
    pub region: Option<u32>,
    /// How many lines of buckets a path walks at most.
    pub probe: u64,
}

/// The trace that `bench` generates.
#[derive(Clone, Copy)]
pub struct BenchWords {
    /// How many lines.
    pub lines: u64,
    /// The slots of a line.
    pub slots: usize,
    /// The number that each slot is below.
    pub values: u64,
    /// The seed.
    pub seed: u64,
}

#[tactic(auto, unfolding(crate::specs::Matches::value_in))]
fn value<'a>(matches: &ArgMatches<'a>, name: &str) -> Option<&'a str>
    ensures { option_map (λ s. s.now) result ≡ value_in matches.now name.now }
{
    matches.get_str(name)
}

fn job_named(text: &str) -> Option<Job>
    ensures { result ≡ job_named text.now }
{
    match text {
        "insert" => Some(Job::Insert),
        "distinct" => Some(Job::Distinct),
        "bench" => Some(Job::Bench),
        "check" => Some(Job::Check),
        "mark" => Some(Job::Mark),
        _ => None,
    }
}

fn mode_named(text: &str) -> Option<Mode>
    ensures { result ≡ mode_named text.now }
{
    match text {
        "plain" => Some(Mode::Plain),
        "compact" => Some(Mode::Compact),
        _ => None,
    }
}

fn profile_named(text: &str) -> Option<u32>
    ensures value { result ≡ profile_named text.now }
    ensures range { IfSome result IsProfile }
{
    match text {
        "16" => Some(16),
        "28" => Some(28),
        "31" => Some(31),
        _ => None,
    }
}

fn number_in(low: u64, high: u64, text: &str) -> Option<u64>
    ensures value { result ≡ number_in low high text.now }
    ensures range { IfSome result (IsFrom low high) }
{
    let Ok(number) = text.parse::<u64>() else {
        return None;
    };
    if low <= number && number <= high {
        return Some(number);
    }
    None
}

fn job(matches: &ArgMatches) -> Option<Job>
    ensures { result ≡ given (value_in matches.now (codes "job")) job_named }
{
    job_named(value(matches, "job")?)
}

fn mode(matches: &ArgMatches) -> Option<Mode>
    ensures { result ≡ given (value_in matches.now (codes "mode")) mode_named }
{
    mode_named(value(matches, "mode")?)
}

fn profile(matches: &ArgMatches) -> Option<u32>
    ensures value { result ≡ given (value_in matches.now (codes "profile")) profile_named }
    ensures range { IfSome result IsProfile }
{
    profile_named(value(matches, "profile")?)
}

fn number(matches: &ArgMatches, name: &str, low: u64, high: u64) -> Option<u64>
    ensures value { result ≡ given (value_in matches.now name.now) (number_in low high) }
    ensures range { IfSome result (IsFrom low high) }
{
    number_in(low, high, value(matches, name)?)
}

fn size(matches: &ArgMatches, name: &str, low: u64, high: u64) -> Option<Option<u32>>
    requires { high < 2 ^ 32 }
    ensures value { result ≡ size_in low high (value_in matches.now name.now) }
    ensures range { IfSome result (λ n. ForSome n (IsFrom low high)) }
{
    let Some(text) = value(matches, name) else {
        return Some(None);
    };
    let number = number_in(low, high, text)?;
    Some(Some(number as u32))
}

fn is_given(matches: &ArgMatches, name: &str) -> bool
    ensures { result ≡ is_given (value_in matches.now name.now) }
{
    match value(matches, name) {
        Some(text) => text == "true",
        None => false,
    }
}

fn task(matches: &ArgMatches) -> Option<TaskWords>
    ensures value { result ≡ task_of (value_in matches.now) }
    ensures range { IfSome result (λ t. IsProfile t.profile) }
{
    let job = job(matches)?;
    let mode = mode(matches)?;
    let profile = profile(matches)?;
    let signed = is_given(matches, "signed");
    let stats = is_given(matches, "stats");
    Some(TaskWords {
        job,
        mode,
        profile,
        signed,
        stats,
    })
}

fn workers(matches: &ArgMatches) -> Option<WorkerWords>
    ensures value { result ≡ workers_of (value_in matches.now) }
    ensures workers { IfSome result (λ w. IsFrom 1 64 w.workers) }
    ensures block { IfSome result (λ w. IsFrom 1 65536 w.block) }
    ensures flag { IfSome result (λ w. IsFrom 0 7 w.flag) }
{
    let workers = number(matches, "workers", 1, 64)?;
    let block = number(matches, "block", 1, 65536)?;
    let claims = is_given(matches, "claims");
    let flag = number(matches, "flag", 0, 7)?;
    Some(WorkerWords {
        workers,
        block,
        claims,
        flag: flag as u32,
    })
}

fn tables(matches: &ArgMatches) -> Option<TableWords>
    ensures value { result ≡ tables_of (value_in matches.now) }
    ensures nodes { IfSome result (λ t. ForSome t.nodes (IsFrom 3 25)) }
    ensures roots { IfSome result (λ t. ForSome t.roots (IsFrom 3 24)) }
    ensures region { IfSome result (λ t. ForSome t.region (IsFrom 6 12)) }
    ensures probe { IfSome result (λ t. IsFrom 1 4194304 t.probe) }
{
    let nodes = size(matches, "nodes", 3, 25)?;
    let roots = size(matches, "roots", 3, 24)?;
    let region = size(matches, "region", 6, 12)?;
    let probe = number(matches, "probe", 1, 4194304)?;
    Some(TableWords {
        nodes,
        roots,
        region,
        probe,
    })
}

fn bench(matches: &ArgMatches) -> Option<BenchWords>
    ensures value { result ≡ bench_of (value_in matches.now) }
    ensures lines { IfSome result (λ b. IsFrom 1 4194304 b.lines) }
    ensures slots { IfSome result (λ b. IsFrom 2 1024 b.slots) }
    ensures values { IfSome result (λ b. IsFrom 1 65536 b.values) }
{
    let lines = number(matches, "lines", 1, 4194304)?;
    let slots = number(matches, "slots", 2, 1024)?;
    let values = number(matches, "values", 1, 65536)?;
    let seed = number(matches, "seed", 0, u64::MAX)?;
    Some(BenchWords {
        lines,
        slots: slots as usize,
        values,
        seed,
    })
}

/// The choice of the values, if each is one.
#[tactic(auto, unfolding(crate::specs::Choose::choice_of))]
pub fn choice(matches: &ArgMatches) -> Option<Choice>
    ensures value { result ≡ choice_of (value_in matches.now) }
    ensures range { IfSome result IsInRange }
{
    let task = task(matches)?;
    let workers = workers(matches)?;
    let tables = tables(matches)?;
    let bench = bench(matches)?;
    Some(Choice {
        job: task.job,
        mode: task.mode,
        profile: task.profile,
        signed: task.signed,
        workers: workers.workers,
        block: workers.block,
        claims: workers.claims,
        flag: workers.flag,
        nodes: tables.nodes,
        roots: tables.roots,
        region: tables.region,
        probe: tables.probe,
        stats: task.stats,
        lines: bench.lines,
        slots: bench.slots,
        values: bench.values,
        seed: bench.seed,
    })
}
