//! Times parts of the store, and prints the times to standard error: `USAGE` has the words.
#![tactic(auto)]

ghost use Rattle.std.specs.Prelude.{IfSome};
ghost use Rattle.measure.specs.Asked.{IsAsked};

mod callers;
mod calls;
mod claims;
mod clock;
mod flags;
mod input;
mod locks;
mod nodes;
mod read_trace;
mod region;
mod roots;
mod words;

use pair_rule::Sizes;
use std::process::ExitCode;
use std::sync::Wait;
use std::thread::Threads;
use std::{env, io};
use words::{USAGE, number};

fn main(rt: HostRuntime) -> io::Result<ExitCode> {
    let mut words = Vec::new(rt.alloc());
    for word in env::args(&rt)? {
        words.push(word)?;
    }
    match time(&rt, &rt, &words)? {
        Some(status) => Ok(status),
        None => {
            eprintln!(rt; "{}", USAGE)?;
            Ok(ExitCode::from(2))
        }
    }
}

// Times what the words ask for, the program's name first. None: they ask for nothing.
fn time<H: Threads + Wait + Sync>(
    rt: &HostRuntime,
    handle: &H,
    words: &[String],
) -> io::Result<Option<ExitCode>> {
    let Some(part) = words.get(1) else {
        return Ok(None);
    };
    match part.as_str() {
        "read-trace" => time_read_trace(rt, words),
        "nodes" => time_nodes(rt, handle, words),
        "region" => time_region(rt, words),
        "roots" => time_roots(rt, handle, words),
        "locks" => count_locks(rt, handle, words),
        "claims" => time_claims(rt, handle, words),
        "flags" => time_flags(rt, words),
        _ => Ok(None),
    }
}

fn time_read_trace(rt: &HostRuntime, words: &[String]) -> io::Result<Option<ExitCode>> {
    let Some(tries) = number(words, 2, 1, 1000, 5) else {
        return Ok(None);
    };
    if words.len() > 3 {
        return Ok(None);
    }
    Ok(Some(read_trace::time(rt, tries)?))
}

fn time_nodes<H: Threads + Sync>(
    rt: &HostRuntime,
    handle: &H,
    words: &[String],
) -> io::Result<Option<ExitCode>> {
    let Some(exponent) = number(words, 2, 3, 25, 20) else {
        return Ok(None);
    };
    let Some(threads) = number(words, 3, 1, 64, 1) else {
        return Ok(None);
    };
    if words.len() > 4 {
        return Ok(None);
    }
    Ok(Some(nodes::time(rt, handle, exponent as u32, threads)?))
}

fn time_region(rt: &HostRuntime, words: &[String]) -> io::Result<Option<ExitCode>> {
    let Some(exponent) = number(words, 2, 6, 12, 6) else {
        return Ok(None);
    };
    let Some(fill) = number(words, 3, 0, 100, 50) else {
        return Ok(None);
    };
    let Some(rounds) = number(words, 4, 1, 1000, 1) else {
        return Ok(None);
    };
    if words.len() > 5 {
        return Ok(None);
    }
    Ok(Some(region::time(rt, exponent as u32, fill, rounds)?))
}

fn time_roots<H: Threads + Wait + Sync>(
    rt: &HostRuntime,
    handle: &H,
    words: &[String],
) -> io::Result<Option<ExitCode>> {
    let Some(tables) = number(words, 2, 1, 3, 3) else {
        return Ok(None);
    };
    let Some(asked) = roots_asked(words) else {
        return Ok(None);
    };
    Ok(Some(roots::time(rt, handle, tables % 2 == 1, tables >= 2, asked)?))
}

// What the words ask of the tables of roots.
fn roots_asked(words: &[String]) -> Option<roots::Asked>
    ensures { IfSome result IsAsked }
{
    let region = number(words, 3, 6, 12, 8)?;
    let fill = number(words, 4, 0, 100, 50)?;
    let puts = number(words, 5, 0, 1_000_000, 1)?;
    let looks = number(words, 6, 0, 1_000_000, 1)?;
    let threads = number(words, 7, 1, 64, 1)?;
    let roots = number(words, 8, 6, 18, 18)?;
    if words.len() > 9 || region > roots {
        return None;
    }
    Some(roots::Asked {
        roots: roots as u32,
        region: region as u32,
        fill,
        puts,
        looks,
        threads,
    })
}

fn count_locks<H: Threads + Wait + Sync>(
    rt: &HostRuntime,
    handle: &H,
    words: &[String],
) -> io::Result<Option<ExitCode>> {
    let Some(workers) = number(words, 2, 1, 64, 4) else {
        return Ok(None);
    };
    let Some(roots) = number(words, 3, 6, 24, 20) else {
        return Ok(None);
    };
    let Some(region) = number(words, 4, 6, 12, 8) else {
        return Ok(None);
    };
    if words.len() > 5 {
        return Ok(None);
    }
    let sizes = Sizes {
        nodes: 24,
        roots: roots as u32,
        region: region as u32,
        probe: 4_194_304,
    };
    Ok(Some(locks::count(rt, handle, &sizes, workers)?))
}

fn time_claims<H: Threads + Sync>(
    rt: &HostRuntime,
    handle: &H,
    words: &[String],
) -> io::Result<Option<ExitCode>> {
    let Some(workers) = number(words, 2, 1, 64, 4) else {
        return Ok(None);
    };
    let Some(block) = number(words, 3, 1, 65536, 64) else {
        return Ok(None);
    };
    let Some(rounds) = number(words, 4, 1, 1000, 1) else {
        return Ok(None);
    };
    if words.len() > 5 {
        return Ok(None);
    }
    let sharing = claims::Sharing { workers, block };
    Ok(Some(claims::time(rt, handle, sharing, rounds)?))
}

fn time_flags(rt: &HostRuntime, words: &[String]) -> io::Result<Option<ExitCode>> {
    let Some(roots) = number(words, 2, 6, 24, 20) else {
        return Ok(None);
    };
    if words.len() > 3 {
        return Ok(None);
    }
    Ok(Some(flags::time(rt, roots as u32)?))
}
