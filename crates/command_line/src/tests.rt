//! Lists of words with what they choose, and the sizes of tables, each worked out by hand.

ghost use Rattle.std.specs.Prelude.{IfOk};
ghost use Rattle.command_line.specs.Valid.{IsValid};

use crate::{Choice, ChoiceError, Job, Mode, USAGE, choose, sizes};
use std::alloc::{AllocError, Global};
use std::test::Fail;

// The names of a choice's values, and those that `insert` alone chooses: a word by its place among the words
// that stand there, from 0, and a size that isn't given as 0.
const NAMES: &str =
    "job mode profile signed workers block claims flag nodes roots region probe stats lines slots values seed";

const DEFAULTS: [u64; 17] = [0, 0, 28, 0, 1, 64, 0, 0, 0, 0, 0, 4194304, 0, 1000, 8, 4, 1];

// The words that the text has between bars, with the program's name; none where it is empty.
fn words_of(alloc: Global, text: &str) -> Result<Vec<String>, AllocError> {
    let mut words = Vec::new(alloc);
    if text.is_empty() {
        return Ok(words);
    }
    for word in text.split('|') {
        words.push(String::from_str(alloc, word)?)?;
    }
    Ok(words)
}

// What the words choose.
fn chosen(alloc: Global, text: &str) -> Result<Result<Choice, ChoiceError>, AllocError>
    ensures { IfOk result (λ chosen. IfOk chosen IsValid) }
{
    let words = words_of(alloc, text)?;
    Ok(choose(alloc, &words))
}

// The value that a text writes.
fn value_of(text: &str) -> Result<u64, Fail> {
    match text {
        "distinct" | "compact" | "on" => Ok(1),
        "bench" => Ok(2),
        "check" => Ok(3),
        "mark" => Ok(4),
        _ => Ok(text.parse::<u64>()?),
    }
}

// The values with one of them changed.
fn changed(values: [u64; 17], name: &str, value: u64) -> Result<[u64; 17], Fail> {
    let mut values = values;
    for (i, other) in NAMES.split(' ').enumerate() {
        if i < 17 && other == name {
            values[i] = value;
            return Ok(values);
        }
    }
    Err(Fail::from("no such value"))
}

// The defaults with the values changed that the text lists, as `mode compact`, between commas.
fn expected(text: &str) -> Result<[u64; 17], Fail> {
    let mut values = DEFAULTS;
    for change in text.split(',') {
        if let Some((name, value)) = change.split_once(' ') {
            values = changed(values, name, value_of(value)?)?;
        }
    }
    Ok(values)
}

fn job_of(choice: &Choice) -> u64 {
    match choice.job {
        Job::Insert => 0,
        Job::Distinct => 1,
        Job::Bench => 2,
        Job::Check => 3,
        Job::Mark => 4,
    }
}

fn size_of(size: Option<u32>) -> u64 {
    match size {
        Some(size) => size as u64,
        None => 0,
    }
}

// The values of a choice, in the order of their names.
fn values_of(choice: &Choice) -> [u64; 17] {
    [
        job_of(choice),
        u64::from(choice.mode == Mode::Compact),
        choice.profile as u64,
        u64::from(choice.signed),
        choice.workers,
        choice.block,
        u64::from(choice.claims),
        choice.flag as u64,
        size_of(choice.nodes),
        size_of(choice.roots),
        size_of(choice.region),
        choice.probe,
        u64::from(choice.stats),
        choice.lines,
        choice.slots as u64,
        choice.values,
        choice.seed,
    ]
}

// Words that are taken, and what they change of the defaults.
const TAKEN: &str = "\
treedb|insert => nothing
treedb|distinct => job distinct
treedb|bench => job bench
treedb|check => job check
treedb|check|--workers|4|--block|1|--profile|16 => job check,workers 4,block 1,profile 16
treedb|check|--mode|compact|--stats => job check,mode compact,stats on
treedb|check|--lines|4194304|--slots|1024 => job check,lines 4194304,slots 1024
treedb|insert|--mode|plain => nothing
treedb|insert|--mode|compact => mode compact
treedb|--mode=compact|insert => mode compact
treedb|insert|--profile|16 => profile 16
treedb|insert|--profile|28 => nothing
treedb|insert|--profile=31 => profile 31
treedb|insert|--workers|1 => nothing
treedb|insert|--workers|64 => workers 64
treedb|--workers|3|insert => workers 3
treedb|insert|--workers=007 => workers 7
treedb|insert|--workers|+5 => workers 5
treedb|insert|--block|1 => block 1
treedb|insert|--block|65536 => block 65536
treedb|insert|--nodes|3 => nodes 3
treedb|insert|--nodes|25 => nodes 25
treedb|insert|--nodes|16|--profile|16 => nodes 16,profile 16
treedb|insert|--roots|3 => roots 3
treedb|insert|--roots|24 => roots 24
treedb|insert|--mode|compact|--roots|6 => mode compact,roots 6
treedb|insert|--region|6 => region 6
treedb|insert|--region|12 => region 12
treedb|insert|--region|12|--roots|3 => region 12,roots 3
treedb|insert|--mode|compact|--region|12 => mode compact,region 12
treedb|insert|--mode|compact|--roots|7|--region|7 => mode compact,roots 7,region 7
treedb|insert|--probe|1 => probe 1
treedb|insert|--probe|4194304 => nothing
treedb|insert|--stats => stats on
treedb|insert|--signed => signed on
treedb|--signed|distinct|--stats|--profile|16 => job distinct,signed on,stats on,profile 16
treedb|bench|--signed => job bench,signed on
treedb|mark|--signed|--flag|6|--mode|compact => job mark,signed on,flag 6,mode compact
treedb|insert|--claims => claims on
treedb|--claims|bench|--workers|4|--block|1024 => job bench,claims on,workers 4,block 1024
treedb|distinct|--claims => job distinct,claims on
treedb|check|--mode|compact|--claims => job check,mode compact,claims on
treedb|distinct|--stats => job distinct,stats on
treedb|mark => job mark
treedb|mark|--flag|6|--mode|compact|--claims => job mark,flag 6,mode compact,claims on
treedb|mark|--profile|16|--flag|7 => job mark,profile 16,flag 7
treedb|mark|--profile|31|--flag|+00 => job mark,profile 31
treedb|insert|--profile|31|--flag|7 => profile 31,flag 7
treedb|bench|--flag=7 => job bench,flag 7
treedb|mark|--lines|4194304|--slots|1024 => job mark,lines 4194304,slots 1024
treedb|bench|--lines|1 => job bench,lines 1
treedb|bench|--lines|4194304 => job bench,lines 4194304
treedb|insert|--lines|4194304|--slots|1024 => lines 4194304,slots 1024
treedb|bench|--lines|32768|--slots|1024 => job bench,lines 32768,slots 1024
treedb|bench|--slots|2 => job bench,slots 2
treedb|bench|--slots|1024 => job bench,slots 1024
treedb|bench|--values|1 => job bench,values 1
treedb|bench|--values|65536 => job bench,values 65536
treedb|bench|--seed|0 => job bench,seed 0
treedb|bench|--mode|compact|--profile|31|--workers|2|--block|3|--nodes|9|--roots|8|--region|7|--probe|6|--stats|--lines|10|--slots|5|--values|11|--seed|12 => job bench,mode compact,profile 31,workers 2,block 3,nodes 9,roots 8,region 7,probe 6,stats on,lines 10,slots 5,values 11,seed 12
treedb|bench|--seed|18446744073709551615 => job bench,seed 18446744073709551615
treedb|bench|--seed=0000000000000000000000000000002 => job bench,seed 2
treedb|--|insert => nothing
treedb|insert|-- => nothing
treedb|--workers|2|--|insert => workers 2
treedb|bench|--lines|10|--values|1 => job bench,lines 10,values 1
treedb|insert|--mode|compact|--profile|16|--stats => mode compact,profile 16,stats on
treedb|insert|--mode|compact|--workers|8|--block|1 => mode compact,workers 8,block 1
treedb|bench|--lines|100000|--slots|32|--values|4|--seed|1|--workers|8 => job bench,lines 100000,slots 32,workers 8";

fn is_taken(alloc: Global, row: &str) -> Result<bool, Fail> {
    let (text, changes) = row.split_once(" => ").ok_or("no words")?;
    let Ok(choice) = chosen(alloc, text)? else {
        return Ok(false);
    };
    Ok(values_of(&choice).as_slice() == expected(changes)?.as_slice())
}

// Words that are refused.
const REFUSED: &str = "\
treedb
treedb|
treedb|--stats
treedb|chec
treedb|insert|check
treedb|check|--profile|16|--nodes|17
treedb|check|--mode|compact|--roots|5
treedb|check|--workers|65
treedb|Insert
treedb|ins
treedb|help
treedb|insert|bench
treedb|insert|insert
treedb|insert|--help
treedb|insert|-h
treedb|insert|--version
treedb|insert|-V
treedb|insert|--nope
treedb|insert|--work|2
treedb|insert|--Mode|plain
treedb|insert|--mode|fast
treedb|insert|--mode|Plain
treedb|insert|--mode
treedb|insert|--mode|
treedb|insert|--mode|--|plain
treedb|insert|--mode|-plain
treedb|insert|--mode|plain|--mode|plain
treedb|insert|--profile|17
treedb|insert|--profile|016
treedb|insert|--profile|+16
treedb|insert|--profile|16|--profile|16
treedb|insert|--workers|0
treedb|insert|--workers|65
treedb|insert|--workers|-0
treedb|insert|--workers|-1
treedb|insert|--workers|++1
treedb|insert|--workers|+
treedb|insert|--workers| 5
treedb|insert|--workers|5 
treedb|insert|--workers|
treedb|insert|--workers=
treedb|insert|--workers|x
treedb|insert|--workers|1.5
treedb|insert|--workers|1|2
treedb|insert|--workers|1|--workers|2
treedb|insert|--workers
treedb|insert|--block|0
treedb|insert|--block|65537
treedb|insert|--nodes|2
treedb|insert|--nodes|26
treedb|insert|--profile|16|--nodes|17
treedb|bench|--nodes|17|--profile|16
treedb|insert|--roots|2
treedb|insert|--roots|25
treedb|insert|--mode|compact|--roots|5
treedb|insert|--region|5
treedb|insert|--region|13
treedb|insert|--mode|compact|--roots|6|--region|7
treedb|insert|--probe|0
treedb|insert|--probe|4194305
treedb|insert|--stats=true
treedb|insert|--stats|--stats
treedb|insert|--sign
treedb|insert|--signed=true
treedb|insert|--signed|on
treedb|insert|--signed|--signed
treedb|insert|--claim
treedb|insert|--claims=true
treedb|insert|--claims|on
treedb|insert|--claims|--claims
treedb|mark|--flag|7
treedb|mark|--profile|31|--flag|1
treedb|mark|--profile|16|--flag|8
treedb|insert|--profile|16|--flag|8
treedb|mark|--flag|-0
treedb|mark|--flag|
treedb|mark|--flag
treedb|mark|--flag|0|--flag|0
treedb|mark|--profile|16|--nodes|17
treedb|marks
treedb|bench|--lines|0
treedb|bench|--lines|4194305
treedb|bench|--lines|65536|--slots|1024
treedb|bench|--lines|32769|--slots|1024
treedb|bench|--slots|1
treedb|bench|--slots|1025
treedb|insert|--values|0
treedb|bench|--values|65537
treedb|bench|--seed|18446744073709551616";

fn is_refused(alloc: Global, text: &str) -> Result<bool, AllocError> {
    Ok(matches!(chosen(alloc, text)?, Err(ChoiceError::Usage)))
}

// Words of a choice, slots, lines, and then the sizes of nodes, roots and regions.
const SIZES: &str = "\
treedb|insert; 2; 0; 3 3 3
treedb|insert; 0; 7; 3 3 3
treedb|insert; 2; 1; 3 3 3
treedb|insert; 2; 8; 3 3 3
treedb|insert; 2; 9; 3 4 4
treedb|insert|--mode|compact|--profile|16; 2; 3; 3 6 6
treedb|insert|--mode|compact|--profile|16; 4; 5; 4 6 6
treedb|insert|--mode|compact; 3; 32; 5 6 6
treedb|insert|--mode|compact; 3; 33; 6 7 7
treedb|insert; 8; 1000; 13 10 10
treedb|insert|--mode|compact; 8; 1000; 13 11 11
treedb|insert; 32; 1048576; 25 20 12
treedb|insert; 34; 1048577; 25 21 12
treedb|insert|--profile|16; 18; 4096; 16 12 12
treedb|insert|--profile|16; 18; 4097; 16 13 12
treedb|insert|--profile|31; 2; 16777216; 3 24 12
treedb|insert; 2; 16777217; 3 24 12
treedb|insert|--mode|compact; 2; 8388608; 3 24 12
treedb|insert|--mode|compact; 2; 8388609; 3 24 12
treedb|insert; 1024; 18446744073709551615; 25 24 12
treedb|insert|--mode|compact; 2; 18446744073709551615; 3 24 12
treedb|insert|--mode|compact|--region|12; 2; 1; 3 12 12
treedb|insert|--mode|compact|--roots|6; 2; 1; 3 6 6
treedb|insert|--mode|compact|--roots|9; 5; 100; 9 9 9
treedb|insert|--mode|compact|--region|7; 5; 100; 9 8 7
treedb|insert|--mode|compact|--roots|24|--region|8; 5; 100; 9 24 8
treedb|insert|--nodes|3; 10; 100; 3 7 7
treedb|insert|--roots|3; 10; 100; 10 3 3
treedb|insert|--region|12; 2; 1; 3 3 12
treedb|insert|--profile|16|--nodes|16|--roots|24|--region|6|--probe|5; 10; 100; 16 24 6
treedb|insert|--nodes|25; 2; 1; 25 3 3";

fn has_sizes(alloc: Global, row: &str) -> Result<bool, Fail> {
    let (text, rest) = row.split_once("; ").ok_or("no words")?;
    let (slots, rest) = rest.split_once("; ").ok_or("no slots")?;
    let (lines, want) = rest.split_once("; ").ok_or("no lines")?;
    let Ok(choice) = chosen(alloc, text)? else {
        return Ok(false);
    };
    let found = sizes(&choice, slots.parse::<usize>()?, lines.parse::<u64>()?);
    let written = format!(in alloc; "{} {} {}", found.nodes, found.roots, found.region)?;
    Ok(written.as_str() == want && found.probe == choice.probe)
}

// The usage text.
const TOLD: &str = "\
usage: treedb insert|distinct|bench|check|mark [--mode plain|compact] [--profile 16|28|31]
  [--workers N] [--block N] [--nodes D] [--roots R] [--region S] [--probe P]
  [--stats] [--lines N] [--slots K] [--values M] [--seed S]
  [--signed] [--claims] [--flag B]
";

#[test]
fn words_sizes_and_usage(rt: HostRuntime) -> Result<(), Fail> {
    let alloc = rt.alloc();
    for row in TAKEN.lines() {
        assert!(rt; is_taken(alloc, row)?, "{row}");
    }
    for row in REFUSED.lines() {
        assert!(rt; is_refused(alloc, row)?, "{row}");
    }
    assert!(rt; is_refused(alloc, "")?);
    for row in SIZES.lines() {
        assert!(rt; has_sizes(alloc, row)?, "{row}");
    }
    assert!(rt; USAGE == TOLD);
    Ok(())
}

#[test]
fn errors_tell_what_is_wrong(rt: HostRuntime) -> Result<(), Fail> {
    let alloc = rt.alloc();
    assert!(rt; ChoiceError::Usage.to_string(alloc)?.as_str() == "the words choose nothing");
    assert!(rt; ChoiceError::NoMemory.to_string(alloc)?.as_str() == "no memory");
    Ok(())
}
