//! The command that `clap` reads the words by.

ghost use Rattle.std.specs.Prelude.{◌≡◌, IfOk, false, codes, fold};
ghost use Rattle.clap.specs.Words.{app_of, rule_of, with_rule};
ghost use Rattle.command_line.specs.Command.{bare, simple_command, bench_words, table_words, task_words};
ghost use Rattle.command_line.specs.Command.{task_flags, worker_words};
ghost use Rattle.command_line.specs.Command as table;

use clap::builder::ValueParser;
use clap::{Arg, ArgAction, Command};
use std::alloc::{AllocError, Global};

fn required_word<'a>(alloc: Global, id: &'a str) -> Arg<'a>
    ensures rule { rule_of result ≡ table.required_word id.entry.now }
    ensures local { result.global ≡ false }
{
    Arg::new(alloc, id).required(true).action(ArgAction::Set)
}

fn flag<'a>(alloc: Global, name: &'a str) -> Arg<'a>
    ensures rule { rule_of result ≡ table.flag_rule name.entry.now }
    ensures local { result.global ≡ false }
{
    Arg::new(alloc, name).long(name).action(ArgAction::SetTrue)
}

fn text_option<'a>(alloc: Global, name: &'a str, default: &'a str) -> Arg<'a>
    ensures rule { rule_of result ≡ table.text_option name.entry.now default.entry.now }
    ensures local { result.global ≡ false }
{
    Arg::new(alloc, name)
        .long(name)
        .action(ArgAction::Set)
        .default_value(default)
}

fn size_option<'a>(alloc: Global, name: &'a str, low: u64, high: u64) -> Arg<'a>
    ensures rule { rule_of result ≡ table.size_option name.entry.now low high }
    ensures local { result.global ≡ false }
{
    Arg::new(alloc, name)
        .long(name)
        .action(ArgAction::Set)
        .value_parser(ValueParser::unsigned(low, high))
}

fn number_option<'a>(alloc: Global, name: &'a str, low: u64, high: u64, default: &'a str) -> Arg<'a>
    ensures rule { rule_of result ≡ table.number_option name.entry.now low high default.entry.now }
    ensures local { result.global ≡ false }
{
    Arg::new(alloc, name)
        .long(name)
        .action(ArgAction::Set)
        .value_parser(ValueParser::unsigned(low, high))
        .default_value(default)
}

fn bare<'a>(alloc: Global) -> Command<'a>
    ensures { app_of result ≡ bare }
{
    Command::new(alloc, "treedb")
        .disable_help_flag(true)
        .disable_version_flag(true)
}

fn with_task_flags<'a>(alloc: Global, command: Command<'a>) -> Result<Command<'a>, AllocError>
    ensures { IfOk result (λ c. app_of c ≡ fold with_rule (app_of command.entry) task_flags) }
{
    let signed = command.arg(flag(alloc, "signed"))?;
    let stats = signed.arg(flag(alloc, "stats"))?;
    Ok(stats)
}

fn with_task_words<'a>(alloc: Global, command: Command<'a>) -> Result<Command<'a>, AllocError>
    ensures { IfOk result (λ c. app_of c ≡ fold with_rule (app_of command.entry) task_words) }
{
    let job = command.arg(required_word(alloc, "job"))?;
    let mode = job.arg(text_option(alloc, "mode", "plain"))?;
    let profile = mode.arg(text_option(alloc, "profile", "28"))?;
    let flags = with_task_flags(alloc, profile)?;
    Ok(flags)
}

fn with_worker_words<'a>(alloc: Global, command: Command<'a>) -> Result<Command<'a>, AllocError>
    ensures { IfOk result (λ c. app_of c ≡ fold with_rule (app_of command.entry) worker_words) }
{
    let workers = command.arg(number_option(alloc, "workers", 1, 64, "1"))?;
    let block = workers.arg(number_option(alloc, "block", 1, 65536, "64"))?;
    let claims = block.arg(flag(alloc, "claims"))?;
    let mark = claims.arg(number_option(alloc, "flag", 0, 7, "0"))?;
    Ok(mark)
}

fn with_table_words<'a>(alloc: Global, command: Command<'a>) -> Result<Command<'a>, AllocError>
    ensures { IfOk result (λ c. app_of c ≡ fold with_rule (app_of command.entry) table_words) }
{
    let nodes = command.arg(size_option(alloc, "nodes", 3, 25))?;
    let roots = nodes.arg(size_option(alloc, "roots", 3, 24))?;
    let region = roots.arg(size_option(alloc, "region", 6, 12))?;
    let probe = region.arg(number_option(alloc, "probe", 1, 4194304, "4194304"))?;
    Ok(probe)
}

fn with_bench_words<'a>(alloc: Global, command: Command<'a>) -> Result<Command<'a>, AllocError>
    ensures { IfOk result (λ c. app_of c ≡ fold with_rule (app_of command.entry) bench_words) }
{
    let lines = command.arg(number_option(alloc, "lines", 1, 4194304, "1000"))?;
    let slots = lines.arg(number_option(alloc, "slots", 2, 1024, "8"))?;
    let values = slots.arg(number_option(alloc, "values", 1, 65536, "4"))?;
    let seed = values.arg(number_option(alloc, "seed", 0, u64::MAX, "1"))?;
    Ok(seed)
}

/// The command of the program's words, without help and version.
pub fn simple_command<'a>(alloc: Global) -> Result<Command<'a>, AllocError>
    ensures { IfOk result (λ c. app_of c ≡ simple_command) }
{
    let task = with_task_words(alloc, bare(alloc))?;
    let workers = with_worker_words(alloc, task)?;
    let tables = with_table_words(alloc, workers)?;
    let bench = with_bench_words(alloc, tables)?;
    Ok(bench)
}
