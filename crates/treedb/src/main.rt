//! The program over a store of state vectors: it reads a trace from standard input and writes a report to
//! standard output.
#![tactic(auto)]

mod check;
mod distinct;
mod ended;
mod fill;
mod input;
mod insertion;
mod job;
mod line_text;
mod notes;
mod output;
mod run;
mod stats;
mod store;
#[cfg(test)]
mod tests;

pub use command_line::{Choice, ChoiceError, Job, Mode, choose};
use ended::Ended;
use notes::write_note;
use run::run;
pub use run::run_plain;
use std::alloc::Global;
use std::io::{BufWriter, ErrorKind};
use std::process::ExitCode;
use std::{env, io};
use tdb_base::{NoGate, Status, StdSink, StdSource};

// How many bytes of the report are kept back before they are written.
const BUFFER: usize = 65_536;

fn main(rt: HostRuntime) -> ExitCode {
    let alloc = rt.alloc();
    let status = match (
        given_words(&rt, alloc),
        BufWriter::with_capacity(alloc, BUFFER, io::writer(&rt)),
    ) {
        (Ok(words), Ok(writer)) => run(
            &rt,
            alloc,
            &words,
            &mut StdSource::new(rt.reader()),
            &mut StdSink::new(writer),
            &mut StdSink::new(rt.stderr()),
            &NoGate,
        ),
        (Err(ended), _) => ended_early(&rt, ended),
        (_, Err(_)) => ended_early(&rt, Ended::NoMemory),
    };
    ExitCode::from(status.code())
}

// A run that ended before it began: its note is written all the same.
fn ended_early(rt: &HostRuntime, ended: Ended) -> Status {
    write_note(&ended, &mut StdSink::new(rt.stderr()));
    ended.status()
}

// The words of the command line, the program's name first. One that is not UTF-8 is a faulty command line.
fn given_words(rt: &HostRuntime, alloc: Global) -> Result<Vec<String>, Ended> {
    let args = match env::args(rt) {
        Ok(args) => args,
        Err(error) if error.kind() == ErrorKind::InvalidData => return Err(Ended::Usage),
        Err(_) => return Err(Ended::NoMemory),
    };
    let mut words = Vec::new(alloc);
    for word in args {
        if words.push(word).is_err() {
            return Err(Ended::NoMemory);
        }
    }
    Ok(words)
}
