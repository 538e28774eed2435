//! The words of the command line, and what they choose.

ghost use Rattle.std.specs.Prelude.{◌≡◌, ◌≢◌, [], IfOk, IfSome, OnOk, None, Some, map, string_bytes};
ghost use Rattle.command_line.specs.Choose.{choice_of, chosen, faults, given, kept, value_of};
ghost use Rattle.command_line.specs.Matches.{value_in};
ghost use Rattle.command_line.specs.Valid.{IsValid};

use crate::command::simple_command;
use crate::outcome::{Choice, ChoiceError};
use crate::reading::choice;
use crate::rules::keeps_rules;
use clap::ArgMatches;
use clap::error::ErrorKind;
use std::alloc::Global;

fn matches_of<'a>(alloc: Global, words: &'a [String]) -> Result<ArgMatches<'a>, ChoiceError>
    ensures taken { OnOk result (faults (map string_bytes words.now) ≡ []) }
    ensures values { IfOk result (λ m. value_in m ≡ value_of (map string_bytes words.now)) }
    ensures refused { result ≡ Err ChoiceError.Usage → faults (map string_bytes words.now) ≢ [] }
{
    let Ok(command) = simple_command(alloc) else {
        return Err(ChoiceError::NoMemory);
    };
    match command.try_get_matches_from(words) {
        Ok(matches) => Ok(matches),
        Err(error) => {
            if error.kind() == ErrorKind::OutOfMemory {
                return Err(ChoiceError::NoMemory);
            }
            Err(ChoiceError::Usage)
        }
    }
}

fn kept(matches: &ArgMatches) -> Option<Choice>
    ensures value { result ≡ given (choice_of (value_in matches.now)) kept }
    ensures valid { IfSome result IsValid }
{
    let choice = choice(matches)?;
    if keeps_rules(&choice) {
        return Some(choice);
    }
    None
}

/// What the words choose, of which the first is the program's name.
///
/// The command takes one job and the options of the usage text, as `clap` reads them: `--name value`,
/// `--name=value`, each option at most once, no abbreviations, `--` before a word that is no option. A number
/// is decimal, with leading zeros and one leading plus sign allowed. An option that the job or the mode
/// doesn't use is checked all the same.
///
/// `Usage` comes exactly where the command doesn't take the words or a rule is broken: `--nodes` is at most
/// the profile; in compact mode `--roots` is at least 6, and `--region` at most `--roots` where both are
/// given; for `bench`, lines times slots is at most 33554432; for `mark`, `--flag` is less than the profile
/// has flags (8, 7 or 1 at a width of 16, 28 or 31). `NoMemory` may come for any words.
pub fn choose(alloc: Global, words: &[String]) -> Result<Choice, ChoiceError>
    ensures chosen { IfOk result (λ choice. chosen (map string_bytes words.now) ≡ Some choice) }
    ensures refused { result ≡ Err ChoiceError.Usage → chosen (map string_bytes words.now) ≡ None }
    ensures valid { IfOk result IsValid }
{
    let matches = matches_of(alloc, words)?;
    kept(&matches).ok_or(ChoiceError::Usage)
}
