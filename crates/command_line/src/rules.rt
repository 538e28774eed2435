//! The five further rules of the words.

ghost use Rattle.std.specs.Prelude.{◌≡◌, true};
ghost use Rattle.std.specs.Bool.{OnTrue};
ghost use Rattle.command_line.specs.Rules.{flag_count, flag_fits_profile, is_at_most, job_allows};
ghost use Rattle.command_line.specs.Rules.{keeps_rules, mode_allows};
ghost use Rattle.command_line.specs.Rules.{nodes_fit_profile, region_fits_roots, roots_hold_a_region};
ghost use Rattle.command_line.specs.Rules.{trace_is_small};
ghost use Rattle.command_line.specs.Valid.{FitsTogether};

use crate::outcome::{Choice, Job, Mode};

/// How many values a generated trace has at most.
const MOST_VALUES: u64 = 33554432;

fn is_at_most(size: Option<u32>, limit: u32) -> bool
    ensures { result ≡ is_at_most size limit }
{
    match size {
        Some(size) => size <= limit,
        None => true,
    }
}

fn nodes_fit_profile(choice: &Choice) -> bool
    ensures { result ≡ nodes_fit_profile choice.now }
{
    is_at_most(choice.nodes, choice.profile)
}

fn roots_hold_a_region(choice: &Choice) -> bool
    ensures { result ≡ roots_hold_a_region choice.now }
{
    match choice.roots {
        Some(roots) => 6 <= roots,
        None => true,
    }
}

fn region_fits_roots(choice: &Choice) -> bool
    ensures { result ≡ region_fits_roots choice.now }
{
    match choice.roots {
        Some(roots) => is_at_most(choice.region, roots),
        None => true,
    }
}

fn trace_is_small(choice: &Choice) -> bool
    ensures { result ≡ trace_is_small choice.now }
{
    choice.lines.saturating_mul(choice.slots as u64) <= MOST_VALUES
}

// How many flags a vector has, by the width of its slots.
fn flag_count(profile: u32) -> u32
    ensures { result ≡ flag_count profile }
{
    match profile {
        16 => 8,
        28 => 7,
        _ => 1,
    }
}

fn flag_fits_profile(choice: &Choice) -> bool
    ensures { result ≡ flag_fits_profile choice.now }
{
    choice.flag < flag_count(choice.profile)
}

fn mode_allows(choice: &Choice) -> bool
    ensures { result ≡ mode_allows choice.now }
{
    match choice.mode {
        Mode::Plain => true,
        Mode::Compact => roots_hold_a_region(choice) && region_fits_roots(choice),
    }
}

fn job_allows(choice: &Choice) -> bool
    ensures { result ≡ job_allows choice.now }
{
    match choice.job {
        Job::Bench => trace_is_small(choice),
        Job::Mark => flag_fits_profile(choice),
        Job::Insert | Job::Distinct | Job::Check => true,
    }
}

/// Whether the values go together.
#[tactic(auto, unfolding(crate::specs::Rules::keeps_rules))]
pub fn keeps_rules(choice: &Choice) -> bool
    ensures value { result ≡ keeps_rules choice.now }
    ensures together { OnTrue result (FitsTogether choice.now) }
    ensures apart { FitsTogether choice.now → result ≡ true }
{
    nodes_fit_profile(choice) && mode_allows(choice) && job_allows(choice)
}
