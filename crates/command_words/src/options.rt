//! What the matches of `clap` say of each option.
ghost use Rattle.std.specs.Prelude.{◌≡◌, ℕ, List, Bool, IfOk, IfSome, Some, codes, [], drop, map, option_map, string_bytes, true, unwrap_or, vec_len, length};
ghost use Rattle.clap.specs.Words.{first_value, found_of, matched_of, raw_values};
ghost use Rattle.command_words.specs.Numbers.{is_number, value_of_digits};
ghost use Rattle.command_words.specs.Table.{is_alignment, DefaultBudget, DefaultSize, DefaultThreshold, DefaultWorkers};
ghost use Rattle.command_words.specs.Words.{AllFit, align_of, align_or_net, command_by, number_or};

use crate::number::decimal_value;
use crate::{Align, Command, CommandName};
use clap::ArgMatches;
use std::alloc::{AllocError, Global};

/// The budget where none is given, in events.
const DEFAULT_BUDGET: u64 = 1_000_000_000;

/// The threshold where none is given, in ticks.
const DEFAULT_THRESHOLD: u64 = 0;

/// The workers where no number is given.
const DEFAULT_WORKERS: u64 = 4;

/// The size of a generated model where none is given.
const DEFAULT_SIZE: u64 = 10;

/// The number of an option, or its default.
fn number_or(matches: &ArgMatches, option: &str, default: u64) -> u64
    requires { IfSome (first_value (found_of matches.now) option.now) (λ v. is_number v ≡ true) }
    ensures { result ≡ number_or default (first_value (found_of matches.now) option.now) }
{
    match matches.get_str(option) {
        Some(value) => decimal_value(value.as_bytes()),
        None => default,
    }
}

/// The end time; without one it is 0.
fn until_in(matches: &ArgMatches) -> u64
    requires { AllFit (λ option. first_value (found_of matches.now) (drop 2 option)) }
    ensures { result ≡ number_or 0 (first_value (found_of matches.now) (codes "until")) }
{
    number_or(matches, "until", 0)
}

/// The budget, or its default.
fn budget_in(matches: &ArgMatches) -> u64
    requires { AllFit (λ option. first_value (found_of matches.now) (drop 2 option)) }
    ensures { result ≡ number_or DefaultBudget (first_value (found_of matches.now) (codes "budget")) }
{
    number_or(matches, "budget", DEFAULT_BUDGET)
}

/// The threshold, or its default.
fn threshold_in(matches: &ArgMatches) -> u64
    requires { AllFit (λ option. first_value (found_of matches.now) (drop 2 option)) }
    ensures { result ≡ number_or DefaultThreshold (first_value (found_of matches.now) (codes "threshold")) }
{
    number_or(matches, "threshold", DEFAULT_THRESHOLD)
}

/// The number of workers, or its default.
fn workers_in(matches: &ArgMatches) -> u64
    requires { AllFit (λ option. first_value (found_of matches.now) (drop 2 option)) }
    ensures { result ≡ number_or DefaultWorkers (first_value (found_of matches.now) (codes "workers")) }
{
    number_or(matches, "workers", DEFAULT_WORKERS)
}

/// The seed; without one it is 0.
fn seed_in(matches: &ArgMatches) -> u64
    requires { AllFit (λ option. first_value (found_of matches.now) (drop 2 option)) }
    ensures { result ≡ number_or 0 (first_value (found_of matches.now) (codes "seed")) }
{
    number_or(matches, "seed", 0)
}

/// The size, or its default.
fn size_in(matches: &ArgMatches) -> u64
    requires { AllFit (λ option. first_value (found_of matches.now) (drop 2 option)) }
    ensures { result ≡ number_or DefaultSize (first_value (found_of matches.now) (codes "size")) }
{
    number_or(matches, "size", DEFAULT_SIZE)
}

/// The alignment of this name, or of so many parts.
fn align_of(word: &str) -> Align
    requires { is_alignment word.now ≡ true }
    ensures { result ≡ align_of word.now }
{
    if word == "one" {
        return Align::One;
    }
    if word == "host" {
        return Align::Host;
    }
    if word == "net" {
        return Align::Net;
    }
    Align::Parts(decimal_value(word.as_bytes()))
}

/// The alignment, `net` by default.
fn align_in(matches: &ArgMatches) -> Align
    requires { AllFit (λ option. first_value (found_of matches.now) (drop 2 option)) }
    ensures { result ≡ align_or_net (first_value (found_of matches.now) (codes "align")) }
{
    match matches.get_str("align") {
        Some(word) => align_of(word),
        None => Align::Net,
    }
}

/// The command with its numbers.
pub(crate) fn command_by(name: CommandName, flat: bool, matches: &ArgMatches) -> Command
    requires { AllFit (λ option. first_value (found_of matches.now) (drop 2 option)) }
    ensures { result ≡ command_by name (λ option. first_value (found_of matches.now) (drop 2 option)) flat }
{
    match name {
        CommandName::Dml => Command::Dml { flat },
        CommandName::Check => Command::Check,
        CommandName::Plan => Command::Plan,
        CommandName::Seq => Command::Seq {
            until: until_in(matches),
            budget: budget_in(matches),
        },
        CommandName::Step => Command::Step {
            until: until_in(matches),
            budget: budget_in(matches),
            align: align_in(matches),
            threshold: threshold_in(matches),
        },
        CommandName::Run => Command::Run {
            until: until_in(matches),
            budget: budget_in(matches),
            align: align_in(matches),
            threshold: threshold_in(matches),
            workers: workers_in(matches),
        },
        CommandName::Gen => Command::Gen {
            seed: seed_in(matches),
            size: size_in(matches),
        },
    }
}

/// The schedule, where one is given.
pub(crate) fn schedule_in(alloc: Global, matches: &ArgMatches) -> Result<Option<String>, AllocError>
    ensures { IfOk result (λ s. option_map string_bytes s ≡ first_value (found_of matches.now) (codes "schedule")) }
{
    match matches.get_str("schedule") {
        Some(word) => Ok(Some(String::from_str(alloc, word)?)),
        None => Ok(None),
    }
}

/// Copies of these texts.
fn copies_of(alloc: Global, texts: &[&str]) -> Result<Vec<String>, AllocError>
    ensures copies { IfOk result (λ copies. map string_bytes copies.items ≡ map (λ t. t.now) texts.now) }
    ensures len { IfOk result (λ copies. vec_len copies ≡ length texts.now) }
{
    let mut copies = Vec::new(alloc);
    for text in texts {
        copies.push(String::from_str(alloc, text)?)?;
    }
    Ok(copies)
}

/// The names of the files.
pub(crate) fn files_in(alloc: Global, matches: &ArgMatches) -> Result<Vec<String>, AllocError>
    ensures files { IfOk result (λ files. map string_bytes files.items ≡ unwrap_or (option_map raw_values (matched_of (found_of matches.now) (codes "files"))) []) }
    ensures len { IfOk result (λ files. vec_len files ≡ length (map string_bytes files.items)) }
{
    match matches.get_strs("files") {
        Some(texts) => copies_of(alloc, texts),
        None => Ok(Vec::new(alloc)),
    }
}
