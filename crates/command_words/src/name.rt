//! The names of the commands, and what stands in the table for each.
ghost use Rattle.std.specs.Prelude.{◌≡◌, IfSome, map, string_bytes, true};
ghost use Rattle.std.specs.List.{list_all};
ghost use Rattle.command_words.specs.Table.{is_one_of, named, options_of, row, same_text};
ghost use Rattle.command_words.specs.Words.{has_room};

use crate::rule::is_among;

/// The most files of one model.
const MOST_FILES: usize = 64;

/// The name of a command.
#[derive(Clone, Copy, Debug, PartialEq, Eq)]
pub enum CommandName {
    Dml,
    Check,
    Plan,
    Seq,
    Step,
    Run,
    Gen,
}

/// The command of this name.
pub(crate) fn named(word: &str) -> Option<CommandName>
    ensures named { result ≡ named word.now }
    ensures same { IfSome result (λ c. same_text word.now (row c).name ≡ true) }
{
    if word == "dml" {
        return Some(CommandName::Dml);
    }
    if word == "check" {
        return Some(CommandName::Check);
    }
    if word == "plan" {
        return Some(CommandName::Plan);
    }
    if word == "seq" {
        return Some(CommandName::Seq);
    }
    if word == "step" {
        return Some(CommandName::Step);
    }
    if word == "run" {
        return Some(CommandName::Run);
    }
    (word == "gen").then_some(CommandName::Gen)
}

impl CommandName {
    /// Whether this is an option of the command.
    pub(crate) fn has_option(self, word: &str) -> bool
        ensures { result ≡ is_one_of (options_of (row self)) word.now }
    {
        match self {
            CommandName::Dml => word == "--flat",
            CommandName::Check => false,
            CommandName::Plan => false,
            CommandName::Seq => word == "--until" || word == "--budget" || word == "--report",
            CommandName::Step => is_step_option(word),
            CommandName::Run => is_run_option(word),
            CommandName::Gen => word == "--seed" || word == "--size",
        }
    }

    /// Whether the options that the command must have are among these words.
    pub(crate) fn has_needed(self, words: &[String]) -> bool
        ensures { result ≡ list_all (is_one_of (map string_bytes words.now)) (row self).must_have }
    {
        match self {
            CommandName::Dml => true,
            CommandName::Check => true,
            CommandName::Plan => true,
            CommandName::Seq => is_among(words, "--until"),
            CommandName::Step => is_among(words, "--until"),
            CommandName::Run => is_among(words, "--until"),
            CommandName::Gen => is_among(words, "--seed"),
        }
    }

    /// Whether the command has so many files.
    pub(crate) fn has_room(self, files: usize) -> bool
        ensures { result ≡ has_room (row self) files }
    {
        match self {
            CommandName::Gen => files == 0,
            _ => 1 <= files && files <= MOST_FILES,
        }
    }
}

/// Whether this is an option of `step`.
fn is_step_option(word: &str) -> bool
    ensures { result ≡ is_one_of (options_of (row CommandName.Step)) word.now }
{
    word == "--until"
        || word == "--align"
        || word == "--threshold"
        || word == "--budget"
        || word == "--schedule"
        || word == "--report"
}

/// Whether this is an option of `run`.
fn is_run_option(word: &str) -> bool
    ensures { result ≡ is_one_of (options_of (row CommandName.Run)) word.now }
{
    word == "--until"
        || word == "--align"
        || word == "--threshold"
        || word == "--budget"
        || word == "--workers"
        || word == "--report"
}
