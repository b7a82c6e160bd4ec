//! What the values of options may be.
ghost use Rattle.std.specs.Prelude.{◌≡◌};
ghost use Rattle.command_words.specs.Table.{fits_option, is_alignment, is_within};

use crate::read_number;
use crate::schedule::is_schedule;

/// The latest end time that may be asked, in ticks.
const LATEST_UNTIL: u64 = 1_000_000_000_000_000_000;

/// The largest budget that may be asked, in events.
const LARGEST_BUDGET: u64 = 1_000_000_000_000;

/// The most parts that entities may be parted into.
const MOST_PARTS: u64 = 4096;

/// The largest threshold that may be asked, in ticks.
const LARGEST_THRESHOLD: u64 = 1_000_000_000_000_000;

/// The most workers that may be asked.
const MOST_WORKERS: u64 = 64;

/// The largest seed that may be asked.
const LARGEST_SEED: u64 = 1_000_000_000_000_000_000;

/// The largest generated model that may be asked.
const LARGEST_SIZE: u64 = 1000;

/// Whether a word is a number in this range.
fn is_within(word: &str, least: u64, most: u64) -> bool
    ensures { result ≡ is_within least most word.now }
{
    read_number(word.as_bytes(), least, most).is_some()
}

/// Whether a word is an alignment.
fn is_alignment(word: &str) -> bool
    ensures { result ≡ is_alignment word.now }
{
    word == "one" || word == "host" || word == "net" || is_within(word, 1, MOST_PARTS)
}

/// Whether a word may be the value of this option.
pub(crate) fn fits_option(option: &str, word: &str) -> bool
    ensures { result ≡ fits_option option.now word.now }
{
    if option == "--until" {
        return is_within(word, 0, LATEST_UNTIL);
    }
    if option == "--align" {
        return is_alignment(word);
    }
    if option == "--threshold" {
        return is_within(word, 0, LARGEST_THRESHOLD);
    }
    if option == "--budget" {
        return is_within(word, 1, LARGEST_BUDGET);
    }
    if option == "--schedule" {
        return is_schedule(word);
    }
    if option == "--workers" {
        return is_within(word, 1, MOST_WORKERS);
    }
    if option == "--seed" {
        return is_within(word, 0, LARGEST_SEED);
    }
    option == "--size" && is_within(word, 1, LARGEST_SIZE)
}
