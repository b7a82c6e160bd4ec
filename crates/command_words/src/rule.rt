//! The rule that tells which words are those of a command. It takes no memory.
ghost use Rattle.std.specs.Prelude.{◌≡◌, ◌&&◌, not, false, length, map, slice_get, string_bytes, IfSome};
ghost use Rattle.std.specs.List.{list_all};
ghost use Rattle.command_words.specs.Parsed.{IsInTable};
ghost use Rattle.command_words.specs.Table.{is_one_of, row, same_text, takes_value};
ghost use Rattle.command_words.specs.Words.{begins_with_dash, command_in_table, files_in, has_value, have_values, is_in_row, is_plain_word, is_value_of, is_word_of, stand_once};

use crate::CommandName;
use crate::name::named;
use crate::slices::behind;
use crate::value::fits_option;

/// Whether a word may be a value or a file name: it is not empty and does not begin with `-`.
fn is_plain(word: &str) -> bool
    ensures { result ≡ is_plain_word word.now }
{
    match word.as_bytes() {
        [] => false,
        [first, ..] => *first != b'-',
    }
}

/// Whether a word begins with `-`.
fn is_dashed(word: &str) -> bool
    ensures { result ≡ begins_with_dash word.now }
{
    match word.as_bytes() {
        [] => false,
        [first, ..] => *first == b'-',
    }
}

/// Whether two texts are the same.
fn is_same_text(text: &str, other: &str) -> bool
    ensures { result ≡ same_text text.now other.now }
{
    text == other
}

/// Whether a text is one of these words.
pub(crate) fn is_among(words: &[String], text: &str) -> bool
    ensures { result ≡ is_one_of (map string_bytes words.now) text.now }
{
    for word in words {
        if is_same_text(text, word.as_str()) {
            return true;
        }
    }
    false
}

/// Whether a word is an option that takes a value.
fn takes_value(word: &str) -> bool
    ensures { result ≡ takes_value word.now }
{
    word == "--until"
        || word == "--align"
        || word == "--threshold"
        || word == "--budget"
        || word == "--schedule"
        || word == "--workers"
        || word == "--seed"
        || word == "--size"
}

/// Whether a word is an option of the command, or may be a value or a file name.
fn is_word_of(name: CommandName, word: &str) -> bool
    ensures { result ≡ is_word_of (row name) word.now }
{
    is_plain(word) || name.has_option(word)
}

/// Whether each of these words is an option of the command, or may be a value or a file name.
fn are_words_of(name: CommandName, words: &[String]) -> bool
    ensures { result ≡ list_all (is_word_of (row name)) (map string_bytes words.now) }
{
    for word in words {
        if !is_word_of(name, word.as_str()) {
            return false;
        }
    }
    true
}

/// Whether a word is an option that stands again among the others.
fn stands_again(word: &str, others: &[String]) -> bool
    ensures { result ≡ (begins_with_dash word.now && is_one_of (map string_bytes others.now) word.now) }
{
    is_dashed(word) && is_among(others, word)
}

/// Whether no option stands twice.
fn stand_once(words: &[String]) -> bool
    ensures { result ≡ stand_once (map string_bytes words.now) }
{
    for (index, word) in words.iter().enumerate() {
        if stands_again(word.as_str(), behind(words, index)) {
            return false;
        }
    }
    true
}

/// Whether the first of these words is a value of the option.
fn is_value_first(option: &str, words: &[String]) -> bool
    ensures { result ≡ is_value_of option.now (slice_get (map string_bytes words.now) 0) }
{
    match words {
        [] => false,
        [word, ..] => is_plain(word.as_str()) && fits_option(option, word.as_str()),
    }
}

/// Whether the first of the others is the value of a word that takes one.
fn has_value(word: &str, others: &[String]) -> bool
    ensures { result ≡ has_value word.now (slice_get (map string_bytes others.now) 0) }
{
    !takes_value(word) || is_value_first(word, others)
}

/// Whether behind each option that takes a value stands a value of it.
fn have_values(words: &[String]) -> bool
    ensures { result ≡ have_values (map string_bytes words.now) }
{
    for (index, word) in words.iter().enumerate() {
        if !has_value(word.as_str(), behind(words, index)) {
            return false;
        }
    }
    true
}

/// Whether a word is a file's name: it is neither a value, which stands behind its option, nor an
/// option.
fn is_file(behind: bool, word: &str) -> bool
    ensures { result ≡ (not behind && not (begins_with_dash word.now)) }
{
    !behind && !is_dashed(word)
}

/// Whether the word behind this one is its value.
fn is_value_next(behind: bool, word: &str) -> bool
    ensures { result ≡ (not behind && takes_value word.now) }
{
    !behind && takes_value(word)
}

/// How many files the words name.
fn count_files(words: &[String]) -> usize
    ensures { result ≡ length (files_in false (map string_bytes words.now)) }
{
    let mut count = 0;
    let mut behind = false;
    for word in words {
        let here = word.as_str();
        if is_file(behind, here) {
            count += 1;
        }
        behind = is_value_next(behind, here);
    }
    count
}

/// Whether these words stand in the table behind the name of this command.
fn is_in_row(name: CommandName, words: &[String]) -> bool
    ensures { result ≡ is_in_row (row name) (map string_bytes words.now) }
{
    if !are_words_of(name, words) {
        return false;
    }
    if !stand_once(words) {
        return false;
    }
    if !have_values(words) {
        return false;
    }
    if !name.has_needed(words) {
        return false;
    }
    name.has_room(count_files(words))
}

/// The command of these words, where they are in the table.
#[tactic(auto, unfolding(crate::specs::Words::command_in_table))]
pub(crate) fn command_of(words: &[String]) -> Option<CommandName>
    ensures command { result ≡ command_in_table (map string_bytes words.now) }
    ensures in_table { IfSome result (λ name. IsInTable name (map string_bytes words.now)) }
{
    match words {
        [] => None,
        [first, others @ ..] => {
            let name = named(first.as_str())?;
            is_in_row(name, others).then_some(name)
        }
    }
}
