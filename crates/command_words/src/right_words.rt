//! Which words are right.
ghost use Rattle.std.specs.Prelude.{◌≡◌, find, map, option_map, string_bytes};
ghost use Rattle.std.specs.List.{list_all};
ghost use Rattle.command_words.specs.Words.{begins, is_plain_word, word_at};
ghost use Rattle.command_words.specs.RightWords.{are_right, fits, fits_count, form_named, is_right};
ghost use Rattle.command_words.specs.Invocations.{is_serve};
ghost use Rattle.command_words.specs.CommandViews.{shown_form};

use crate::argument::{Argument, Kind};
use crate::table::{COMMANDS, Form, Task};
use text_parts::{is_tag, number_of};

fn is_plain(word: &[u8]) -> bool
    ensures { result ≡ is_plain_word word.now }
{
    !word.is_empty() && word[0] != b'-'
}

fn are_plain(words: &[String]) -> bool
    ensures { result ≡ list_all (λ word. is_plain_word (string_bytes word)) words.now }
{
    words.iter().all(|word| is_plain(word.as_bytes()))
}

// The word at a place, which is empty past the last.
fn word(words: &[String], place: usize) -> &str
    ensures { result.now ≡ word_at (map string_bytes words.now) place }
{
    match words.get(place) {
        Some(word) => word.as_str(),
        None => "",
    }
}

// Whether all words are plain and the first is this command.
#[tactic(auto, using(crate::proofs::WordFacts::all_plain))]
fn begins(command: &str, words: &[String]) -> bool
    ensures { result ≡ begins command.now (map string_bytes words.now) }
{
    are_plain(words) && word(words, 0) == command
}

fn is_right(kind: Kind, word: &str) -> bool
    ensures { result ≡ is_right kind word.now }
{
    match kind {
        Kind::Plain => true,
        Kind::Tag => is_tag(word.as_bytes()),
        Kind::Number { least, most } => match number_of(word.as_bytes()) {
            Some(number) => least <= number && number <= most,
            None => false,
        },
    }
}

// Whether the words after the command's own are those of the arguments.
#[tactic(auto, using(crate::proofs::Steps::next_right, crate::proofs::Steps::none_left))]
fn are_right(arguments: &[Argument], words: &[String]) -> bool
    ensures { result ≡ are_right arguments.now 1 (map string_bytes words.now) }
{
    for (place, argument) in arguments.iter().enumerate() {
        if !is_right(argument.kind(), word(words, place + 1)) {
            return false;
        }
    }
    true
}

fn fits_count(form: &Form, count: usize) -> bool
    ensures { result ≡ fits_count (shown_form form.now) count }
{
    if form.has_logs {
        count >= 2 && form.arguments.len() <= count - 2
    } else {
        count >= 1 && form.arguments.len() == count - 1
    }
}

// Whether the words are plain and those of the command.
fn fits(form: &Form, words: &[String]) -> bool
    ensures { result ≡ fits (shown_form form.now) (map string_bytes words.now) }
{
    fits_count(form, words.len()) && begins(form.word, words) && are_right(form.arguments, words)
}

// The first of these commands whose words they are.
fn found_among<'t>(forms: &'t [Form], words: &[String]) -> Option<&'t Form>
    ensures { option_map (λ form. form.now) result ≡ find (λ form. fits (shown_form form) (map string_bytes words.now)) forms.now }
{
    forms.iter().find(|form| fits(form, words))
}

// A copy of it.
fn named_among(forms: &[Form], words: &[String]) -> Option<Form>
    ensures { option_map shown_form result ≡ find (λ form. fits form (map string_bytes words.now)) (map shown_form forms.now) }
{
    found_among(forms, words).copied()
}

/// The command that the words name, none where they are no command's.
pub fn form_named(words: &[String]) -> Option<Form>
    ensures { option_map shown_form result ≡ form_named (map string_bytes words.now) }
{
    named_among(&COMMANDS, words)
}

/// Whether the words are those of `serve`.
pub fn is_serve(words: &[String]) -> bool
    ensures { result ≡ is_serve (map string_bytes words.now) }
{
    match form_named(words) {
        Some(form) => matches!(form.task, Task::Serve),
        None => false,
    }
}
