//! Right words, which `clap` assigns to the arguments of their command.
ghost use Rattle.std.specs.Prelude.{◌≡◌, map, Some, true, false, IfOk, string_bytes};
ghost use Rattle.clap.specs.Words.{app_of, found_of, is_simple, matches_of, rows_of, rule_of};
ghost use Rattle.command_words.specs.RightWords.{form_named};
ghost use Rattle.command_words.specs.Invocations.{asked_of};
ghost use Rattle.command_words.specs.CommandViews.{shown_form};
ghost use Rattle.command_words.specs.ClapCommands.{app_of_form, argument, arguments, asked_in, with_arguments};

use crate::argument::Argument;
use crate::table::Form;
use clap::{Arg, ArgMatches};
use scan_model::NoMemory;
use std::alloc::{AllocError, Global};

// An argument of one word.
fn one_word<'a>(alloc: Global, name: &'a str) -> Arg<'a>
    ensures rule { rule_of result ≡ argument name.entry.now }
    ensures local { result.global ≡ false }
{
    Arg::new(alloc, name).required(true)
}

// An argument of one word or more, which is the last of its command.
fn some_words<'a>(alloc: Global, name: &'a str) -> Arg<'a>
    ensures rule { rule_of result ≡ arguments name.entry.now }
    ensures local { result.global ≡ false }
{
    one_word(alloc, name).num_args(1..)
}

// The command with these arguments too.
#[tactic(auto, using(crate::proofs::Steps::next_argument, crate::proofs::Steps::all_added))]
fn with_arguments<'a>(
    alloc: Global,
    command: clap::Command<'a>,
    arguments: &[Argument],
) -> Result<clap::Command<'a>, AllocError>
    ensures { IfOk result (λ c. app_of c ≡ with_arguments (app_of command.entry) arguments.now) }
{
    let mut command = command;
    for argument in arguments {
        let name: &'a str = argument.name();
        command = command.arg(one_word(alloc, name))?;
    }
    Ok(command)
}

// The command of a form, with its arguments.
fn command_of_form<'a>(alloc: Global, form: &Form) -> Result<clap::Command<'a>, AllocError>
    ensures { IfOk result (λ c. app_of c ≡ app_of_form (shown_form form.now)) }
{
    let command = with_arguments(alloc, clap::Command::new(alloc, form.word), form.arguments)?;
    if form.has_logs {
        return command.arg(some_words(alloc, "log"));
    }
    Ok(command)
}

// The words of the arguments. Where they were found right before, `clap` refuses them for want of memory alone.
fn matches_of<'a>(
    command: clap::Command<'a>,
    words: &'a [String],
) -> Result<ArgMatches<'a>, NoMemory>
    ensures { is_simple (app_of command.entry) ≡ true
        → IfOk result (λ m. rows_of (found_of m) ≡ matches_of (app_of command.entry) (map string_bytes words.entry.now)) }
{
    match command.try_get_matches_from(words) {
        Ok(matches) => Ok(matches),
        Err(_) => Err(NoMemory),
    }
}

/// The words of the command that they name, each with its argument.
pub fn assigned<'a>(
    alloc: Global,
    form: &Form,
    words: &'a [String],
) -> Result<ArgMatches<'a>, NoMemory>
    requires { form_named (map string_bytes words.now) ≡ Some (shown_form form.now) }
    ensures { IfOk result (λ m. asked_in (rows_of (found_of m)) form.now.task ≡ asked_of (map string_bytes words.entry.now) (shown_form form.now)) }
{
    let command = command_of_form(alloc, form)?;
    matches_of(command, words)
}
