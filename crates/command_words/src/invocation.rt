//! What right words ask for, from the words of their arguments.
ghost use Rattle.std.specs.Prelude.{◌≡◌, map, Some, true, IfOk, OnErr, string_bytes};
ghost use Rattle.clap.specs.Words.{found_of, rows_of};
ghost use Rattle.command_words.specs.Invocations.{IsSound, asked, comes_to_page, is_serve, number_for, request_by, service_by, serving};
ghost use Rattle.command_words.specs.ClapCommands.{asked_in, found_logs, found_word};
ghost use Rattle.command_words.specs.CommandViews.{IsAskedBy, IsCommandFor, shown_files, shown_order, shown_service};

use crate::argument::Argument;
use crate::clap_command::assigned;
use crate::command::{Command, Demo, DesignFiles, Order, Service};
use crate::right_words::form_named;
use crate::table::Task;
use clap::ArgMatches;
use scan_model::{NoMemory, Profile};
use std::alloc::Global;
use text_parts::number_of;

// The word of an argument, which is empty where the command has no such argument.
fn word_in<'a>(matches: &ArgMatches<'a>, argument: Argument) -> &'a str
    ensures { result.now ≡ found_word (rows_of (found_of matches.now)) argument }
{
    matches.get_str(argument.name()).unwrap_or("")
}

// Its number, 0 where it is none.
fn number_in(matches: &ArgMatches<'_>, argument: Argument) -> u32
    ensures { result ≡ number_for (found_word (rows_of (found_of matches.now))) argument }
{
    number_of(word_in(matches, argument).as_bytes()).unwrap_or(0)
}

// The words of the logs, none where the command has no logs.
fn logs_in<'a>(alloc: Global, matches: &ArgMatches<'a>) -> Result<Vec<&'a str>, NoMemory>
    ensures { IfOk result (λ logs. map (λ name. name.now) logs.items ≡ found_logs (rows_of (found_of matches.now))) }
{
    match matches.get_strs("log") {
        Some(names) => Ok(Vec::from_slice(alloc, names)?),
        None => Ok(Vec::new(alloc)),
    }
}

fn files_in<'a>(profile: Profile, matches: &ArgMatches<'a>) -> DesignFiles<'a>
    ensures { shown_files result ≡ (request_by (found_word (rows_of (found_of matches.now))) (found_logs (rows_of (found_of matches.now))) profile).files }
{
    DesignFiles {
        profile,
        netlist: word_in(matches, Argument::Netlist),
        scan: word_in(matches, Argument::Scan),
        patterns: word_in(matches, Argument::Patterns),
        neighbours: word_in(matches, Argument::Neighbours),
    }
}

fn order_in<'a>(
    alloc: Global,
    profile: Profile,
    matches: &ArgMatches<'a>,
) -> Result<Order<'a>, NoMemory>
    ensures { IfOk result (λ r. shown_order r ≡ request_by (found_word (rows_of (found_of matches.now))) (found_logs (rows_of (found_of matches.now))) profile) }
{
    Ok(Order {
        design: word_in(matches, Argument::Design),
        die: word_in(matches, Argument::Die),
        files: files_in(profile, matches),
        channels: word_in(matches, Argument::Channels),
        logs: logs_in(alloc, matches)?,
    })
}

fn service_in<'a>(matches: &ArgMatches<'a>) -> Result<Service<'a>, NoMemory>
    ensures { IfOk result (λ s. shown_service s ≡ service_by (found_word (rows_of (found_of matches.now))) (found_logs (rows_of (found_of matches.now)))) }
{
    match u16::try_from(number_in(matches, Argument::Port)) {
        Ok(port) => Ok(Service {
            port,
            workers: number_in(matches, Argument::Workers),
            sessions: number_in(matches, Argument::Sessions),
            store: word_in(matches, Argument::Store),
        }),
        Err(_) => Err(NoMemory),
    }
}

// What the words ask for of a command that does this, none where it comes to no page.
fn command_in<'a>(
    alloc: Global,
    task: Task,
    matches: &ArgMatches<'a>,
) -> Result<Option<Command<'a>>, NoMemory>
    ensures { IfOk result (IsCommandFor (asked_in (rows_of (found_of matches.now)) task)) }
{
    match task {
        Task::Make(product, profile) => {
            let order = order_in(alloc, profile, matches)?;
            Ok(Some(Command::Make { product, order }))
        }
        Task::Demo => Ok(Some(Command::Demo(Demo {
            seed: number_in(matches, Argument::Seed),
            blocks: number_in(matches, Argument::Blocks),
        }))),
        Task::Serve => Ok(None),
    }
}

/// What the words ask for, or nothing where they name no command that comes to a page, which takes no memory.
pub fn command_of(alloc: Global, words: &[String]) -> Result<Option<Command<'_>>, NoMemory>
    ensures taken { IfOk result (IsAskedBy (map string_bytes words.now)) }
    ensures memory { OnErr result (comes_to_page (asked (map string_bytes words.now)) ≡ true) }
{
    let Some(form) = form_named(words) else {
        return Ok(None);
    };
    if matches!(form.task, Task::Serve) {
        return Ok(None);
    }
    let matches = assigned(alloc, &form, words)?;
    command_in(alloc, form.task, &matches)
}

/// What the words of `serve` ask for.
pub fn service_of<'a>(alloc: Global, words: &'a [String]) -> Result<Service<'a>, NoMemory>
    requires { is_serve (map string_bytes words.now) ≡ true }
    ensures taken { IfOk result (λ s. asked (map string_bytes words.entry.now) ≡ Some (serving (shown_service s))) }
    ensures sound { IfOk result (λ s. IsSound (serving (shown_service s))) }
{
    let form = form_named(words).unwrap();
    let matches = assigned(alloc, &form, words)?;
    service_in(&matches)
}
