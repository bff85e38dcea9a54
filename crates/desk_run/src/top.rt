//! The top call.
ghost use Rattle.std.specs.Prelude.{◌≡◌, ◌≤◌, ◌⊎◌, List, false, true, map, Some, string_bytes, codes};
ghost use Rattle.desk_outside.specs.declared.shelf.File.{File};
ghost use Rattle.std.specs.Io.KnownBytes.{append_known};
ghost use Rattle.desk_outside.specs.Faults.{Rose};
ghost use Rattle.command_words.specs.Invocations.{Service, asked, comes_to_page, is_serve, serving};
ghost use Rattle.desk_serve.specs.Runs.{HasRun};
ghost use Rattle.desk_commands.specs.Commands.{work};
ghost use Rattle.desk_commands.specs.CommandEnds.{is_one_of};
ghost use Rattle.desk_run.specs.Words.{are_right, run_for};
ghost use Rattle.desk_run.specs.RunEnds.{IsRunEnd, statuses_of};

use crate::words::serving_of;
use command_words::{command_of, is_serve, service_of};
use desk_commands::page_of_command;
use desk_outside::{Cabinet, Shelf, Sink, Street};
use desk_serve::{ended, serve};
use run_ends::{Ending, finish};
use scan_model::NoMemory;
use std::alloc::Global;
use std::sync::Wait;
use std::thread::Threads;

// What `serve` comes to, whose words these are.
fn run_serve<R: Threads + Wait + Sync, O: Sink, S: Street, C: Cabinet>(
    rt: &R,
    alloc: Global,
    words: &[String],
    out: &mut O,
    street: &mut S,
    cabinet: &mut C,
) -> u8
where
    S::D: Send,
    C::K: Send,
    requires { is_serve (map string_bytes words.now) ≡ true }
    ensures served { (service : Service) → asked (map string_bytes words.now) ≡ Some (serving service) → HasRun (run_for service)
        (record { written = O.written out.old; street = S.told street.old; cabinet = C.told cabinet.old; sink_faults = O.faults out.old; street_faults = S.faults street.old; cabinet_faults = C.faults cabinet.old })
        (record { written = O.written out.new; street = S.told street.new; cabinet = C.told cabinet.new; sink_faults = O.faults out.new; street_faults = S.faults street.new; cabinet_faults = C.faults cabinet.new })
        (street.new ≡ street.old) result }
    ensures sink_later { O.faults out.old ≤ O.faults out.new }
    ensures street_later { S.faults street.old ≤ S.faults street.new }
    ensures cabinet_later { C.faults cabinet.old ≤ C.faults cabinet.new }
{
    match service_of(alloc, words) {
        Ok(service) => serve(rt, alloc, &serving_of(service), out, street, cabinet).status(),
        Err(NoMemory) => ended(out, Ending::NoMemory).status(),
    }
}

// What a command comes to that has a page: it reads the files that the words name, and writes its page.
fn run_page<R: Threads + Sync, F: Shelf, O: Sink>(
    rt: &R,
    alloc: Global,
    words: &[String],
    shelf: &mut F,
    out: &mut O,
) -> u8
    ensures told { (held : List File) → F.files shelf.old ≡ Some held
        → IsRunEnd (work (map string_bytes words.now) held) (Rose (F.faults shelf.old) (F.faults shelf.new)) (Rose (O.faults out.old) (O.faults out.new))
        result (O.written out.old) (O.written out.new) }
    ensures wrong { comes_to_page (asked (map string_bytes words.now)) ≡ false → (result ≡ 2) ⊎ (result ≡ 6) }
    ensures right { result ≡ 2 → comes_to_page (asked (map string_bytes words.now)) ≡ false }
    ensures shelf_fault { result ≡ 5 → Rose (F.faults shelf.old) (F.faults shelf.new) }
    ensures sink_fault { result ≡ 6 → Rose (O.faults out.old) (O.faults out.new) }
    ensures memory { result ≡ 8 → O.written out.new ≡ append_known (O.written out.old) (codes "memory\n") }
    ensures misunderstood { result ≡ 2 → O.written out.new ≡ append_known (O.written out.old) (codes "words not understood\n") }
    ensures statuses { is_one_of (statuses_of false) result ≡ true }
    ensures shelf_later { F.faults shelf.old ≤ F.faults shelf.new }
    ensures sink_later { O.faults out.old ≤ O.faults out.new }
{
    let command = match command_of(alloc, words) {
        Ok(Some(command)) => command,
        Ok(None) => return finish(out, 2, b"words not understood\n"),
        Err(NoMemory) => return finish(out, 8, b"memory\n"),
    };
    match page_of_command(rt, alloc, shelf, &command) {
        Ok(page) => finish(out, page.status, page.text.as_slice()),
        Err(NoMemory) => finish(out, 8, b"memory\n"),
    }
}

/// Reads the files that the words name and writes what they come to, or serves the connections of a port over a store. The
/// answer is the program's exit status.
pub fn run<R: Threads + Wait + Sync, F: Shelf, O: Sink, S: Street, C: Cabinet>(
    rt: &R,
    alloc: Global,
    words: &[String],
    shelf: &mut F,
    out: &mut O,
    street: &mut S,
    cabinet: &mut C,
) -> u8
where
    S::D: Send,
    C::K: Send,
    // Where the shelf tells its files: the status and the bytes of the command, those for a fault of the shelf, or
    // those for want of memory; of these bytes a failing sink has a part.
    ensures told { is_serve (map string_bytes words.now) ≡ false → (held : List File) → F.files shelf.old ≡ Some held
        → IsRunEnd (work (map string_bytes words.now) held) (Rose (F.faults shelf.old) (F.faults shelf.new)) (Rose (O.faults out.old) (O.faults out.new))
        result (O.written out.old) (O.written out.new) }

    // How `serve` ends.
    ensures served { (service : Service) → asked (map string_bytes words.now) ≡ Some (serving service) → HasRun (run_for service)
        (record { written = O.written out.old; street = S.told street.old; cabinet = C.told cabinet.old; sink_faults = O.faults out.old; street_faults = S.faults street.old; cabinet_faults = C.faults cabinet.old })
        (record { written = O.written out.new; street = S.told street.new; cabinet = C.told cabinet.new; sink_faults = O.faults out.new; street_faults = S.faults street.new; cabinet_faults = C.faults cabinet.new })
        (street.new ≡ street.old) result }

    // Each command leaves what it doesn't need.
    ensures files_alone { is_serve (map string_bytes words.now) ≡ false → (street.new ≡ street.old) × (cabinet.new ≡ cabinet.old) }
    ensures no_files { is_serve (map string_bytes words.now) ≡ true → shelf.new ≡ shelf.old }

    // What each status stands for, whatever the shelf, the sink, the street and the cabinet tell.
    ensures statuses { is_one_of (statuses_of (is_serve (map string_bytes words.now))) result ≡ true }
    ensures wrong { are_right (map string_bytes words.now) ≡ false → (result ≡ 2) ⊎ (result ≡ 6) }
    ensures right { result ≡ 2 → are_right (map string_bytes words.now) ≡ false }
    ensures shelf_fault { result ≡ 5 → Rose (F.faults shelf.old) (F.faults shelf.new) }
    ensures sink_fault { result ≡ 6 → Rose (O.faults out.old) (O.faults out.new) }
    ensures store_fault { result ≡ 7 → Rose (C.faults cabinet.old) (C.faults cabinet.new) × (street.new ≡ street.old) }
    ensures memory { is_serve (map string_bytes words.now) ≡ false → result ≡ 8 → O.written out.new ≡ append_known (O.written out.old) (codes "memory\n") }
    ensures spoiled { result ≡ 9 → street.new ≡ street.old }
    ensures street_fault { result ≡ 10 → Rose (S.faults street.old) (S.faults street.new) }
    ensures misunderstood { result ≡ 2 → O.written out.new ≡ append_known (O.written out.old) (codes "words not understood\n") }
    ensures shelf_later { F.faults shelf.old ≤ F.faults shelf.new }
    ensures sink_later { O.faults out.old ≤ O.faults out.new }
    ensures street_later { S.faults street.old ≤ S.faults street.new }
    ensures cabinet_later { C.faults cabinet.old ≤ C.faults cabinet.new }
{
    if is_serve(words) {
        return run_serve(rt, alloc, words, out, street, cabinet);
    }
    run_page(rt, alloc, words, shelf, out)
}
