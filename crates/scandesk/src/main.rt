//! The diagnosis desk on the command line: the outermost layer.
#![tactic(auto)]

mod file_cabinet;
mod file_shelf;
mod stdout_sink;
mod tcp;

use crate::file_cabinet::FileCabinet;
use crate::file_shelf::FileShelf;
use crate::stdout_sink::StdoutSink;
use crate::tcp::TcpStreet;
use desk_run::{finish, run};
use std::alloc::Global;
use std::process::ExitCode;
use std::rt::Env;
use std::{env, io};

// The bytes of a block that is given back before anything else is taken. A design of some 20,000 nets has no longer list; at the
// limits the lists of suspects have, and their memory isn't kept while the report is written.
const KEPT: usize = 16_000_000;

// Leads the C library to keep what is freed, in one heap that grows in one step, so that fewer pages are asked for while the
// program runs. It keeps blocks of up to the size of the largest that was given back; the second block makes the room.
fn keep_freed_memory(alloc: Global) {
    for _ in 0..2 {
        let _ = Vec::<u8>::with_capacity(alloc, KEPT);
    }
}

// The words after the program's name.
fn words_of<R: Env + AllocGlobal>(rt: &R, alloc: Global) -> io::Result<Vec<String>> {
    Ok(env::args(rt)?.skip(1).collect(alloc)?)
}

fn main(rt: HostRuntime) -> ExitCode {
    let alloc = rt.alloc();
    keep_freed_memory(alloc);
    let mut shelf = FileShelf::make(&rt, alloc);
    let mut out = StdoutSink::make(&rt, alloc);
    let mut street = TcpStreet::make(&rt, alloc);
    let mut cabinet = FileCabinet::make(&rt, alloc);
    let words = match words_of(&rt, alloc) {
        Ok(words) => words,
        Err(e) if e.kind() == io::ErrorKind::OutOfMemory => {
            return ExitCode::from(finish(&mut out, 8, b"memory\n"));
        }
        // They aren't text, so they aren't right.
        Err(_) => Vec::new(alloc),
    };
    let status = run(
        &rt,
        alloc,
        &words,
        &mut shelf,
        &mut out,
        &mut street,
        &mut cabinet,
    );
    ExitCode::from(status)
}
