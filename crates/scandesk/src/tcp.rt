//! The real street: connections over TCP on 127.0.0.1. Its objects count their faults and tell nothing of the bytes.
ghost use Rattle.std.specs.Prelude.{◌≡◌, ◌≤◌, length, None, IfOk};

use desk_outside::{Door, Failed, Link, LinkRead, Street};
use std::alloc::Global;
use std::io::{self, ErrorKind, Read, Write};
use std::net::{TcpListener, TcpStream};
use std::rt::HostRuntime;

/// A connection.
#[derive(Drop)]
pub struct TcpLink {
    stream: TcpStream,
    faults: u64,
}

// Reads to the front of `into`, again where the system broke the read off.
fn read_some(stream: &mut TcpStream, into: &mut [u8]) -> io::Result<usize>
    ensures { IfOk result (λ n. n ≤ length into.new) }
{
    for _ in 0..u64::MAX {
        match stream.read(into) {
            Err(error) if error.kind() == ErrorKind::Interrupted => {}
            read => return read,
        }
    }
    Err(io::Error::from(ErrorKind::Interrupted))
}

// Writes from the front of `bytes`, again where the system broke the write off.
fn write_some(stream: &mut TcpStream, bytes: &[u8]) -> io::Result<usize>
    ensures { IfOk result (λ n. n ≤ length bytes.now) }
{
    for _ in 0..u64::MAX {
        match stream.write(bytes) {
            Err(error) if error.kind() == ErrorKind::Interrupted => {}
            written => return written,
        }
    }
    Err(io::Error::from(ErrorKind::Interrupted))
}

impl Link for TcpLink {
    ghost left = { λ _. None };

    ghost sent = { λ _. None };

    ghost faults = { λ s. s.faults };

    fn read(&mut self, into: &mut [u8]) -> LinkRead {
        if into.is_empty() {
            return LinkRead::Got(0);
        }
        match read_some(&mut self.stream, into) {
            Ok(0) => LinkRead::End,
            Ok(count) => LinkRead::Got(count),
            Err(_) => {
                self.faults = self.faults.saturating_add(1);
                LinkRead::Failed
            }
        }
    }

    fn write(&mut self, bytes: &[u8]) -> Result<usize, Failed> {
        if bytes.is_empty() {
            return Ok(0);
        }
        match write_some(&mut self.stream, bytes) {
            Ok(count) if count > 0 => Ok(count),
            _ => {
                self.faults = self.faults.saturating_add(1);
                Err(Failed)
            }
        }
    }
}

/// A door of a port. All doors of the port share its listener.
#[derive(Drop)]
pub struct TcpDoor {
    listener: TcpListener,
    faults: u64,
}

// The next connection. One that its peer gave up before it was taken is passed over.
fn accept(listener: &TcpListener) -> io::Result<TcpStream> {
    for _ in 0..u64::MAX {
        match listener.accept() {
            Ok((stream, _)) => return Ok(stream),
            Err(error) => match error.kind() {
                ErrorKind::ConnectionAborted | ErrorKind::Interrupted => {}
                _ => return Err(error),
            },
        }
    }
    Err(io::Error::from(ErrorKind::Interrupted))
}

impl Door for TcpDoor {
    type L = TcpLink;

    ghost told = { λ _. None };

    ghost faults = { λ s. s.faults };

    fn next(&mut self) -> Result<TcpLink, Failed> {
        let Ok(stream) = accept(&self.listener) else {
            self.faults = self.faults.saturating_add(1);
            return Err(Failed);
        };
        // A reply that waits for a timer is late, and no worse.
        let _ = stream.set_nodelay(true);
        Ok(TcpLink { stream, faults: 0 })
    }

    fn back(&mut self, _link: TcpLink) {}
}

/// Hands out doors of ports of 127.0.0.1, each of which it binds at the first door of the port.
#[derive(Drop)]
pub struct TcpStreet {
    rt: HostRuntime,
    bound: Vec<(u16, TcpListener)>,
    faults: u64,
}

impl TcpStreet {
    /// A street with no port bound and no fault yet.
    pub fn make(rt: &HostRuntime, alloc: Global) -> Self
        ensures { result.faults ≡ 0 }
    {
        TcpStreet {
            rt: *rt,
            bound: Vec::new(alloc),
            faults: 0,
        }
    }
}

// The listener of a port, which is bound where it isn't yet.
fn listener(
    rt: &HostRuntime,
    bound: &mut Vec<(u16, TcpListener)>,
    port: u16,
) -> io::Result<TcpListener> {
    if let Some((_, listener)) = bound.iter().find(|(bound, _)| *bound == port) {
        return listener.try_clone();
    }
    let listener = TcpListener::bind(rt, ("127.0.0.1", port))?;
    let shared = listener.try_clone()?;
    match bound.push((port, listener)) {
        Ok(()) => Ok(shared),
        Err(_) => Err(io::Error::from(ErrorKind::OutOfMemory)),
    }
}

impl Street for TcpStreet {
    type D = TcpDoor;

    ghost told = { λ _. None };

    ghost faults = { λ s. s.faults };

    fn door(&mut self, port: u16) -> Result<TcpDoor, Failed> {
        if let Ok(listener) = listener(&self.rt, &mut self.bound, port) {
            return Ok(TcpDoor {
                listener,
                faults: 0,
            });
        }
        self.faults = self.faults.saturating_add(1);
        Err(Failed)
    }

    fn back(&mut self, door: TcpDoor) {
        if door.faults > 0 {
            self.faults = self.faults.saturating_add(1);
        }
    }
}
