//! The last bytes of a run, and what takes the place of its end where the sink fails at them.
ghost use Rattle.std.specs.Prelude.{◌≤◌};
ghost use Rattle.desk_outside.specs.Faults.{Rose};
ghost use Rattle.run_ends.specs.Endings.{Ends, Writes};

use crate::ending::Ending;
use desk_outside::{Failed, Sink, write_all};

/// Writes the bytes. The status is the one given, or 6 where the sink fails.
pub fn finish<O: Sink>(out: &mut O, status: u8, text: &[u8]) -> u8
    ensures ends { Ends status text.now result (O.written out.old) (O.written out.new) (Rose (O.faults out.old) (O.faults out.new)) }
    ensures later { O.faults out.old ≤ O.faults out.new }
{
    match write_all(out, text) {
        Ok(()) => status,
        Err(Failed) => 6,
    }
}

/// Writes the line of an ending. Where the sink fails, that takes the ending's place.
pub fn end_with<O: Sink>(out: &mut O, ending: Ending, line: &[u8]) -> Ending
    ensures wrote { Writes ending line.now result (O.written out.old) (O.written out.new) (Rose (O.faults out.old) (O.faults out.new)) }
    ensures later { O.faults out.old ≤ O.faults out.new }
{
    match write_all(out, line) {
        Ok(()) => ending,
        Err(Failed) => Ending::SinkFault,
    }
}
