//! The lines of a run.
ghost use Rattle.std.specs.Prelude.{◌≡◌, ◌≤◌};
ghost use Rattle.desk_outside.specs.Faults.{Rose};
ghost use Rattle.run_ends.specs.Endings.{Writes};
ghost use Rattle.desk_serve.specs.Lines.{line_of, first_line};

use desk_http::ShortText;
use desk_outside::Sink;
use run_ends::{Ending, end_with};

/// The line that is written before the first connection.
pub fn first_line(port: u16) -> ShortText
    ensures { result ≡ first_line port }
{
    let mut line = ShortText::new();
    line.add(b"serving ");
    line.add_number(u64::from(port));
    line.add(b"\n");
    line
}

// The last line, which is none where the sink failed.
fn last_line(ending: Ending) -> ShortText
    ensures { result ≡ line_of ending }
{
    let mut line = ShortText::new();
    match ending {
        Ending::Done { sessions, deeds } => {
            line.add(b"sessions ");
            line.add_number(sessions);
            line.add(b" deeds ");
            line.add_number(deeds);
            line.add(b"\n");
        }
        Ending::SinkFault => {}
        Ending::StoreFault => line.add(b"store fault\n"),
        Ending::NoMemory => line.add(b"memory\n"),
        Ending::Spoiled { row } => {
            line.add(b"store row ");
            line.add_number(row);
            line.add(b"\n");
        }
        Ending::StreetFault => line.add(b"street fault\n"),
    }
    line
}

/// Writes the line of an ending. Where the sink fails, that takes the ending's place.
pub fn ended<O: Sink>(out: &mut O, ending: Ending) -> Ending
    ensures wrote { Writes ending (line_of ending) result (O.written out.old) (O.written out.new) (Rose (O.faults out.old) (O.faults out.new)) }
    ensures later { O.faults out.old ≤ O.faults out.new }
{
    end_with(out, ending, last_line(ending).as_slice())
}
