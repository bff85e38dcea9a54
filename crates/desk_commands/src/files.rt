//! Files that are read within the limit, and why a command stops.
ghost use Rattle.std.specs.Prelude.{◌≡◌, ◌≤◌, ℕ, List, length, Some, IfOk, IfErr, true, false};
ghost use Rattle.desk_outside.specs.declared.shelf.File.{File};
ghost use Rattle.desk_outside.specs.Faults.{Rose};
ghost use Rattle.desk_outside.specs.Files.{text_of};
ghost use Rattle.desk_commands.specs.FileReadings.{file_limit};
ghost use Rattle.desk_commands.specs.CommandStops.{StopsAt, StopsFor, IsNamed, is_fault, ends_by_fault};

use desk_outside::{Shelf, ShelfAnswer};
use scan_model::{Name, NoMemory, Rows};
use std::alloc::Global;
use text_parts::{ReadFault, TextFault};

/// The longest file that is read, in bytes.
pub const FILE_LIMIT: u64 = 16_777_216;

/// Why a file doesn't serve.
#[derive(Clone, Copy)]
pub enum Refusal {
    /// No file has the name.
    Absent,
    /// It is longer than `FILE_LIMIT`.
    TooLong,
    /// Its text breaks a rule, at its first fault.
    Rule(TextFault),
}

/// Why a command stops before its work is done.
#[derive(Drop)]
pub enum Stop<'a> {
    /// The file of that name doesn't serve.
    Refused { name: &'a str, refusal: Refusal },
    /// The shelf failed at the file of that name.
    Fault { name: &'a str },
    /// Memory ran out.
    NoMemory,
}

impl From<NoMemory> for Stop<'_> {
    ghost use Rattle.std.specs.Prelude.{◌≡◌};
    ghost use Rattle.desk_commands.specs.declared.files.Stop.TheVariants as stop;

    ghost from_gives = { λ _ e. e ≡ stop.NoMemory };

    fn from(_: NoMemory) -> Self {
        Stop::NoMemory
    }
}

/// Reads the file of that name whole, where it is within the limit.
pub fn read_text<'a, F: Shelf>(
    alloc: Global,
    shelf: &mut F,
    name: &'a str,
) -> Result<Name, Stop<'a>>
    ensures text { (held : List File) → F.files shelf.old ≡ Some held → IfOk result (λ text. text_of held name.now ≡ Some text) }
    ensures within { IfOk result (λ text. length text ≤ file_limit) }
    ensures stops { (held : List File) → F.files shelf.old ≡ Some held → IfErr result (StopsAt (text_of held name.now) name.now) }
    ensures fault { ends_by_fault result ≡ true → Rose (F.faults shelf.old) (F.faults shelf.new) }
    ensures same { F.files shelf.new ≡ F.files shelf.old }
    ensures later { F.faults shelf.old ≤ F.faults shelf.new }
{
    let mut text = Vec::new(alloc);
    let refusal = match shelf.read(name, FILE_LIMIT, &mut text) {
        ShelfAnswer::Read => return Ok(Rows::from_vec(text)),
        ShelfAnswer::Failed => return Err(Stop::Fault { name }),
        ShelfAnswer::NoMemory => return Err(Stop::NoMemory),
        ShelfAnswer::Absent => Refusal::Absent,
        ShelfAnswer::TooLong => Refusal::TooLong,
    };
    Err(Stop::Refused { name, refusal })
}

// The stop at the file of that name for what its reader answered.
fn stop_for<'a>(name: &'a str, fault: ReadFault) -> Stop<'a>
    ensures stop { StopsFor name.now fault result }
    ensures sure { is_fault result ≡ false }
{
    match fault {
        ReadFault::Text(fault) => Stop::Refused {
            name,
            refusal: Refusal::Rule(fault),
        },
        ReadFault::NoMemory => Stop::NoMemory,
    }
}

/// What a reader answered, with a stop at the file of that name in place of its fault.
pub fn named<'a, X: Drop>(name: &'a str, answer: Result<X, ReadFault>) -> Result<X, Stop<'a>>
    ensures named { IsNamed name.now answer result }
    ensures sure { ends_by_fault result ≡ false }
{
    match answer {
        Ok(value) => Ok(value),
        Err(fault) => Err(stop_for(name, fault)),
    }
}
