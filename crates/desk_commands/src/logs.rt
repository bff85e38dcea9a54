//! The logs of a die, each read and judged before the next is read.
ghost use Rattle.std.specs.Prelude.{◌≡◌, ◌≤◌, ℕ, List, [], map, Some, Err, IfErr, OnOk, true};
ghost use Rattle.desk_outside.specs.declared.shelf.File.{File};
ghost use Rattle.desk_outside.specs.Faults.{Rose};
ghost use Rattle.scan_model.specs.LogText.{LogFrame, log_reading};
ghost use Rattle.text_parts.specs.ReadResults.{Fails};
ghost use Rattle.desk_commands.specs.Logs.{AreRead, FileFollows, IsTaken};
ghost use Rattle.desk_commands.specs.CommandStops.{Follows, ends_by_fault};
ghost use Rattle.desk_commands.specs.Work.{log_file, logs_reading};

use crate::files::{Stop, named, read_text};
use desk_outside::Shelf;
use scan_model::Name;
use std::alloc::Global;
use text_parts::ReadFault;

/// A die to which logs are added, each different text once.
pub trait DieLogs {
    ghost use Rattle.scan_model.specs.LogText.{LogFrame};

    /// What its logs are read for.
    ghost frame: { Self → LogFrame };

    /// The texts of its logs.
    ghost texts: { Self → List (List ℕ) };

    /// This die without its logs.
    ghost bare: { Self → Self };

    /// Reads a log and adds it, unless one of equal text is there.
    fn add_text(&mut self, alloc: Global, text: Name) -> Result<(), ReadFault>
        ensures added { OnOk result (IsTaken (frame self.old) text (texts self.old) (texts self.new)) }
        ensures fault { IfErr result (λ fault. Fails fault (log_reading (frame self.old) text)) }
        ensures kept { bare self.new ≡ bare self.old }
        ensures same_frame { frame self.new ≡ frame self.old };
}

// Adds the log of the die in the file of that name, unless one of equal text is there.
fn add_log<'a, F: Shelf, D: DieLogs>(
    alloc: Global,
    shelf: &mut F,
    die: &mut D,
    name: &'a str,
) -> Result<(), Stop<'a>>
    ensures told { (held : List File) → F.files shelf.old ≡ Some held
        → FileFollows (D.frame die.old) result (D.texts die.old) (D.texts die.new) (log_file held (D.frame die.old) name.now) }
    ensures kept { D.bare die.new ≡ D.bare die.old }
    ensures same_frame { D.frame die.new ≡ D.frame die.old }
    ensures fault { ends_by_fault result ≡ true → Rose (F.faults shelf.old) (F.faults shelf.new) }
    ensures same { F.files shelf.new ≡ F.files shelf.old }
    ensures later { F.faults shelf.old ≤ F.faults shelf.new }
{
    let text = read_text(alloc, shelf, name)?;
    let answer = die.add_text(alloc, text);
    named(name, answer)
}

/// Adds the different logs of the files of these names to a die without logs.
pub fn add_logs<'a, F: Shelf, D: DieLogs>(
    alloc: Global,
    shelf: &mut F,
    die: &mut D,
    names: &[&'a str],
) -> Result<(), Stop<'a>>
    requires { D.texts die.old ≡ [] }
    ensures read { (held : List File) → F.files shelf.old ≡ Some held
        → OnOk result (AreRead (logs_reading held (D.frame die.old) (map (λ name. name.now) names.now)) (D.texts die.new)) }
    ensures stops { (held : List File) → F.files shelf.old ≡ Some held
        → IfErr result (λ stop. Follows {X = List (List ℕ)} (Err stop) (logs_reading held (D.frame die.old) (map (λ name. name.now) names.now))) }
    ensures kept { D.bare die.new ≡ D.bare die.old }
    ensures same_frame { D.frame die.new ≡ D.frame die.old }
    ensures fault { ends_by_fault result ≡ true → Rose (F.faults shelf.old) (F.faults shelf.new) }
    ensures later { F.faults shelf.old ≤ F.faults shelf.new }
{
    for name in names {
        add_log(alloc, shelf, die, name)?;
    }
    Ok(())
}
