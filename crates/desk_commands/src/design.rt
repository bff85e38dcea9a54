//! The files of a design.
ghost use Rattle.std.specs.Prelude.{◌≡◌, ◌≤◌, List, Some, Ok, IfOk, true};
ghost use Rattle.desk_outside.specs.declared.shelf.File.{File};
ghost use Rattle.desk_outside.specs.Faults.{Rose};
ghost use Rattle.design_bundle.specs.FourTexts.{four};
ghost use Rattle.diagnosis.specs.Bundle.{texts_reading};
ghost use Rattle.diagnosis.specs.TextHalts.{ComesTo};
ghost use Rattle.desk_commands.specs.Designs.{shown_design};
ghost use Rattle.desk_commands.specs.FileReadings.{name_of};
ghost use Rattle.command_words.specs.CommandViews.{shown_files};
ghost use Rattle.desk_commands.specs.CommandStops.{halt_of, ends_by_fault};
ghost use Rattle.desk_commands.specs.Work.{design_reading};

use crate::files::{Refusal, Stop, read_text};
use command_words::DesignFiles;
use desk_outside::{File, Shelf};
use diagnosis::{DesignText, ReadDesign, TextSource, read_from};
use scan_model::{Name, Profile, Rows};
use std::alloc::Global;
use text_parts::TextFault;

// The name of one of the files.
fn name_of<'a>(files: &DesignFiles<'a>, part: DesignText) -> &'a str
    ensures { result.now ≡ name_of (shown_files files.now) part }
{
    match part {
        DesignText::Netlist => files.netlist,
        DesignText::Scan => files.scan,
        DesignText::Patterns => files.patterns,
        DesignText::Neighbours => files.neighbours,
    }
}

/// The files of a design as a source of its texts.
#[derive(Clone, Copy)]
pub struct FileSource<'a> {
    pub names: DesignFiles<'a>,
}

impl<'a, F: Shelf> TextSource<F> for FileSource<'a> {
    type Text = Name;

    type Stop = Stop<'a>;

    type Name = Name;

    type Cause = Refusal;

    type Knowledge = Option<Rows<File>>;

    ghost use Rattle.desk_commands.specs.Designs.{AreFilesOf};
    ghost use Rattle.desk_commands.specs.CommandStops.{halt_of};

    ghost shows = { λ text. text };

    ghost halt = { halt_of };

    ghost known = { λ shelf. F.files shelf };

    ghost faults = { λ shelf. F.faults shelf };

    ghost tells = { AreFilesOf };

    fn profile(&self) -> Profile {
        self.names.profile
    }

    fn text(&self, alloc: Global, shelf: &mut F, part: DesignText) -> Result<Name, Stop<'a>> {
        read_text(alloc, shelf, name_of(&self.names, part))
    }

    fn bytes<'t>(&self, text: &'t Name) -> &'t [u8] {
        text.as_slice()
    }

    fn stop(&self, part: DesignText, fault: TextFault) -> Stop<'a> {
        Stop::Refused {
            name: name_of(&self.names, part),
            refusal: Refusal::Rule(fault),
        }
    }

    fn stop_for_memory(&self) -> Stop<'a> {
        Stop::NoMemory
    }
}

/// The design of the files of these names, each read and judged before the next is read.
pub fn read_design<'a, F: Shelf>(
    alloc: Global,
    shelf: &mut F,
    files: &DesignFiles<'a>,
) -> Result<ReadDesign<Name>, Stop<'a>>
    ensures told { (held : List File) → F.files shelf.old ≡ Some held → ComesTo halt_of shown_design result (design_reading held (shown_files files.now)) }
    ensures stands { IfOk result (λ d. texts_reading (four d.parts.profile d.netlist d.scan d.patterns d.neighbours) ≡ Ok d.parts) }
    ensures fault { ends_by_fault result ≡ true → Rose (F.faults shelf.old) (F.faults shelf.new) }
    ensures same { F.files shelf.new ≡ F.files shelf.old }
    ensures later { F.faults shelf.old ≤ F.faults shelf.new }
{
    read_from(alloc, &FileSource { names: *files }, shelf)
}
