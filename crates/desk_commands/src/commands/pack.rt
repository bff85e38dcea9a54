//! `pack`: the bundle of the design of four files.
ghost use Rattle.std.specs.Prelude.{◌≡◌, ◌≤◌, List, Some, true, false};
ghost use Rattle.desk_outside.specs.declared.shelf.File.{File};
ghost use Rattle.desk_outside.specs.Faults.{Rose};
ghost use Rattle.design_bundle.specs.Bundle.{bundle_text};
ghost use Rattle.diagnosis.specs.Texts.{value};
ghost use Rattle.desk_commands.specs.Designs.{shown_design};
ghost use Rattle.desk_commands.specs.Work.{pack_reading};
ghost use Rattle.command_words.specs.CommandViews.{shown_files};
ghost use Rattle.desk_commands.specs.CommandStops.{Follows, ends_by_fault};

use crate::design::read_design;
use crate::files::Stop;
use command_words::DesignFiles;
use desk_outside::Shelf;
use diagnosis::{ReadDesign, Sections, bundle_text};
use scan_model::Name;
use std::alloc::Global;
use std::mem::forget;

fn bundle_over<'a>(alloc: Global, design: &ReadDesign<Name>) -> Result<Name, Stop<'a>>
    ensures told { Follows result (value (bundle_text (shown_design design.now).texts)) }
    ensures fault { ends_by_fault result ≡ false }
{
    let texts = Sections {
        profile: design.parts.profile(),
        netlist: design.netlist.as_slice(),
        scan: design.scan.as_slice(),
        patterns: design.patterns.as_slice(),
        neighbours: design.neighbours.as_slice(),
    };
    Ok(bundle_text(alloc, &texts)?)
}

/// The bundle of the design of the files of these names.
pub fn bundle_of<'a, F: Shelf>(
    alloc: Global,
    shelf: &mut F,
    files: &DesignFiles<'a>,
) -> Result<Name, Stop<'a>>
    ensures told { (held : List File) → F.files shelf.old ≡ Some held → Follows result (pack_reading held (shown_files files.now)) }
    ensures fault { ends_by_fault result ≡ true → Rose (F.faults shelf.old) (F.faults shelf.new) }
    ensures later { F.faults shelf.old ≤ F.faults shelf.new }
{
    let design = read_design(alloc, shelf, files)?;
    let bundle = bundle_over(alloc, &design);
    forget(design);
    bundle
}
