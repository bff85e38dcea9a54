//! `check`: the summary of the design of four files.
ghost use Rattle.std.specs.Prelude.{◌≡◌, ◌≤◌, List, Some, true, false};
ghost use Rattle.desk_outside.specs.declared.shelf.File.{File};
ghost use Rattle.desk_outside.specs.Faults.{Rose};
ghost use Rattle.diag_report.specs.Summary.{summary_text};
ghost use Rattle.diagnosis.specs.Texts.{value};
ghost use Rattle.desk_commands.specs.Work.{check_reading};
ghost use Rattle.command_words.specs.CommandViews.{shown_files};
ghost use Rattle.desk_commands.specs.CommandStops.{Follows, ends_by_fault};

use crate::design::read_design;
use crate::files::Stop;
use command_words::DesignFiles;
use desk_outside::Shelf;
use diag_report::summary_text;
use diagnosis::ReadDesign;
use scan_model::Name;
use std::alloc::Global;
use std::mem::forget;

fn summary_over<'a>(alloc: Global, design: &ReadDesign<Name>) -> Result<Name, Stop<'a>>
    ensures told { Follows result (value (summary_text design.now.parts)) }
    ensures fault { ends_by_fault result ≡ false }
{
    Ok(summary_text(alloc, &design.parts)?)
}

/// The summary of the design of the files of these names.
pub fn summary_of<'a, F: Shelf>(
    alloc: Global,
    shelf: &mut F,
    files: &DesignFiles<'a>,
) -> Result<Name, Stop<'a>>
    ensures told { (held : List File) → F.files shelf.old ≡ Some held → Follows result (check_reading held (shown_files files.now)) }
    ensures fault { ends_by_fault result ≡ true → Rose (F.faults shelf.old) (F.faults shelf.new) }
    ensures later { F.faults shelf.old ≤ F.faults shelf.new }
{
    let design = read_design(alloc, shelf, files)?;
    let summary = summary_over(alloc, &design);
    forget(design);
    summary
}
