//! `diagnose`: the report of the logs of a die.
ghost use Rattle.std.specs.Prelude.{◌≡◌, ◌≤◌, List, [], Some, map, true};
ghost use Rattle.desk_outside.specs.declared.shelf.File.{File};
ghost use Rattle.desk_outside.specs.Faults.{Rose};
ghost use Rattle.scan_model.specs.Words.{is_tag};
ghost use Rattle.diagnosis.specs.Texts.{ReadTexts};
ghost use Rattle.desk_commands.specs.Designs.{shown_design};
ghost use Rattle.command_words.specs.Invocations.{Request};
ghost use Rattle.desk_commands.specs.Work.{with_design, report_reading};
ghost use Rattle.command_words.specs.CommandViews.{shown_order};
ghost use Rattle.desk_commands.specs.CommandStops.{Follows, ends_by_fault};

use crate::design::read_design;
use crate::die::SimulatedDie;
use crate::files::Stop;
use crate::logs::add_logs;
use command_words::Order;
use desk_outside::Shelf;
use diagnosis::{ReadDesign, report_of_logs};
use scan_model::{Name, Parts};
use std::alloc::Global;
use std::mem::forget;
use std::thread::Threads;

// The report of a die without logs, once those in the files of these names are added.
fn report_of_case<'a, R: Threads + Sync, F: Shelf>(
    rt: &R,
    alloc: Global,
    shelf: &mut F,
    case: &mut SimulatedDie<'_, R>,
    names: &[&'a str],
) -> Result<Name, Stop<'a>>
    requires { case.old.logs ≡ [] }
    ensures told { (held : List File) (r : Request) (d : ReadTexts) → case.old.test ≡ d.test → case.old.design ≡ r.design → case.old.die ≡ r.die
        → map (λ name. name.now) names.now ≡ r.logs → F.files shelf.old ≡ Some held → Follows result (with_design held r d) }
    ensures fault { ends_by_fault result ≡ true → Rose (F.faults shelf.old) (F.faults shelf.new) }
    ensures later { F.faults shelf.old ≤ F.faults shelf.new }
{
    add_logs(alloc, shelf, case, names)?;
    let simulation = case.take_simulation(alloc)?;
    let report = report_of_logs(rt, alloc, case.logs(), &simulation);
    forget(simulation);
    Ok(report?.into_text())
}

// The report of a die of a design of these parts, with the logs in the files of these names.
fn report_over_parts<'a, R: Threads + Sync, F: Shelf>(
    rt: &R,
    alloc: Global,
    shelf: &mut F,
    design: &[u8],
    die: &[u8],
    names: &[&'a str],
    parts: &Parts,
) -> Result<Name, Stop<'a>>
    requires design { is_tag design.now ≡ true }
    requires die { is_tag die.now ≡ true }
    ensures told { (held : List File) (r : Request) (d : ReadTexts) → parts.now ≡ d.test → design.now ≡ r.design → die.now ≡ r.die
        → map (λ name. name.now) names.now ≡ r.logs → F.files shelf.old ≡ Some held → Follows result (with_design held r d) }
    ensures fault { ends_by_fault result ≡ true → Rose (F.faults shelf.old) (F.faults shelf.new) }
    ensures later { F.faults shelf.old ≤ F.faults shelf.new }
{
    let mut case = SimulatedDie::make(rt, alloc, design, die, parts)?;
    let report = report_of_case(rt, alloc, shelf, &mut case, names);
    forget(case);
    report
}

// The report of a die of a design that was read, with the logs in the files of these names.
fn report_over<'a, R: Threads + Sync, F: Shelf>(
    rt: &R,
    alloc: Global,
    shelf: &mut F,
    design: &[u8],
    die: &[u8],
    names: &[&'a str],
    read: ReadDesign<Name>,
) -> Result<Name, Stop<'a>>
    requires design { is_tag design.now ≡ true }
    requires die { is_tag die.now ≡ true }
    ensures told { (held : List File) (r : Request) → design.now ≡ r.design → die.now ≡ r.die → map (λ name. name.now) names.now ≡ r.logs
        → F.files shelf.old ≡ Some held → Follows result (with_design held r (shown_design read)) }
    ensures fault { ends_by_fault result ≡ true → Rose (F.faults shelf.old) (F.faults shelf.new) }
    ensures later { F.faults shelf.old ≤ F.faults shelf.new }
{
    let parts = read.into_parts();
    let report = report_over_parts(rt, alloc, shelf, design, die, names, &parts);
    forget(parts);
    report
}

/// The report of the files of these names.
pub fn report_of<'a, R: Threads + Sync, F: Shelf>(
    rt: &R,
    alloc: Global,
    shelf: &mut F,
    order: &Order<'a>,
) -> Result<Name, Stop<'a>>
    requires design { is_tag order.now.design.now ≡ true }
    requires die { is_tag order.now.die.now ≡ true }
    ensures told { (held : List File) → F.files shelf.old ≡ Some held → Follows result (report_reading held (shown_order order.now)) }
    ensures fault { ends_by_fault result ≡ true → Rose (F.faults shelf.old) (F.faults shelf.new) }
    ensures later { F.faults shelf.old ≤ F.faults shelf.new }
{
    let (design, die) = (order.design.as_bytes(), order.die.as_bytes());
    let names = order.logs.as_slice();
    let read = read_design(alloc, shelf, &order.files)?;
    report_over(rt, alloc, shelf, design, die, names, read)
}
