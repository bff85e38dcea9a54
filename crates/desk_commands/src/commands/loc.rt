//! `loc`: the report of the logs of a die on transition faults.
ghost use Rattle.std.specs.Prelude.{◌≡◌, ◌≤◌, ℕ, List, length, Some, IfOk, true};
ghost use Rattle.desk_outside.specs.declared.shelf.File.{File};
ghost use Rattle.desk_outside.specs.Faults.{Rose};
ghost use Rattle.scan_model.specs.declared.logs.LogFacts.{LogFacts};
ghost use Rattle.scan_model.specs.ScanTest.{points_of};
ghost use Rattle.log_join.specs.Joining.{StandsFor, IsJoinedOf};
ghost use Rattle.two_frame.specs.TwoFrame.{frame_report};
ghost use Rattle.two_frame.specs.FrameRows.{AllCapture, IsFrameGood};
ghost use Rattle.command_words.specs.CommandViews.{shown_order};
ghost use Rattle.desk_commands.specs.Logs.{StandsForSome};
ghost use Rattle.desk_commands.specs.CommandStops.{Follows, ends_by_fault};
ghost use Rattle.desk_commands.specs.Views.{loc_reading, with_launches};

use crate::files::Stop;
use crate::launches::read_launch_design;
use crate::views::{View, view_report};
use command_words::Order;
use desk_outside::Shelf;
use diag_report::{Head, rank_by_numbers};
use fail_logs::read_log;
use log_join::Joined;
use scan_model::{LogFacts, Name, NoMemory, Parts};
use std::alloc::Global;
use std::mem::forget;
use text_parts::ReadFault;
use two_frame::{FrameGood, counts_over, expected_over, frame_text};

// A die that was tested with two-frame patterns.
#[derive(Clone, Copy)]
struct LaunchView<'v> {
    parts: &'v Parts,
    design: &'v [u8],
    die: &'v [u8],
}

// The report of joined logs on transition faults.
fn text_over(alloc: Global, parts: &Parts, head: &Head, joined: &Joined) -> Result<Name, NoMemory>
    requires captures { AllCapture parts.now }
    requires joined { IsJoinedOf (length parts.now.patterns) (length (points_of parts.now)) joined.now }
    requires stands { StandsForSome joined.now }
    ensures { (logs : List LogFacts) → StandsFor logs joined.now → head.now.logs ≡ length logs → IfOk result (λ text. text ≡ frame_report parts.now head.now.design head.now.die logs) }
{
    let good = FrameGood::make(alloc, parts)?;
    let text = text_of_good(alloc, parts, head, joined, &good);
    drop(good);
    text
}

// That report, over fault-free values.
fn text_of_good(
    alloc: Global,
    parts: &Parts,
    head: &Head,
    joined: &Joined,
    good: &FrameGood,
) -> Result<Name, NoMemory>
    requires captures { AllCapture parts.now }
    requires joined { IsJoinedOf (length parts.now.patterns) (length (points_of parts.now)) joined.now }
    requires stands { StandsForSome joined.now }
    requires good { IsFrameGood parts.now good.now }
    ensures { (logs : List LogFacts) → StandsFor logs joined.now → head.now.logs ≡ length logs → IfOk result (λ text. text ≡ frame_report parts.now head.now.design head.now.die logs) }
{
    let expected = expected_over(alloc, parts, good)?;
    let mut rows = counts_over(alloc, parts, good, &expected, joined)?;
    rank_by_numbers(alloc, &mut rows);
    frame_text(alloc, parts, head, &expected, joined, &rows)
}

impl<'v> View for LaunchView<'v> {
    ghost use Rattle.scan_model.specs.LogText.{log_frame};
    ghost use Rattle.two_frame.specs.TwoFrame.{frame_report};
    ghost use Rattle.two_frame.specs.FrameRows.{AllCapture};

    ghost sound = { λ v. AllCapture v.parts.now };

    ghost frame = { λ v. log_frame v.parts.now v.design.now v.die.now };

    ghost report = { λ v logs. frame_report v.parts.now v.design.now v.die.now logs };

    fn no_logs(&self, alloc: Global) -> Result<Joined, NoMemory> {
        let patterns = self.parts.patterns().len() as u32;
        let points = self.parts.points().len() as u32;
        Joined::make(alloc, patterns, points)
    }

    fn log(&self, alloc: Global, bytes: &[u8]) -> Result<LogFacts, ReadFault> {
        read_log(alloc, self.parts, self.design, self.die, bytes)
    }

    fn text(&self, alloc: Global, joined: &Joined, count: u64) -> Result<Name, NoMemory> {
        let head = Head {
            design: Name::copy_of(alloc, self.design)?,
            die: Name::copy_of(alloc, self.die)?,
            logs: count,
        };
        text_over(alloc, self.parts, &head, joined)
    }
}

// The report of the logs of an order on transition faults, over its scan test.
fn report_over<'a, F: Shelf>(
    alloc: Global,
    shelf: &mut F,
    order: &Order<'a>,
    parts: &Parts,
) -> Result<Name, Stop<'a>>
    requires { AllCapture parts.now }
    ensures told { (held : List File) → F.files shelf.old ≡ Some held → Follows result (with_launches held (shown_order order.now) parts.now) }
    ensures fault { ends_by_fault result ≡ true → Rose (F.faults shelf.old) (F.faults shelf.new) }
    ensures later { F.faults shelf.old ≤ F.faults shelf.new }
{
    let view = LaunchView {
        parts,
        design: order.design.as_bytes(),
        die: order.die.as_bytes(),
    };
    view_report(alloc, shelf, &view, order.logs.as_slice())
}

/// The report of the files of these names on transition faults.
pub fn transition_report_of<'a, F: Shelf>(
    alloc: Global,
    shelf: &mut F,
    order: &Order<'a>,
) -> Result<Name, Stop<'a>>
    ensures told { (held : List File) → F.files shelf.old ≡ Some held → Follows result (loc_reading held (shown_order order.now)) }
    ensures fault { ends_by_fault result ≡ true → Rose (F.faults shelf.old) (F.faults shelf.new) }
    ensures later { F.faults shelf.old ≤ F.faults shelf.new }
{
    let parts = read_launch_design(alloc, shelf, &order.files)?;
    let report = report_over(alloc, shelf, order, &parts);
    forget(parts);
    report
}
