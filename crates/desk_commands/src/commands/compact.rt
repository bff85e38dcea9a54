//! `compact`: the report of the logs of a die that a tester saw through a compactor.
ghost use Rattle.std.specs.Prelude.{◌≡◌, ◌≤◌, ◌<◌, ℕ, List, length, Some, IfOk, true};
ghost use Rattle.desk_outside.specs.declared.shelf.File.{File};
ghost use Rattle.desk_outside.specs.Faults.{Rose};
ghost use Rattle.scan_model.specs.declared.logs.LogFacts.{LogFacts};
ghost use Rattle.log_join.specs.Joining.{StandsFor, IsJoinedOf};
ghost use Rattle.packed_sim.specs.PackedParts.{BelongsTo};
ghost use Rattle.compact_points.specs.Channels.{IsCompactorOf};
ghost use Rattle.compact_points.specs.Compaction.{compact_rows};
ghost use Rattle.chain_compactor.specs.ChannelText.{channel_reading};
ghost use Rattle.chain_compactor.specs.CompactMatches.{compact_candidates};
ghost use Rattle.chain_compactor.specs.CompactReport.{compact_report};
ghost use Rattle.command_words.specs.CommandViews.{shown_order};
ghost use Rattle.desk_commands.specs.FileReadings.{file_reading};
ghost use Rattle.desk_commands.specs.Logs.{StandsForSome};
ghost use Rattle.desk_commands.specs.CommandStops.{Follows, ends_by_fault};
ghost use Rattle.desk_commands.specs.Views.{compact_reading, with_channels};

use crate::design::read_design;
use crate::files::{Stop, named, read_text};
use crate::views::{View, view_report};
use chain_compactor::{
    Compact, compact_counts, compact_expected_over, compact_text, read_channels, read_compact_log,
};
use command_words::Order;
use desk_outside::Shelf;
use diag_report::{Head, rank_by_numbers};
use log_join::Joined;
use packed_sim::PackedGood;
use scan_model::{Expected, LogFacts, Name, NoMemory, Parts, Rows, Scored, Steps};
use std::alloc::Global;
use std::marker::Brand;
use std::mem::forget;
use std::sync::ledger::{Blank, Ledger};
use text_parts::ReadFault;

// A die that a tester saw through a compactor.
#[derive(Clone, Copy)]
struct CompactorView<'v> {
    parts: &'v Parts,
    compact: &'v Compact,
    design: &'v [u8],
    die: &'v [u8],
}

// The counts of the faults that explain a fail, with a ledger for steps of simulation.
fn counts_in<L: Ledger>(
    alloc: Global,
    parts: &Parts,
    compact: &Compact,
    good: &PackedGood,
    expected: &Expected,
    joined: &Joined,
    blank: Blank,
) -> Result<Rows<Scored>, NoMemory>
    requires made { IsCompactorOf parts.now compact.now }
    requires good { BelongsTo parts.now good.now }
    requires expected { expected.now ≡ compact_rows parts.now compact.now }
    requires joined { IsJoinedOf (length parts.now.patterns) (length compact.now.points) joined.now }
    requires name { blank.name ≡ L.name }
    requires parts { blank.parts ≡ L.parts }
    requires some { 0 < blank.parts }
    ensures { (logs : List LogFacts) → StandsFor logs joined.now → IfOk result (λ rows. rows ≡ compact_candidates parts.now compact.now logs) }
{
    let mut steps = Steps::<L>::open(blank);
    compact_counts(alloc, parts, compact, good, expected, joined, &mut steps)
}

// The counts of the faults that explain a fail.
fn counts_of(
    alloc: Global,
    parts: &Parts,
    compact: &Compact,
    good: &PackedGood,
    expected: &Expected,
    joined: &Joined,
) -> Result<Rows<Scored>, NoMemory>
    requires made { IsCompactorOf parts.now compact.now }
    requires good { BelongsTo parts.now good.now }
    requires expected { expected.now ≡ compact_rows parts.now compact.now }
    requires joined { IsJoinedOf (length parts.now.patterns) (length compact.now.points) joined.now }
    ensures { (logs : List LogFacts) → StandsFor logs joined.now → IfOk result (λ rows. rows ≡ compact_candidates parts.now compact.now logs) }
{
    counts_in::<Brand>(alloc, parts, compact, good, expected, joined, Blank::new(1))
}

// The report of joined logs of a compactor.
fn text_over(
    alloc: Global,
    parts: &Parts,
    compact: &Compact,
    head: &Head,
    joined: &Joined,
) -> Result<Name, NoMemory>
    requires made { IsCompactorOf parts.now compact.now }
    requires joined { IsJoinedOf (length parts.now.patterns) (length compact.now.points) joined.now }
    requires stands { StandsForSome joined.now }
    ensures { (logs : List LogFacts) → StandsFor logs joined.now → head.now.logs ≡ length logs
        → IfOk result (λ text. text ≡ compact_report parts.now compact.now head.now.design head.now.die logs) }
{
    let good = PackedGood::make(alloc, parts)?;
    let text = text_of_good(alloc, parts, compact, head, joined, &good);
    drop(good);
    text
}

// That report, over fault-free values.
fn text_of_good(
    alloc: Global,
    parts: &Parts,
    compact: &Compact,
    head: &Head,
    joined: &Joined,
    good: &PackedGood,
) -> Result<Name, NoMemory>
    requires made { IsCompactorOf parts.now compact.now }
    requires joined { IsJoinedOf (length parts.now.patterns) (length compact.now.points) joined.now }
    requires stands { StandsForSome joined.now }
    requires good { BelongsTo parts.now good.now }
    ensures { (logs : List LogFacts) → StandsFor logs joined.now → head.now.logs ≡ length logs
        → IfOk result (λ text. text ≡ compact_report parts.now compact.now head.now.design head.now.die logs) }
{
    let expected = compact_expected_over(alloc, parts, compact, good.rows())?;
    let mut rows = counts_of(alloc, parts, compact, good, &expected, joined)?;
    rank_by_numbers(alloc, &mut rows);
    compact_text(alloc, parts, compact, head, &expected, joined, &rows)
}

impl<'v> View for CompactorView<'v> {
    ghost use Rattle.compact_points.specs.Channels.{IsCompactorOf};
    ghost use Rattle.chain_compactor.specs.CompactLog.{compact_frame};
    ghost use Rattle.chain_compactor.specs.CompactReport.{compact_report};

    ghost sound = { λ v. IsCompactorOf v.parts.now v.compact.now };

    ghost frame = { λ v. compact_frame v.parts.now v.compact.now v.design.now v.die.now };

    ghost report = { λ v logs. compact_report v.parts.now v.compact.now v.design.now v.die.now logs };

    fn no_logs(&self, alloc: Global) -> Result<Joined, NoMemory> {
        let patterns = self.parts.patterns().len() as u32;
        Joined::make(alloc, patterns, self.compact.points())
    }

    fn log(&self, alloc: Global, bytes: &[u8]) -> Result<LogFacts, ReadFault> {
        read_compact_log(
            alloc,
            self.parts,
            self.compact,
            self.design,
            self.die,
            bytes,
        )
    }

    fn text(&self, alloc: Global, joined: &Joined, count: u64) -> Result<Name, NoMemory> {
        let head = Head {
            design: Name::copy_of(alloc, self.design)?,
            die: Name::copy_of(alloc, self.die)?,
            logs: count,
        };
        text_over(alloc, self.parts, self.compact, &head, joined)
    }
}

// The channels of a compactor behind a scan test.
fn read_compactor<'a, F: Shelf>(
    alloc: Global,
    shelf: &mut F,
    name: &'a str,
    parts: &Parts,
) -> Result<Compact, Stop<'a>>
    ensures told { (held : List File) → F.files shelf.old ≡ Some held → Follows result (file_reading held (channel_reading parts.now) name.now) }
    ensures fits { IfOk result (IsCompactorOf parts.now) }
    ensures fault { ends_by_fault result ≡ true → Rose (F.faults shelf.old) (F.faults shelf.new) }
    ensures same { F.files shelf.new ≡ F.files shelf.old }
    ensures later { F.faults shelf.old ≤ F.faults shelf.new }
{
    let text = read_text(alloc, shelf, name)?;
    let answer = read_channels(alloc, parts, text.as_slice());
    named(name, answer)
}

// The report of the logs of an order behind its compactor, over its scan test.
fn report_over<'a, F: Shelf>(
    alloc: Global,
    shelf: &mut F,
    order: &Order<'a>,
    parts: &Parts,
) -> Result<Name, Stop<'a>>
    ensures told { (held : List File) → F.files shelf.old ≡ Some held → Follows result (with_channels held (shown_order order.now) parts.now) }
    ensures fault { ends_by_fault result ≡ true → Rose (F.faults shelf.old) (F.faults shelf.new) }
    ensures later { F.faults shelf.old ≤ F.faults shelf.new }
{
    let compact = read_compactor(alloc, shelf, order.channels, parts)?;
    let view = CompactorView {
        parts,
        compact: &compact,
        design: order.design.as_bytes(),
        die: order.die.as_bytes(),
    };
    view_report(alloc, shelf, &view, order.logs.as_slice())
}

/// The report of the files of these names behind a compactor.
pub fn compact_report_of<'a, F: Shelf>(
    alloc: Global,
    shelf: &mut F,
    order: &Order<'a>,
) -> Result<Name, Stop<'a>>
    ensures told { (held : List File) → F.files shelf.old ≡ Some held → Follows result (compact_reading held (shown_order order.now)) }
    ensures fault { ends_by_fault result ≡ true → Rose (F.faults shelf.old) (F.faults shelf.new) }
    ensures later { F.faults shelf.old ≤ F.faults shelf.new }
{
    let read = read_design(alloc, shelf, &order.files)?;
    let parts = read.into_parts();
    let report = report_over(alloc, shelf, order, &parts);
    forget(parts);
    report
}
