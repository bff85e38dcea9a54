//! The report of a die that a tester saw through a compactor.

ghost use Rattle.std.specs.Prelude.{◌≡◌, ◌<◌, List, All, length, IfOk};
ghost use Rattle.scan_model.specs.declared.logs.LogFacts.{LogFacts};
ghost use Rattle.scan_model.specs.Universe.{universe};
ghost use Rattle.scan_model.specs.Classes.{class_with};
ghost use Rattle.scan_model.specs.Ranking as ranking;
ghost use Rattle.scan_model.specs.ReportText as text_of;
ghost use Rattle.log_join.specs.Joining.{StandsFor, IsJoinedOf, FitsExpected};
ghost use Rattle.compact_points.specs.Channels.{IsCompactorOf};
ghost use Rattle.compact_points.specs.Compaction.{compact_rows};
ghost use Rattle.chain_compactor.specs.CompactMatches.{compact_candidates};
ghost use Rattle.chain_compactor.specs.CompactReport.{compact_layout, compact_report};

use crate::names::CompactNames;
use compact_points::Compact;
use diag_report::{Head, make_text_of};
use log_join::Joined;
use scan_model::{Expected, Name, NoMemory, Parts, Rows, Scored};
use std::alloc::Global;

/// The report of a die that a tester saw through a compactor: its head, the Conflict and the Masked bits in bit order, and its
/// candidates in their order. The classes are those that the given expected values make.
/// Takes time linear in the text and in the bits.
pub fn compact_text(
    alloc: Global,
    parts: &Parts,
    compact: &Compact,
    head: &Head,
    expected: &Expected,
    joined: &Joined,
    ranked: &Rows<Scored>,
) -> Result<Name, NoMemory>
    requires made { IsCompactorOf parts.now compact.now }
    requires expected { FitsExpected expected.now joined.now }
    requires joined { IsJoinedOf (length parts.now.patterns) (length compact.now.points) joined.now }
    requires places { All (λ row. row.place < length (universe parts.now)) ranked.now }
    ensures layout { (logs : List LogFacts) → StandsFor logs joined.now → IfOk result (λ text. text ≡ text_of.concatenated (compact_layout parts.now compact.now head.now.design head.now.die head.now.logs (class_with expected.now logs) ranked.now)) }
    ensures report { (logs : List LogFacts) → StandsFor logs joined.now → expected.now ≡ compact_rows parts.now compact.now → head.now.logs ≡ length logs → ranked.now ≡ ranking.ranked (compact_candidates parts.now compact.now logs) → IfOk result (λ text. text ≡ compact_report parts.now compact.now head.now.design head.now.die logs) }
{
    let _ = parts.patterns();
    let names = CompactNames { parts, compact };
    let report = make_text_of(alloc, &names, head, expected, joined, ranked)?;
    Ok(report.into_text())
}
