//! The report of a die under two-frame patterns.
ghost use Rattle.std.specs.Prelude.{◌≡◌, ◌<◌, List, All, length, IfOk};
ghost use Rattle.scan_model.specs.declared.logs.LogFacts.{LogFacts};
ghost use Rattle.scan_model.specs.ScanTest.{points_of};
ghost use Rattle.scan_model.specs.Classes.{class_with};
ghost use Rattle.scan_model.specs.Ranking as ranking;
ghost use Rattle.scan_model.specs.ReportText as text_of;
ghost use Rattle.log_join.specs.Joining.{StandsFor, IsJoinedOf, FitsExpected};
ghost use Rattle.two_frame.specs.TwoFrame.{transitions, frame_rows, frame_candidates, frame_layout, frame_report};

use crate::names::SlowNames;
use diag_report::{Head, make_text_of};
use log_join::Joined;
use scan_model::{Expected, Name, NoMemory, Parts, Rows, Scored};
use std::alloc::Global;

/// The report of a die under two-frame patterns: its head, the Conflict and the Masked bits in bit order, and its
/// candidates, which are transition faults, in their order. The classes are those that the given expected values make.
/// Takes time linear in the text and in the bits.
pub fn frame_text(
    alloc: Global,
    parts: &Parts,
    head: &Head,
    expected: &Expected,
    joined: &Joined,
    ranked: &Rows<Scored>,
) -> Result<Name, NoMemory>
    requires expected { FitsExpected expected.now joined.now }
    requires joined { IsJoinedOf (length parts.now.patterns) (length (points_of parts.now)) joined.now }
    requires places { All (λ row. row.place < length (transitions parts.now)) ranked.now }
    ensures layout { (logs : List LogFacts) → StandsFor logs joined.now → IfOk result (λ text. text ≡ text_of.concatenated (frame_layout parts.now head.now.design head.now.die head.now.logs (class_with expected.now logs) ranked.now)) }
    ensures report { (logs : List LogFacts) → StandsFor logs joined.now → expected.now ≡ frame_rows parts.now → head.now.logs ≡ length logs → ranked.now ≡ ranking.ranked (frame_candidates parts.now logs) → IfOk result (λ text. text ≡ frame_report parts.now head.now.design head.now.die logs) }
{
    let _ = parts.patterns();
    let names = SlowNames { parts };
    let report = make_text_of(alloc, &names, head, expected, joined, ranked)?;
    Ok(report.into_text())
}
