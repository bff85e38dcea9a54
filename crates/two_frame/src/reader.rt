//! Reads the texts of two-frame patterns.
ghost use Rattle.std.specs.Prelude.{◌≡◌, ◌+◌, length, All, IfOk};
ghost use Rattle.scan_model.specs.declared.parts.PatternKind.TheVariants.{Capture};
ghost use Rattle.scan_model.specs.Lines.{text_lines};
ghost use Rattle.scan_model.specs.TextFaults.{HasNoFault, IsFirstFault};
ghost use Rattle.scan_model.specs.PatternText.{pattern_breaks, pattern_reading};
ghost use Rattle.scan_model.specs.ScanTest.{ArePatterns};
ghost use Rattle.text_parts.specs.ReadResults.{Gives, IfFault};
ghost use Rattle.two_frame.specs.TwoFrame.{launch_frame};

use scan_model::{Chain, Circuit, Pattern, Rows};
use scan_text::{Frame, read_framed_patterns};
use std::alloc::Global;
use text_parts::ReadFault;

/// The two-frame patterns that a pattern text stands for, or its first fault by rules 21 to 26. Each of its lines is a LOC
/// line; its pattern is one that captures.
pub fn read_two_frame(
    alloc: Global,
    circuit: &Circuit,
    chains: &Rows<Chain>,
    bytes: &[u8],
) -> Result<Rows<Pattern>, ReadFault>
    ensures reading { Gives (λ patterns. patterns) result (pattern_reading (launch_frame circuit.now chains.now) bytes.now) }
    ensures first { IfFault result (IsFirstFault (pattern_breaks (launch_frame circuit.now chains.now) (text_lines bytes.now)) (length (text_lines bytes.now) + 1)) }
    ensures none { IfOk result (λ patterns. HasNoFault (pattern_breaks (launch_frame circuit.now chains.now) (text_lines bytes.now)) (length (text_lines bytes.now) + 1)) }
    ensures fits { IfOk result (ArePatterns circuit.now chains.now) }
    ensures captures { IfOk result (All (λ w. w.kind ≡ Capture)) }
{
    let frame = Frame {
        inputs: circuit.inputs().len(),
        chains: chains.as_slice(),
        keyword: b"LOC",
        shifts: false,
    };
    read_framed_patterns(alloc, &frame, bytes)
}
