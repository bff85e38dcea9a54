//! The expected values of two-frame patterns, from the fault-free values of the second frame in rows of 512 patterns.
ghost use Rattle.std.specs.Prelude.{◌≡◌, length, IfOk};
ghost use Rattle.scan_model.specs.ScanTest.{points_of};
ghost use Rattle.log_join.specs.Joining.{JoinedBits, IsJoinedOf, FitsExpected};
ghost use Rattle.two_frame.specs.TwoFrame.{frame_rows};
ghost use Rattle.two_frame.specs.FrameRows.{IsFrameGood, AllCapture};

use crate::frame_good::FrameGood;
use expected_values::{ResponseRows, expected_of};
use lane_rows::Packed;
use scan_model::{Expected, NoMemory, Parts};
use std::alloc::Global;

/// The points of a test in the second frame.
#[derive(Clone, Copy)]
struct FramePoints<'a> {
    parts: &'a Parts,
    good: &'a FrameGood,
}

impl ResponseRows for FramePoints<'_> {
    ghost use Rattle.std.specs.Prelude.{length};
    ghost use Rattle.scan_model.specs.ScanTest.{points_of};
    ghost use Rattle.two_frame.specs.TwoFrame.{frame_rows};
    ghost use Rattle.two_frame.specs.FrameRows.{IsFrameGood, AllCapture};

    ghost table = { λ s. frame_rows s.parts.now };

    ghost places = { λ s. length (points_of s.parts.now) };

    ghost ready = { λ s. IsFrameGood s.parts.now s.good.now × AllCapture s.parts.now };

    fn row(&self, block: usize, place: u32) -> Packed {
        let _ = self.parts.circuit().order();
        let net = self.good.second.observed(self.parts)[place as usize];
        let values = self.good.second.blocks()[block].values.as_slice();
        values[net as usize]
    }
}

/// What each point shows in the second frame of each pattern, without a fault, from values of both frames that were made
/// before. The only error is want of memory.
pub fn expected_over(alloc: Global, parts: &Parts, good: &FrameGood) -> Result<Expected, NoMemory>
    requires good { IsFrameGood parts.now good.now }
    requires captures { AllCapture parts.now }
    ensures value { IfOk result (λ expected. expected ≡ frame_rows parts.now) }
    ensures fits { IfOk result (λ expected. (joined : JoinedBits) → IsJoinedOf (length parts.now.patterns) (length (points_of parts.now)) joined → FitsExpected expected joined) }
{
    let points = FramePoints { parts, good };
    let patterns = parts.patterns().len() as u32;
    expected_of(alloc, &points, patterns, parts.points().len() as u32)
}

/// What each point shows in the second frame of each pattern, without a fault. The only error is want of memory.
pub fn frame_expected(alloc: Global, parts: &Parts) -> Result<Expected, NoMemory>
    requires { AllCapture parts.now }
    ensures { IfOk result (λ expected. expected ≡ frame_rows parts.now) }
{
    let good = FrameGood::make(alloc, parts)?;
    expected_over(alloc, parts, &good)
}
