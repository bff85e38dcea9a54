//! What a log is read for.

use crate::tables::{cell_places, chain_lengths, chain_names, output_names, shift_marks};
use scan_model::{LogForm, Parts, Point};
use std::alloc::{AllocError, Global};
use text_parts::Names;

/// The form of the log, the names of the outputs and the chains, the chains' lengths, for each chain a row with the place of each of its
/// cells among the points, the points in test order, of each pattern whether it only shifts, and the names of the
/// design and the die.
#[derive(Drop)]
pub struct Frame<'a> {
    pub form: LogForm,
    pub outputs: Names<'a>,
    pub chains: Names<'a>,
    pub lengths: Vec<usize>,
    pub places: Vec<Vec<u32>>,
    pub points: &'a [Point],
    pub shifts: Vec<bool>,
    pub design: &'a [u8],
    pub die: &'a [u8],
}

impl<'a> Frame<'a> {
    ghost use Rattle.std.specs.Prelude.{◌≡◌, ◌≤◌, IfOk, length, bytes_eq};
    ghost use Rattle.std.specs.List.{IsDistinct};
    ghost use Rattle.scan_model.specs.LogText.{log_frame};
    ghost use Rattle.fail_logs.specs.Frames.{frame_view};
    ghost use Rattle.fail_logs.specs.FrameFacts.{ArePoints, IsFrameOf, frame_with};

    /// The frame of a log of this form over these points, for a design and a die: with the names and the lengths of the
    /// chains, or of what stands in their place.
    pub fn make(
        alloc: Global,
        parts: &'a Parts,
        form: LogForm,
        chains: Names<'a>,
        lengths: Vec<usize>,
        points: &'a [Point],
        design: &'a [u8],
        die: &'a [u8],
    ) -> Result<Self, AllocError>
        requires names { IsDistinct bytes_eq chains }
        requires lengths { length lengths.items ≡ length chains }
        requires few { length chains ≤ 256 }
        requires points { ArePoints (length parts.now.netlist.outputs) lengths.items points.now }
        requires few_points { length points.now ≤ 131072 }
        ensures value { IfOk result (λ frame. frame_view frame ≡ frame_with parts.now form chains.entry lengths.items points.now design.now die.now) }
        ensures sound { IfOk result IsFrameOf }
    {
        let shifts = shift_marks(alloc, parts.patterns().as_slice())?;
        let outputs = output_names(alloc, parts.circuit())?;
        let places = cell_places(alloc, &lengths, points)?;
        Ok(Frame {
            form,
            outputs,
            chains,
            lengths,
            places,
            points,
            shifts,
            design,
            die,
        })
    }

    /// The frame of a scan test for a design and a die.
    pub fn of_parts(
        alloc: Global,
        parts: &'a Parts,
        design: &'a [u8],
        die: &'a [u8],
    ) -> Result<Self, AllocError>
        ensures value { IfOk result (λ frame. frame_view frame ≡ log_frame parts.now design.now die.now) }
        ensures sound { IfOk result IsFrameOf }
    {
        let chains = chain_names(alloc, parts.chains().as_slice())?;
        let lengths = chain_lengths(alloc, parts.chains().as_slice())?;
        let points = parts.points().as_slice();
        Frame::make(
            alloc,
            parts,
            LogForm::FailLog,
            chains,
            lengths,
            points,
            design,
            die,
        )
    }
}
