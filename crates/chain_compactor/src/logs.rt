//! Logs of a compactor.

ghost use Rattle.std.specs.Prelude.{◌≡◌, ◌+◌, length, map, IfOk};
ghost use Rattle.scan_model.specs.Lines.{text_lines};
ghost use Rattle.scan_model.specs.TextFaults.{HasNoFault, IsFirstFault};
ghost use Rattle.scan_model.specs.LogText.{log_breaks, log_reading};
ghost use Rattle.scan_model.specs.Coverage.{FitsLog};
ghost use Rattle.text_parts.specs.ReadResults.{Gives, IfFault};
ghost use Rattle.fail_logs.specs.Frames.{frame_view};
ghost use Rattle.fail_logs.specs.FrameFacts.{IsFrameOf};
ghost use Rattle.compact_points.specs.Channels.{IsCompactorOf, greatest};
ghost use Rattle.chain_compactor.specs.ChannelReading.{length_in};
ghost use Rattle.chain_compactor.specs.CompactLog.{compact_frame};

use crate::channels::greatest_length;
use compact_points::{Channel, Compact};
use fail_logs::{Frame, read_framed};
use scan_model::{Chain, LogFacts, LogForm, Parts};
use std::alloc::{AllocError, Global};
use text_parts::{Names, ReadFault};

// The names of channels, in file order.
fn channel_names(alloc: Global, channels: &[Channel]) -> Result<Names<'_>, AllocError>
    ensures { IfOk result (λ names. names ≡ map (λ x. x.name) channels.now) }
{
    let mut names = Names::new(alloc);
    for channel in channels {
        names.add(channel.name.as_slice())?;
    }
    Ok(names)
}

/// In how many cycles each channel shows something.
pub(crate) fn channel_cycles(
    alloc: Global,
    chains: &[Chain],
    channels: &[Channel],
) -> Result<Vec<usize>, AllocError>
    ensures { IfOk result (λ cycles. cycles.items ≡ map (λ x. greatest (map (length_in chains.now) x.chains)) channels.now) }
{
    let mut cycles = Vec::with_capacity(alloc, channels.len())?;
    for channel in channels {
        cycles.push_reserved(greatest_length(chains, channel.chains.as_slice()));
    }
    Ok(cycles)
}

// What a log of a compactor is read for.
fn frame_of<'a>(
    alloc: Global,
    parts: &'a Parts,
    compact: &'a Compact,
    design: &'a [u8],
    die: &'a [u8],
) -> Result<Frame<'a>, AllocError>
    requires { IsCompactorOf parts.now compact.now }
    ensures value { IfOk result (λ frame. frame_view frame ≡ compact_frame parts.now compact.now design.now die.now) }
    ensures sound { IfOk result IsFrameOf }
{
    let channels = compact.channels().as_slice();
    let names = channel_names(alloc, channels)?;
    let cycles = channel_cycles(alloc, parts.chains().as_slice(), channels)?;
    let points = compact.in_order().as_slice();
    Frame::make(
        alloc,
        parts,
        LogForm::CompactLog,
        names,
        cycles,
        points,
        design,
        die,
    )
}

/// What a log of the compactor, of the design and the die, stands for, or its first fault: by rules 51 to 63 of version 1, with
/// `COMPLOG 1` as its title, and with channels and cycles in place of chains and positions.
pub fn read_compact_log(
    alloc: Global,
    parts: &Parts,
    compact: &Compact,
    design: &[u8],
    die: &[u8],
    bytes: &[u8],
) -> Result<LogFacts, ReadFault>
    requires { IsCompactorOf parts.now compact.now }
    ensures reading { Gives (λ log. log) result (log_reading (compact_frame parts.now compact.now design.now die.now) bytes.now) }
    ensures first { IfFault result (IsFirstFault (log_breaks (compact_frame parts.now compact.now design.now die.now) (text_lines bytes.now)) (length (text_lines bytes.now) + 1)) }
    ensures none { IfOk result (λ log. HasNoFault (log_breaks (compact_frame parts.now compact.now design.now die.now) (text_lines bytes.now)) (length (text_lines bytes.now) + 1)) }
    ensures fits { IfOk result (FitsLog (length parts.now.patterns) (length compact.now.points)) }
{
    let frame = frame_of(alloc, parts, compact, design, die)?;
    read_framed(alloc, &frame, bytes)
}
