//! A whole channel text.

ghost use Rattle.std.specs.Prelude.{◌≡◌, ◌≤◌, [], length, IfOk, OnOk};
ghost use Rattle.scan_model.specs.Lines.{text_lines};
ghost use Rattle.scan_model.specs.TextFaults.{HasNoFault, IsFirstFault, first_fault, refused_or};
ghost use Rattle.text_parts.specs.ReadResults.{Gives, IfFault};
ghost use Rattle.text_parts.specs.Views.{nows};
ghost use Rattle.compact_points.specs.Channels.{IsCompactorOf, compactor_of};
ghost use Rattle.chain_compactor.specs.ChannelText.{chain_names, channel_rule, channel_breaks, channel_reading, compactor_of_lines};
ghost use Rattle.chain_compactor.specs.ChannelReading.{IsAfter, IsKept};

use crate::channels::Channels;
use crate::in_order::points_over;
use compact_points::Compact;
use fail_logs::chain_names;
use scan_model::{Parts, Rows};
use std::alloc::Global;
use text_parts::{Names, ReadFault, TextFault, lines_of};

// Takes the channels of a text's lines over chains with these names, up to its first fault.
fn take_lines<'a>(
    alloc: Global,
    parts: &Parts,
    names: &Names<'_>,
    channels: &mut Channels<'a>,
    lines: &[&'a [u8]],
) -> Result<(), ReadFault>
    requires names { names.now ≡ chain_names parts.now }
    requires after { IsAfter parts.now channels.old [] }
    ensures reading { Gives (λ done. compactor_of parts.now channels.new.channels.items) result (refused_or (first_fault (channel_rule parts.now (nows lines.now)) (length (nows lines.now))) (compactor_of_lines parts.now (nows lines.now))) }
    ensures kept { OnOk result (IsKept parts.now channels.new) }
{
    let chains = parts.chains().as_slice();
    for (i, line) in lines.iter().enumerate() {
        if let Some(rule) = channels.take_line(alloc, chains, names, line)? {
            let line = i as u64 + 1;
            return Err(ReadFault::Text(TextFault { line, rule }));
        }
    }
    Ok(())
}

// The channels of a text.
fn read_lines<'a>(alloc: Global, parts: &Parts, bytes: &'a [u8]) -> Result<Channels<'a>, ReadFault>
    ensures reading { Gives (λ kept. compactor_of parts.now kept.channels.items) result (channel_reading parts.now bytes.now) }
    ensures kept { IfOk result (IsKept parts.now) }
{
    let lines = lines_of(alloc, bytes)?;
    let names = chain_names(alloc, parts.chains().as_slice())?;
    let mut channels = Channels::new(alloc, parts.circuit().outputs().len());
    take_lines(alloc, parts, &names, &mut channels, &lines)?;
    Ok(channels)
}

/// The channels that a channel text stands for, with the compact points that they leave, or its first fault by rules 101 to 105.
pub fn read_channels(alloc: Global, parts: &Parts, bytes: &[u8]) -> Result<Compact, ReadFault>
    ensures reading { Gives (λ compact. compact) result (channel_reading parts.now bytes.now) }
    ensures first { IfFault result (IsFirstFault (channel_breaks parts.now (text_lines bytes.now)) (length (text_lines bytes.now))) }
    ensures none { IfOk result (λ compact. HasNoFault (channel_breaks parts.now (text_lines bytes.now)) (length (text_lines bytes.now))) }
    ensures fits { IfOk result (IsCompactorOf parts.now) }
{
    let kept = read_lines(alloc, parts, bytes)?;
    let Channels {
        channels,
        cycles,
        ..
    } = kept;
    let outputs = parts.circuit().outputs().len();
    let points = points_over(alloc, outputs, &cycles)?;
    Ok(Compact::of(Rows::from_vec(channels), points))
}
