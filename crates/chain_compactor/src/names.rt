//! The words of a report through a compactor.

ghost use Rattle.std.specs.Prelude.{◌≡◌, ◌++◌, ◌<◌, length, OnOk};
ghost use Rattle.std.proofs.Props.{props};
ghost use Rattle.scan_model.specs.Universe.{universe};
ghost use Rattle.fault_universe.specs.LineWords.{after_spaces};
ghost use Rattle.compact_points.specs.Channels.{IsCompactorOf};
ghost use Rattle.compact_points.specs.CompactPoints.{IsThere};
ghost use Rattle.chain_compactor.specs.CompactReport.{shown_words, compact_form};

use compact_points::Compact;
use diag_report::{ReportNames, push_place, push_point_words};
use fault_universe::{push_number, push_word};
use scan_model::{Name, NoMemory, Parts, Point};

/// The words over compact points and all modelled faults.
#[derive(Clone, Copy)]
pub(crate) struct CompactNames<'a> {
    pub(crate) parts: &'a Parts,
    pub(crate) compact: &'a Compact,
    ghost made: { IsCompactorOf parts.now compact.now } by { Prim.hlevel props },
}

impl ReportNames for CompactNames<'_> {
    ghost form = { λ s. compact_form s.parts.now s.compact.now };

    ghost points = { λ s. length s.compact.now.points };

    ghost places = { λ s. length (universe s.parts.now) };

    fn title(&self) -> &[u8] {
        b"COMPACT REPORT"
    }

    fn push_point(&self, line: &mut Name, point: u32) -> Result<(), NoMemory> {
        let shown = self.compact.in_order().as_slice()[point as usize];
        push_shown(line, self.parts, self.compact, shown)
    }

    fn push_place(&self, line: &mut Name, place: u32) -> Result<(), NoMemory> {
        push_place(line, self.parts, place)
    }
}

/// Adds the words of a compact point, a space before each.
fn push_shown(
    line: &mut Name,
    parts: &Parts,
    compact: &Compact,
    point: Point,
) -> Result<(), NoMemory>
    requires made { IsCompactorOf parts.now compact.now }
    requires point { IsThere parts.now compact.now point }
    ensures { OnOk result (line.new ≡ line.old ++ after_spaces (shown_words parts.now compact.now point)) }
{
    match point {
        Point::Output { .. } => push_point_words(line, parts, point),
        Point::Cell { chain, pos } => {
            let channel = &compact.channels().as_slice()[chain as usize];
            push_word(line, b"chan")?;
            push_word(line, channel.name.as_slice())?;
            push_number(line, u64::from(pos))
        }
    }
}
