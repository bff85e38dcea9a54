//! The words of the report of a die.
ghost use Rattle.std.specs.Prelude.{◌≡◌, ◌++◌, ◌<◌, length, slice_index_or, OnOk};
ghost use Rattle.scan_model.specs.ScanTest.{points_of, point_at, IsPoint};
ghost use Rattle.scan_model.specs.Universe.{universe};
ghost use Rattle.scan_model.specs.ReportText as text_of;
ghost use Rattle.fault_universe.specs.LineWords.{after_spaces};

use fault_universe::{chain_name, fault_at, net_name, push_fault, push_number, push_word};
use report_lines::ReportNames;
use scan_model::{Name, NoMemory, Parts, Point};

/// The words over the points of a test and all its modelled faults.
#[derive(Clone, Copy)]
pub(crate) struct PartsNames<'a> {
    pub(crate) parts: &'a Parts,
}

impl ReportNames for PartsNames<'_> {
    ghost form = { λ s. text_of.report_form (universe s.parts.now) s.parts.now };

    ghost points = { λ s. length (points_of s.parts.now) };

    ghost places = { λ s. length (universe s.parts.now) };

    fn title(&self) -> &[u8] {
        b"REPORT"
    }

    fn push_point(&self, line: &mut Name, point: u32) -> Result<(), NoMemory> {
        push_point(line, self.parts, point)
    }

    fn push_place(&self, line: &mut Name, place: u32) -> Result<(), NoMemory> {
        push_place(line, self.parts, place)
    }
}

/// Adds the words of a point, a space before each.
pub fn push_point_words(line: &mut Name, parts: &Parts, point: Point) -> Result<(), NoMemory>
    requires { IsPoint parts.now point }
    ensures { OnOk result (line.new ≡ line.old ++ after_spaces (text_of.point_words parts.now point)) }
{
    match point {
        Point::Output { place } => {
            push_word(line, b"out")?;
            let net = parts.circuit().outputs().as_slice()[place as usize];
            push_word(line, net_name(parts, net))
        }
        Point::Cell { chain, pos } => {
            push_word(line, b"cell")?;
            push_word(line, chain_name(parts, chain))?;
            push_number(line, u64::from(pos))
        }
    }
}

/// Adds the words of the point with this number in test order, a space before each.
pub fn push_point(line: &mut Name, parts: &Parts, point: u32) -> Result<(), NoMemory>
    requires { point < length (points_of parts.now) }
    ensures { OnOk result (line.new ≡ line.old ++ after_spaces (text_of.point_words parts.now (point_at parts.now point))) }
{
    let point = parts.points().as_slice()[point as usize];
    push_point_words(line, parts, point)
}

/// Adds the words of the fault at a place, a space before each.
pub fn push_place(line: &mut Name, parts: &Parts, place: u32) -> Result<(), NoMemory>
    requires { place < length (universe parts.now) }
    ensures { OnOk result (line.new ≡ line.old ++ after_spaces (text_of.fault_words parts.now (slice_index_or (universe parts.now) place text_of.no_fault))) }
{
    let Some(fault) = fault_at(parts, place) else {
        unreachable!()
    };
    line.push(b' ')?;
    push_fault(line, parts, &fault)
}
