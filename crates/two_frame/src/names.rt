//! The words of a report on transition faults.
ghost use Rattle.std.specs.Prelude.{◌≡◌, ◌++◌, ◌<◌, length, slice_index_or, OnOk};
ghost use Rattle.scan_model.specs.declared.fault.Fault.TheVariants as fault;
ghost use Rattle.scan_model.specs.ScanTest.{points_of, HasSite};
ghost use Rattle.scan_model.specs.ReportText.{spaced, no_fault};
ghost use Rattle.fault_universe.specs.LineWords.{after_spaces};
ghost use Rattle.two_frame.specs.TwoFrame.{transitions, slow_word, slow_words, frame_form};

use diag_report::{ReportNames, push_point};
use fault_universe::{fault_at, push_branch_site, push_fault, push_stem_site, push_word};
use scan_model::{Fault, Name, NoMemory, Parts, Stuck};

/// The words over the points of a test and its transition faults.
#[derive(Clone, Copy)]
pub(crate) struct SlowNames<'a> {
    pub(crate) parts: &'a Parts,
}

impl ReportNames for SlowNames<'_> {
    ghost form = { λ s. frame_form s.parts.now };

    ghost points = { λ s. length (points_of s.parts.now) };

    ghost places = { λ s. length (transitions s.parts.now) };

    fn title(&self) -> &[u8] {
        b"LOC REPORT"
    }

    fn push_point(&self, line: &mut Name, point: u32) -> Result<(), NoMemory> {
        push_point(line, self.parts, point)
    }

    fn push_place(&self, line: &mut Name, place: u32) -> Result<(), NoMemory> {
        push_place(line, self.parts, place)
    }
}

fn slow_word(value: Stuck) -> &'static str
    ensures { result.now ≡ slow_word value }
{
    match value {
        Stuck::Zero => "slow-rise",
        Stuck::One => "slow-fall",
    }
}

fn push_slow_stem(line: &mut Name, parts: &Parts, net: u32, value: Stuck) -> Result<(), NoMemory>
    requires { net < length parts.now.netlist.nets }
    ensures { OnOk result (line.new ≡ line.old ++ spaced (slow_words parts.now (fault.Stem net value))) }
{
    push_stem_site(line, parts, net)?;
    push_word(line, slow_word(value).as_bytes())
}

fn push_slow_branch(line: &mut Name, parts: &Parts, pin: u32, value: Stuck) -> Result<(), NoMemory>
    requires { pin < length parts.now.netlist.pins }
    ensures { OnOk result (line.new ≡ line.old ++ spaced (slow_words parts.now (fault.Branch pin value))) }
{
    push_branch_site(line, parts, pin)?;
    push_word(line, slow_word(value).as_bytes())
}

/// Adds the text of a fault of a test whose stems and branches are slow.
fn push_slow(line: &mut Name, parts: &Parts, fault: &Fault) -> Result<(), NoMemory>
    requires { HasSite parts.now fault.now }
    ensures { OnOk result (line.new ≡ line.old ++ spaced (slow_words parts.now fault.now)) }
{
    match *fault {
        Fault::Stem { net, value } => push_slow_stem(line, parts, net, value),
        Fault::Branch { pin, value } => push_slow_branch(line, parts, pin, value),
        Fault::Bridge { .. } | Fault::Cell { .. } => push_fault(line, parts, fault),
    }
}

/// Adds the words of the transition fault at a place, a space before each.
fn push_place(line: &mut Name, parts: &Parts, place: u32) -> Result<(), NoMemory>
    requires { place < length (transitions parts.now) }
    ensures { OnOk result (line.new ≡ line.old ++ after_spaces (slow_words parts.now (slice_index_or (transitions parts.now) place no_fault))) }
{
    let Some(fault) = fault_at(parts, place) else {
        unreachable!()
    };
    line.push(b' ')?;
    push_slow(line, parts, &fault)
}
