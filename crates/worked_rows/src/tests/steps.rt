//! How many gates the fails of a stuck stem take: no more than lie behind its net. The words of other
//! faults are among the examples (tests/sessions).
ghost use Rattle.std.specs.Prelude.{◌≡◌, ◌+◌, ◌*◌, ◌<◌, ◌≤◌, [], ◌∷◌, true, length, Contains, IfSome};
ghost use Rattle.scan_model.specs.ScanTest.{points_of};
ghost use Rattle.scan_model.specs.Universe.{universe};
ghost use Rattle.scan_model.specs.Masks.{touched_nets};
ghost use Rattle.packed_sim.specs.PackedParts.{cone_gates};

use super::designs::c17_over;
use fault_universe::fault_at;
use packed_sim::{PackedGood, Scratch};
use scan_model::{Fault, Parts, Steps};
use std::alloc::Global;
use std::marker::Brand;
use std::process::Abort;
use std::sync::ledger::{Blank, Ledger};

/// Writes the words of all points under a fault.
fn write_fails<L: Ledger>(
    rt: &impl Abort,
    alloc: Global,
    parts: &Parts,
    fault: &Fault,
    word: u32,
    out: &mut [u64],
    steps: &mut Steps<L>,
)
    requires fault { Contains (universe parts.now) fault.now }
    requires word { 64 * word < length parts.now.patterns }
    requires out { length out.old ≡ length (points_of parts.now) }
    ensures { steps.new ≤ steps.old + length (cone_gates parts.now fault.now) }
{
    let good = PackedGood::make(alloc, parts).expect(rt, "memory");
    let mut scratch = Scratch::make(alloc, &good).expect(rt, "memory");
    good.fails_of(parts, &mut scratch, fault, word, out, steps);
    drop(scratch);
    drop(good);
}

/// The net of a stuck stem, which is all that it touches.
fn stem_net(parts: &Parts, fault: &Fault) -> Option<u32>
    ensures net { IfSome result (λ n. n < length parts.now.netlist.nets) }
    ensures touched { IfSome result (λ n. touched_nets parts.now fault.now ≡ n ∷ []) }
{
    match *fault {
        Fault::Stem { net, .. } if (net as usize) < parts.circuit().nets().len() => Some(net),
        _ => None,
    }
}

/// Writes the fails of a stuck stem and tells the nets to which its net leads; the steps are no more than these.
fn stem_fails<L: Ledger>(
    rt: &impl Abort,
    alloc: Global,
    parts: &Parts,
    place: u32,
    word: u32,
    out: &mut [u64],
    steps: &mut Steps<L>,
) -> Option<usize>
    requires word { 64 * word < length parts.now.patterns }
    requires out { length out.old ≡ length (points_of parts.now) }
    ensures { IfSome result (λ n. steps.new ≤ steps.old + n) }
{
    let fault = fault_at(parts, place)?;
    let net = stem_net(parts, &fault)?;
    write_fails(rt, alloc, parts, &fault, word, out, steps);
    let behind = parts.circuit().cone_out(net).expect(rt, "memory");
    let nets = behind.len();
    drop(behind);
    Some(nets)
}

fn counted<L: Ledger>(
    rt: &impl Abort,
    alloc: Global,
    parts: &Parts,
    place: u32,
    word: u32,
    blank: Blank,
) -> (Option<usize>, Vec<u64>)
    requires name { blank.name ≡ L.name }
    requires parts { blank.parts ≡ L.parts }
    requires some { 0 < blank.parts }
    requires word { 64 * word < length parts.now.patterns }
{
    let mut steps = Steps::<L>::open(blank);
    let mut out = vec![in alloc; 0u64; parts.points().len()].expect(rt, "memory");
    let nets = stem_fails(rt, alloc, parts, place, word, &mut out, &mut steps);
    (nets, out)
}

fn has_word(parts: &Parts, word: u32) -> bool
    ensures { result ≡ true → 64 * word < length parts.now.patterns }
{
    let first = word as usize * 64;
    first < parts.patterns().len()
}

/// Whether the fails of 10 stuck at 1 in the last of 65 patterns are at c17's output 22 alone, within two steps.
fn take_two_steps(rt: &impl Abort, alloc: Global, parts: &Parts) -> bool {
    if !has_word(parts, 1) {
        return false;
    }
    let (nets, words) = counted::<Brand>(rt, alloc, parts, 11, 1, Blank::new(1));
    let take_two = nets == Some(2) && words.as_slice() == [1, 0].as_slice();
    drop(words);
    take_two
}

/// c17 with 65 patterns.
fn with_65_patterns(rt: &impl Abort, alloc: Global) -> Parts {
    let patterns = "CAPTURE 11111\n".repeat(alloc, 65).expect(rt, "memory");
    let parts = c17_over(rt, alloc, patterns.as_bytes());
    drop(patterns);
    parts
}

#[test]
fn a_stuck_gate_with_one_gate_behind_it(rt: HostRuntime) {
    let parts = with_65_patterns(&rt, rt.alloc());
    assert!(rt; take_two_steps(&rt, rt.alloc(), &parts));
    drop(parts);
}
