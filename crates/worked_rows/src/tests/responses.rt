//! Responses by plain simulation: the outputs, then the cells from the last position to the first.
use super::designs::{CAPTURE27, Texts, parts};
use chain_faults::{faulty_load, faulty_unload};
use fault_universe::fault_at;
use good_sim::plain_response;
use scan_model::{CellKind, Parts, Tri};
use std::alloc::Global;
use std::process::Abort;

const X: Tri = Tri::Unknown;

/// Whether these are the values in the first pattern under the fault at a place; without a fault where there is none, as at 64 of
/// s27.
fn are_values(
    rt: &impl Abort,
    alloc: Global,
    parts: &Parts,
    place: u32,
    values: &[Tri; 4],
) -> bool {
    assert!(rt; !parts.patterns().is_empty());
    let response = plain_response(alloc, parts, 0, fault_at(parts, place)).expect(rt, "memory");
    let are_values = response.as_slice() == values.as_slice();
    drop(response);
    are_values
}

/// The same of s27 with a pattern.
fn responds(
    rt: &impl Abort,
    alloc: Global,
    pattern: &'static str,
    place: u32,
    values: &[Tri; 4],
) -> bool {
    let texts = Texts {
        patterns: pattern.as_bytes(),
        ..CAPTURE27
    };
    let parts = parts(rt, alloc, &texts);
    let responds = are_values(rt, alloc, &parts, place, values);
    drop(parts);
    responds
}

// A capture of known values, one with an unknown value, and a shift with a slow cell.
#[test]
fn captures_and_a_shift_of_s27(rt: HostRuntime) {
    let known = [Tri::One, Tri::Zero, Tri::Zero, Tri::Zero];
    assert!(rt; responds(&rt, rt.alloc(), "CAPTURE 0000 000\n", 64, &known));
    let unknown = [X, Tri::Zero, X, Tri::Zero];
    assert!(rt; responds(&rt, rt.alloc(), "CAPTURE 0000 0X0\n", 64, &unknown));
    let slow = [X, X, Tri::Zero, Tri::Zero];
    assert!(rt; responds(&rt, rt.alloc(), "SHIFT 101\n", 58, &slow));
}

#[test]
fn a_stuck_last_cell(rt: HostRuntime) {
    let zeros = [Tri::Zero; 3];
    let mut row = [X; 3];
    faulty_load(CellKind::Stuck1, 2, &zeros, &mut row);
    assert!(rt; row == [Tri::Zero; 3]);
    faulty_unload(CellKind::Stuck1, 2, &zeros, &mut row);
    assert!(rt; row == [Tri::One; 3]);
}
