//! The list of modelled faults of s27.
use super::designs::{CAPTURE27, parts};
use fault_universe::{fault_at, fault_text, place_of, universe, universe_len};
use scan_model::{Fault, Parts};
use std::alloc::Global;
use std::process::Abort;

// Whether each fault stands at its place.
fn are_placed(parts: &Parts, faults: &[Fault]) -> bool {
    for place in 0..universe_len(parts) {
        match faults.get(place as usize) {
            Some(fault) if place_of(parts, fault) == Some(place) => {}
            _ => return false,
        }
    }
    true
}

fn are_listed(rt: &impl Abort, alloc: Global, parts: &Parts) -> bool {
    let faults = universe(alloc, parts).expect(rt, "memory");
    let are_listed = faults.len() == 64
        && universe_len(parts) == 64
        && are_placed(parts, faults.as_slice());
    drop(faults);
    are_listed
}

fn has_text(rt: &impl Abort, alloc: Global, parts: &Parts, place: u32, text: &[u8]) -> bool {
    let fault = fault_at(parts, place).expect(rt, "a fault");
    let words = fault_text(alloc, parts, &fault).expect(rt, "memory");
    let has_text = words.as_slice() == text;
    drop(words);
    has_text
}

#[test]
fn all_faults_of_s27_and_a_branch_as_text(rt: HostRuntime) {
    let s27 = parts(&rt, rt.alloc(), &CAPTURE27);
    assert!(rt; are_listed(&rt, rt.alloc(), &s27));
    assert!(rt; has_text(&rt, rt.alloc(), &s27, 45, b"branch G8 to G16 2 sa1"));
    drop(s27);
}
