//! A die of s27 with one pattern, in which its output fails: two faults are known to explain it.

use super::super::designs::{S27, S27_CHAIN};
use super::dies::{add_text, die_of};
use diagnosis::{DieView, design_of};
use scan_model::Profile;
use slat_view::slat_places;
use std::alloc::Global;
use std::process::Abort;
use std::thread::Threads;

const PATTERN: &[u8] = b"CAPTURE 0000 000\n";

const LOG: &[u8] = b"FAILLOG 1\ndie D1\ndesign d\ntested 0 0\nfail 0 out G17\nend\n";

const FITTING: &[u32] = &[16, 37];

fn failed_die(rt: &impl Abort, alloc: Global) -> DieView {
    let design = design_of(alloc, b"d", Profile::One, S27, S27_CHAIN, PATTERN, b"").expect(
        rt, "a design",
    );
    let mut view = die_of(rt, alloc, design);
    add_text(rt, alloc, &mut view, LOG);
    view
}

fn fit_the_pattern_over<R: Abort + Threads + Sync>(rt: &R, alloc: Global, view: &DieView) -> bool {
    assert!(rt; !view.design().parts().patterns().is_empty());
    let places = slat_places(rt, alloc, view, 0).expect(rt, "memory");
    let fit = places.as_slice() == FITTING;
    drop(places);
    fit
}

fn fit_the_pattern<R: Abort + Threads + Sync>(rt: &R, alloc: Global) -> bool {
    let view = failed_die(rt, alloc);
    let fit = fit_the_pattern_over(rt, alloc, &view);
    drop(view);
    fit
}

#[test]
fn two_faults_fit_the_pattern(rt: HostRuntime) {
    assert!(rt; fit_the_pattern(&rt, rt.alloc()));
}
