//! Cones of nets of c17.
ghost use Rattle.std.specs.Prelude.{◌<◌, length};

use super::designs::{ONE17, parts};
use scan_model::Circuit;
use std::process::Abort;

/// Whether these nets are the fan-out cone of a net.
fn leads_to(rt: &impl Abort, circuit: &Circuit, net: u32, nets: &[u32]) -> bool
    requires { net < length circuit.now.nets }
{
    let cone = circuit.cone_out(net).expect(rt, "memory");
    let leads = cone.as_slice() == nets;
    drop(cone);
    leads
}

/// Whether these nets are the fan-in cone of a net.
fn comes_from(rt: &impl Abort, circuit: &Circuit, net: u32, nets: &[u32]) -> bool
    requires { net < length circuit.now.nets }
{
    let cone = circuit.cone_in(net).expect(rt, "memory");
    let comes = cone.as_slice() == nets;
    drop(cone);
    comes
}

// The fan-out cone of net 11, by number 6, and the fan-in cones of the input 3, by number 2, and of
// net 10, by number 5.
fn are_cones(rt: &impl Abort, circuit: &Circuit) -> bool {
    circuit.nets().len() == 11
        && leads_to(rt, circuit, 6, &[6, 7, 8, 9, 10])
        && comes_from(rt, circuit, 2, &[2])
        && comes_from(rt, circuit, 5, &[0, 2, 5])
}

#[test]
fn cones_to_both_outputs_and_back_to_inputs(rt: HostRuntime) {
    let c17 = parts(&rt, rt.alloc(), &ONE17);
    assert!(rt; are_cones(&rt, c17.circuit()));
    drop(c17);
}
