//! Laws of transition faults, which hang on functions with nothing to run.
ghost use Rattle.std.specs.Prelude.{◌≡◌, ◌&&◌, ℕ, ◌<◌, true, length, map};
ghost use Rattle.scan_model.specs.declared.circuit.Driver.TheVariants.{Gate};
ghost use Rattle.scan_model.specs.declared.circuit.GateKind.{GateKind};
ghost use Rattle.scan_model.specs.declared.circuit.PinPlace.TheVariants as place;
ghost use Rattle.scan_model.specs.declared.fault.Fault.{Fault};
ghost use Rattle.scan_model.specs.declared.fault.Fault.TheVariants as fault;
ghost use Rattle.scan_model.specs.declared.fault.Stuck.{Stuck};
ghost use Rattle.scan_model.specs.declared.parts.Point.{Point};
ghost use Rattle.scan_model.specs.Values.{are_opposite, gate_value};
ghost use Rattle.scan_model.specs.Netlist.{pin_at, driver_of, operands};
ghost use Rattle.scan_model.specs.ScanTest.{IsPoint, HasSite, points_of};
ghost use Rattle.scan_model.specs.Faults.{stuck_value};
ghost use Rattle.scan_model.specs.NetValue.{seen, values_of, nothing_forced, good_value};
ghost use Rattle.scan_model.specs.Coverage.{bit_of};
ghost use Rattle.scan_model.specs.Suspect.{observed_net};
ghost use Rattle.scan_model.specs.Masks.{flip_shows_from, place_is_point};
ghost use Rattle.scan_model.proofs.counting.Branches.{force_pin};
ghost use Rattle.frame_rows.specs.Frames.{changes, second_source};
ghost use Rattle.two_frame.specs.TwoFrame.{frame_fails_at, frame_fails, makes_transition};

use scan_model::Parts;

/// A law, with nothing to run: a slow stem predicts a fail at a point exactly where it makes the
/// transition and one flip of the stem over the second frame's values shows there.
pub fn slow_stems(parts: &Parts)
    ensures { (m w : ℕ) (v : Stuck) (p : Point) → m < length parts.now.netlist.nets → IsPoint parts.now p
        → frame_fails_at parts.now (fault.Stem m v) w p
        ≡ (changes v (good_value parts.now w m) (values_of parts.now.netlist (second_source parts.now w) nothing_forced m) && flip_shows_from parts.now.netlist (second_source parts.now w) m (observed_net parts.now p)) }
{
    let _ = parts.circuit().order();
}

/// A law, with nothing to run: a slow operand of a gate predicts a fail at a point exactly where its
/// net makes the transition, the operand stuck at the first value flips the gate over the second
/// frame's values, and one flip of the gate shows there.
pub fn slow_operands(parts: &Parts)
    ensures { (q g i w : ℕ) (kind : GateKind) (v : Stuck) (p : Point) → q < length parts.now.netlist.pins → (pin_at parts.now.netlist q).place ≡ place.Operand g i → driver_of parts.now.netlist g ≡ Gate kind → IsPoint parts.now p
        → frame_fails_at parts.now (fault.Branch q v) w p
        ≡ (changes v (good_value parts.now w (pin_at parts.now.netlist q).net) (values_of parts.now.netlist (second_source parts.now w) nothing_forced (pin_at parts.now.netlist q).net)
        && (are_opposite (values_of parts.now.netlist (second_source parts.now w) nothing_forced g)
        (gate_value kind (map (seen parts.now.netlist (force_pin q (stuck_value v)) (values_of parts.now.netlist (second_source parts.now w) nothing_forced)) (operands parts.now.netlist g)))
        && flip_shows_from parts.now.netlist (second_source parts.now w) g (observed_net parts.now p))) }
{
    let _ = parts.circuit().order();
}

/// A law, with nothing to run: a slow pin that no gate reads, that of an output or of a flop,
/// predicts a fail at its own point alone, where its net makes the transition.
pub fn slow_pins(parts: &Parts)
    ensures { (q w : ℕ) (v : Stuck) (p : Point) → q < length parts.now.netlist.pins → ((n i : ℕ) (kind : GateKind) → driver_of parts.now.netlist n ≡ Gate kind → (pin_at parts.now.netlist q).place ≡ place.Operand n i → ⊥) → IsPoint parts.now p
        → frame_fails_at parts.now (fault.Branch q v) w p
        ≡ (changes v (good_value parts.now w (pin_at parts.now.netlist q).net) (values_of parts.now.netlist (second_source parts.now w) nothing_forced (pin_at parts.now.netlist q).net) && place_is_point parts.now (pin_at parts.now.netlist q).place p) }
{
    let _ = parts.circuit().order();
}

/// A law, with nothing to run: a fault predicts a fail in a pattern only where its site makes the
/// transition.
pub fn only_transitions(parts: &Parts)
    ensures { (f : Fault) (w k : ℕ) → HasSite parts.now f → k < length (points_of parts.now) → frame_fails parts.now f (bit_of w k) ≡ true → makes_transition parts.now f w ≡ true }
{
    let _ = parts.circuit().order();
}
