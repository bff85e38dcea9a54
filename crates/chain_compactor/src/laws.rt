//! Laws of compactors, with nothing to run.

ghost use Rattle.std.specs.Prelude.{◌≡◌, ℕ, ◌<◌, Bool, true, false, Contains, length, ◌&&◌, ◌||◌, Some, None};
ghost use Rattle.std.specs.List.{list_any};
ghost use Rattle.scan_model.specs.declared.fault.Fault.{Fault};
ghost use Rattle.scan_model.specs.declared.circuit.GateKind.{GateKind};
ghost use Rattle.scan_model.specs.declared.circuit.Driver.TheVariants.{Gate};
ghost use Rattle.scan_model.specs.declared.circuit.PinPlace.TheVariants as place;
ghost use Rattle.scan_model.specs.declared.parts.Point.{Point};
ghost use Rattle.scan_model.specs.declared.parts.PatternKind.TheVariants.{Capture, Shift};
ghost use Rattle.scan_model.specs.Netlist.{pin_at, driver_of};
ghost use Rattle.scan_model.specs.BranchMask.{senses};
ghost use Rattle.scan_model.specs.ScanTest.{pattern_at, points_of, point_at};
ghost use Rattle.scan_model.specs.Universe.{universe};
ghost use Rattle.scan_model.specs.Coverage.{bit_of};
ghost use Rattle.scan_model.specs.Response.{observed, predicts_fail};
ghost use Rattle.scan_model.specs.Masks.{IsLogic, mask, touched_nets, operand_values};
ghost use Rattle.compact_points.specs.Channels.{IsCompactorOf};
ghost use Rattle.chain_compactor.specs.CompactMatches.{predicts_compact_fail};
ghost use Rattle.chain_compactor.specs.Flips.{flip_shows_through, straight_through, members_at};

use compact_points::Compact;
use scan_model::Parts;

/// Where the pattern captures, a logic fault predicts a fail at a compact point exactly where a net that it flips, flipped
/// alone over fault-free values, shows there, or its pin goes straight to a point upstream of it and that shows; where it only
/// shifts, nowhere. A net that one gate alone reads, through one operand, shows at a compact point exactly where no other operand
/// of the gate stands in the way and the gate shows there.
pub fn compact_flips(parts: &Parts, compact: &Compact)
    requires { IsCompactorOf parts.now compact.now }
    ensures capture { (f : Fault) (w q : ℕ) → Contains (universe parts.now) f → IsLogic f → q < length compact.now.points → (pattern_at parts.now w).kind ≡ Capture
        → predicts_compact_fail parts.now compact.now f (bit_of w q) ≡ (list_any (λ n. mask parts.now f w n && flip_shows_through parts.now compact.now w n q) (touched_nets parts.now f) || straight_through parts.now compact.now f w q) }
    ensures shift { (f : Fault) (w q : ℕ) → IsLogic f → q < length compact.now.points → (pattern_at parts.now w).kind ≡ Shift → predicts_compact_fail parts.now compact.now f (bit_of w q) ≡ false }
    ensures downstream { (w q p n g i : ℕ) (kind : GateKind) → q < length compact.now.points → p < length parts.now.netlist.pins → (pin_at parts.now.netlist p).net ≡ n → (pin_at parts.now.netlist p).place ≡ place.Operand g i
        → driver_of parts.now.netlist g ≡ Gate kind → ((r : ℕ) → r < length parts.now.netlist.pins → (pin_at parts.now.netlist r).net ≡ n → r ≡ p)
        → flip_shows_through parts.now compact.now w n q ≡ (senses kind (operand_values parts.now w g) i && flip_shows_through parts.now compact.now w g q) }
{
    let _ = parts.circuit().order();
    let _ = compact;
}

/// A fault that predicts a fail at a compact point predicts one at a point upstream of it. What the points upstream of it show is all that
/// a compact point tells of faults.
pub fn upstream_fails(parts: &Parts, compact: &Compact)
    requires { IsCompactorOf parts.now compact.now }
    ensures some { (f : Fault) (w q : ℕ) → q < length compact.now.points → predicts_compact_fail parts.now compact.now f (bit_of w q) ≡ true
        → (k : ℕ) × ((k < length (points_of parts.now)) × Contains (members_at parts.now compact.now q) (point_at parts.now k) × (predicts_fail parts.now f (bit_of w k) ≡ true)) }
    ensures same { (f g : Fault) (w q : ℕ) → q < length compact.now.points → ((p : Point) → Contains (members_at parts.now compact.now q) p → observed parts.now (Some f) w p ≡ observed parts.now (Some g) w p)
        → predicts_compact_fail parts.now compact.now f (bit_of w q) ≡ predicts_compact_fail parts.now compact.now g (bit_of w q) }
    ensures silent { (f : Fault) (w q : ℕ) → q < length compact.now.points → ((p : Point) → Contains (members_at parts.now compact.now q) p → observed parts.now (Some f) w p ≡ observed parts.now None w p)
        → predicts_compact_fail parts.now compact.now f (bit_of w q) ≡ false }
{
    let _ = parts.chains();
    let _ = compact;
}
