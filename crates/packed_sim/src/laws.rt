//! Laws of the simulation by rows, with nothing to run.
ghost use Rattle.std.specs.Prelude.{◌≡◌, ℕ, ◌<◌, Bool, true, false, Contains, Option, length, ◌&&◌, ◌||◌};
ghost use Rattle.std.specs.List.{list_any};
ghost use Rattle.scan_model.specs.declared.fault.Fault.{Fault};
ghost use Rattle.scan_model.specs.declared.parts.PatternKind.TheVariants.{Capture, Shift};
ghost use Rattle.scan_model.specs.Values.{IsAtLeast, AreAtLeast};
ghost use Rattle.scan_model.specs.ScanTest.{pattern_at, points_of, point_at};
ghost use Rattle.scan_model.specs.MoreDefinite.{IsPatternAtLeast};
ghost use Rattle.scan_model.specs.Universe.{universe};
ghost use Rattle.scan_model.specs.Coverage.{bit_of};
ghost use Rattle.scan_model.specs.NetValue.{net_value};
ghost use Rattle.scan_model.specs.Suspect.{flips};
ghost use Rattle.scan_model.specs.Response.{response, predicts_fail};
ghost use Rattle.scan_model.specs.Masks.{IsLogic, mask, flip_shows, straight, touched_nets};

use scan_model::Parts;

/// A law, with nothing to run: in a pattern whose loads and inputs are more definite than another's
/// each net has a value at least as definite, and each point a response, under each fault and
/// without one.
pub fn more_definite(parts: &Parts)
    ensures gates { (w v n : ℕ) (fault : Option Fault) → IsPatternAtLeast (pattern_at parts.now w) (pattern_at parts.now v) → IsAtLeast (net_value parts.now fault w n) (net_value parts.now fault v n) }
    ensures points { (w v : ℕ) (fault : Option Fault) → IsPatternAtLeast (pattern_at parts.now w) (pattern_at parts.now v) → AreAtLeast (response parts.now fault w) (response parts.now fault v) }
{
    let _ = parts;
}

/// A law, with nothing to run: where the pattern captures, a logic fault predicts a fail exactly
/// where a net that it flips, flipped alone over fault-free values, shows at the point, or its pin
/// goes straight there; where it only shifts, nowhere. It flips one net at most, and where it
/// predicts a fail its site is flipped.
pub fn fails_of_flips(parts: &Parts)
    ensures capture { (f : Fault) (w k : ℕ) → Contains (universe parts.now) f → IsLogic f → k < length (points_of parts.now) → (pattern_at parts.now w).kind ≡ Capture
        → predicts_fail parts.now f (bit_of w k) ≡ (list_any (λ n. mask parts.now f w n && flip_shows parts.now w n k) (touched_nets parts.now f) || straight parts.now f w k) }
    ensures one { (f : Fault) (w m n : ℕ) → mask parts.now f w m ≡ true → mask parts.now f w n ≡ true → m ≡ n }
    ensures site { (f : Fault) (w k : ℕ) → Contains (universe parts.now) f → IsLogic f → k < length (points_of parts.now) → (pattern_at parts.now w).kind ≡ Capture
        → predicts_fail parts.now f (bit_of w k) ≡ true → flips parts.now f w (point_at parts.now k) ≡ true }
    ensures shift { (f : Fault) (w k : ℕ) → IsLogic f → k < length (points_of parts.now) → (pattern_at parts.now w).kind ≡ Shift → predicts_fail parts.now f (bit_of w k) ≡ false }
{
    let _ = parts.circuit().order();
}
