//! The law of the second frame, which hangs on a function with nothing to run.
ghost use Rattle.std.specs.Prelude.{◌≡◌, ℕ, ◌<◌, None, length};
ghost use Rattle.scan_model.specs.NetValue.{values_of, nothing_forced};
ghost use Rattle.frame_rows.specs.Frames.{second_source, second_value};

use scan_model::Parts;

/// A law, with nothing to run: without a fault a net has in the second frame the value of the
/// circuit under what drives that frame.
pub fn second_frame(parts: &Parts)
    ensures { (w n : ℕ) → n < length parts.now.netlist.nets → second_value parts.now None w n ≡ values_of parts.now.netlist (second_source parts.now w) nothing_forced n }
{
    let _ = parts.circuit().order();
}
