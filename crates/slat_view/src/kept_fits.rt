//! Fits that are kept block by block.
ghost use Rattle.std.specs.Prelude.{◌≡◌, ◌≤◌, ◌++◌, ◌∷◌, [], OnSome};
ghost use Rattle.std.specs.Option.{option_map};

use pattern_fits::Fit;
use scan_model::Rows;

/// How many fits of a die are kept at most, 2^18 of 72 bytes each.
pub(crate) const MOST_FITS: usize = 262_144;

/// Puts the fits of a block behind those of the blocks before it. None are kept where they are too many in all, or memory is
/// too short.
pub(crate) fn with_block(
    blocks: Option<Rows<Rows<Fit>>>,
    fits: Rows<Fit>,
    count: usize,
) -> Option<Rows<Rows<Fit>>>
    ensures behind { OnSome result (result ≡ option_map (λ before. before ++ fits ∷ []) blocks) }
    ensures few { OnSome result (count ≤ MOST_FITS) }
{
    if count > MOST_FITS {
        return None;
    }
    let mut blocks = blocks?;
    match blocks.push(fits) {
        Ok(()) => Some(blocks),
        Err(_) => None,
    }
}
