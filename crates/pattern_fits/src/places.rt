//! The places of the faults that fit in a lane.
ghost use Rattle.std.specs.Prelude.{◌≡◌, ◌<◌, length, IfOk};
ghost use Rattle.pattern_fits.specs.FitPlaces.{places_in};

use crate::fit::Fit;
use scan_model::{NoMemory, Rows};
use std::alloc::Global;

/// The places of the faults that fit in lane j.
pub fn places_with(alloc: Global, fits: &[Fit], j: u32) -> Result<Rows<u32>, NoMemory>
    requires { j < 512 }
    ensures { IfOk result (λ places. places ≡ places_in fits.now j) }
{
    let mut places = Rows::new(alloc);
    for fit in fits {
        if fit.lanes.has(j as usize) {
            places.push(fit.place)?;
        }
    }
    Ok(places)
}

/// How many faults fit in lane j.
pub fn count_with(fits: &[Fit], j: u32) -> usize
    requires { j < 512 }
    ensures { result ≡ length (places_in fits.now j) }
{
    let mut count = 0;
    for fit in fits {
        if fit.lanes.has(j as usize) {
            count += 1;
        }
    }
    count
}
