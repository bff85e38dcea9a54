//! The shares of suspects in a block, as fits in the order of the suspects.
ghost use Rattle.std.specs.Prelude.{◌≡◌, ℕ, ◌++◌, ◌∷◌, ◌<◌, [], cond, Bool, All, filter, length, IfOk, OnOk};
ghost use Rattle.lane_rows.specs.Lanes.{lane};
ghost use Rattle.fault_effects.specs.Owners.{places_of, suspect_at};
ghost use Rattle.fault_effects.specs.Shares.{HasShare};
ghost use Rattle.pattern_fits.specs.FitPlaces.{places_in};
ghost use Rattle.slat_view.specs.Trials.{lanes_at};

use fault_effects::{Share, Suspect};
use lane_rows::Row;
use pattern_fits::Fit;
use scan_model::{NoMemory, Rows};
use std::alloc::Global;

/// Adds the lanes that a fault fits, if there are any.
fn push_fit(fits: &mut Rows<Fit>, place: u32, lanes: Row) -> Result<(), NoMemory>
    ensures { OnOk result ((j : ℕ) → j < 512 → places_in fits.new j ≡ places_in fits.old j ++ cond (lane lanes j) (place ∷ []) []) }
{
    if lanes.is_empty() {
        return Ok(());
    }
    fits.push(Fit { place, lanes })
}

/// Puts shares into a table by suspect.
fn set_lanes(table: &mut [Row], shares: &[Share<Row>])
    requires { All (λ s. s.suspect < length table.old) shares.now }
    ensures { (truth : ℕ → ℕ → Bool) → All (λ s. (j : ℕ) → j < 512 → lane s.part j ≡ truth s.suspect j) shares.now
        → (i : ℕ) → HasShare shares.now i → (j : ℕ) → j < 512 → lane (lanes_at table.new i) j ≡ truth i j }
{
    for share in shares {
        table[share.suspect as usize] = share.part;
    }
}

/// The suspects with the lanes of their shares, in their order, without those that have none.
pub(crate) fn list_fits(
    alloc: Global,
    suspects: &[Suspect],
    shares: &[Share<Row>],
) -> Result<Rows<Fit>, NoMemory>
    requires { All (λ s. s.suspect < length suspects.now) shares.now }
    ensures { (truth : ℕ → ℕ → Bool) → All (λ s. (j : ℕ) → j < 512 → lane s.part j ≡ truth (suspect_at suspects.now s.suspect).place j) shares.now
        → ((i : ℕ) → i < length suspects.now → HasShare shares.now i)
        → IfOk result (λ fits. (j : ℕ) → j < 512 → places_in fits j ≡ filter (λ p. truth p j) (places_of suspects.now)) }
{
    let mut table = vec![in alloc; Row::none(); suspects.len()]?;
    set_lanes(&mut table, shares);
    let mut fits = Rows::new(alloc);
    for i in 0..suspects.len() {
        push_fit(&mut fits, suspects[i].place, table[i])?;
    }
    Ok(fits)
}
