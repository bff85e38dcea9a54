//! Room for a change: for one more deed, and for one more log or sign-off of a die.
ghost use Rattle.std.specs.Prelude.{◌≡◌, ◌<◌, ◌≢◌, ℕ, List, true, Some, None, position, IfOk, OnOk, slice_get};
ghost use Rattle.scan_model.specs.Words.{is_tag};
ghost use Rattle.book.specs.Dies.{AreSameDies, DieFacts, is_die, kept_logs, kept_signs};

use super::deeds::Deeds;
use super::dies::Dies;
use scan_model::NoMemory;

/// Makes room for a log and its deed. The answer is the place of its die, which is made where it isn't there.
pub(super) fn log_room(
    deeds: &mut Deeds,
    dies: &mut Dies,
    design: &[u8],
    die: &[u8],
) -> Result<usize, NoMemory>
    requires { is_tag design.now ≡ true }
    ensures deeds { deeds.new.list ≡ deeds.old.list }
    ensures logs { (d x : List ℕ) → kept_logs dies.new d x ≡ kept_logs dies.old d x }
    ensures signs { (d x : List ℕ) → kept_signs dies.new d x ≡ kept_signs dies.old d x }
    ensures room { OnOk result (0 < deeds.new.room) }
    ensures place { IfOk result (λ place. position (is_die design.now die.now) dies.new ≡ Some place) }
    ensures log_room { IfOk result (λ place. (k : DieFacts) → slice_get dies.new place ≡ Some k → 0 < k.log_room) }
{
    deeds.reserve()?;
    let place = dies.find_or_make(design, die)?;
    dies.reserve_log(place)?;
    Ok(place)
}

/// Makes room for a sign-off and its deed. The answer is the place of its die.
pub(super) fn sign_room(
    deeds: &mut Deeds,
    dies: &mut Dies,
    design: &[u8],
    die: &[u8],
) -> Result<usize, NoMemory>
    requires { position (is_die design.now die.now) dies.old ≢ None }
    ensures deeds { deeds.new.list ≡ deeds.old.list }
    ensures same { AreSameDies dies.old dies.new }
    ensures room { OnOk result (0 < deeds.new.room) }
    ensures place { IfOk result (λ place. position (is_die design.now die.now) dies.new ≡ Some place) }
    ensures sign_room { IfOk result (λ place. (k : DieFacts) → slice_get dies.new place ≡ Some k → 0 < k.sign_room) }
{
    let Some(place) = dies.find(design, die)? else {
        unreachable!()
    };
    deeds.reserve()?;
    dies.reserve_sign(place)?;
    Ok(place)
}
