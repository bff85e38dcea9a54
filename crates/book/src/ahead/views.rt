//! The reports that rows sign, foreseen before these rows are judged. A report that isn't the right one does no harm: it is taken only
//! where the book's die has the same logs when its row is judged.
ghost use Rattle.std.specs.Prelude.{◌≡◌, All, IfOk, IfSome};
ghost use Rattle.std.specs.Arc.{arc_value};
ghost use Rattle.book.specs.RowsAhead.{IsDesignIn};

use super::asking::Answer;
use super::signed::{Signed, signed_in};
use crate::state::BookState;
use diagnosis::{Design, DieView};
use die_entries::{Foreseen, foresee, view_up_to};
use scan_model::{Name, NoMemory};
use std::alloc::Global;
use std::sync::Arc;
use std::thread::Threads;
use text_parts::is_tag;

// A die without logs.
fn bare_view(alloc: Global, design: &Arc<Design>, die: &[u8]) -> Result<Option<DieView>, NoMemory>
    ensures { IfOk result (λ r. IfSome r (λ view. view.design ≡ arc_value design.now)) }
{
    if !is_tag(die) {
        return Ok(None);
    }
    let (design, die) = (Arc::try_clone(design)?, Name::copy_of(alloc, die)?);
    Ok(Some(DieView::make(alloc, design, die)?))
}

// The die with those of its logs that the book has, unless that revision of it was signed before.
fn known_view(
    alloc: Global,
    kept: &BookState,
    signed: &Signed<'_>,
) -> Result<Option<DieView>, NoMemory>
    ensures { IfOk result (λ r. IfSome r (λ view. IsDesignIn kept.now.deeds view.design)) }
{
    let Some(found) = kept.design(signed.design) else {
        return Ok(None);
    };
    let Some(known) = kept.die(found.design.name(), signed.die)? else {
        return bare_view(alloc, found.design, signed.die);
    };
    if known
        .signs()
        .iter()
        .any(|sign| sign.revision == signed.revision)
    {
        return Ok(None);
    }
    // The book says of itself that its deeds fit.
    let _deeds = kept.deeds();
    let view = view_up_to(
        alloc,
        found.design,
        signed.die,
        known.logs(),
        signed.revision,
    )?;
    Ok(Some(view))
}

// The report that is signed behind these rows, unless one of them signs it.
fn foreseen_behind(
    alloc: Global,
    kept: &BookState,
    rows: &[Answer],
    signed: &Signed<'_>,
) -> Result<Option<Foreseen>, NoMemory>
    ensures { IfOk result (λ r. IfSome r (λ die. IsDesignIn kept.now.deeds die.design)) }
{
    if rows.iter().any(|row| signed.is_signed_in(row)) {
        return Ok(None);
    }
    let Some(view) = known_view(alloc, kept, signed)? else {
        return Ok(None);
    };
    let mut die = Foreseen::of(alloc, view);
    for row in rows {
        if die.revision() < signed.revision
            && let Some(text) = signed.text_in(row)
        {
            die.note(alloc, text)?;
        }
    }
    Ok(Some(die))
}

// The dies whose reports these rows sign.
fn dies_ahead(alloc: Global, kept: &BookState, rows: &[Answer]) -> Result<Vec<Foreseen>, NoMemory>
    ensures { IfOk result (λ dies. All (λ die. IsDesignIn kept.now.deeds die.design) dies.items) }
{
    let mut dies = Vec::new(alloc);
    for (place, row) in rows.iter().enumerate() {
        let Some(signed) = signed_in(row) else {
            continue;
        };
        let Some(die) = foreseen_behind(alloc, kept, &rows[..place], &signed)? else {
            continue;
        };
        dies.push(die)?;
    }
    Ok(dies)
}

/// The dies that these rows sign, with the digests of their reports, which are made side by side.
pub(super) fn foreseen_of<R: Threads + Sync>(
    rt: &R,
    alloc: Global,
    kept: &BookState,
    rows: &[Answer],
) -> Result<Vec<Foreseen>, NoMemory>
    ensures { IfOk result (λ dies. All (λ die. IsDesignIn kept.now.deeds die.design) dies.items) }
{
    let mut dies = dies_ahead(alloc, kept, rows)?;
    foresee(rt, alloc, &mut dies);
    Ok(dies)
}
