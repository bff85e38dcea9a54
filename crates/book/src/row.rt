//! Rows of a keeper, judged as deeds after those before them.
ghost use Rattle.std.specs.Prelude.{◌≡◌, ◌&&◌, [], All, length, true, is_some, nat_le, IfOk, IfSome};
ghost use Rattle.std.specs.List.{list_any};
ghost use Rattle.std.specs.Arc.{arc_value};
ghost use Rattle.sha2.specs.Sha256.{sha256};
ghost use Rattle.desk_outside.specs.declared.deed.DeedKind.TheVariants as deed_kind;
ghost use Rattle.scan_model.specs.Words.{is_tag, has_word};
ghost use Rattle.die_entries.specs.Entries.{is_signed_by};
ghost use Rattle.book.specs.Deeds.{report_at, die_logs, die_signs};
ghost use Rattle.book.specs.LegalDeeds.{fits, each_fits};
ghost use Rattle.book.specs.Changes.{StandsIn};
ghost use Rattle.book.specs.Kinds.{sign_deed};
ghost use Rattle.book.specs.Rows.{added_if};
ghost use Rattle.book.specs.RowsAhead.{IsDesignIn};

use crate::state::BookState;
use desk_outside::{Deed, DeedKind};
use diagnosis::{BundleFault, Design, Put, ReadLog, log_of, read_bundle};
use die_entries::{Foreseen, Sign, digest_at, is_same_digest, put_sign, put_text};
use scan_model::{Digest, NoMemory};
use std::alloc::Global;
use std::sync::Arc;
use std::thread::Threads;
use text_parts::{ReadFault, is_tag};

// The design that the row puts, where it fits.
fn design_of_row(
    alloc: Global,
    kept: &BookState,
    name: &[u8],
    text: &[u8],
) -> Result<Option<Arc<Design>>, NoMemory>
    ensures judged { IfOk result (λ r. fits kept.now.deeds (deed_kind.Design name.now text.now) ≡ is_some r) }
    ensures name { IfOk result (λ r. IfSome r (λ design. (arc_value design).name ≡ name.now)) }
    ensures text { IfOk result (λ r. IfSome r (λ design. (arc_value design).text ≡ text.now)) }
{
    if !is_tag(name) || kept.design(name).is_some() {
        return Ok(None);
    }
    match read_bundle(alloc, name, text) {
        Ok(design) => Ok(Some(Arc::new(alloc, design)?)),
        Err(BundleFault::Text { .. }) => Ok(None),
        Err(BundleFault::NoMemory) => Err(NoMemory),
    }
}

fn has_text(kept: &BookState, design: &[u8], die: &[u8], text: &[u8]) -> Result<bool, NoMemory>
    ensures { IfOk result (λ r. r ≡ has_word (die_logs kept.now.deeds design.now die.now) text.now) }
{
    match kept.die(design, die)? {
        Some(found) => Ok(matches!(put_text(found.logs(), text), Put::Same { .. })),
        None => Ok(false),
    }
}

// The log that the row puts, where it fits.
fn log_of_row(
    alloc: Global,
    kept: &BookState,
    design: &[u8],
    die: &[u8],
    text: &[u8],
) -> Result<Option<Arc<ReadLog>>, NoMemory>
    ensures judged { IfOk result (λ r. fits kept.now.deeds (deed_kind.Log design.now die.now text.now) ≡ is_some r) }
    ensures stands { IfOk result (λ r. IfSome r (λ log. StandsIn kept.now.deeds (arc_value log))) }
    ensures design { IfOk result (λ r. IfSome r (λ log. (arc_value log).design ≡ design.now)) }
    ensures die { IfOk result (λ r. IfSome r (λ log. (arc_value log).die ≡ die.now)) }
    ensures text { IfOk result (λ r. IfSome r (λ log. (arc_value log).text ≡ text.now)) }
{
    if !is_tag(die) {
        return Ok(None);
    }
    let Some(found) = kept.design(design) else {
        return Ok(None);
    };
    if has_text(kept, found.design.name(), die, text)? {
        return Ok(None);
    }
    match log_of(alloc, found.design, die, text) {
        Ok(log) => Ok(Some(Arc::new(alloc, log)?)),
        Err(ReadFault::Text(_)) => Ok(None),
        Err(ReadFault::NoMemory) => Err(NoMemory),
    }
}

// The digest of the report of a die at a revision, where it has that revision. The report may have been made ahead.
fn right_digest<R: Threads + Sync>(
    rt: &R,
    alloc: Global,
    kept: &BookState,
    design: &[u8],
    die: &[u8],
    revision: u64,
    foreseen: &[Foreseen],
) -> Result<Option<Digest>, NoMemory>
    requires fit { each_fits [] kept.now.deeds ≡ true }
    requires foreseen { All (λ die. IsDesignIn kept.now.deeds die.design) foreseen.now }
    ensures right { IfOk result (λ r. IfSome r (λ digest. digest ≡ sha256 (report_at kept.now.deeds design.now die.now revision))) }
    ensures within { IfOk result (λ r. is_some r ≡ (nat_le 1 revision && nat_le revision (length (die_logs kept.now.deeds design.now die.now)))) }
{
    let Some(found) = kept.design(design) else {
        return Ok(None);
    };
    let Some(die_found) = kept.die(found.design.name(), die)? else {
        return Ok(None);
    };
    let (logs, signs) = (die_found.logs(), die_found.signs());
    digest_at(
        rt,
        alloc,
        found.design,
        die,
        logs,
        signs,
        revision,
        foreseen,
    )
}

fn is_signed(
    kept: &BookState,
    design: &[u8],
    die: &[u8],
    revision: u64,
    signer: &[u8],
) -> Result<bool, NoMemory>
    ensures { IfOk result (λ r. r ≡ list_any (is_signed_by revision signer.now) (die_signs kept.now.deeds design.now die.now)) }
{
    match kept.die(design, die)? {
        Some(found) => Ok(matches!(put_sign(found.signs(), revision, signer), Put::Same { .. })),
        None => Ok(false),
    }
}

// Whether the sign-off of the row fits.
fn sign_fits<R: Threads + Sync>(
    rt: &R,
    alloc: Global,
    kept: &BookState,
    design: &[u8],
    die: &[u8],
    sign: &Sign,
    foreseen: &[Foreseen],
) -> Result<bool, NoMemory>
    requires fit { each_fits [] kept.now.deeds ≡ true }
    requires foreseen { All (λ die. IsDesignIn kept.now.deeds die.design) foreseen.now }
    ensures { IfOk result (λ r. fits kept.now.deeds (deed_kind.Sign design.now die.now sign.now.revision sign.now.signer sign.now.digest) ≡ r) }
{
    let signer = sign.signer.as_slice();
    if !is_tag(signer) || is_signed(kept, design, die, sign.revision, signer)? {
        return Ok(false);
    }
    match right_digest(rt, alloc, kept, design, die, sign.revision, foreseen)? {
        Some(right) => Ok(is_same_digest(&sign.digest, &right)),
        None => Ok(false),
    }
}

fn add_design_row(
    alloc: Global,
    kept: &mut BookState,
    by: u32,
    name: &[u8],
    text: &[u8],
) -> Result<bool, NoMemory>
    ensures judged { IfOk result (λ r. fits kept.old.deeds (deed_kind.Design name.now text.now) ≡ r) }
    ensures deeds { IfOk result (λ r. kept.new.deeds ≡ added_if r kept.old.deeds (record { by = by; what = deed_kind.Design name.now text.now })) }
{
    let Some(design) = design_of_row(alloc, kept, name, text)? else {
        return Ok(false);
    };
    let ready = kept.ready_design(by, &design, None)?;
    kept.add_design(ready);
    Ok(true)
}

fn add_log_row(
    alloc: Global,
    kept: &mut BookState,
    by: u32,
    design: &[u8],
    die: &[u8],
    text: &[u8],
) -> Result<bool, NoMemory>
    ensures judged { IfOk result (λ r. fits kept.old.deeds (deed_kind.Log design.now die.now text.now) ≡ r) }
    ensures deeds { IfOk result (λ r. kept.new.deeds ≡ added_if r kept.old.deeds (record { by = by; what = deed_kind.Log design.now die.now text.now })) }
{
    let Some(log) = log_of_row(alloc, kept, design, die, text)? else {
        return Ok(false);
    };
    let ready = kept.ready_log(by, &log, None)?;
    kept.add_log(ready);
    Ok(true)
}

fn add_sign_row<R: Threads + Sync>(
    rt: &R,
    alloc: Global,
    kept: &mut BookState,
    by: u32,
    design: &[u8],
    die: &[u8],
    sign: Sign,
    foreseen: &[Foreseen],
) -> Result<bool, NoMemory>
    requires fit { each_fits [] kept.old.deeds ≡ true }
    requires foreseen { All (λ die. IsDesignIn kept.old.deeds die.design) foreseen.now }
    ensures judged { IfOk result (λ r. fits kept.old.deeds (deed_kind.Sign design.now die.now sign.revision sign.signer sign.digest) ≡ r) }
    ensures deeds { IfOk result (λ r. kept.new.deeds ≡ added_if r kept.old.deeds (sign_deed by design.now die.now sign)) }
{
    if !sign_fits(rt, alloc, kept, design, die, &sign, foreseen)? {
        return Ok(false);
    }
    let ready = kept.ready_sign(by, design, die, sign)?;
    kept.add_sign(ready);
    Ok(true)
}

/// Adds the deed of a row to those before it, if it fits them. The report that a sign-off is of may have been made ahead.
pub fn add_row<R: Threads + Sync>(
    rt: &R,
    alloc: Global,
    kept: &mut BookState,
    row: Deed,
    foreseen: &[Foreseen],
) -> Result<bool, NoMemory>
    requires fit { each_fits [] kept.old.deeds ≡ true }
    requires foreseen { All (λ die. IsDesignIn kept.old.deeds die.design) foreseen.now }
    ensures judged { IfOk result (λ r. fits kept.old.deeds row.what ≡ r) }
    ensures deeds { IfOk result (λ r. kept.new.deeds ≡ added_if r kept.old.deeds row) }
{
    let Deed { by, what } = row;
    match what {
        DeedKind::Design { name, text } => {
            add_design_row(alloc, kept, by, name.as_slice(), text.as_slice())
        }
        DeedKind::Log { design, die, text } => add_log_row(
            alloc,
            kept,
            by,
            design.as_slice(),
            die.as_slice(),
            text.as_slice(),
        ),
        DeedKind::Sign {
            design,
            die,
            revision,
            signer,
            digest,
        } => {
            let sign = Sign {
                revision,
                signer,
                digest,
            };
            let (design, die) = (design.as_slice(), die.as_slice());
            add_sign_row(rt, alloc, kept, by, design, die, sign, foreseen)
        }
    }
}
