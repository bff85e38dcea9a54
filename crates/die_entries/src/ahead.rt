//! Reports that are made ahead of the sign-offs that they may be asked for, those of several dies side by side.
ghost use Rattle.std.specs.Prelude.{◌≡◌, ◌<◌, ℕ, All, length, true, IfOk, IfSome, slice_index_or};
ghost use Rattle.std.specs.Arc.{arc_value};
ghost use Rattle.sha2.specs.Sha256.{sha256};
ghost use Rattle.diagnosis.specs.Designs.{ViewFacts, texts_of, view_report};
ghost use Rattle.die_entries.specs.Entries.{arc_values};
ghost use Rattle.die_entries.specs.Revisions.{IsShowable, IsOneByName};

use crate::views::view_of;
use diagnosis::{Design, DieView, ReadLog, check_report, log_of};
use die_revisions::logs_at;
use scan_model::{Digest, Name, NoMemory, Rows};
use std::alloc::Global;
use std::marker::Model;
use std::sync::Arc;
use std::thread;
use std::thread::{Threads, available_parallelism};
use text_parts::ReadFault;

/// The die with its first logs, as many as the revision says, or with all where there are fewer.
pub fn view_up_to(
    alloc: Global,
    design: &Arc<Design>,
    die: &[u8],
    logs: &[Arc<ReadLog>],
    revision: u64,
) -> Result<DieView, NoMemory>
    requires { IsShowable (arc_value design.now) die.now (arc_values logs.now) }
    ensures { IfOk result (λ view. view.design ≡ arc_value design.now) }
{
    if 0 < revision && revision < logs.len() as u64 {
        return view_of(alloc, design, die, logs_at(logs, revision));
    }
    view_of(alloc, design, die, logs)
}

/// A die whose report may be asked for, and the digest of the report once that is made.
#[derive(Drop)]
pub struct Foreseen {
    view: DieView,
    // Texts of logs that come first.
    texts: Rows<Name>,
    digest: Option<Digest>,
}

impl Model for Foreseen {
    ghost use Rattle.std.specs.Prelude.{◌≡◌, IfSome};
    ghost use Rattle.sha2.specs.Sha256.{sha256};
    ghost use Rattle.diagnosis.specs.Designs.{ViewFacts, view_report};

    ghost Value = { ViewFacts };

    ghost view = { λ f. f.view };

    ghost invariant = { λ f. IfSome f.digest (λ digest. digest ≡ sha256 (view_report f.view)) };
}

// Adds the log of a text to a die, where the text is a log of it.
fn add_text(alloc: Global, view: &mut DieView, text: &[u8]) -> Result<(), NoMemory>
    ensures { view.new.design ≡ view.old.design }
{
    // The view says of itself that the name of its die is a tag.
    let _revision = view.revision();
    match log_of(alloc, view.design(), view.die(), text) {
        Ok(log) => {
            view.add(Arc::new(alloc, log)?)?;
            Ok(())
        }
        Err(ReadFault::Text(_)) => Ok(()),
        Err(ReadFault::NoMemory) => Err(NoMemory),
    }
}

fn add_texts(alloc: Global, view: &mut DieView, texts: &[Name]) -> Result<(), NoMemory>
    ensures { view.new.design ≡ view.old.design }
{
    for text in texts {
        add_text(alloc, view, text.as_slice())?;
    }
    Ok(())
}

// The digest of the report of a die, where it has a log and there is memory for the report.
fn digest_of_view<R: Threads + Sync>(rt: &R, alloc: Global, view: &DieView) -> Option<Digest>
    ensures { IfSome result (λ digest. digest ≡ sha256 (view_report view.now)) }
{
    if view.revision() == 0 {
        return None;
    }
    match check_report(rt, alloc, view) {
        Ok(checked) => Some(*checked.digest()),
        Err(NoMemory) => None,
    }
}

impl Foreseen {
    /// A die before its report is made.
    pub fn of(alloc: Global, view: DieView) -> Foreseen
        ensures { result ≡ view }
    {
        Foreseen {
            view,
            texts: Rows::new(alloc),
            digest: None,
        }
    }

    /// The number of logs that the report is to be of.
    pub fn revision(&self) -> u64 {
        self.view.revision().saturating_add(self.texts.len() as u64)
    }

    /// Notes the text of a log that comes before the report.
    pub fn note(&mut self, alloc: Global, text: &[u8]) -> Result<(), NoMemory>
        ensures { self.new ≡ self.old }
    {
        self.texts.push(Name::copy_of(alloc, text)?)
    }

    // Makes the report, for its digest.
    fn make<R: Threads + Sync>(&mut self, rt: &R, alloc: Global)
        ensures { self.new.design ≡ self.old.design }
    {
        self.digest = None;
        if add_texts(alloc, &mut self.view, self.texts.as_slice()).is_ok() {
            self.digest = digest_of_view(rt, alloc, &self.view);
        }
    }

    // The digest, where the report was made.
    fn digest(&self) -> Option<Digest>
        ensures { IfSome result (λ digest. digest ≡ sha256 (view_report self.now)) }
    {
        self.digest
    }

    // Whether it is the die of this name with logs of these texts, of a design of this name.
    fn is_of(&self, design: &[u8], die: &[u8], logs: &[Arc<ReadLog>]) -> bool
        ensures name { result ≡ true → self.now.design.name ≡ design.now }
        ensures die { result ≡ true → self.now.die ≡ die.now }
        ensures texts { result ≡ true → texts_of self.now.logs ≡ texts_of (arc_values logs.now) }
    {
        if self.view.die() != die || self.view.design().name() != design {
            return false;
        }
        have_same_texts(self.view.logs().as_slice(), logs)
    }
}

/// How many threads can work at the same time.
pub fn processors<R: Threads>(rt: &R) -> usize
    ensures { 0 < result }
{
    match available_parallelism(rt) {
        Ok(count) => count.get(),
        Err(_) => 1,
    }
}

/// Makes the reports of dies, those of different dies side by side.
pub fn foresee<R: Threads + Sync>(rt: &R, alloc: Global, dies: &mut [Foreseen])
    ensures { (i : ℕ) (d : ViewFacts) → i < length dies.old → (slice_index_or dies.new i d).design ≡ (slice_index_or dies.old i d).design }
{
    // Two pieces for each processor, since reports differ in length.
    let pieces = processors(rt).saturating_mul(2);
    thread::for_each_mut(rt, dies, pieces, &|_, die| die.make(rt, alloc));
}

// Whether the logs have equal texts, each at its place.
fn have_same_texts(logs: &[Arc<ReadLog>], others: &[Arc<ReadLog>]) -> bool
    ensures { result ≡ true → texts_of (arc_values logs.now) ≡ texts_of (arc_values others.now) }
{
    let (mut rest, mut other_rest) = (logs, others);
    while let Some((log, more)) = rest.split_first() {
        let Some((other, other_more)) = other_rest.split_first() else {
            return false;
        };
        if log.text() != other.text() {
            return false;
        }
        rest = more;
        other_rest = other_more;
    }
    other_rest.is_empty()
}

/// The digest of the report of a die with these logs, where it was made ahead.
pub(crate) fn foreseen_digest(
    foreseen: &[Foreseen],
    design: &Design,
    die: &[u8],
    logs: &[Arc<ReadLog>],
) -> Option<Digest>
    requires { All (IsOneByName design.now) foreseen.now }
    ensures { IfSome result (λ digest. digest ≡ sha256 (view_report (record { design = design.now; die = die.now; logs = arc_values logs.now }))) }
{
    for report in foreseen {
        if report.is_of(design.name(), die, logs) {
            return report.digest();
        }
    }
    None
}
