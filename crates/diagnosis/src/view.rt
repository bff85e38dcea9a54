//! A die with logs of it.
ghost use Rattle.std.specs.Prelude.{◌≡◌, [], true, length, map, IfOk, OnErr};
ghost use Rattle.std.specs.Arc.{arc_value};
ghost use Rattle.scan_model.specs.Words.{is_tag};
ghost use Rattle.diagnosis.specs.Designs.{IsLogOf, IsView};
ghost use Rattle.diagnosis.specs.LogAddition.{Added};

use crate::design::Design;
use crate::log::ReadLog;
use crate::logs::push_log;
use crate::put::Put;
use scan_model::{Name, NoMemory, Rows};
use std::alloc::Global;
use std::marker::Model;
use std::sync::Arc;

/// A die of a design with different logs of it, in order.
#[derive(Drop)]
pub struct DieView {
    design: Arc<Design>,
    die: Name,
    logs: Rows<Arc<ReadLog>>,
}

impl Model for DieView {
    ghost use Rattle.std.specs.Prelude.{map};
    ghost use Rattle.std.specs.Arc.{arc_value};
    ghost use Rattle.diagnosis.specs.Designs.{ViewFacts, IsView};

    ghost Value = { ViewFacts };

    ghost view = { λ v. record { design = arc_value v.design; die = v.die; logs = map (λ log. arc_value log) v.logs } };

    ghost invariant = { λ v. IsView (record { design = arc_value v.design; die = v.die; logs = map (λ log. arc_value log) v.logs }) };
}

impl DieView {
    /// A die without logs.
    pub fn make(alloc: Global, design: Arc<Design>, die: Name) -> Result<DieView, NoMemory>
        requires { is_tag die ≡ true }
        ensures { IfOk result (λ view. view ≡ record { design = arc_value design; die = die; logs = [] }) }
    {
        // The view's invariant rests on what the design says of itself.
        let _name = design.name();
        let logs = Rows::new(alloc);
        Ok(DieView { design, die, logs })
    }

    /// Adds a log at the end, unless one of equal text is there; its number is its place from 1.
    pub fn add(&mut self, log: Arc<ReadLog>) -> Result<Put, NoMemory>
        requires { IsLogOf self.old.design self.old.die (arc_value log) }
        ensures added { IfOk result (λ put. Added put (arc_value log) self.old self.new) }
        ensures err { OnErr result (self.new ≡ self.old) }
    {
        push_log(&mut self.logs, log)
    }

    // A copy, which holds the design and the logs jointly with this view.
    pub(crate) fn copy(&self, alloc: Global) -> Result<DieView, NoMemory>
        ensures { IfOk result (λ copy. copy ≡ self.now) }
    {
        // The copy's invariant is what the view says of itself.
        let _revision = self.revision();
        let design = Arc::try_clone(&self.design)?;
        let die = Name::copy_of(alloc, self.die())?;
        let logs = more_references(alloc, self.logs().as_slice())?;
        Ok(DieView { design, die, logs })
    }

    /// The number of logs.
    pub fn revision(&self) -> u64
        ensures number { result ≡ length self.now.logs }
        ensures view { IsView self.now }
    {
        self.logs.len() as u64
    }

    /// The design.
    pub fn design(&self) -> &Design
        ensures { result.now ≡ self.now.design }
    {
        &self.design
    }

    /// The name of the die, a tag.
    pub fn die(&self) -> &[u8]
        ensures { result.now ≡ self.now.die }
    {
        self.die.as_slice()
    }

    /// The logs, in the order in which they were added.
    pub fn logs(&self) -> &Rows<Arc<ReadLog>>
        ensures logs { map (λ log. arc_value log) result.now ≡ self.now.logs }
        ensures view { IsView self.now }
    {
        &self.logs
    }
}

// More references to the same logs.
fn more_references(alloc: Global, logs: &[Arc<ReadLog>]) -> Result<Rows<Arc<ReadLog>>, NoMemory>
    ensures { IfOk result (λ copies. map (λ log. arc_value log) copies ≡ map (λ log. arc_value log) logs.now) }
{
    let mut copies = Rows::new(alloc);
    for log in logs {
        copies.push(Arc::try_clone(log)?)?;
    }
    Ok(copies)
}
