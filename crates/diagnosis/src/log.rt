//! Logs that were read.
ghost use Rattle.std.specs.Prelude.{◌≡◌, true, IfOk};
ghost use Rattle.scan_model.specs.Words.{is_tag};
ghost use Rattle.scan_model.specs.LogText.{log_frame, log_reading};
ghost use Rattle.text_parts.specs.ReadResults.{Gives};
ghost use Rattle.diagnosis.specs.Designs.{IsLogOf};
ghost use Rattle.diagnosis.specs.Cases.{IsLogOver};

use crate::design::Design;
use fail_logs::read_log;
use scan_model::{LogFacts, Name, NoMemory, Parts};
use std::alloc::Global;
use std::marker::Model;
use text_parts::ReadFault;

/// A fail log that was read: the names of its design and its die, its text, and what the text stands for.
#[derive(Drop)]
pub struct ReadLog {
    design: Name,
    die: Name,
    text: Name,
    facts: LogFacts,
}

impl Model for ReadLog {
    ghost use Rattle.std.specs.Prelude.{◌≡◌, true};
    ghost use Rattle.scan_model.specs.Words.{is_tag};
    ghost use Rattle.diagnosis.specs.Designs.{ReadLogFacts};

    ghost Value = { ReadLogFacts };

    ghost view = { λ l. record { design = l.design; die = l.die; text = l.text; facts = l.facts } };

    ghost invariant = { λ l. is_tag l.die ≡ true };
}

impl ReadLog {
    // The log of a text that stands for the facts.
    fn make(
        alloc: Global,
        design: &[u8],
        die: &[u8],
        text: Name,
        facts: LogFacts,
    ) -> Result<ReadLog, NoMemory>
        requires { is_tag die.now ≡ true }
        ensures { IfOk result (λ log. log ≡ record { design = design.now; die = die.now; text = text; facts = facts }) }
    {
        let design = Name::copy_of(alloc, design)?;
        let die = Name::copy_of(alloc, die)?;
        Ok(ReadLog {
            design,
            die,
            text,
            facts,
        })
    }

    /// The name of its design.
    pub fn design(&self) -> &[u8]
        ensures { result.now ≡ self.now.design }
    {
        self.design.as_slice()
    }

    /// The name of its die, a tag.
    pub fn die(&self) -> &[u8]
        ensures value { result.now ≡ self.now.die }
        ensures tag { is_tag self.now.die ≡ true }
    {
        self.die.as_slice()
    }

    /// The text that was read.
    pub fn text(&self) -> &[u8]
        ensures { result.now ≡ self.now.text }
    {
        self.text.as_slice()
    }

    /// What the text stands for: the tested patterns, the failing bits and the groups that are cut on their own.
    pub fn facts(&self) -> &LogFacts
        ensures { result.now ≡ self.now.facts }
    {
        &self.facts
    }
}

/// The log of a die of the design, which keeps its text.
pub fn log_of(
    alloc: Global,
    design: &Design,
    die: &[u8],
    bytes: &[u8],
) -> Result<ReadLog, ReadFault>
    requires die { is_tag die.now ≡ true }
    ensures design { IfOk result (λ log. log.design ≡ design.now.name) }
    ensures die { IfOk result (λ log. log.die ≡ die.now) }
    ensures text { IfOk result (λ log. log.text ≡ bytes.now) }
    ensures log { IfOk result (IsLogOf design.now die.now) }
    ensures reading { Gives (λ log. log.facts) result (log_reading (log_frame design.now.test design.now.name die.now) bytes.now) }
{
    let facts = read_log(alloc, design.parts(), design.name(), die, bytes)?;
    let text = Name::copy_of(alloc, bytes)?;
    Ok(ReadLog::make(alloc, design.name(), die, text, facts)?)
}

/// The log of a die of a design of that name, over its parts, which takes its text.
pub fn log_over(
    alloc: Global,
    parts: &Parts,
    design: &[u8],
    die: &[u8],
    text: Name,
) -> Result<ReadLog, ReadFault>
    requires die { is_tag die.now ≡ true }
    ensures text { IfOk result (λ log. log.text ≡ text) }
    ensures log { IfOk result (IsLogOver parts.now design.now die.now) }
    ensures reading { Gives (λ log. log.facts) result (log_reading (log_frame parts.now design.now die.now) text) }
{
    let facts = read_log(alloc, parts, design, die, text.as_slice())?;
    Ok(ReadLog::make(alloc, design, die, text, facts)?)
}
