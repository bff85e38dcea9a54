//! Designs: a bundle that was read.
ghost use Rattle.std.specs.Prelude.{◌≡◌, ◌^◌, ◌<◌, length, true, Ok, Err, IfOk, IfErr, IfSome};
ghost use Rattle.sha2.specs.Sha256.{sha256};
ghost use Rattle.scan_model.specs.Words.{is_tag};
ghost use Rattle.scan_model.specs.Response.{expected_rows};
ghost use Rattle.design_bundle.specs.FourTexts.{four};
ghost use Rattle.design_bundle.specs.Bundle.{bundle_text};
ghost use Rattle.design_bundle.specs.Sections.{four_texts};
ghost use Rattle.diagnosis.specs.declared.section.BundleFault.{BundleFault};
ghost use Rattle.diagnosis.specs.Bundle.{bundle_reading, texts_reading};
ghost use Rattle.diagnosis.specs.Designs.{IsDesign};
ghost use Rattle.diagnosis.specs.DesignRows.{rows_in};
ghost use Rattle.diagnosis.specs.ReaderAnswers.{RefusedBy};
ghost use Rattle.diag_report.specs.PredictedLog.{HasWordNames};
ghost use Rattle.packed_sim.specs.PackedParts.{BelongsTo};

use crate::rows::DesignRows;
use crate::section::{BundleFault, Section};
use crate::simulation::{Simulation, simulated};
use crate::texts::read_texts;
use design_bundle::{Sections, bundle_text, split};
use expected_values::expected_at_points;
use lane_rows::GoodRows;
use packed_sim::PackedGood;
use scan_model::{Digest, Expected, Name, NoMemory, Parts, Profile};
use sha2::Sha256;
use std::alloc::Global;
use std::marker::Model;

/// A design: its name, its bundle with the SHA-256 digest (FIPS 180-4) of its bytes, and the parts that the bundle stands
/// for with their expected values, and with their fault-free rows where these are few.
#[derive(Drop)]
pub struct Design {
    name: Name,
    text: Name,
    digest: Digest,
    parts: Parts,
    expected: Expected,
    good: Option<PackedGood>,
}

impl Model for Design {
    ghost use Rattle.diagnosis.specs.Designs.{DesignFacts, IsWholeDesign};

    ghost Value = { DesignFacts };

    ghost view = { λ d. record { name = d.name; text = d.text; test = d.parts } };

    ghost invariant = { λ d. IsWholeDesign (record { name = d.name; text = d.text; test = d.parts }) d.digest d.expected d.good };
}

/// What a bundle stands for, with its fault-free responses, and with its fault-free rows where these are few.
#[derive(Drop)]
struct SimulatedParts {
    parts: Parts,
    expected: Expected,
    good: Option<PackedGood>,
}

/// How many rows a design keeps at most. A row takes 128 bytes, so that all take up to 16 MiB.
const KEPT_ROWS: usize = 1 << 17;

/// Whether a test has so few rows, one for each net in each block of 512 patterns.
fn has_few_rows(parts: &Parts) -> bool {
    let blocks = parts.patterns().len().div_ceil(512);
    let nets = parts.circuit().nets().len();
    blocks.saturating_mul(nets) <= KEPT_ROWS
}

/// The fault-free responses of a test, and its fault-free rows where these are few.
#[derive(Drop)]
struct Responses {
    expected: Expected,
    good: Option<PackedGood>,
}

fn responses_of(alloc: Global, parts: &Parts) -> Result<Responses, NoMemory>
    ensures expected { IfOk result (λ made. made.expected ≡ expected_rows parts.now) }
    ensures good { IfOk result (λ made. IfSome made.good (BelongsTo parts.now)) }
{
    if has_few_rows(parts) {
        let Simulation { good, expected } = simulated(alloc, parts)?;
        let good = Some(good);
        return Ok(Responses { expected, good });
    }
    let rows = GoodRows::make(alloc, parts)?;
    let expected = expected_at_points(alloc, parts, &rows)?;
    Ok(Responses {
        expected,
        good: None,
    })
}

/// The parts with their fault-free responses.
fn with_responses(alloc: Global, parts: Parts) -> Result<SimulatedParts, NoMemory>
    ensures parts { IfOk result (λ made. made.parts ≡ parts) }
    ensures expected { IfOk result (λ made. made.expected ≡ expected_rows parts) }
    ensures good { IfOk result (λ made. IfSome made.good (BelongsTo parts)) }
{
    match responses_of(alloc, &parts) {
        Ok(Responses { expected, good }) => Ok(SimulatedParts {
            parts,
            expected,
            good,
        }),
        Err(refused) => {
            drop(parts);
            Err(refused)
        }
    }
}

impl Design {
    // The design of a bundle that stands for the parts.
    fn whole(name: Name, text: Name, made: SimulatedParts) -> Self
        requires name { is_tag name ≡ true }
        requires stands { bundle_reading text ≡ Ok made.parts }
        requires expected { made.expected ≡ expected_rows made.parts }
        requires good { IfSome made.good (BelongsTo made.parts) }
        ensures { result ≡ record { name = name; text = text; test = made.parts } }
    {
        let digest = Digest::from_bytes(<Sha256 as sha2::Digest>::digest(text.as_slice()));
        Design {
            name,
            text,
            digest,
            parts: made.parts,
            expected: made.expected,
            good: made.good,
        }
    }

    /// The name, a tag.
    pub fn name(&self) -> &[u8]
        ensures value { result.now ≡ self.now.name }
        ensures design { IsDesign self.now }
    {
        self.name.as_slice()
    }

    /// The bundle.
    pub fn text(&self) -> &[u8]
        ensures value { result.now ≡ self.now.text }
        ensures design { IsDesign self.now }
    {
        self.text.as_slice()
    }

    /// The digest of the bundle's bytes.
    pub fn digest(&self) -> &Digest
        ensures { result.now ≡ sha256 self.now.text }
    {
        &self.digest
    }

    /// What the bundle stands for.
    pub fn parts(&self) -> &Parts
        ensures value { result.now ≡ self.now.test }
        ensures design { IsDesign self.now }
        ensures names { HasWordNames self.now.test }
    {
        &self.parts
    }

    /// The fault-free responses.
    pub fn expected(&self) -> &Expected
        ensures { result.now ≡ expected_rows self.now.test }
    {
        &self.expected
    }

    /// The fault-free rows: those that are kept, else made anew. The only error is want of memory.
    pub fn rows(&self, alloc: Global) -> Result<DesignRows<'_>, NoMemory>
        ensures { IfOk result (λ rows. BelongsTo self.now.test (rows_in rows)) }
    {
        match &self.good {
            Some(good) => Ok(DesignRows::Kept(good)),
            None => Ok(DesignRows::Made(PackedGood::make(alloc, &self.parts)?)),
        }
    }
}

// A name, and the bundle of four texts.
#[derive(Drop)]
struct NamedBundle {
    name: Name,
    text: Name,
}

fn named_bundle(alloc: Global, name: &[u8], texts: &Sections<'_>) -> Result<NamedBundle, NoMemory>
    ensures name { IfOk result (λ named. named.name ≡ name.now) }
    ensures text { IfOk result (λ named. named.text ≡ bundle_text (four_texts texts.now)) }
{
    let text = bundle_text(alloc, texts)?;
    let name = Name::copy_of(alloc, name)?;
    Ok(NamedBundle { name, text })
}

/// The design of a profile and four texts. Its text is their bundle.
pub fn design_of(
    alloc: Global,
    name: &[u8],
    profile: Profile,
    netlist: &[u8],
    scan: &[u8],
    patterns: &[u8],
    neighbours: &[u8],
) -> Result<Design, BundleFault>
    requires name { is_tag name.now ≡ true }
    ensures name { IfOk result (λ design. design.name ≡ name.now) }
    ensures text { IfOk result (λ design. design.text ≡ bundle_text (four profile netlist.now scan.now patterns.now neighbours.now)) }
    ensures stands { IfOk result (λ design. texts_reading (four profile netlist.now scan.now patterns.now neighbours.now) ≡ Ok design.test) }
    ensures fault { IfErr result (RefusedBy (texts_reading (four profile netlist.now scan.now patterns.now neighbours.now))) }
{
    let texts = Sections {
        profile,
        netlist,
        scan,
        patterns,
        neighbours,
    };
    let parts = read_texts(alloc, &texts)?;
    let design = design_with(alloc, name, netlist, scan, patterns, neighbours, parts)?;
    Ok(design)
}

/// The design of four texts that were read and stand for the parts, in the profile of the parts.
pub fn design_with(
    alloc: Global,
    name: &[u8],
    netlist: &[u8],
    scan: &[u8],
    patterns: &[u8],
    neighbours: &[u8],
    parts: Parts,
) -> Result<Design, NoMemory>
    requires name { is_tag name.now ≡ true }
    requires stands { texts_reading (four parts.profile netlist.now scan.now patterns.now neighbours.now) ≡ Ok parts }
    ensures name { IfOk result (λ design. design.name ≡ name.now) }
    ensures text { IfOk result (λ design. design.text ≡ bundle_text (four parts.profile netlist.now scan.now patterns.now neighbours.now)) }
    ensures test { IfOk result (λ design. design.test ≡ parts) }
{
    let texts = Sections {
        profile: parts.profile(),
        netlist,
        scan,
        patterns,
        neighbours,
    };
    let named = match named_bundle(alloc, name, &texts) {
        Ok(named) => named,
        Err(refused) => {
            drop(parts);
            return Err(refused);
        }
    };
    let made = with_responses(alloc, parts)?;
    Ok(Design::whole(named.name, named.text, made))
}

/// The design of a bundle. Rule 81 comes before the rules of its sections.
pub fn read_bundle(alloc: Global, name: &[u8], bytes: &[u8]) -> Result<Design, BundleFault>
    requires name { is_tag name.now ≡ true }
    ensures name { IfOk result (λ design. design.name ≡ name.now) }
    ensures text { IfOk result (λ design. design.text ≡ bytes.now) }
    ensures stands { IfOk result (λ design. bundle_reading bytes.now ≡ Ok design.test) }
    ensures fault { IfErr result (RefusedBy (bundle_reading bytes.now)) }
{
    let texts = match split(bytes) {
        Ok(texts) => texts,
        Err(fault) => {
            return Err(BundleFault::Text {
                section: Section::Bundle,
                fault,
            });
        }
    };
    let (name, text) = (Name::copy_of(alloc, name)?, Name::copy_of(alloc, bytes)?);
    let parts = read_texts(alloc, &texts)?;
    let made = with_responses(alloc, parts)?;
    Ok(Design::whole(name, text, made))
}
