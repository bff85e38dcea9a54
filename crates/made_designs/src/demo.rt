//! The text of `demo`: a design that is made, a fault that is put into it, and its diagnosis.
mod diagnosed;
mod injected;
mod lines;

ghost use Rattle.std.specs.Prelude.{◌≡◌, ◌≤◌, ◌<◌, ◌++◌, ◌∷◌, [], Some, Ok, IfOk, IfErr, OnOk, IfSome, length, codes, decimal};
ghost use Rattle.hex.specs.Hex.{encode_lower};
ghost use Rattle.sha2.specs.Sha256.{sha256};
ghost use Rattle.scan_model.specs.Universe.{universe};
ghost use Rattle.scan_model.specs.ReportText as text_of;
ghost use Rattle.diag_report.specs.PredictedLog.{HasWordNames, fault_of};
ghost use Rattle.diag_report.specs.Summary.{count_line};
ghost use Rattle.diagnosis.specs.Bundle.{texts_reading};
ghost use Rattle.diagnosis.specs.ReaderAnswers.{RefusedBy};
ghost use Rattle.made_designs.specs.Demo.{demo_written, injected_lines, rank_lines};
ghost use Rattle.made_designs.specs.MadeTexts.{BreakNoRule};
ghost use Rattle.made_designs.specs.InjectedFaults.{IsDemoCase, IsFound, IsAfterTexts, IsText, place_of, texts_of};

use crate::demo::diagnosed::diagnosis_of;
use crate::demo::injected::{InjectedFault, inject};
use crate::demo::lines::{add_count, add_digest, add_head, add_injected, add_rank};
use crate::design::{MadeDesign, made_design};
use crate::draws::Draws;
use diagnosis::{BundleFault, Case, Diagnosis, parts_of};
use scan_model::{Name, NoMemory, Parts, Profile, Rows};
use std::alloc::Global;
use std::mem::forget;
use std::thread::Threads;

/// A design that is made.
#[derive(Clone, Copy)]
pub struct Demo {
    pub seed: u32,
    /// From 1 to 200.
    pub blocks: u32,
}

// Adds the lines of the fault that is put in.
fn add_fault(
    alloc: Global,
    text: &mut Name,
    parts: &Parts,
    injected: &InjectedFault,
) -> Result<(), NoMemory>
    requires { injected.now.place < length (universe parts.now) }
    ensures { OnOk result (text.new ≡ (text.old ++ text_of.line (codes "injected" ∷ decimal injected.now.place ∷ text_of.fault_words parts.now (fault_of parts.now injected.now.place)))
        ++ count_line (codes "fails") (length injected.now.log.facts.fails)) }
{
    add_injected(alloc, text, parts, injected.place)?;
    add_count(
        alloc,
        text,
        "fails",
        injected.log.facts().fails.len() as u64,
    )
}

// Adds the lines of a diagnosis: where the fault at the place stands among the candidates, and the digest of the report.
fn add_ranking(
    alloc: Global,
    text: &mut Name,
    diagnosis: &Diagnosis,
    place: u32,
) -> Result<(), NoMemory>
    ensures { OnOk result (text.new ≡ ((text.old ++ count_line (codes "candidates") (length diagnosis.now.candidates))
        ++ text_of.concatenated (rank_lines diagnosis.now.candidates place))
        ++ text_of.line (codes "digest" ∷ encode_lower (sha256 (text_of.concatenated diagnosis.now.report)) ∷ [])) }
{
    let candidates = &diagnosis.candidates;
    add_count(alloc, text, "candidates", candidates.len() as u64)?;
    add_rank(alloc, text, candidates.as_slice(), place)?;
    add_digest(text, diagnosis.report.bytes())
}

// Adds the lines of the fault that is put in and of its diagnosis, for which its log is added to the die.
fn add_diagnosis<R: Threads + Sync>(
    rt: &R,
    alloc: Global,
    text: &mut Name,
    case: &mut Case,
    injected: InjectedFault,
) -> Result<(), NoMemory>
    requires case { IsDemoCase case.old }
    requires found { IsFound case.old.test injected }
    ensures { OnOk result (text.new ≡ text.old ++ text_of.concatenated (injected_lines case.old.test (Some injected.place))) }
{
    let place = injected.place;
    add_fault(alloc, text, case.parts(), &injected)?;
    let diagnosis = diagnosis_of(rt, alloc, case, injected)?;
    let added = add_ranking(alloc, text, &diagnosis, place);
    drop(diagnosis);
    added
}

// Adds the lines of what was found.
fn add_found<R: Threads + Sync>(
    rt: &R,
    alloc: Global,
    text: &mut Name,
    case: &mut Case,
    injected: Option<InjectedFault>,
) -> Result<(), NoMemory>
    requires case { IsDemoCase case.old }
    requires found { IfSome injected (IsFound case.old.test) }
    ensures { OnOk result (text.new ≡ text.old ++ text_of.concatenated (injected_lines case.old.test (place_of injected))) }
{
    match injected {
        None => text.append(b"injected none\n"),
        Some(injected) => add_diagnosis(rt, alloc, text, case, injected),
    }
}

// The text over the die of the design that was made, with the draws that come after its texts.
fn text_over<R: Threads + Sync>(
    rt: &R,
    alloc: Global,
    demo: Demo,
    case: &mut Case,
    draws: &mut Draws,
) -> Result<Name, NoMemory>
    requires case { IsDemoCase case.old }
    requires names { HasWordNames case.old.test }
    requires draws { IsAfterTexts demo.seed demo.blocks draws.old.state }
    ensures { IfOk result (IsText demo.seed demo.blocks case.old.test) }
{
    let mut text = Rows::new(alloc);
    add_head(alloc, &mut text, demo, case.parts())?;
    let injected = inject(alloc, case, draws)?;
    add_found(rt, alloc, &mut text, case, injected)?;
    Ok(text)
}

// The text of the design that was made.
fn text_of_design<R: Threads + Sync>(
    rt: &R,
    alloc: Global,
    demo: Demo,
    parts: Parts,
    draws: &mut Draws,
) -> Result<Name, NoMemory>
    requires names { HasWordNames parts }
    requires draws { IsAfterTexts demo.seed demo.blocks draws.old.state }
    ensures { IfOk result (IsText demo.seed demo.blocks parts) }
{
    let mut case = Case::make(alloc, b"demo", b"demo", parts)?;
    let text = text_over(rt, alloc, demo, &mut case, draws);
    forget(case);
    text
}

// The scan test of the texts that were made.
fn read_made(alloc: Global, made: &MadeDesign) -> Result<Parts, BundleFault>
    ensures stands { IfOk result (λ parts. texts_reading (texts_of made.now) ≡ Ok parts) }
    ensures names { IfOk result HasWordNames }
    ensures fault { IfErr result (RefusedBy (texts_reading (texts_of made.now))) }
{
    parts_of(
        alloc,
        Profile::One,
        made.netlist.as_slice(),
        made.scan.as_slice(),
        made.patterns.as_slice(),
        made.neighbours.as_slice(),
    )
}

// The scan test of the texts that were made, where they break no rule.
fn parts_of_made(alloc: Global, made: &MadeDesign) -> Result<Parts, NoMemory>
    requires { BreakNoRule (texts_of made.now) }
    ensures stands { IfOk result (λ parts. texts_reading (texts_of made.now) ≡ Ok parts) }
    ensures names { IfOk result HasWordNames }
{
    match read_made(alloc, made) {
        Ok(parts) => Ok(parts),
        Err(BundleFault::Text { .. }) => unreachable!(),
        Err(BundleFault::NoMemory) => Err(NoMemory),
    }
}

/// The text of `demo`. The process ends with it, so the memory of the scan test that was made isn't given back.
pub fn demo_text<R: Threads + Sync>(rt: &R, alloc: Global, demo: Demo) -> Result<Name, NoMemory>
    requires some { 1 ≤ demo.blocks }
    requires few { demo.blocks ≤ 200 }
    ensures { IfOk result (λ text. text ≡ demo_written demo.seed demo.blocks) }
{
    let mut made = made_design(alloc, demo.seed, demo.blocks)?;
    let parts = parts_of_made(alloc, &made)?;
    let text = text_of_design(rt, alloc, demo, parts, &mut made.draws);
    drop(made);
    text
}
