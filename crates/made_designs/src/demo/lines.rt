//! The lines that are printed.
ghost use Rattle.std.specs.Prelude.{◌≡◌, ◌==◌, ◌++◌, ◌∷◌, [], ◌<◌, length, position, decimal, codes, OnOk};
ghost use Rattle.hex.specs.Hex.{encode_lower};
ghost use Rattle.sha2.specs.Sha256.{sha256};
ghost use Rattle.scan_model.specs.Universe.{universe};
ghost use Rattle.scan_model.specs.ReportText as text_of;
ghost use Rattle.diag_report.specs.PredictedLog.{fault_of};
ghost use Rattle.diag_report.specs.Summary.{count_line};
ghost use Rattle.made_designs.specs.Demo.{rank_line, rank_lines};
ghost use Rattle.made_designs.specs.InjectedFaults.{head_lines};

use crate::demo::Demo;
use fault_universe::{fault_at, push_fault, universe_len};
use scan_model::{Counts, Name, NoMemory, Parts, Scored};
use sha2::Sha256;
use std::alloc::Global;

/// Adds a line of a word and a count.
pub fn add_count(alloc: Global, text: &mut Name, word: &str, count: u64) -> Result<(), NoMemory>
    ensures { OnOk result (text.new ≡ text.old ++ count_line word.now count) }
{
    let line = format!(in alloc; "{word} {count}\n")?;
    text.append(line.as_bytes())
}

// Adds the line of what was asked for.
fn add_demo(alloc: Global, text: &mut Name, demo: Demo) -> Result<(), NoMemory>
    ensures { OnOk result (text.new ≡ text.old ++ text_of.line (codes "demo" ∷ decimal demo.seed ∷ decimal demo.blocks ∷ [])) }
{
    let Demo { seed, blocks } = demo;
    let line = format!(in alloc; "demo {seed} {blocks}\n")?;
    text.append(line.as_bytes())
}

/// Adds the lines of the design that was made.
pub fn add_head(alloc: Global, text: &mut Name, demo: Demo, parts: &Parts) -> Result<(), NoMemory>
    ensures { OnOk result (text.new ≡ text.old ++ text_of.concatenated (head_lines demo.seed demo.blocks parts.now)) }
{
    add_demo(alloc, text, demo)?;
    add_count(alloc, text, "nets", parts.circuit().nets().len() as u64)?;
    add_count(alloc, text, "faults", u64::from(universe_len(parts)))
}

/// Adds the line of the fault at a place.
pub fn add_injected(
    alloc: Global,
    text: &mut Name,
    parts: &Parts,
    place: u32,
) -> Result<(), NoMemory>
    requires { place < length (universe parts.now) }
    ensures { OnOk result (text.new ≡ text.old ++ text_of.line (codes "injected" ∷ decimal place ∷ text_of.fault_words parts.now (fault_of parts.now place))) }
{
    let Some(fault) = fault_at(parts, place) else {
        unreachable!()
    };
    let words = format!(in alloc; "injected {place} ")?;
    text.append(words.as_bytes())?;
    push_fault(text, parts, &fault)?;
    text.push(b'\n')
}

// Adds the line of the candidate of a rank.
fn add_rank_line(alloc: Global, text: &mut Name, rank: u64, row: &Scored) -> Result<(), NoMemory>
    ensures { OnOk result (text.new ≡ text.old ++ rank_line (rank, row.now)) }
{
    let Counts { tfsf, tfsp, tpsf } = row.counts;
    let line = format!(in alloc; "rank {rank} tfsf {tfsf} tfsp {tfsp} tpsf {tpsf}\n")?;
    text.append(line.as_bytes())
}

// How many candidates stand before the one at a place.
fn count_before(rows: &[Scored], place: u32) -> Option<usize>
    ensures { result ≡ position (λ row. row.place == place) rows.now }
{
    rows.iter().position(|row| row.place == place)
}

/// Adds the line of the candidate at a place, where there is one.
pub fn add_rank(alloc: Global, text: &mut Name, rows: &[Scored], place: u32) -> Result<(), NoMemory>
    ensures { OnOk result (text.new ≡ text.old ++ text_of.concatenated (rank_lines rows.now place)) }
{
    let Some(before) = count_before(rows, place) else {
        return Ok(());
    };
    add_rank_line(alloc, text, before as u64 + 1, &rows[before])
}

/// Adds the line of the digest of a report.
pub fn add_digest(text: &mut Name, report: &[u8]) -> Result<(), NoMemory>
    ensures { OnOk result (text.new ≡ text.old ++ text_of.line (codes "digest" ∷ encode_lower (sha256 report.now) ∷ [])) }
{
    let digest = <Sha256 as sha2::Digest>::digest(report);
    let mut digits = [0; 64];
    let Ok(()) = hex::encode_to_slice(&digest, &mut digits) else {
        unreachable!()
    };
    text.append(b"digest ")?;
    text.append(&digits)?;
    text.push(b'\n')
}
