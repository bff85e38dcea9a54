//! What a command comes to: a status and the bytes to write.
ghost use Rattle.std.specs.Prelude.{◌≡◌, ◌≢◌, ◌++◌, codes, IfOk, string_bytes, true};
ghost use Rattle.desk_commands.specs.Work.{refusal_status, refusal_line};
ghost use Rattle.desk_commands.specs.CommandStops.{IsPageOf, is_fault};
ghost use Rattle.desk_commands.specs.CommandEnds.{is_one_of, page_statuses};

use crate::files::{Refusal, Stop};
use scan_model::{NoMemory, Rows};
use std::alloc::Global;
use text_parts::TextFault;

/// A status, and the bytes that are written before the program ends with it.
#[derive(Drop)]
pub struct Page {
    pub status: u8,
    pub text: Rows<u8>,
}

// The line of a text that breaks a rule.
fn rule_line(alloc: Global, name: &str, fault: TextFault) -> Result<String, NoMemory>
    ensures { IfOk result (λ line. string_bytes line ≡ refusal_line name.now (Refusal.Rule fault)) }
{
    let TextFault { line, rule } = fault;
    Ok(format!(in alloc; "{name} line {line} rule {rule}\n")?)
}

// The line of a file that is refused.
fn refused_line(alloc: Global, name: &str, refusal: Refusal) -> Result<String, NoMemory>
    ensures { IfOk result (λ line. string_bytes line ≡ refusal_line name.now refusal) }
{
    match refusal {
        Refusal::Absent => Ok(format!(in alloc; "{name} absent\n")?),
        Refusal::TooLong => Ok(format!(in alloc; "{name} too long\n")?),
        Refusal::Rule(fault) => rule_line(alloc, name, fault),
    }
}

// The line of a file at which the shelf failed.
fn fault_line(alloc: Global, name: &str) -> Result<String, NoMemory>
    ensures { IfOk result (λ line. string_bytes line ≡ name.now ++ codes " fault\n") }
{
    Ok(format!(in alloc; "{name} fault\n")?)
}

fn status_of(refusal: Refusal) -> u8
    ensures value { result ≡ refusal_status refusal }
    ensures statuses { is_one_of page_statuses result ≡ true }
    ensures no_fault { result ≢ 5 }
{
    match refusal {
        Refusal::Rule(_) => 3,
        Refusal::Absent => 4,
        Refusal::TooLong => 11,
    }
}

/// A page of one line.
pub fn line_page(alloc: Global, status: u8, line: &str) -> Result<Page, NoMemory>
    ensures { IfOk result (λ page. (page.status ≡ status) × (page.text ≡ line.now)) }
{
    let text = Rows::copy_of(alloc, line.as_bytes())?;
    Ok(Page { status, text })
}

/// The page of a stop, which is none for want of memory.
pub fn page_of(alloc: Global, stop: &Stop<'_>) -> Result<Page, NoMemory>
    ensures page { IfOk result (λ page. IsPageOf stop.now page.status page.text) }
    ensures fault { IfOk result (λ page. page.status ≡ 5 → is_fault stop.now ≡ true) }
    ensures statuses { IfOk result (λ page. is_one_of page_statuses page.status ≡ true) }
{
    match *stop {
        Stop::Refused { name, refusal } => {
            let line = refused_line(alloc, name, refusal)?;
            line_page(alloc, status_of(refusal), &line)
        }
        Stop::Fault { name } => {
            let line = fault_line(alloc, name)?;
            line_page(alloc, 5, &line)
        }
        Stop::NoMemory => Err(NoMemory),
    }
}
