//! The records of a list, read by the `csv` crate.

ghost use Rattle.std.specs.Prelude.{◌≡◌, IfOk, map};
ghost use Rattle.csv.specs.Reading.{default_config, records, strip_bom};
ghost use Rattle.csv.specs.Records.{fields_of};
ghost use Rattle.text_parts.specs.TextEnd.{is_ended, ended};

use csv::{ByteRecord, ReaderBuilder};
use scan_model::NoMemory;
use std::alloc::Global;
use text_parts::is_ended;

/// The records of a text. Any error of the reader is want of memory, since nothing else fails over bytes in memory.
fn rows_of(alloc: Global, text: &[u8]) -> Result<Vec<ByteRecord>, NoMemory>
    ensures { IfOk result (λ rows. map fields_of rows.items ≡ records default_config (strip_bom text.now)) }
{
    let reader = ReaderBuilder::new()
        .has_headers(false)
        .flexible(true)
        .from_reader(alloc, text);
    let mut rows = Vec::new(alloc);
    for row in reader.into_byte_records() {
        let Ok(row) = row else {
            return Err(NoMemory);
        };
        rows.push(row)?;
    }
    Ok(rows)
}

/// The records of a text that is read as if LF stood at its end.
pub fn records_of(alloc: Global, text: &[u8]) -> Result<Vec<ByteRecord>, NoMemory>
    ensures { IfOk result (λ rows. map fields_of rows.items ≡ records default_config (strip_bom (ended text.now))) }
{
    if is_ended(text) {
        return rows_of(alloc, text);
    }
    let mut ended = Vec::from_slice(alloc, text)?;
    ended.push(b'\n')?;
    rows_of(alloc, &ended)
}
