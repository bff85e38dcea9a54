//! Different logs of a die, in order.
ghost use Rattle.std.specs.Prelude.{◌≡◌, map, position, IfOk, OnErr};
ghost use Rattle.std.specs.Str.{bytes_eq};
ghost use Rattle.std.specs.Arc.{arc_value};
ghost use Rattle.diagnosis.specs.Designs.{texts_of};
ghost use Rattle.diagnosis.specs.Cases.{AddedAmong};

use crate::log::ReadLog;
use crate::put::Put;
use scan_model::{NoMemory, Rows};
use std::sync::Arc;

/// Adds a log at the end, unless one of equal text is there; its number is its place from 1.
pub fn push_log(logs: &mut Rows<Arc<ReadLog>>, log: Arc<ReadLog>) -> Result<Put, NoMemory>
    ensures added { IfOk result (λ put. AddedAmong put (arc_value log) (map (λ log. arc_value log) logs.old) (map (λ log. arc_value log) logs.new)) }
    ensures err { OnErr result (logs.new ≡ logs.old) }
{
    if let Some(place) = place_of(logs.as_slice(), log.text()) {
        let number = place as u64 + 1;
        return Ok(Put::Same { number });
    }
    logs.push(log)?;
    let number = logs.len() as u64;
    Ok(Put::Created { number })
}

// The place of the first log of that text.
fn place_of(logs: &[Arc<ReadLog>], text: &[u8]) -> Option<usize>
    ensures { result ≡ position (bytes_eq text.now) (texts_of (map (λ log. arc_value log) logs.now)) }
{
    logs.iter().position(|log| text == log.text())
}
