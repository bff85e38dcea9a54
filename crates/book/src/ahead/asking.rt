//! What a keeper answers about the rows to come.
ghost use Rattle.std.specs.Prelude.{◌≡◌, ◌≤◌, ℕ, List, Option, IfOk};
ghost use Rattle.desk_outside.specs.declared.deed.Deed.{Deed};
ghost use Rattle.book.specs.RowsAhead.{AreAnswers};

use desk_outside::{Deed, DeedKind, KeepFault, Keeper};
use scan_model::NoMemory;
use std::alloc::Global;
use std::collections::VecDeque;

/// A keeper's answer about a row.
pub type Answer = Result<Option<Deed>, KeepFault>;

/// How much is asked for ahead, in bytes of logs.
const MOST_AHEAD: usize = 1 << 22;

/// As how many bytes a row counts besides its log, so that there are at most 256 rows ahead.
const ROW: usize = 1 << 14;

// How much an answer takes of what is asked for ahead. Behind a design, which reports are of, and where no row was given, nothing
// more is asked for.
fn share_of(answer: &Answer) -> usize {
    match answer {
        Ok(Some(deed)) => match &deed.what {
            DeedKind::Design { .. } => MOST_AHEAD,
            DeedKind::Log { text, .. } => text.len().saturating_add(ROW),
            DeedKind::Sign { .. } => ROW,
        },
        Ok(None) | Err(_) => MOST_AHEAD,
    }
}

/// Asks a keeper about rows in their order, from one on.
pub(super) fn ask<K: Keeper>(
    alloc: Global,
    keeper: &mut K,
    first: u64,
    end: u64,
) -> Result<VecDeque<Answer>, NoMemory>
    ensures answers { (told : Option (List Deed)) (before : ℕ) → K.rows keeper.old ≡ told → before ≤ K.faults keeper.old → IfOk result (λ answers. AreAnswers told before (K.faults keeper.new) first answers.items) }
    ensures same { K.rows keeper.new ≡ K.rows keeper.old }
    ensures later { K.faults keeper.old ≤ K.faults keeper.new }
{
    let mut answers = VecDeque::new(alloc);
    let mut room = MOST_AHEAD;
    for row in first..end {
        let answer = keeper.row(row);
        room = room.saturating_sub(share_of(&answer));
        answers.push_back(answer)?;
        if room == 0 {
            return Ok(answers);
        }
    }
    Ok(answers)
}
