//! The first and the last Failing point of each pattern of a block.
ghost use Rattle.std.specs.Prelude.{◌≡◌, length, IfOk};
ghost use Rattle.slat_view.specs.Ends.{AreFirsts, AreLasts};

use lane_rows::Row;
use log_rows::PointRow;
use scan_model::{NoMemory, Rows};
use std::alloc::Global;

/// For each point, the lanes in which it is the first Failing one.
pub(crate) fn first_failing(alloc: Global, rows: &[PointRow]) -> Result<Rows<Row>, NoMemory>
    ensures len { IfOk result (λ firsts. length firsts ≡ length rows.now) }
    ensures firsts { IfOk result (AreFirsts rows.now) }
{
    let mut seen = Row::none();
    let mut firsts = Vec::new(alloc);
    for k in 0..rows.len() {
        let failing = rows[k].failing;
        firsts.push(failing.and(seen.not()))?;
        seen = seen.or(failing);
    }
    Ok(Rows::from_vec(firsts))
}

/// For each point, the lanes in which it is the last Failing one.
pub(crate) fn last_failing(alloc: Global, rows: &[PointRow]) -> Result<Rows<Row>, NoMemory>
    ensures len { IfOk result (λ lasts. length lasts ≡ length rows.now) }
    ensures lasts { IfOk result (AreLasts rows.now) }
{
    let mut seen = Row::none();
    let mut lasts = vec![in alloc; Row::none(); rows.len()]?;
    let mut k = rows.len();
    while k > 0 {
        k -= 1;
        let failing = rows[k].failing;
        lasts[k] = failing.and(seen.not());
        seen = seen.or(failing);
    }
    Ok(Rows::from_vec(lasts))
}
