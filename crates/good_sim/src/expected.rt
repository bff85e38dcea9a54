//! The fault-free responses of all patterns.
ghost use Rattle.std.specs.Prelude.{◌≡◌, IfOk};
ghost use Rattle.scan_model.specs.Response.{expected_rows};

use crate::response::plain_response;
use scan_model::{Expected, NoMemory, Parts, Rows, Tri};
use std::alloc::Global;

/// The fault-free response in each pattern.
fn good_rows(alloc: Global, parts: &Parts) -> Result<Rows<Rows<Tri>>, NoMemory>
    ensures { IfOk result (λ rows. rows ≡ expected_rows parts.now) }
{
    let mut rows = Vec::new(alloc);
    for pattern in 0..parts.patterns().len() {
        rows.push(plain_response(alloc, parts, pattern as u32, None)?)?;
    }
    Ok(Rows::from_vec(rows))
}

/// The fault-free responses: a row for each pattern, with a value for each point in test order. The only error is want of
/// memory: while it runs it holds a byte for each value.
pub fn expected_all(alloc: Global, parts: &Parts) -> Result<Expected, NoMemory>
    ensures { IfOk result (λ rows. rows ≡ expected_rows parts.now) }
{
    let rows = good_rows(alloc, parts)?;
    Expected::of_rows(alloc, parts.points().len() as u32, &rows)
}
