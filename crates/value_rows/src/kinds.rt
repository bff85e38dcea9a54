//! The patterns of a block by their kinds: which of its lanes have one of a kind.
ghost use Rattle.std.specs.Prelude.{◌≡◌, ℕ, ◌+◌, ◌<◌, ◌≤◌, ◌&&◌, nat_lt, length, slice_index_or};
ghost use Rattle.scan_model.specs.ScanTest.{no_pattern};
ghost use Rattle.bit_rows.specs.Lanes.{lane};
ghost use Rattle.value_rows.specs.Kinds.{same_kind};

use bit_rows::{LaneWords, Row};
use scan_model::{Pattern, PatternKind};

/// How many patterns a block has that begins at `first`.
pub fn lanes_from(patterns: usize, first: usize) -> usize
    requires { first < patterns }
    ensures few { result ≤ 512 }
    ensures within { first + result ≤ patterns }
    ensures all { (j : ℕ) → j < 512 → nat_lt j result ≡ nat_lt (first + j) patterns }
{
    let rest = patterns - first;
    if rest < 512 { rest } else { 512 }
}

/// The lanes whose patterns are of a kind.
pub fn kind_lanes(patterns: &[Pattern], kind: PatternKind, first: usize, count: usize) -> Row
    requires few { count ≤ 512 }
    requires within { first + count ≤ length patterns.now }
    ensures { (j : ℕ) → j < 512 → lane result j ≡ (nat_lt j count && same_kind kind (slice_index_or patterns.now (first + j) no_pattern).kind) }
{
    let mut lanes = LaneWords::none();
    for at in 0..count {
        lanes.put_lane(at, is_same_kind(kind, patterns[first + at].kind));
    }
    lanes.to_row()
}

fn is_same_kind(a: PatternKind, b: PatternKind) -> bool
    ensures { result ≡ same_kind a b }
{
    match (a, b) {
        (PatternKind::Capture, PatternKind::Capture) => true,
        (PatternKind::Shift, PatternKind::Shift) => true,
        _ => false,
    }
}
