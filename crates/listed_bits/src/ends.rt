//! The pattern before which a log covers each point: its end.
ghost use Rattle.std.specs.Prelude.{◌≡◌, ℕ, ◌<◌, ◌&&◌, ◌||◌, not, false, length, All, nat_lt, slice_index_or, if◌then◌else◌};
ghost use Rattle.std.specs.List.{list_all};
ghost use Rattle.scan_model.specs.Coverage.{bit_of, has_point, group_goes_on};
ghost use Rattle.listed_bits.specs.FailReach.{reaches, HasEnds, FitsWords, AreUnmarked};

use crate::reach::{Reach, end_at, reach_of_marked};
use scan_model::LogFacts;

/// Sets the ends to those of a reach.
pub fn set_ends(ends: &mut [u32], points: u32, reach: Reach)
    requires points { length ends.old ≡ points }
    requires reach { HasEnds reach }
    ensures { (w k : ℕ) → k < points → nat_lt w (slice_index_or ends.new k 0) ≡ reaches reach (bit_of w k) }
{
    for point in 0..points {
        ends[point as usize] = end_at(reach, point);
    }
}

/// Takes the ends of some points back to those of a reach, where they are later.
fn cut_ends(ends: &mut [u32], group: &[u32], reach: Reach)
    requires group { All (λ k. k < length ends.old) group.now }
    requires reach { HasEnds reach }
    ensures { (w k : ℕ) → k < length ends.old
        → nat_lt w (slice_index_or ends.new k 0) ≡ (nat_lt w (slice_index_or ends.old k 0) && (not (has_point group.now k) || reaches reach (bit_of w k))) }
{
    for i in 0..group.len() {
        let point = group[i];
        let place = point as usize;
        ends[place] = ends[place].min(end_at(reach, point));
    }
}

/// Writes the marks of some points.
fn write_marks(marks: &mut [bool], group: &[u32], mark: bool)
    requires { All (λ k. k < length marks.old) group.now }
    ensures { (k : ℕ) → k < length marks.old → slice_index_or marks.new k false ≡ (if has_point group.now k then mark else slice_index_or marks.old k false) }
{
    for i in 0..group.len() {
        marks[group[i] as usize] = mark;
    }
}

/// Takes the ends of a group back to the last failing bit at its points.
fn cut_group(ends: &mut [u32], marks: &mut [bool], group: &[u32], facts: &LogFacts)
    requires fails { All FitsWords facts.now.fails }
    requires points { All (λ b. b.point < length ends.old) facts.now.fails }
    requires group { All (λ k. k < length ends.old) group.now }
    requires marks { (length marks.old ≡ length ends.old) × AreUnmarked marks.old }
    ensures ends { (w k : ℕ) → k < length ends.old
        → nat_lt w (slice_index_or ends.new k 0) ≡ (nat_lt w (slice_index_or ends.old k 0) && (not (has_point group.now k) || group_goes_on facts.now (bit_of w k) group.now)) }
    ensures marks { AreUnmarked marks.new }
{
    write_marks(marks, group, true);
    let reach = reach_of_marked(facts.fails.as_slice(), marks);
    write_marks(marks, group, false);
    cut_ends(ends, group, reach);
}

/// Takes the ends of each group that the tester cut on its own back to the last failing bit at its
/// points.
pub fn cut_groups(ends: &mut [u32], marks: &mut [bool], facts: &LogFacts)
    requires fails { All FitsWords facts.now.fails }
    requires points { All (λ b. b.point < length ends.old) facts.now.fails }
    requires cuts { All (All (λ k. k < length ends.old)) facts.now.cuts }
    requires marks { (length marks.old ≡ length ends.old) × AreUnmarked marks.old }
    ensures ends { (w k : ℕ) → k < length ends.old
        → nat_lt w (slice_index_or ends.new k 0)
        ≡ (nat_lt w (slice_index_or ends.old k 0) && list_all (λ group. not (has_point group k) || group_goes_on facts.now (bit_of w k) group) facts.now.cuts) }
    ensures marks { AreUnmarked marks.new }
{
    let cuts = facts.cuts.as_slice();
    for i in 0..cuts.len() {
        cut_group(ends, marks, cuts[i].as_slice(), facts);
    }
}
