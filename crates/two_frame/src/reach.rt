//! The nets that lead to a failing bit: a transition fault at any other explains nothing.
ghost use Rattle.std.specs.Prelude.{◌≡◌, ℕ, ◌+◌, ◌*◌, ◌<◌, ◌==◌, ◌&&◌, ◌||◌, List, [], true, length, IfOk, slice_index_or};
ghost use Rattle.std.specs.List.{list_any};
ghost use Rattle.scan_model.specs.declared.logs.LogFacts.{LogFacts};
ghost use Rattle.scan_model.specs.Netlist.{reads, net_numbers};
ghost use Rattle.scan_model.specs.Cone.{in_fan_in};
ghost use Rattle.scan_model.specs.Marks.{is_marked};
ghost use Rattle.scan_model.specs.ScanTest.{points_of};
ghost use Rattle.scan_model.specs.Coverage.{bit_of};
ghost use Rattle.scan_model.specs.Classes.{is_failing, class_with};
ghost use Rattle.log_join.specs.Joining.{StandsFor, IsJoinedOf, FitsExpected};
ghost use Rattle.two_frame.specs.TwoFrame.{frame_rows};
ghost use Rattle.two_frame.specs.FrameRows.{IsFrameGood};
ghost use Rattle.two_frame.specs.FanInMarks.{IsSeen, AreReaching};

use crate::frame_good::FrameGood;
use log_join::Joined;
use scan_model::{Circuit, Expected, NoMemory, Parts};
use std::alloc::Global;

/// The patterns of a word.
const WORD_PATTERNS: u32 = 64;

/// Whether a point fails in one of the 64 patterns of a word.
fn fails_in_word(joined: &Joined, expected: &Expected, word: u32, point: u32) -> bool
    requires expected { FitsExpected expected.now joined.now }
    requires word { 64 * word < joined.now.patterns }
    requires point { point < joined.now.points }
    ensures { (logs : List LogFacts) → StandsFor logs joined.now → (j : ℕ) → j < 64 → 64 * word + j < joined.now.patterns
        → is_failing (class_with expected.now logs (bit_of (64 * word + j) point)) ≡ true → result ≡ true }
{
    joined.failing_word(expected, word, point) != 0
}

/// Marks the net of a point, if the point fails.
fn mark_point(marks: &mut [bool], net: u32, fails: bool)
    requires { net < length marks.old }
    ensures kept { (n : ℕ) → is_marked marks.old n ≡ true → is_marked marks.new n ≡ true }
    ensures seen { fails ≡ true → is_marked marks.new net ≡ true }
{
    if !fails {
        return;
    }
    marks[net as usize] = true;
}

/// Marks the nets of the points that fail in one of the 64 patterns of a word.
fn mark_word(marks: &mut [bool], joined: &Joined, expected: &Expected, nets: &[u32], word: u32)
    requires expected { FitsExpected expected.now joined.now }
    requires word { 64 * word < joined.now.patterns }
    requires nets { length nets.now ≡ joined.now.points }
    requires inside { (k : ℕ) → k < length nets.now → slice_index_or nets.now k 0 < length marks.old }
    ensures kept { (n : ℕ) → is_marked marks.old n ≡ true → is_marked marks.new n ≡ true }
    ensures seen { (logs : List LogFacts) → StandsFor logs joined.now → (j k : ℕ) → j < 64 → k < joined.now.points → IsSeen marks.new nets.now expected.now logs joined.now.patterns (64 * word + j) k }
{
    for point in 0..joined.points() {
        let fails = fails_in_word(joined, expected, word, point);
        mark_point(marks, nets[point as usize], fails);
    }
}

/// Marks the nets of all points that fail in some pattern.
fn mark_failing(marks: &mut [bool], joined: &Joined, expected: &Expected, nets: &[u32])
    requires expected { FitsExpected expected.now joined.now }
    requires nets { length nets.now ≡ joined.now.points }
    requires inside { (k : ℕ) → k < length nets.now → slice_index_or nets.now k 0 < length marks.old }
    ensures { (logs : List LogFacts) → StandsFor logs joined.now → (w k : ℕ) → k < joined.now.points → IsSeen marks.new nets.now expected.now logs joined.now.patterns w k }
{
    for word in 0..joined.patterns().div_ceil(WORD_PATTERNS) {
        mark_word(marks, joined, expected, nets, word);
    }
}

/// Marks what a gate reads.
fn mark_reads(circuit: &Circuit, marks: &mut [bool], gate: u32)
    requires gate { gate < length circuit.now.nets }
    requires marks { length marks.old ≡ length circuit.now.nets }
    ensures { (n : ℕ) → is_marked marks.new n ≡ (is_marked marks.old n || list_any (λ h. n == h) (reads circuit.now gate)) }
{
    for i in 0..circuit.read_count(gate) {
        marks[circuit.read_at(gate, i) as usize] = true;
    }
}

/// Marks what a gate with a mark reads.
fn spread(circuit: &Circuit, marks: &mut [bool], gate: u32)
    requires gate { gate < length circuit.now.nets }
    requires marks { length marks.old ≡ length circuit.now.nets }
    ensures { (n : ℕ) → is_marked marks.new n ≡ (is_marked marks.old n || is_marked marks.old gate && list_any (λ h. n == h) (reads circuit.now gate)) }
{
    if marks[gate as usize] {
        mark_reads(circuit, marks, gate);
    }
}

/// Marks all nets that lead to one with a mark, by one sweep back through the gates.
fn spread_back(circuit: &Circuit, marks: &mut [bool])
    requires { length marks.old ≡ length circuit.now.nets }
    ensures { (n : ℕ) → n < length circuit.now.nets → is_marked marks.new n ≡ list_any (λ m. is_marked marks.old m && in_fan_in circuit.now n m) (net_numbers circuit.now) }
{
    let order = circuit.order().as_slice();
    let _ = circuit.nets();
    let mut k = order.len();
    while k > 0 {
        k -= 1;
        spread(circuit, marks, order[k]);
    }
}

/// Marks the nets that lead to a failing bit.
fn mark_reaching(
    marks: &mut [bool],
    parts: &Parts,
    good: &FrameGood,
    expected: &Expected,
    joined: &Joined,
)
    requires marks { length marks.old ≡ length parts.now.netlist.nets }
    requires good { IsFrameGood parts.now good.now }
    requires expected { expected.now ≡ frame_rows parts.now }
    requires joined { IsJoinedOf (length parts.now.patterns) (length (points_of parts.now)) joined.now }
    ensures { (logs : List LogFacts) → StandsFor logs joined.now → AreReaching parts.now logs marks.new }
{
    let circuit = parts.circuit();
    mark_failing(marks, joined, expected, good.second.observed(parts));
    spread_back(circuit, marks);
}

/// The nets that lead to a failing bit, as marks. The only error is want of memory.
pub(crate) fn reaching_nets(
    alloc: Global,
    parts: &Parts,
    good: &FrameGood,
    expected: &Expected,
    joined: &Joined,
) -> Result<Vec<bool>, NoMemory>
    requires good { IsFrameGood parts.now good.now }
    requires expected { expected.now ≡ frame_rows parts.now }
    requires joined { IsJoinedOf (length parts.now.patterns) (length (points_of parts.now)) joined.now }
    ensures len { IfOk result (λ marks. length marks.items ≡ length parts.now.netlist.nets) }
    ensures marks { (logs : List LogFacts) → StandsFor logs joined.now → IfOk result (λ marks. AreReaching parts.now logs marks.items) }
{
    let mut marks = vec![in alloc; false; parts.circuit().nets().len()]?;
    mark_reaching(&mut marks, parts, good, expected, joined);
    Ok(marks)
}
