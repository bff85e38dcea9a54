//! What compact points show where what the points upstream of them show changes.

ghost use Rattle.std.specs.Prelude.{◌≡◌, ℕ, ◌<◌, ◌++◌, ◌∷◌, [], false, List, All, length, map, slice_index_or, MatchOption};
ghost use Rattle.std.specs.List.{list_any};
ghost use Rattle.scan_model.specs.declared.values.Tri.{Tri};
ghost use Rattle.scan_model.specs.Values.{is_unknown, are_opposite, xor_of};
ghost use Rattle.scan_model.specs.ScanTest.{IsPoint};
ghost use Rattle.scan_model.specs.Suspect.{observed_net};
ghost use Rattle.lane_rows.specs.Lanes.{lane};
ghost use Rattle.lane_rows.specs.Planes.{held};
ghost use Rattle.packed_sim.specs.Changes.{IsChange};
ghost use Rattle.fail_logs.specs.Frames.{rows_view};
ghost use Rattle.compact_points.specs.Channels.{IsCompactorOf};
ghost use Rattle.compact_points.specs.Compaction.{cell_shown, cells_shown, members};
ghost use Rattle.compact_points.specs.CompactPoints.{IsThere};
ghost use Rattle.chain_compactor.specs.ObservationPoints.{chain_nets};

use compact_points::Compact;
use lane_rows::{Packed, Row};
use scan_model::{Parts, Point};

/// What the points of a test show in the lanes of a block, as changes of what they show without a fault.
pub(crate) trait Changes {
    ghost use Rattle.std.specs.Prelude.{ℕ};
    ghost use Rattle.scan_model.specs.ScanTest.{ScanTest};
    ghost use Rattle.scan_model.specs.declared.values.Tri.{Tri};
    ghost use Rattle.scan_model.specs.declared.parts.Point.{Point};

    ghost test: { Self → ScanTest };

    /// What it reads belongs together.
    ghost ready: { Self → Type 0 };

    /// The lanes of which it tells.
    ghost tells: { Self → ℕ → Type 0 };

    /// What a point shows in a lane without a fault.
    ghost good: { Self → ℕ → Point → Tri };

    ghost shown: { Self → ℕ → Point → Tri };

    /// By what the row of a point changes, if it does, given the net that the point observes.
    fn change(&self, point: Point, net: u32) -> Option<Packed>
        requires ready { ready self.now }
        requires point { IsPoint (test self.now) point }
        requires net { net ≡ observed_net (test self.now) point }
        ensures { MatchOption result ((j : ℕ) → j < 512 → tells self.now j → shown self.now j point ≡ good self.now j point)
            (λ row. (j : ℕ) → j < 512 → tells self.now j → IsChange (good self.now j point) (held row j) (shown self.now j point)) };
}

/// A row that is an XOR over fault-free values, with what one point shows instead of its own.
fn changed<C: Changes>(changes: &C, row: Packed, point: Point, net: u32) -> Packed
    requires ready { C.ready changes.now }
    requires point { IsPoint (C.test changes.now) point }
    requires net { net ≡ observed_net (C.test changes.now) point }
    ensures { (j : ℕ) → j < 512 → C.tells changes.now j → (before after : List Tri) → held row j ≡ xor_of (before ++ C.good changes.now j point ∷ after) → is_unknown (C.good changes.now j point) ≡ false
        → held result j ≡ xor_of (before ++ C.shown changes.now j point ∷ after) }
{
    match changes.change(point, net) {
        Some(change) => row.xor(change),
        None => row,
    }
}

/// The nets that the cells of a chain observe, of those of all chains.
fn nets_in(nets: &[Vec<u32>], chain: u32) -> &[u32]
    requires { chain < length nets.now }
    ensures { result.now ≡ slice_index_or (rows_view nets.now) chain [] }
{
    &nets[chain as usize]
}

/// A row that is an XOR over fault-free values, with what the cell of a chain that is unloaded in a cycle shows instead; the
/// row itself where the chain is shorter. The nets are those that the cells of each chain observe.
fn chain_changed<C: Changes>(
    changes: &C,
    parts: &Parts,
    nets: &[Vec<u32>],
    row: Packed,
    chain: u32,
    cycle: u32,
) -> Packed
    requires ready { C.ready changes.now }
    requires test { C.test changes.now ≡ parts.now }
    requires nets { rows_view nets.now ≡ chain_nets parts.now }
    requires chain { chain < length parts.now.chains }
    ensures { (j : ℕ) → j < 512 → C.tells changes.now j → (before after : List Tri)
        → held row j ≡ xor_of (before ++ (map (C.good changes.now j) (cell_shown parts.now cycle chain) ++ after)) → list_any is_unknown (map (C.good changes.now j) (cell_shown parts.now cycle chain)) ≡ false
        → held result j ≡ xor_of (before ++ (map (C.shown changes.now j) (cell_shown parts.now cycle chain) ++ after)) }
{
    let _ = parts.chains();
    let own = nets_in(nets, chain);
    if cycle as usize >= own.len() {
        return row;
    }
    let at = own.len() - 1 - cycle as usize;
    let pos = at as u32;
    changed(changes, row, Point::Cell { chain, pos }, own[at])
}

/// A row that is an XOR over the fault-free values of an unload cycle of some chains, with what their cells show instead.
fn chains_changed<C: Changes>(
    changes: &C,
    parts: &Parts,
    nets: &[Vec<u32>],
    expected: Packed,
    chains: &[u32],
    cycle: u32,
) -> Packed
    requires ready { C.ready changes.now }
    requires test { C.test changes.now ≡ parts.now }
    requires nets { rows_view nets.now ≡ chain_nets parts.now }
    requires chains { All (λ h. h < length parts.now.chains) chains.now }
    ensures { (j : ℕ) → j < 512 → C.tells changes.now j → held expected j ≡ xor_of (map (C.good changes.now j) (cells_shown parts.now cycle chains.now))
        → list_any is_unknown (map (C.good changes.now j) (cells_shown parts.now cycle chains.now)) ≡ false → held result j ≡ xor_of (map (C.shown changes.now j) (cells_shown parts.now cycle chains.now)) }
{
    let mut row = expected;
    for chain in chains {
        row = chain_changed(changes, parts, nets, row, *chain, cycle);
    }
    row
}

/// What a compact point shows, where fault-free no point upstream of it is X.
fn shown_changed<C: Changes>(
    changes: &C,
    parts: &Parts,
    compact: &Compact,
    nets: &[Vec<u32>],
    expected: Packed,
    point: Point,
) -> Packed
    requires ready { C.ready changes.now }
    requires test { C.test changes.now ≡ parts.now }
    requires made { IsCompactorOf parts.now compact.now }
    requires nets { rows_view nets.now ≡ chain_nets parts.now }
    requires point { IsThere parts.now compact.now point }
    ensures { (j : ℕ) → j < 512 → C.tells changes.now j → held expected j ≡ xor_of (map (C.good changes.now j) (members parts.now compact.now point))
        → list_any is_unknown (map (C.good changes.now j) (members parts.now compact.now point)) ≡ false → held result j ≡ xor_of (map (C.shown changes.now j) (members parts.now compact.now point)) }
{
    match point {
        Point::Output { .. } => {
            let net = parts.observed_net(point);
            changed(changes, expected, point, net)
        }
        Point::Cell { chain, pos } => {
            let channel = &compact.channels().as_slice()[chain as usize];
            chains_changed(
                changes,
                parts,
                nets,
                expected,
                channel.chains.as_slice(),
                pos,
            )
        }
    }
}

/// The lanes in which a compact point shows the opposite of what it shows without a fault. Where a point upstream of it is X without
/// a fault, it shows no definite value, and nothing is its opposite.
pub(crate) fn differing<C: Changes>(
    changes: &C,
    parts: &Parts,
    compact: &Compact,
    nets: &[Vec<u32>],
    expected: Packed,
    point: Point,
) -> Row
    requires ready { C.ready changes.now }
    requires test { C.test changes.now ≡ parts.now }
    requires made { IsCompactorOf parts.now compact.now }
    requires nets { rows_view nets.now ≡ chain_nets parts.now }
    requires point { IsThere parts.now compact.now point }
    ensures { (j : ℕ) → j < 512 → C.tells changes.now j → held expected j ≡ xor_of (map (C.good changes.now j) (members parts.now compact.now point))
        → lane result j ≡ are_opposite (xor_of (map (C.good changes.now j) (members parts.now compact.now point))) (xor_of (map (C.shown changes.now j) (members parts.now compact.now point))) }
{
    let shown = shown_changed(changes, parts, compact, nets, expected, point);
    expected.opposite(shown)
}
