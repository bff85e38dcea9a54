//! The fails that a fault of a shift path predicts, by point and pattern.
ghost use Rattle.std.specs.Prelude.{◌≡◌, ℕ, ◌+◌, ◌*◌, ◌/◌, ◌<◌, ◌≤◌, ◌==◌, ◌&&◌, None, Some, nat_lt, length, Contains, MatchOption};
ghost use Rattle.std.specs.Int.{bit_at};
ghost use Rattle.scan_model.specs.declared.fault.Fault.TheVariants as fault;
ghost use Rattle.scan_model.specs.declared.parts.Point.TheVariants as point;
ghost use Rattle.scan_model.specs.Values.{are_opposite};
ghost use Rattle.scan_model.specs.ScanTest.{chain_at, points_of, IsPoint};
ghost use Rattle.scan_model.specs.Coverage.{bit_of};
ghost use Rattle.scan_model.specs.Response.{observed, predicts_fail};
ghost use Rattle.scan_model.specs.Universe.{universe};
ghost use Rattle.scan_model.proofs.counting.ChainSteps.{IsOutside};
ghost use Rattle.lane_rows.specs.Lanes.{lane};
ghost use Rattle.lane_rows.specs.Planes.{held};
ghost use Rattle.lane_rows.specs.GoodRows.{pattern_of};
ghost use Rattle.packed_sim.specs.PackedParts.{BelongsTo, IsScratchIn, IsScratchOf, block_at, cone_gates, AreFails};
ghost use Rattle.packed_sim.specs.ChainLoads.{IsLoaded};
ghost use Rattle.packed_sim.specs.Changes.{IsSameShown, IsShownChange};

use crate::chains::cell_at;
use crate::good::PackedGood;
use crate::made::point_of;
use crate::scratch::Scratch;
use lane_rows::{Packed, Row};
use scan_model::{CellKind, Parts, Point, Steps, Tri};
use std::sync::ledger::Ledger;

impl PackedGood {
    /// The lanes of a block whose patterns only shift.
    fn shift(&self, block: usize) -> Row
        requires { block < length self.now.rows }
        ensures { result ≡ (block_at self.now block).shift }
    {
        self.rows.blocks()[block].shift
    }

    /// The lanes of a block that are patterns.
    pub fn patterns(&self, parts: &Parts, block: usize) -> Row
        requires good { BelongsTo parts.now self.now }
        requires block { block < length self.now.rows }
        ensures { (j : ℕ) → j < 512 → lane result j ≡ nat_lt (pattern_of block j) (length parts.now.patterns) }
    {
        let _ = parts;
        let capture = self.capture(block);
        let shift = self.shift(block);
        capture.or(shift)
    }

    /// What a position of a chain shows without a fault.
    pub fn expected_row(&self, parts: &Parts, block: usize, chain: u32, at: u32) -> Packed
        requires good { BelongsTo parts.now self.now }
        requires block { block < length self.now.rows }
        requires chain { chain < length parts.now.chains }
        requires at { at < length (chain_at parts.now chain).cells }
        ensures { (j : ℕ) → j < 512 → pattern_of block j < length parts.now.patterns → held result j ≡ observed parts.now None (pattern_of block j) (point.Cell chain at) }
    {
        let _ = parts.chains();
        let net = cell_at(parts, chain, at as usize);
        let data = parts.circuit().data_net(net);
        let captured = self.row_of(parts, block, data);
        let loaded = self.row_of(parts, block, net);
        let capture = self.capture(block);
        Packed::pick(capture, captured, loaded)
    }

    /// The lanes in which a position of a loaded chain shows the opposite of its expected value.
    fn position_row(
        &self,
        parts: &Parts,
        scratch: &Scratch,
        block: usize,
        cell: (u32, u32),
        kind: CellKind,
        at: u32,
    ) -> Row
        requires good { BelongsTo parts.now self.now }
        requires block { block < length self.now.rows }
        requires chain { cell.0 < length parts.now.chains }
        requires loaded { IsLoaded parts.now self.now block cell.0 cell.1 kind scratch.now }
        requires at { at < length (chain_at parts.now cell.0).cells }
        ensures { (j : ℕ) → j < 512 → lane result j ≡ (nat_lt (pattern_of block j) (length parts.now.patterns)
            && are_opposite (observed parts.now None (pattern_of block j) (point.Cell cell.0 at)) (observed parts.now (Some (fault.Cell cell.0 cell.1 kind)) (pattern_of block j) (point.Cell cell.0 at))) }
    {
        let expected = self.expected_row(parts, block, cell.0, at);
        let shown = self.shown(parts, scratch, block, cell, kind, at);
        let differs = expected.opposite(shown);
        let there = self.patterns(parts, block);
        there.and(differs)
    }

    /// The lanes in which a fault of a shift path predicts a fail at point k, over the chain loaded as under it.
    pub fn predicted_row(
        &self,
        parts: &Parts,
        scratch: &Scratch,
        block: usize,
        cell: (u32, u32),
        kind: CellKind,
        k: usize,
    ) -> Row
        requires good { BelongsTo parts.now self.now }
        requires block { block < length self.now.rows }
        requires chain { cell.0 < length parts.now.chains }
        requires loaded { IsLoaded parts.now self.now block cell.0 cell.1 kind scratch.now }
        requires point { k < length (points_of parts.now) }
        ensures { (j : ℕ) → j < 512 → lane result j ≡ (nat_lt (pattern_of block j) (length parts.now.patterns) && predicts_fail parts.now (fault.Cell cell.0 cell.1 kind) (bit_of (pattern_of block j) k)) }
    {
        let _ = parts.chains();
        let point = point_of(parts, k);
        match position_in(point, cell.0) {
            Some(at) => self.position_row(parts, scratch, block, cell, kind, at),
            None => {
                let net = self.observed[k];
                let differs = self.difference(parts, scratch, block, net);
                let capture = self.capture(block);
                capture.and(differs)
            }
        }
    }

    /// How what a point shows under a fault of a shift path differs from what it shows without one: the XOR of the two, over
    /// the chain loaded as under the fault. None where they are the same.
    pub fn shown_change(
        &self,
        parts: &Parts,
        scratch: &Scratch,
        block: usize,
        cell: (u32, u32),
        kind: CellKind,
        point: Point,
    ) -> Option<Packed>
        requires good { BelongsTo parts.now self.now }
        requires block { block < length self.now.rows }
        requires chain { cell.0 < length parts.now.chains }
        requires loaded { IsLoaded parts.now self.now block cell.0 cell.1 kind scratch.now }
        requires point { IsPoint parts.now point }
        ensures { MatchOption result (IsSameShown parts.now block (fault.Cell cell.0 cell.1 kind) point) (IsShownChange parts.now block (fault.Cell cell.0 cell.1 kind) point) }
    {
        let _ = parts.chains();
        match position_in(point, cell.0) {
            Some(at) => {
                let expected = self.expected_row(parts, block, cell.0, at);
                let shown = self.shown(parts, scratch, block, cell, kind, at);
                Some(expected.xor(shown))
            }
            None => {
                let net = parts.observed_net(point);
                match self.change(parts, scratch, block, net) {
                    Some(change) => {
                        let capture = self.capture(block);
                        let still = Packed::all(Tri::Zero);
                        Some(Packed::pick(capture, change, still))
                    }
                    None => None,
                }
            }
        }
    }

    /// The fails of a fault of a shift path at one point, in the patterns of a word.
    fn point_word(
        &self,
        parts: &Parts,
        scratch: &Scratch,
        cell: (u32, u32),
        kind: CellKind,
        word: u32,
        k: usize,
    ) -> u64
        requires good { BelongsTo parts.now self.now }
        requires chain { cell.0 < length parts.now.chains }
        requires loaded { IsLoaded parts.now self.now (word / 8) cell.0 cell.1 kind scratch.now }
        requires word { 64 * word < length parts.now.patterns }
        requires point { k < length (points_of parts.now) }
        ensures { (i : ℕ) → i < 64 → (bit_at result i == 1) ≡ (nat_lt (64 * word + i) (length parts.now.patterns) && predicts_fail parts.now (fault.Cell cell.0 cell.1 kind) (bit_of (64 * word + i) k)) }
    {
        let row = self.predicted_row(parts, scratch, word as usize / 8, cell, kind, k);
        row.word(word as usize % 8)
    }

    /// The fails of a fault of a shift path.
    pub(crate) fn cell_fails<L: Ledger>(
        &self,
        parts: &Parts,
        scratch: &mut Scratch,
        cell: (u32, u32, CellKind),
        word: u32,
        out: &mut [u64],
        steps: &mut Steps<L>,
    )
        requires good { BelongsTo parts.now self.now }
        requires scratch { IsScratchOf self.now scratch.old }
        requires fault { Contains (universe parts.now) (fault.Cell cell.0 cell.1 cell.2) }
        requires word { 64 * word < length parts.now.patterns }
        requires out { length out.old ≡ length (points_of parts.now) }
        ensures fails { AreFails parts.now (fault.Cell cell.0 cell.1 cell.2) word out.new }
        ensures steps { steps.new ≤ steps.old + length (cone_gates parts.now (fault.Cell cell.0 cell.1 cell.2)) }
        ensures scratch { IsScratchIn self.now scratch.new }
    {
        let _ = parts.chains();
        let (chain, pos, kind) = cell;
        self.load(parts, scratch, word as usize / 8, (chain, pos), kind, steps);
        self.write_words(parts, scratch, cell, word, out);
    }

    fn write_words(
        &self,
        parts: &Parts,
        scratch: &Scratch,
        cell: (u32, u32, CellKind),
        word: u32,
        out: &mut [u64],
    )
        requires good { BelongsTo parts.now self.now }
        requires chain { cell.0 < length parts.now.chains }
        requires loaded { IsLoaded parts.now self.now (word / 8) cell.0 cell.1 cell.2 scratch.now }
        requires word { 64 * word < length parts.now.patterns }
        requires out { length out.old ≡ length (points_of parts.now) }
        ensures { AreFails parts.now (fault.Cell cell.0 cell.1 cell.2) word out.new }
    {
        for k in 0..out.len() {
            let bits = self.point_word(parts, scratch, (cell.0, cell.1), cell.2, word, k);
            out[k] = bits;
        }
    }
}

/// The position of a point in a chain, if it is one of its cells.
fn position_in(shown_at: Point, chain: u32) -> Option<u32>
    ensures { MatchOption result (IsOutside chain shown_at) (λ at. shown_at ≡ point.Cell chain at) }
{
    match shown_at {
        Point::Output { .. } => None,
        Point::Cell { chain: own, pos } => { if own == chain { Some(pos) } else { None } }
    }
}
