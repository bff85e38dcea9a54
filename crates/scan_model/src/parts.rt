//! A scan test: a circuit with its chains, patterns and pairs.

ghost use Rattle.std.specs.Prelude.{◌≡◌, ◌≤◌, ◌<◌, ◌^◌, ◌++◌, map, flat_map, length, IfOk};
ghost use Rattle.std.specs.List.{range_with_len};
ghost use Rattle.scan_model.specs.ScanTest.{scan_test, points_of, cycle, longest, IsScanTest};
ghost use Rattle.scan_model.specs.PairIndex.{IsPairIndex};

use crate::circuit::Circuit;
use crate::fault::Profile;
use crate::pair_index::{PairPlace, pair_index};
use crate::rows::{Name, NoMemory, Rows};
use crate::test_order::points_in_order;
use crate::values::Tri;
use std::alloc::Global;
use std::marker::Model;

/// A scan chain. Position 0 is nearest to scan-in.
#[derive(Drop)]
pub struct Chain {
    pub name: Name,
    pub cells: Rows<u32>,
}

#[derive(Clone, Copy, PartialEq, Eq)]
pub enum PatternKind {
    Capture,
    Shift,
}

#[derive(Drop)]
pub struct Pattern {
    pub kind: PatternKind,
    pub inputs: Rows<Tri>,
    pub loads: Rows<Rows<Tri>>,
}

/// Two neighbouring nets, and the row of the list that first names them.
#[derive(Clone, Copy, PartialEq, Eq)]
pub struct Pair {
    pub a: u32,
    pub b: u32,
    pub row: u64,
}

#[derive(Drop)]
pub struct Pairs {
    pub kept: Rows<Pair>,
    pub left_out: Rows<Pair>,
}

/// Where a value is observed.
#[derive(Clone, Copy, PartialEq, Eq)]
pub enum Point {
    Output { place: u32 },
    Cell { chain: u32, pos: u32 },
}

/// A circuit with all that is tested on it. Contracts see a scan test.
#[derive(Drop)]
pub struct Parts {
    profile: Profile,
    circuit: Circuit,
    chains: Rows<Chain>,
    patterns: Rows<Pattern>,
    pairs: Pairs,
    points: Rows<Point>,
    pair_index: Rows<PairPlace>,
}

impl Model for Parts {
    ghost use Rattle.scan_model.specs.ScanTest.{ScanTest, scan_test, IsSoundTest};
    ghost use Rattle.scan_model.specs.PairIndex.{IsPairIndex};

    ghost Value = { ScanTest };

    ghost view = { λ p. scan_test p.profile p.circuit p.chains p.patterns p.pairs };

    ghost invariant = { λ p. IsSoundTest (scan_test p.profile p.circuit p.chains p.patterns p.pairs) p.points × IsPairIndex p.pairs.kept p.pair_index };
}

/// The points in test order, and the places of the kept pairs.
fn points_and_index(
    alloc: Global,
    outputs: usize,
    chains: &[Chain],
    kept: &[Pair],
) -> Result<(Rows<Point>, Rows<PairPlace>), NoMemory>
    requires outputs { outputs < 2 ^ 32 }
    requires chains { length chains.now ≤ 256 }
    requires cells { longest chains.now ≤ 65536 }
    requires kept { length kept.now ≤ 65536 }
    ensures points { IfOk result (λ both. both.0 ≡ map Point.Output (range_with_len 0 outputs) ++ flat_map (λ number. cycle number 0 chains.now) (range_with_len 0 (longest chains.now))) }
    ensures index { IfOk result (λ both. IsPairIndex kept.now both.1) }
{
    let points = points_in_order(alloc, outputs, chains)?;
    let index = pair_index(alloc, kept)?;
    Ok((points, index))
}

impl Parts {
    /// The parts of four lists that fit each other, with their points in test order and the faults
    /// of a profile.
    pub fn make(
        alloc: Global,
        profile: Profile,
        circuit: Circuit,
        chains: Rows<Chain>,
        patterns: Rows<Pattern>,
        pairs: Pairs,
    ) -> Result<Parts, NoMemory>
        requires { IsScanTest (scan_test profile circuit chains patterns pairs) }
        ensures { IfOk result (λ p. p ≡ scan_test profile circuit chains patterns pairs) }
    {
        let outputs = circuit.outputs().len();
        let (points, pair_index) = points_and_index(
            alloc,
            outputs,
            chains.as_slice(),
            pairs.kept.as_slice(),
        )?;
        Ok(Parts {
            profile,
            circuit,
            chains,
            patterns,
            pairs,
            points,
            pair_index,
        })
    }

    /// Which bridges the pairs have.
    pub fn profile(&self) -> Profile
        ensures value { result ≡ self.now.profile }
        ensures fits { IsScanTest self.now }
    {
        self.profile
    }

    pub fn circuit(&self) -> &Circuit
        ensures value { result.now ≡ self.now.netlist }
        ensures fits { IsScanTest self.now }
    {
        &self.circuit
    }

    pub fn chains(&self) -> &Rows<Chain>
        ensures value { result.now ≡ self.now.chains }
        ensures fits { IsScanTest self.now }
    {
        &self.chains
    }

    pub fn patterns(&self) -> &Rows<Pattern>
        ensures value { result.now ≡ self.now.patterns }
        ensures fits { IsScanTest self.now }
    {
        &self.patterns
    }

    pub fn pairs(&self) -> &Pairs
        ensures value { result.now ≡ self.now.pairs }
        ensures fits { IsScanTest self.now }
    {
        &self.pairs
    }

    /// The points in test order: the outputs, then the cells, unload cycle by unload cycle.
    pub fn points(&self) -> &Rows<Point>
        ensures value { result.now ≡ points_of self.now }
        ensures few { length (points_of self.now) ≤ 131072 }
        ensures fits { IsScanTest self.now }
    {
        &self.points
    }

    /// The places of the kept pairs, in rising order of their nets.
    pub fn pair_index(&self) -> &Rows<PairPlace>
        ensures { IsPairIndex self.now.pairs.kept result.now }
    {
        &self.pair_index
    }
}
