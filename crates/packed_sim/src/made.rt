//! Fault-free rows are made, and the points that observe each net are grouped.
ghost use Rattle.std.specs.Prelude.{◌≡◌, ◌↔◌, ℕ, ◌<◌, ◌^◌, length, map, All, Contains, IsTrue, IfOk};
ghost use Rattle.scan_model.specs.ScanTest.{ScanTest, IsPoint, points_of, point_at};
ghost use Rattle.scan_model.specs.declared.parts.Point.TheVariants as point;
ghost use Rattle.scan_model.specs.Suspect as suspect;
ghost use Rattle.lane_rows.specs.Stimuli.{HaveRows};
ghost use Rattle.place_sets.specs.Places.{has_place};
ghost use Rattle.packed_sim.specs.PackedParts.{IsBuiltFor, BelongsTo, AreLinksOf, IsScratchOf, AreObserved, AreObserving, points_of_net};

use crate::good::{CircuitLinks, PackedGood};
use crate::overlay::Overlay;
use crate::scratch::Scratch;
use lane_rows::{Block, GoodRows, Groups, Wiring};
use place_sets::PlaceSet;
use scan_model::{NoMemory, Parts, Point};
use std::alloc::Global;

/// Point k, in test order.
pub(crate) fn point_of(parts: &Parts, k: usize) -> Point
    requires { k < length (points_of parts.now) }
    ensures { result ≡ point_at parts.now k }
{
    parts.points().as_slice()[k]
}

/// The nets that points observe.
fn nets_of_points(alloc: Global, parts: &Parts, points: &[Point]) -> Result<Vec<u32>, NoMemory>
    requires { All (IsPoint parts.now) points.now }
    ensures { IfOk result (λ nets. nets.items ≡ map (suspect.observed_net parts.now) points.now) }
{
    let mut nets = Vec::with_capacity(alloc, points.len())?;
    for point in points {
        nets.push(parts.observed_net(*point))?;
    }
    Ok(nets)
}

/// The nets that the points of a test observe.
fn observed_nets(alloc: Global, parts: &Parts) -> Result<Vec<u32>, NoMemory>
    ensures { IfOk result (λ nets. AreObserved parts.now nets.items) }
{
    let nets = nets_of_points(alloc, parts, parts.points().as_slice())?;
    Ok(nets)
}

/// The set of some nets. The only error is want of memory.
fn set_of(alloc: Global, listed: &[u32], nets: usize) -> Result<PlaceSet, NoMemory>
    requires nets { nets < 2 ^ 32 }
    requires listed { All (λ n. n < nets) listed.now }
    ensures { IfOk result (λ set. (n : ℕ) → Contains listed.now n ↔ IsTrue (has_place set n)) }
{
    let mut set = PlaceSet::make(alloc, nets)?;
    for net in listed {
        set.insert(*net as usize);
    }
    Ok(set)
}

/// What is read off the circuit of a test. The only error is want of memory.
pub(crate) fn circuit_links(alloc: Global, parts: &Parts) -> Result<CircuitLinks, NoMemory>
    ensures { IfOk result (AreLinksOf parts.now) }
{
    let observed = observed_nets(alloc, parts)?;
    let circuit = parts.circuit();
    let nets = circuit.nets().len();
    let wiring = Wiring::make(alloc, circuit, &observed)?;
    let points = Groups::of(alloc, &observed, nets)?;
    let observing = set_of(alloc, &observed, nets)?;
    Ok(CircuitLinks {
        wiring,
        observed,
        points,
        observing,
    })
}

impl PackedGood {
    /// The fault-free values of all patterns, with what counting needs of the circuit. The only error is want of memory.
    pub fn make(alloc: Global, parts: &Parts) -> Result<PackedGood, NoMemory>
        ensures { IfOk result (BelongsTo parts.now) }
    {
        let rows = GoodRows::make(alloc, parts)?;
        PackedGood::of_rows(alloc, parts, rows)
    }

    /// Rows of any stimuli, with what counting needs of the circuit. The only error is want of memory.
    pub fn of_rows(alloc: Global, parts: &Parts, rows: GoodRows) -> Result<PackedGood, NoMemory>
        requires { HaveRows parts.now.netlist rows }
        ensures built { IfOk result (IsBuiltFor parts.now) }
        ensures rows { IfOk result (λ good. good.rows ≡ rows) }
    {
        let links = circuit_links(alloc, parts)?;
        Ok(PackedGood::linked(rows, links))
    }

    /// Rows of any stimuli, with what was read off the circuit.
    pub(crate) fn linked(rows: GoodRows, links: CircuitLinks) -> PackedGood
        ensures built { (t : ScanTest) → HaveRows t.netlist rows → AreLinksOf t links → IsBuiltFor t result }
        ensures rows { result.rows ≡ rows }
    {
        let CircuitLinks {
            wiring,
            observed,
            points,
            observing,
        } = links;
        PackedGood {
            rows,
            wiring,
            observed,
            points,
            observing,
        }
    }

    pub fn rows(&self) -> &GoodRows
        ensures { result.now ≡ self.now.rows }
    {
        &self.rows
    }

    /// The blocks of 512 patterns.
    pub fn blocks(&self) -> &[Block]
        ensures { result.now ≡ self.now.rows }
    {
        self.rows.blocks()
    }

    /// The points that observe a net, in rising order.
    pub fn points_of_net(&self, parts: &Parts, net: u32) -> &[u32]
        requires built { IsBuiltFor parts.now self.now }
        requires net { net < length parts.now.netlist.nets }
        ensures { result.now ≡ points_of_net parts.now net }
    {
        let _ = parts;
        self.points.group(net)
    }

    /// The net that each point observes.
    pub fn observed(&self, parts: &Parts) -> &[u32]
        requires { IsBuiltFor parts.now self.now }
        ensures { result.now ≡ map (suspect.observed_net parts.now) (points_of parts.now) }
    {
        let _ = parts;
        &self.observed
    }

    /// The nets that points observe.
    pub fn observing(&self, parts: &Parts) -> &PlaceSet
        requires { IsBuiltFor parts.now self.now }
        ensures { AreObserving parts.now result.now }
    {
        let _ = parts;
        &self.observing
    }
}

impl Scratch {
    /// Room for a change of each net. The only error is want of memory.
    pub fn make(alloc: Global, good: &PackedGood) -> Result<Scratch, NoMemory>
        ensures { IfOk result (IsScratchOf good.now) }
    {
        let nets = good.points.len();
        Ok(Scratch {
            overlay: Overlay::make(alloc, nets)?,
            waiting: PlaceSet::make(alloc, nets)?,
            moved: PlaceSet::make(alloc, nets)?,
        })
    }
}
