//! What points show under a flip of a net, under a stuck pin that goes straight to them, and under a fault of a shift path.

ghost use Rattle.std.specs.Prelude.{◌≡◌, MatchOption};
ghost use Rattle.scan_model.specs.declared.fault.Fault.TheVariants as fault;
ghost use Rattle.scan_model.specs.declared.parts.Point.TheVariants as variant;
ghost use Rattle.scan_model.specs.ScanTest.{IsPoint};
ghost use Rattle.scan_model.proofs.counting.ChainSteps.{IsOutside};
ghost use Rattle.packed_sim.specs.Changes.{IsSameShown, IsShownChange};
ghost use Rattle.chain_compactor.specs.ShownFlips.{ShowsCell};

use crate::changes::Changes;
use lane_rows::Packed;
use packed_sim::{PackedGood, Scratch, is_pin_of, stuck_at};
use scan_model::{CellKind, Parts, Point, Stuck};

/// A flip of a net, as a scratch shows it.
#[derive(Clone, Copy)]
pub(crate) struct FlipChanges<'a> {
    pub(crate) parts: &'a Parts,
    pub(crate) good: &'a PackedGood,
    pub(crate) block: usize,
    pub(crate) net: u32,
    pub(crate) scratch: &'a Scratch,
}

impl Changes for FlipChanges<'_> {
    ghost use Rattle.std.specs.Prelude.{◌≡◌, true};
    ghost use Rattle.scan_model.specs.NetValue.{good_value};
    ghost use Rattle.scan_model.specs.Suspect.{observed_net};
    ghost use Rattle.scan_model.specs.Masks.{flipped};
    ghost use Rattle.lane_rows.specs.GoodRows.{pattern_of};
    ghost use Rattle.packed_sim.specs.PackedParts.{captures};
    ghost use Rattle.chain_compactor.specs.ShownFlips.{ShowsFlip};

    ghost test = { λ o. o.parts.now };

    ghost ready = { λ o. ShowsFlip o.parts.now o.good.now o.block o.net o.scratch.now };

    ghost tells = { λ o j. captures o.parts.now (pattern_of o.block j) ≡ true };

    ghost good = { λ o j p. good_value o.parts.now (pattern_of o.block j) (observed_net o.parts.now p) };

    ghost shown = { λ o j p. flipped o.parts.now (pattern_of o.block j) o.net (observed_net o.parts.now p) };

    fn change(&self, _point: Point, net: u32) -> Option<Packed> {
        let _ = self.parts.chains();
        match self.good.change(self.parts, self.scratch, self.block, net) {
            Some(change) => Some(change),
            None => None,
        }
    }
}

/// A stuck pin, over fault-free rows.
#[derive(Clone, Copy)]
pub(crate) struct PinChanges<'a> {
    pub(crate) parts: &'a Parts,
    pub(crate) good: &'a PackedGood,
    pub(crate) block: usize,
    pub(crate) pin: u32,
    pub(crate) value: Stuck,
}

impl Changes for PinChanges<'_> {
    ghost use Rattle.std.specs.Prelude.{◌≡◌, true};
    ghost use Rattle.scan_model.specs.declared.fault.Fault.TheVariants as fault;
    ghost use Rattle.scan_model.specs.NetValue.{good_value};
    ghost use Rattle.scan_model.specs.Suspect.{observed_net};
    ghost use Rattle.lane_rows.specs.GoodRows.{pattern_of};
    ghost use Rattle.packed_sim.specs.PackedParts.{captures};
    ghost use Rattle.chain_compactor.specs.Flips.{straight_value};
    ghost use Rattle.chain_compactor.specs.ShownFlips.{IsStuckIn};

    ghost test = { λ o. o.parts.now };

    ghost ready = { λ o. IsStuckIn o.parts.now o.good.now o.block o.pin };

    ghost tells = { λ o j. captures o.parts.now (pattern_of o.block j) ≡ true };

    ghost good = { λ o j p. good_value o.parts.now (pattern_of o.block j) (observed_net o.parts.now p) };

    ghost shown = { λ o j p. straight_value o.parts.now (fault.Branch o.pin o.value) (pattern_of o.block j) p };

    fn change(&self, point: Point, net: u32) -> Option<Packed> {
        let _ = self.parts.chains();
        if !is_pin_of(self.parts, self.pin, point) {
            return None;
        }
        let good = self.good.blocks()[self.block].values.as_slice()[net as usize];
        let stuck = Packed::all(stuck_at(self.value));
        Some(good.xor(stuck))
    }
}

/// A fault of a shift path, over the chain loaded as under it.
#[derive(Clone, Copy)]
pub(crate) struct CellChanges<'a> {
    pub(crate) parts: &'a Parts,
    pub(crate) good: &'a PackedGood,
    pub(crate) block: usize,
    pub(crate) cell: (u32, u32),
    pub(crate) kind: CellKind,
    pub(crate) scratch: &'a Scratch,
}

impl Changes for CellChanges<'_> {
    ghost use Rattle.std.specs.Prelude.{◌<◌, length, Some, None};
    ghost use Rattle.scan_model.specs.declared.fault.Fault.TheVariants as fault;
    ghost use Rattle.scan_model.specs.Response.{observed};
    ghost use Rattle.lane_rows.specs.GoodRows.{pattern_of};
    ghost use Rattle.chain_compactor.specs.ShownFlips.{ShowsCell};

    ghost test = { λ o. o.parts.now };

    ghost ready = { λ o. ShowsCell o.parts.now o.good.now o.block o.cell.0 o.cell.1 o.kind o.scratch.now };

    ghost tells = { λ o j. pattern_of o.block j < length o.parts.now.patterns };

    ghost good = { λ o j p. observed o.parts.now None (pattern_of o.block j) p };

    ghost shown = { λ o j p. observed o.parts.now (Some (fault.Cell o.cell.0 o.cell.1 o.kind)) (pattern_of o.block j) p };

    fn change(&self, point: Point, net: u32) -> Option<Packed> {
        let _ = self.parts.chains();
        match own_position(point, self.cell.0) {
            Some(_) => self.shown(point),
            None => match self.good.change(self.parts, self.scratch, self.block, net) {
                Some(_) => self.shown(point),
                None => None,
            },
        }
    }
}

/// The position of a point in a chain, if it is one of its cells.
fn own_position(point: Point, chain: u32) -> Option<u32>
    ensures { MatchOption result (IsOutside chain point) (λ at. point ≡ variant.Cell chain at) }
{
    match point {
        Point::Output { .. } => None,
        Point::Cell { chain: own, pos } => { if own == chain { Some(pos) } else { None } }
    }
}

impl CellChanges<'_> {
    /// How what a point shows differs from what it shows without a fault.
    fn shown(&self, point: Point) -> Option<Packed>
        requires ready { ShowsCell self.now.parts.now self.now.good.now self.now.block self.now.cell.0 self.now.cell.1 self.now.kind self.now.scratch.now }
        requires point { IsPoint self.now.parts.now point }
        ensures { MatchOption result (IsSameShown self.now.parts.now self.now.block (fault.Cell self.now.cell.0 self.now.cell.1 self.now.kind) point)
            (IsShownChange self.now.parts.now self.now.block (fault.Cell self.now.cell.0 self.now.cell.1 self.now.kind) point) }
    {
        self.good.shown_change(
            self.parts,
            self.scratch,
            self.block,
            self.cell,
            self.kind,
            point,
        )
    }
}
