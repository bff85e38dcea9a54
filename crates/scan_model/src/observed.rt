//! The nets of cells, and those that points observe.
ghost use Rattle.std.specs.Prelude.{◌≡◌, ◌<◌, length};
ghost use Rattle.scan_model.specs.declared.parts.Point.TheVariants as variant;
ghost use Rattle.scan_model.specs.Netlist.{driver_of, pin_at};
ghost use Rattle.scan_model.specs.ScanTest.{IsScanTest, IsPoint, IsFlop};
ghost use Rattle.scan_model.specs.Loads.{cell};
ghost use Rattle.scan_model.specs.Response.{data_pin};
ghost use Rattle.scan_model.specs.Suspect as suspect;

use crate::circuit::Circuit;
use crate::parts::{Parts, Point};

impl Circuit {
    /// The net that the data pin of a cell sees.
    pub fn data_net(&self, cell: u32) -> u32
        requires cell { cell < length self.now.nets }
        requires flop { IsFlop (driver_of self.now cell) }
        ensures value { result ≡ (pin_at self.now (data_pin self.now cell)).net }
        ensures in_range { result < length self.now.nets }
    {
        let pin = self.nets().as_slice()[cell as usize].first_pin;
        self.pins().as_slice()[pin as usize].net
    }
}

impl Parts {
    fn listed_net(&self, chain: u32, pos: u32) -> u32
        requires { IsPoint self.now (variant.Cell chain pos) }
        ensures { result ≡ cell self.now chain pos }
    {
        self.chains().as_slice()[chain as usize].cells.as_slice()[pos as usize]
    }

    /// The net of a cell.
    pub fn cell_net(&self, chain: u32, pos: u32) -> u32
        requires { IsPoint self.now (variant.Cell chain pos) }
        ensures value { result ≡ cell self.now chain pos }
        ensures in_range { result < length self.now.netlist.nets }
        ensures flop { IsFlop (driver_of self.now.netlist result) }
        ensures fits { IsScanTest self.now }
    {
        let _ = self.chains();
        let net = self.listed_net(chain, pos);
        net
    }

    /// The net that a point observes.
    pub fn observed_net(&self, point: Point) -> u32
        requires { IsPoint self.now point }
        ensures value { result ≡ suspect.observed_net self.now point }
        ensures in_range { result < length self.now.netlist.nets }
        ensures fits { IsScanTest self.now }
    {
        match point {
            Point::Output { place } => self.circuit().outputs().as_slice()[place as usize],
            Point::Cell { chain, pos } => self.circuit().data_net(self.cell_net(chain, pos)),
        }
    }
}
