//! A compactor: its channels and its compact points.

ghost use Rattle.std.specs.Prelude.{◌≡◌, ◌≤◌, length};
ghost use Rattle.compact_points.specs.Channels.{compactor};

use scan_model::{Name, Point, Rows};
use std::marker::Model;

/// A channel: its name, and the numbers of the chains whose XOR it shows.
#[derive(Drop)]
pub struct Channel {
    pub name: Name,
    pub chains: Rows<u32>,
}

/// The channels in file order, and the compact points in their order. Contracts see a `Compactor`.
#[derive(Drop)]
pub struct Compact {
    channels: Rows<Channel>,
    points: Rows<Point>,
}

impl Model for Compact {
    ghost use Rattle.std.specs.Prelude.{◌≤◌, length};
    ghost use Rattle.compact_points.specs.Channels.{Compactor, compactor};

    ghost Value = { Compactor };

    ghost view = { λ c. compactor c.channels c.points };

    ghost invariant = { λ c. length c.points ≤ 131072 };
}

impl Compact {
    /// The compactor of these channels and these compact points.
    pub fn of(channels: Rows<Channel>, points: Rows<Point>) -> Compact
        requires { length points ≤ 131072 }
        ensures { result ≡ compactor channels points }
    {
        Compact { channels, points }
    }

    /// The channels in file order.
    pub fn channels(&self) -> &Rows<Channel>
        ensures { result.now ≡ self.now.channels }
    {
        &self.channels
    }

    /// The compact points in their order: the outputs, then the channels that show something, cycle by cycle. A channel in a
    /// cycle is written as a cell is, the channel in place of the chain and the cycle in place of the position.
    pub fn in_order(&self) -> &Rows<Point>
        ensures { result.now ≡ self.now.points }
    {
        &self.points
    }

    /// How many compact points there are, at most 131,072.
    pub fn points(&self) -> u32
        ensures count { result ≡ length self.now.points }
        ensures few { result ≤ 131072 }
    {
        self.points.len() as u32
    }
}
