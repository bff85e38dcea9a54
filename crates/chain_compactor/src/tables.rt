//! Which compact points see a point of the test.

ghost use Rattle.std.specs.Prelude.{◌≡◌, ◌<◌, ◌^◌, [], ◌∷◌, ◌++◌, cond, map, length, slice_get, slice_index, slice_index_or, IfOk, OnOk};
ghost use Rattle.std.specs.List.{range_with_len};
ghost use Rattle.scan_model.specs.ScanTest.{points_of, point_at};
ghost use Rattle.fail_logs.specs.BitNumbers.{place_in};
ghost use Rattle.fail_logs.specs.Frames.{rows_view};
ghost use Rattle.compact_points.specs.Channels.{IsCompactorOf, channel_at};
ghost use Rattle.chain_compactor.specs.ObservationPoints.{has_chain, channels_of, nets_of, chain_nets, seeing, AreTables};

use crate::logs::channel_cycles;
use compact_points::{Channel, Compact, chain_length};
use fail_logs::cell_places;
use scan_model::{NoMemory, Parts, Point};
use std::alloc::Global;

/// For each chain the channels that show it and the nets that its cells observe, and for each channel its compact point in each
/// cycle.
#[derive(Drop)]
pub struct Tables {
    pub channels: Vec<Vec<u32>>,
    pub places: Vec<Vec<u32>>,
    pub nets: Vec<Vec<u32>>,
}

/// Whether a channel shows a chain.
fn has_chain(channel: &Channel, chain: u32) -> bool
    ensures { result ≡ has_chain channel.now.chains chain }
{
    channel.chains.as_slice().iter().any(|own| *own == chain)
}

/// Adds a number, if it is asked for.
fn push_if(numbers: &mut Vec<u32>, number: u32, asked: bool) -> Result<(), NoMemory>
    ensures { OnOk result (numbers.new.items ≡ numbers.old.items ++ cond asked (number ∷ []) []) }
{
    if !asked {
        return Ok(());
    }
    numbers.push(number)?;
    Ok(())
}

/// The channels that show a chain.
fn channels_of(alloc: Global, compact: &Compact, chain: u32) -> Result<Vec<u32>, NoMemory>
    requires { length compact.now.channels < 2 ^ 32 }
    ensures { IfOk result (λ channels. channels.items ≡ channels_of compact.now chain) }
{
    let mut channels = Vec::new(alloc);
    for (x, channel) in compact.channels().as_slice().iter().enumerate() {
        push_if(&mut channels, x as u32, has_chain(channel, chain))?;
    }
    Ok(channels)
}

/// The channels that show each chain.
fn channels_of_all(
    alloc: Global,
    parts: &Parts,
    compact: &Compact,
) -> Result<Vec<Vec<u32>>, NoMemory>
    requires { length compact.now.channels < 2 ^ 32 }
    ensures { IfOk result (λ rows. rows_view rows.items ≡ map (channels_of compact.now) (range_with_len 0 (length parts.now.chains))) }
{
    let mut rows = Vec::new(alloc);
    for chain in 0..parts.chains().len() {
        rows.push(channels_of(alloc, compact, chain as u32)?)?;
    }
    Ok(rows)
}

/// The nets that the cells of a chain observe, by position.
fn nets_of(alloc: Global, parts: &Parts, chain: u32) -> Result<Vec<u32>, NoMemory>
    requires { chain < length parts.now.chains }
    ensures { IfOk result (λ nets. nets.items ≡ nets_of parts.now chain) }
{
    let count = chain_length(parts, chain);
    let mut nets = Vec::with_capacity(alloc, count)?;
    for pos in 0..count {
        let point = Point::Cell {
            chain,
            pos: pos as u32,
        };
        nets.push(parts.observed_net(point))?;
    }
    Ok(nets)
}

/// The nets that the cells of each chain observe.
fn nets_of_all(alloc: Global, parts: &Parts) -> Result<Vec<Vec<u32>>, NoMemory>
    ensures { IfOk result (λ rows. rows_view rows.items ≡ chain_nets parts.now) }
{
    let mut rows = Vec::new(alloc);
    for chain in 0..parts.chains().len() {
        rows.push(nets_of(alloc, parts, chain as u32)?)?;
    }
    Ok(rows)
}

/// The number that a row has at a place; 0 past its end.
fn number_at(row: &[u32], at: usize) -> u32
    ensures { result ≡ slice_index row.now at }
{
    match row.get(at) {
        Some(number) => *number,
        None => 0,
    }
}

/// A place that alone sees a point.
fn first_alone(place: u32, nth: u32) -> Option<u32>
    ensures { result ≡ slice_get (place ∷ []) nth }
{
    if nth == 0 { Some(place) } else { None }
}

impl Tables {
    /// The compact point of a channel in a cycle.
    fn place_of(&self, channel: u32, cycle: usize) -> u32
        ensures { result ≡ place_in (rows_view self.now.places.items) channel cycle }
    {
        match self.places.get(channel as usize) {
            Some(row) => number_at(row, cycle),
            None => 0,
        }
    }

    /// The compact point, in a cycle, of one of the channels that show a chain.
    fn nth_place(&self, chain: u32, nth: u32, cycle: usize) -> Option<u32>
        requires { chain < length self.now.channels.items }
        ensures { result ≡ slice_get (map (λ x. place_in (rows_view self.now.places.items) x cycle) (slice_index_or (rows_view self.now.channels.items) chain [])) nth }
    {
        match self.channels[chain as usize].get(nth as usize) {
            Some(channel) => Some(self.place_of(*channel, cycle)),
            None => None,
        }
    }

    /// The tables of a compactor. The only error is want of memory.
    pub fn make(alloc: Global, parts: &Parts, compact: &Compact) -> Result<Tables, NoMemory>
        requires { IsCompactorOf parts.now compact.now }
        ensures { IfOk result (AreTables parts.now compact.now) }
    {
        let channels = channels_of_all(alloc, parts, compact)?;
        let cycles = channel_cycles(
            alloc,
            parts.chains().as_slice(),
            compact.channels().as_slice(),
        )?;
        let places = cell_places(alloc, &cycles, compact.in_order().as_slice())?;
        let nets = nets_of_all(alloc, parts)?;
        Ok(Tables {
            channels,
            places,
            nets,
        })
    }

    /// One of the compact points that see a point of the test, if there are so many.
    pub fn place_seeing(
        &self,
        parts: &Parts,
        compact: &Compact,
        point: u32,
        nth: u32,
    ) -> Option<u32>
        requires made { IsCompactorOf parts.now compact.now }
        requires tables { AreTables parts.now compact.now self.now }
        requires point { point < length (points_of parts.now) }
        ensures place { result ≡ slice_get (seeing parts.now compact.now (point_at parts.now point)) nth }
        ensures few { length (seeing parts.now compact.now (point_at parts.now point)) < 2 ^ 32 }
    {
        let _ = compact;
        match parts.points().as_slice()[point as usize] {
            Point::Output { place } => first_alone(place, nth),
            Point::Cell { chain, pos } => {
                let cycle = chain_length(parts, chain) - 1 - pos as usize;
                self.nth_place(chain, nth, cycle)
            }
        }
    }
}
