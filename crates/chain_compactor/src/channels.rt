//! The channels of the lines so far, and one more.

ghost use Rattle.std.specs.Prelude.{◌≡◌, ◌≤◌, [], length, map, not, IfOk, Ok, None};
ghost use Rattle.std.specs.List.{list_any};
ghost use Rattle.scan_model.specs.Words.{words, has_word};
ghost use Rattle.scan_model.specs.TextFaults.{lowest};
ghost use Rattle.scan_model.specs.ScanText.{stands_again};
ghost use Rattle.scan_model.specs.ScanTest.{ScanTest};
ghost use Rattle.text_parts.specs.Views.{nows};
ghost use Rattle.compact_points.specs.Channels.{greatest};
ghost use Rattle.chain_compactor.specs.ChannelText.{channel_of};
ghost use Rattle.chain_compactor.specs.ChannelReading.{length_in, numbers_in};

use crate::named::NamedChannel;
use compact_points::Channel;
use scan_model::{Chain, NoMemory, Rows, rules};
use std::alloc::Global;
use text_parts::{Names, has_refused_byte, words_of};

/// The most channels that a channel text may have.
const CHANNEL_LIMIT: usize = 256;

/// The most compact points that channels may leave.
const POINT_LIMIT: usize = 131_072;

// The numbers of the chains of a line, and whether a name is that of none.
#[derive(Drop)]
struct ChainNumbers {
    numbers: Vec<u32>,
    lacks_chain: bool,
}

fn chain_numbers(
    alloc: Global,
    names: &Names<'_>,
    chains: &[&[u8]],
) -> Result<ChainNumbers, NoMemory>
    requires { length names.now ≤ 256 }
    ensures numbers { IfOk result (λ found. found.numbers.items ≡ numbers_in names.now (nows chains.now)) }
    ensures lacks_chain { IfOk result (λ found. found.lacks_chain ≡ list_any (λ w. not (has_word names.now w)) (nows chains.now)) }
{
    let mut numbers = Vec::with_capacity(alloc, chains.len())?;
    let mut lacks_chain = false;
    for chain in chains {
        numbers.push_reserved(names.place_or_len(chain) as u32);
        lacks_chain |= !names.contains(chain);
    }
    Ok(ChainNumbers {
        numbers,
        lacks_chain,
    })
}

// Whether a name stands twice.
fn has_repeat(alloc: Global, names: &[&[u8]]) -> Result<bool, NoMemory>
    ensures { IfOk result (λ repeats. repeats ≡ stands_again [] (nows names.now)) }
{
    let mut seen = Names::new(alloc);
    let fresh = seen.add_new(names)?;
    Ok(!fresh)
}

// The length of the chain with a number, and 0 where there is none.
fn length_of(chains: &[Chain], number: u32) -> usize
    ensures { result ≡ length_in chains.now number }
{
    match chains.get(number as usize) {
        Some(chain) => chain.cells.len(),
        None => 0,
    }
}

/// The greatest length of the chains with these numbers.
pub fn greatest_length(chains: &[Chain], numbers: &[u32]) -> usize
    ensures { result ≡ greatest (map (length_in chains.now) numbers.now) }
{
    let mut most = 0;
    for number in numbers {
        most = most.max(length_of(chains, *number));
    }
    most
}

// A channel of this name and these chains.
fn channel_with(alloc: Global, name: &[u8], chains: Vec<u32>) -> Result<Channel, NoMemory>
    ensures { IfOk result (λ x. x ≡ record { name = name.now; chains = chains.items }) }
{
    let name = Rows::copy_of(alloc, name)?;
    Ok(Channel {
        name,
        chains: Rows::from_vec(chains),
    })
}

/// The channels of the lines so far with their names, in how many cycles each shows something, and how many compact points
/// there are.
#[derive(Drop)]
pub struct Channels<'a> {
    pub channels: Vec<Channel>,
    pub titles: Names<'a>,
    pub cycles: Vec<usize>,
    pub points: usize,
}

impl<'a> Channels<'a> {
    ghost use Rattle.chain_compactor.specs.ChannelReading.{named_view, named_rules, line_rules, Adds, AddsSome, IsAfter};

    pub fn new(alloc: Global, outputs: usize) -> Self
        ensures { (t : ScanTest) → outputs ≡ length t.netlist.outputs → IsAfter t result [] }
    {
        Channels {
            channels: Vec::new(alloc),
            titles: Names::new(alloc),
            cycles: Vec::new(alloc),
            points: outputs,
        }
    }

    // Takes a channel, or answers the lowest of rules 102 to 105 that it breaks.
    fn take(
        &mut self,
        alloc: Global,
        chains: &[Chain],
        names: &Names<'_>,
        channel: NamedChannel<'a, '_>,
    ) -> Result<Option<u32>, NoMemory>
        requires { length names.now ≤ 256 }
        ensures rule { IfOk result (λ r. r ≡ lowest (named_rules chains.now names.now self.old (named_view channel.entry))) }
        ensures taken { result ≡ Ok None → Adds chains.now names.now self.old self.new (named_view channel.entry) }
    {
        let found = chain_numbers(alloc, names, channel.chains)?;
        if found.lacks_chain {
            return Ok(Some(rules::UNKNOWN_CHAIN));
        }
        if self.titles.contains(channel.name) {
            return Ok(Some(rules::CHANNEL_TAKEN));
        }
        if has_repeat(alloc, channel.chains)? {
            return Ok(Some(rules::CHANNEL_TAKEN));
        }
        if self.titles.len() >= CHANNEL_LIMIT {
            return Ok(Some(rules::TOO_MANY_CHANNELS));
        }
        let cycles = greatest_length(chains, &found.numbers);
        let points = self.points.saturating_add(cycles);
        if points > POINT_LIMIT {
            return Ok(Some(rules::TOO_MANY_POINTS));
        }
        self.titles.add(channel.name)?;
        self.cycles.push(cycles)?;
        self.channels
            .push(channel_with(alloc, channel.name, found.numbers)?)?;
        self.points = points;
        Ok(None)
    }

    /// Takes the channel of a line, or answers the lowest rule that the line breaks.
    pub fn take_line(
        &mut self,
        alloc: Global,
        chains: &[Chain],
        names: &Names<'_>,
        line: &'a [u8],
    ) -> Result<Option<u32>, NoMemory>
        requires { length names.now ≤ 256 }
        ensures rule { IfOk result (λ r. r ≡ lowest (line_rules chains.now names.now self.old line.now)) }
        ensures taken { result ≡ Ok None → AddsSome chains.now names.now self.old self.new (channel_of (words line.now)) }
    {
        if has_refused_byte(line) {
            return Ok(Some(rules::OTHER_CHANNEL_FORM));
        }
        let words = words_of(alloc, line)?;
        match NamedChannel::of_words(&words) {
            Some(channel) => self.take(alloc, chains, names, channel),
            None => Ok(if words.is_empty() {
                None
            } else {
                Some(rules::OTHER_CHANNEL_FORM)
            }),
        }
    }
}
