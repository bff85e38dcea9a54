//! The draft of a scan text: its chains so far, and one more line.

ghost use Rattle.std.specs.Prelude.{◌≡◌, ◌≤◌, length, map, not, IfOk, Ok, None, List, [], ◌∷◌, ◌++◌, option_to_list, slice_index_or};
ghost use Rattle.std.specs.List.{list_any};
ghost use Rattle.scan_model.specs.declared.circuit.Net.{Net};
ghost use Rattle.scan_model.specs.Netlist.{no_net};
ghost use Rattle.scan_model.specs.Words.{words};
ghost use Rattle.scan_model.specs.TextFaults.{lowest};
ghost use Rattle.scan_model.specs.ScanText.{ChainNames, net_names, number_of_net, is_net, is_flop_net, is_flop_driver, chain_of, scan_rules};
ghost use Rattle.text_parts.specs.Views.{nows};

use crate::chain::NamedChain;
use scan_model::{Chain, Driver, Net, NoMemory, Rows, rules};
use std::alloc::Global;
use text_parts::{Names, has_refused_byte, words_of};

/// The most chains that a scan text may have.
const CHAIN_LIMIT: usize = 256;

// The net of a cell's name: its number, or else the number of nets; whether there is one; and whether it is a flop.
#[derive(Clone, Copy)]
struct CellNet {
    number: u32,
    is_net: bool,
    is_flop: bool,
}

fn is_flop(nets: &[Net], place: usize) -> bool
    ensures { result ≡ is_flop_driver (slice_index_or nets.now place no_net).driver }
{
    match nets.get(place) {
        Some(net) => matches!(net.driver, Driver::Flop),
        None => false,
    }
}

fn cell_net(nets: &[Net], names: &Names<'_>, cell: &[u8]) -> CellNet
    requires limit { length nets.now ≤ 65536 }
    requires names { names.now ≡ net_names nets.now }
    ensures number { result.number ≡ number_of_net nets.now cell.now }
    ensures is_net { result.is_net ≡ is_net nets.now cell.now }
    ensures is_flop { result.is_flop ≡ is_flop_net nets.now cell.now }
{
    let place = names.place_or_len(cell);
    let is_net = place < nets.len();
    let is_flop = is_flop(nets, place);
    CellNet {
        number: place as u32,
        is_net,
        is_flop,
    }
}

// The net numbers of a chain's cells, whether one has no net, and whether one has a net that is no flop.
#[derive(Drop)]
struct CellNets {
    numbers: Vec<u32>,
    lacks_net: bool,
    has_other: bool,
}

fn cell_nets(
    alloc: Global,
    nets: &[Net],
    names: &Names<'_>,
    cells: &[&[u8]],
) -> Result<CellNets, NoMemory>
    requires limit { length nets.now ≤ 65536 }
    requires names { names.now ≡ net_names nets.now }
    ensures numbers { IfOk result (λ found. found.numbers.items ≡ map (number_of_net nets.now) (nows cells.now)) }
    ensures lacks_net { IfOk result (λ found. found.lacks_net ≡ list_any (λ w. not (is_net nets.now w)) (nows cells.now)) }
    ensures has_other { IfOk result (λ found. found.has_other ≡ list_any (λ w. not (is_flop_net nets.now w)) (nows cells.now)) }
{
    let mut numbers = Vec::with_capacity(alloc, cells.len())?;
    let mut lacks_net = false;
    let mut has_other = false;
    for cell in cells {
        let net = cell_net(nets, names, cell);
        numbers.push_reserved(net.number);
        lacks_net |= !net.is_net;
        has_other |= !net.is_flop;
    }
    Ok(CellNets {
        numbers,
        lacks_net,
        has_other,
    })
}

// A chain of this name and these cells.
fn chain_with(alloc: Global, name: &[u8], cells: Vec<u32>) -> Result<Chain, NoMemory>
    ensures { IfOk result (λ c. c ≡ record { name = name.now; cells = cells.items }) }
{
    let name = Rows::copy_of(alloc, name)?;
    Ok(Chain {
        name,
        cells: Rows::from_vec(cells),
    })
}

/// The draft of a scan text, by its lines so far: the chains, the names of their cells, and the names of the chains.
#[derive(Drop)]
pub struct ScanDraft<'a> {
    pub chains: Vec<Chain>,
    pub cells: Names<'a>,
    pub titles: Names<'a>,
}

impl<'a> ScanDraft<'a> {
    ghost use Rattle.scan_text.specs.ScanDrafts.{chain_rules, IsAfter};
    ghost use Rattle.scan_text.specs.NamedChains.{named_view};

    pub fn new(alloc: Global) -> Self
        ensures { (nets : List Net) → IsAfter nets result [] }
    {
        ScanDraft {
            chains: Vec::new(alloc),
            cells: Names::new(alloc),
            titles: Names::new(alloc),
        }
    }

    // Takes a chain, or answers the lowest of rules 12 to 15 that it breaks.
    fn take(
        &mut self,
        alloc: Global,
        nets: &[Net],
        names: &Names<'_>,
        chain: NamedChain<'a, '_>,
    ) -> Result<Option<u32>, NoMemory>
        requires limit { length nets.now ≤ 65536 }
        requires names { names.now ≡ net_names nets.now }
        ensures rule { IfOk result (λ r. r ≡ lowest (chain_rules nets.now self.old.cells self.old.titles (named_view chain.entry))) }
        ensures taken { result ≡ Ok None → (cs : List ChainNames) → IsAfter nets.now self.old cs → IsAfter nets.now self.new (cs ++ named_view chain.entry ∷ []) }
    {
        let found = cell_nets(alloc, nets, names, chain.cells)?;
        if found.lacks_net {
            return Ok(Some(rules::UNKNOWN_CELL));
        }
        if found.has_other {
            return Ok(Some(rules::NOT_A_FLOP));
        }
        if !self.cells.add_new(chain.cells)? {
            return Ok(Some(rules::CHAIN_TAKEN));
        }
        if self.titles.contains(chain.name) {
            return Ok(Some(rules::CHAIN_TAKEN));
        }
        if self.titles.len() >= CHAIN_LIMIT {
            return Ok(Some(rules::TOO_MANY_CHAINS));
        }
        self.titles.add(chain.name)?;
        self.chains
            .push(chain_with(alloc, chain.name, found.numbers)?)?;
        Ok(None)
    }

    /// Takes the chain of a line, or answers the lowest rule that the line breaks.
    pub fn take_line(
        &mut self,
        alloc: Global,
        nets: &[Net],
        names: &Names<'_>,
        line: &'a [u8],
    ) -> Result<Option<u32>, NoMemory>
        requires limit { length nets.now ≤ 65536 }
        requires names { names.now ≡ net_names nets.now }
        ensures rule { IfOk result (λ r. r ≡ lowest (scan_rules nets.now self.old.cells self.old.titles line.now)) }
        ensures taken { result ≡ Ok None → (cs : List ChainNames) → IsAfter nets.now self.old cs → IsAfter nets.now self.new (cs ++ option_to_list (chain_of (words line.now))) }
    {
        if has_refused_byte(line) {
            return Ok(Some(rules::OTHER_CHAIN_FORM));
        }
        let words = words_of(alloc, line)?;
        match NamedChain::of_words(&words) {
            Some(chain) => self.take(alloc, nets, names, chain),
            None => Ok(if words.is_empty() {
                None
            } else {
                Some(rules::OTHER_CHAIN_FORM)
            }),
        }
    }
}
