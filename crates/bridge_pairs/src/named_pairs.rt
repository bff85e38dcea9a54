//! The different pairs that the records so far name, and one more record.

ghost use Rattle.std.specs.Prelude.{◌≡◌, ◌≤◌, [], ◌∷◌, ◌++◌, ◌<◌, ◌^◌, length, map, IfOk, OnOk, MatchOption, Ok, Some, None, true, false};
ghost use Rattle.csv.specs.Records.{fields_of};
ghost use Rattle.scan_model.specs.Words.{has_word};
ghost use Rattle.scan_model.specs.TextFaults.{lowest};
ghost use Rattle.scan_model.specs.NetlistText.{net_number};
ghost use Rattle.scan_model.specs.declared.rules.TheConstants.{NAMES_NO_NET, NAMES_ONE_NET, TOO_MANY_PAIRS};
ghost use Rattle.bridge_pairs.specs.PairText.{trimmed, nets_named, names_no_net, names_one_net, names_too_many, with_pair, is_named, pair_rules};
ghost use Rattle.bridge_pairs.specs.PairSets.{key_of};
ghost use Rattle.bridge_pairs.specs.FieldViews.{names_view};

use crate::fields::{NetNames, is_header};
use csv::ByteRecord;
use scan_model::{NoMemory, Pair, rules};
use std::alloc::Global;
use std::collections::BTreeSet;
use std::marker::Model;
use text_parts::Names;

/// The most different pairs that a list may name.
const PAIR_LIMIT: usize = 65_536;

/// Different pairs in the order in which they were added.
#[derive(Drop)]
pub struct NamedPairs {
    list: Vec<Pair>,
    keys: BTreeSet<(u32, u32)>,
}

impl Model for NamedPairs {
    ghost use Rattle.std.specs.Prelude.{List};
    ghost use Rattle.scan_model.specs.declared.parts.Pair.{Pair};

    ghost Value = { List Pair };

    ghost use Rattle.bridge_pairs.specs.PairSets.{HasPairs};

    ghost view = { λ n. n.list.items };

    ghost invariant = { λ n. HasPairs n.list.items n.keys };
}

/// The nets of a pair, the smaller number first.
fn key_of(pair: &Pair) -> (u32, u32)
    ensures { result ≡ key_of pair.now }
{
    (pair.a.min(pair.b), pair.a.max(pair.b))
}

/// The number of the net that has a name.
fn number_of(names: &Names<'_>, name: &[u8]) -> Option<u32>
    requires { length names.now ≤ 65536 }
    ensures { MatchOption result (has_word names.now name.now ≡ false) (λ n. (has_word names.now name.now ≡ true) × (n ≡ net_number names.now name.now)) }
{
    let place = names.place(name)?;
    Some(place as u32)
}

impl NamedPairs {
    pub fn new(alloc: Global) -> Self
        ensures { result ≡ [] }
    {
        NamedPairs {
            list: Vec::new(alloc),
            keys: BTreeSet::new(alloc),
        }
    }

    pub fn into_vec(self) -> Vec<Pair>
        ensures { result.items ≡ self }
    {
        let NamedPairs { list, keys: _ } = self;
        list
    }

    fn len(&self) -> usize
        ensures { result ≡ length self.now }
    {
        self.list.len()
    }

    /// Whether a pair of the same two nets is there, in either order.
    fn contains(&self, pair: &Pair) -> bool
        ensures { result ≡ is_named self.now pair.now }
    {
        self.keys.contains(&key_of(pair))
    }

    /// Adds a pair at the end.
    fn add(&mut self, pair: Pair) -> Result<(), NoMemory>
        ensures ok { OnOk result (self.new ≡ self.old ++ pair ∷ []) }
    {
        self.list.reserve(1)?;
        self.keys.insert(key_of(&pair))?;
        self.list.push_reserved(pair);
        Ok(())
    }

    /// Takes the pair of a record, counted from 0, or answers the lowest rule that the record breaks.
    pub fn take_record(
        &mut self,
        names: &Names<'_>,
        index: usize,
        row: &ByteRecord,
    ) -> Result<Option<u32>, NoMemory>
        requires limit { length names.now ≤ 65536 }
        requires index { index < 2 ^ 63 }
        ensures rule { IfOk result (λ r. r ≡ lowest (pair_rules names.now self.old index (map trimmed (fields_of row.now)))) }
        ensures taken { result ≡ Ok None → self.new ≡ with_pair names.now self.old index (nets_named index (map trimmed (fields_of row.now))) }
    {
        if index == 0 {
            return Ok(if is_header(row) {
                None
            } else {
                Some(rules::OTHER_PAIR_FORM)
            });
        }
        let Some(two) = NetNames::of_record(row) else {
            return Ok(Some(rules::OTHER_PAIR_FORM));
        };
        self.take_names(names, index, two)
    }

    /// Takes the pair of these two names in a record, counted from 0, that is not the header, or answers the lowest rule
    /// that the record breaks.
    fn take_names(
        &mut self,
        names: &Names<'_>,
        index: usize,
        two: NetNames<'_>,
    ) -> Result<Option<u32>, NoMemory>
        requires limit { length names.now ≤ 65536 }
        requires index { index < 2 ^ 63 }
        ensures rule { IfOk result (λ r. r ≡ lowest ((NAMES_NO_NET, names_no_net names.now (Some (names_view two.entry))) ∷ (NAMES_ONE_NET, names_one_net names.now (Some (names_view two.entry))) ∷ (TOO_MANY_PAIRS, names_too_many names.now self.old index (Some (names_view two.entry))) ∷ [])) }
        ensures taken { result ≡ Ok None → self.new ≡ with_pair names.now self.old index (Some (names_view two.entry)) }
    {
        let Some(a) = number_of(names, two.a) else {
            return Ok(Some(rules::NAMES_NO_NET));
        };
        let Some(b) = number_of(names, two.b) else {
            return Ok(Some(rules::NAMES_NO_NET));
        };
        if a == b {
            return Ok(Some(rules::NAMES_ONE_NET));
        }
        let pair = Pair {
            a,
            b,
            row: index as u64 + 1,
        };
        if self.contains(&pair) {
            return Ok(None);
        }
        if self.len() >= PAIR_LIMIT {
            return Ok(Some(rules::TOO_MANY_PAIRS));
        }
        self.add(pair)?;
        Ok(None)
    }
}
