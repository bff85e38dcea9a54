//! Expected values behind compactors. Counts over logs behind them are among the examples (tests/rows).
ghost use Rattle.std.specs.Prelude.{◌≡◌, ◌<◌, length};
ghost use Rattle.log_join.specs.Joining.{IsJoinedOf, FitsExpected};
ghost use Rattle.compact_points.specs.Channels.{IsCompactorOf};
ghost use Rattle.compact_points.specs.Compaction.{compact_rows};

use super::designs::{Texts, parts};
use chain_compactor::{Compact, compact_expected, read_channels};
use log_join::Joined;
use scan_model::{Bit, Expected, Parts, Tri};
use std::alloc::Global;
use std::process::Abort;

/// A test through a compactor and what is expected there, which fits the logs, of which there are none.
#[derive(Clone, Copy)]
struct Case<'a> {
    parts: &'a Parts,
    compact: &'a Compact,
    expected: &'a Expected,
    joined: &'a Joined,
}

/// No logs, joined.
fn without_logs(rt: &impl Abort, alloc: Global, parts: &Parts, compact: &Compact) -> Joined
    requires { IsCompactorOf parts.now compact.now }
    ensures { IsJoinedOf (length parts.now.patterns) (length compact.now.points) result }
{
    let patterns = parts.patterns().len() as u32;
    Joined::make(alloc, patterns, compact.points()).expect(rt, "memory")
}

/// The expected values, which fit these logs.
fn expected_for(
    rt: &impl Abort,
    alloc: Global,
    parts: &Parts,
    compact: &Compact,
    joined: &Joined,
) -> Expected
    requires made { IsCompactorOf parts.now compact.now }
    requires joined { IsJoinedOf (length parts.now.patterns) (length compact.now.points) joined.now }
    ensures value { result ≡ compact_rows parts.now compact.now }
    ensures fits { FitsExpected result joined.now }
{
    compact_expected(alloc, parts, compact).expect(rt, "memory")
}

fn letter_of(value: Tri) -> u8 {
    match value {
        Tri::Zero => b'0',
        Tri::One => b'1',
        Tri::Unknown => b'X',
    }
}

/// Whether these letters are the expected values of a pattern.
fn is_row(case: Case<'_>, pattern: u32, letters: &[u8]) -> bool
    requires test { IsJoinedOf (length case.parts.now.patterns) (length case.compact.now.points) case.joined.now }
    requires fits { FitsExpected case.expected.now case.joined.now }
    requires pattern { pattern < length case.parts.now.patterns }
{
    let points = case.joined.points();
    for point in 0..points {
        let value = case.expected.get(&Bit { pattern, point });
        if letters.get(point as usize) != Some(&letter_of(value)) {
            return false;
        }
    }
    letters.len() == points as usize
}

/// Whether these rows of letters are the expected values of all patterns.
fn are_rows(case: Case<'_>, rows: &[&[u8]]) -> bool
    requires test { IsJoinedOf (length case.parts.now.patterns) (length case.compact.now.points) case.joined.now }
    requires fits { FitsExpected case.expected.now case.joined.now }
{
    let patterns = case.parts.patterns().len();
    for pattern in 0..patterns as u32 {
        match rows.get(pattern as usize) {
            Some(letters) if is_row(case, pattern, *letters) => {}
            _ => return false,
        }
    }
    rows.len() == patterns
}

/// Whether these rows are what is expected behind the channels.
fn holds(rt: &impl Abort, alloc: Global, parts: &Parts, channels: &[u8], rows: &[&[u8]]) -> bool {
    let compact = read_channels(alloc, parts, channels).expect(rt, "channels");
    let joined = without_logs(rt, alloc, parts, &compact);
    let expected = expected_for(rt, alloc, parts, &compact, &joined);
    let case = Case {
        parts,
        compact: &compact,
        expected: &expected,
        joined: &joined,
    };
    let are_due = are_rows(case, rows);
    drop(expected);
    drop(joined);
    drop(compact);
    are_due
}

/// Four chains of unlike lengths, of which the first channels share one and leave one out. A flop is in no chain.
const FOUR_CHAINS: Texts = Texts {
    netlist: b"INPUT(a)\nINPUT(b)\nOUTPUT(y)\nOUTPUT(z)\nf = DFF(d)\ng = DFF(e)\nh = DFF(f)\ni = DFF(k)\nj = DFF(y)\nl = DFF(z)\nm = DFF(h)\nn = DFF(e)\nd = XOR(a, g)\ne = NAND(b, f, i)\nk = OR(d, h)\ny = AND(k, e)\nz = XNOR(k, f, l)\n",
    scan: b"CHAIN c g f\nCHAIN p j h i\nCHAIN q l\nCHAIN r m\n",
    patterns: b"CAPTURE 01 10 011 1 0\nSHIFT 01 101 0 1\nCAPTURE X1 0X 101 0 1\nCAPTURE 11 01 1X0 1 1\nSHIFT 1X 0X0 1 0\nCAPTURE 00 11 010 0 X\n",
    pairs: b"net_a,net_b\ne,d\nk,b\nz,y\n",
};

/// Two channels of unlike lengths with a chain in both and two in none; and three channels. Behind each a row for each
/// pattern, by an independent model: the outputs, and the channels cycle by cycle.
const CASES: [(&[u8], [&[u8]; 6]); 2] = [
    (
        b"CHANNEL x c p\nCHANNEL w q c\n",
        [
            b"1100111", b"XX01001", b"XXXXXXX", b"1001011", b"XXXXX10", b"1100011",
        ],
    ),
    (
        b"CHANNEL w q\nCHANNEL x p q c\nCHANNEL v r\n",
        [
            b"1111111", b"XX00101", b"XXXX0XX", b"1000X01", b"XX1X0X0", b"1111101",
        ],
    ),
];

/// Whether that holds behind all channels.
fn all_hold(rt: &impl Abort, alloc: Global, parts: &Parts) -> bool {
    for (channels, rows) in &CASES {
        if !holds(rt, alloc, parts, *channels, rows.as_slice()) {
            return false;
        }
    }
    true
}

fn four_chains_hold(rt: &impl Abort, alloc: Global) -> bool {
    let parts = parts(rt, alloc, &FOUR_CHAINS);
    let hold = all_hold(rt, alloc, &parts);
    drop(parts);
    hold
}

#[test]
fn every_expected_value(rt: HostRuntime) {
    assert!(rt; four_chains_hold(&rt, rt.alloc()));
}
