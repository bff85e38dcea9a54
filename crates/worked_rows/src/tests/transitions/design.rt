//! A design with a flop in no chain, and X in loads and inputs: 72 patterns of two captures.
ghost use Rattle.std.specs.Prelude.{◌≡◌, All};
ghost use Rattle.scan_model.specs.declared.parts.PatternKind.TheVariants.{Capture};
ghost use Rattle.scan_model.specs.ScanTest.{AreChains, ArePatterns, ArePairs};
ghost use Rattle.two_frame.specs.FrameRows.{AllCapture};

use bench_reader::read_netlist;
use bridge_pairs::read_pairs;
use scan_model::{Chain, Circuit, Pairs, Parts, Pattern, Profile, Rows};
use scan_text::read_scan;
use std::alloc::Global;
use std::process::Abort;
use two_frame::read_two_frame;

const NETLIST: &[u8] =
    b"INPUT(a)\nINPUT(b)\nOUTPUT(y)\nOUTPUT(z)\nf = DFF(d)\ng = DFF(e)\nh = DFF(k)\nd = XOR(a, g)\ne = NAND(b, h)\nn = AND(f, b)\nk = OR(d, n)\ny = AND(k, e)\nz = XNOR(d, h)\n";

// The flop f is in no chain.
const SCAN: &[u8] = b"CHAIN c g h\n";

// Eight patterns, which come nine times.
const PATTERNS: &str =
    "LOC 00 0X\nLOC 0X 00\nLOC 01 10\nLOC 10 11\nLOC 1X 00\nLOC 11 00\nLOC X1 0X\nLOC 01 11\n";

/// What the texts behind the netlist stand for.
#[derive(Drop)]
struct Lists {
    chains: Rows<Chain>,
    patterns: Rows<Pattern>,
    pairs: Pairs,
}

fn read_lists(rt: &impl Abort, alloc: Global, circuit: &Circuit) -> Lists
    ensures chains { AreChains circuit.now result.chains }
    ensures patterns { ArePatterns circuit.now result.chains result.patterns }
    ensures captures { All (λ w. w.kind ≡ Capture) result.patterns }
    ensures pairs { ArePairs circuit.now result.pairs }
{
    let text = PATTERNS.repeat(alloc, 9).expect(rt, "memory");
    let chains = read_scan(alloc, circuit, SCAN).expect(rt, "chains");
    let patterns = read_two_frame(alloc, circuit, &chains, text.as_bytes()).expect(rt, "patterns");
    drop(text);
    let pairs = read_pairs(alloc, circuit, b"").expect(rt, "pairs");
    Lists {
        chains,
        patterns,
        pairs,
    }
}

fn parts_of(rt: &impl Abort, alloc: Global, circuit: Circuit, lists: Lists) -> Parts
    requires chains { AreChains circuit lists.chains }
    requires patterns { ArePatterns circuit lists.chains lists.patterns }
    requires captures { All (λ w. w.kind ≡ Capture) lists.patterns }
    requires pairs { ArePairs circuit lists.pairs }
    ensures { AllCapture result }
{
    let Lists {
        chains,
        patterns,
        pairs,
    } = lists;
    let _ = circuit.nets();
    Parts::make(alloc, Profile::One, circuit, chains, patterns, pairs).expect(rt, "memory")
}

/// The scan test of these texts.
pub(crate) fn made(rt: &impl Abort, alloc: Global) -> Parts
    ensures { AllCapture result }
{
    let circuit = read_netlist(alloc, NETLIST).expect(rt, "a netlist");
    let lists = read_lists(rt, alloc, &circuit);
    parts_of(rt, alloc, circuit, lists)
}
