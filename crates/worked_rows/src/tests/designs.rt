//! The scan tests of c17, of s27 and of the design of `demo 7 2`, in profile 1.
use diagnosis::parts_of;
use made_designs::made_design;
use scan_model::{Parts, Profile};
use std::alloc::Global;
use std::process::Abort;

/// The netlist of c17.
pub(crate) const C17: &[u8] =
    b"INPUT(1)\nINPUT(2)\nINPUT(3)\nINPUT(6)\nINPUT(7)\nOUTPUT(22)\nOUTPUT(23)\n10 = NAND(1, 3)\n11 = NAND(3, 6)\n16 = NAND(2, 11)\n19 = NAND(11, 7)\n22 = NAND(10, 16)\n23 = NAND(16, 19)\n";

/// The netlist of s27.
pub(crate) const S27: &[u8] =
    b"INPUT(G0)\nINPUT(G1)\nINPUT(G2)\nINPUT(G3)\nOUTPUT(G17)\nG5 = DFF(G10)\nG6 = DFF(G11)\nG7 = DFF(G13)\nG14 = NOT(G0)\nG17 = NOT(G11)\nG8 = AND(G14, G6)\nG15 = OR(G12, G8)\nG16 = OR(G3, G8)\nG9 = NAND(G16, G15)\nG10 = NOR(G14, G11)\nG11 = NOR(G5, G9)\nG12 = NOR(G1, G7)\nG13 = NOR(G2, G12)\n";

/// All its flops in one chain.
pub(crate) const S27_CHAIN: &[u8] = b"CHAIN c0 G5 G6 G7\n";

/// The texts of a design.
#[derive(Clone, Copy)]
pub(crate) struct Texts {
    pub(crate) netlist: &'static [u8],
    pub(crate) scan: &'static [u8],
    pub(crate) patterns: &'static [u8],
    pub(crate) pairs: &'static [u8],
}

/// c17, which has no chains, with one pattern.
pub(crate) const ONE17: Texts = Texts {
    netlist: C17,
    scan: b"",
    patterns: b"CAPTURE 11111\n",
    pairs: b"",
};

/// The same with neighbours, of which the second pair is left out, and the third is the first again.
pub(crate) const PAIRS17: Texts = Texts {
    pairs: b"net_a,net_b\n10,19\n3,10\n19,10\n16,19\n",
    ..ONE17
};

/// s27 with all its flops in one chain, and a pattern that captures.
pub(crate) const CAPTURE27: Texts = Texts {
    netlist: S27,
    scan: S27_CHAIN,
    patterns: b"CAPTURE 0000 000\n",
    pairs: b"",
};

/// The same with a pattern that only shifts.
pub(crate) const SHIFT27: Texts = Texts {
    patterns: b"SHIFT 101\n",
    ..CAPTURE27
};

/// What the texts stand for.
pub(crate) fn parts(rt: &impl Abort, alloc: Global, texts: &Texts) -> Parts {
    parts_of(
        alloc,
        Profile::One,
        texts.netlist,
        texts.scan,
        texts.patterns,
        texts.pairs,
    )
    .expect(rt, "a design")
}

/// c17 with other patterns.
pub(crate) fn c17_over(rt: &impl Abort, alloc: Global, patterns: &[u8]) -> Parts {
    parts_of(alloc, Profile::One, C17, b"", patterns, b"").expect(rt, "a design")
}

/// The design of `demo 7 2`.
pub(crate) fn demo(rt: &impl Abort, alloc: Global) -> Parts {
    let made = made_design(alloc, 7, 2).expect(rt, "memory");
    let parts = parts_of(
        alloc,
        Profile::One,
        made.netlist.as_slice(),
        made.scan.as_slice(),
        made.patterns.as_slice(),
        made.neighbours.as_slice(),
    )
    .expect(rt, "a design");
    drop(made);
    parts
}
