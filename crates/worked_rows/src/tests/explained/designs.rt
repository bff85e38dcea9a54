//! The designs c17 and s27, and an odd one of which no benchmark is like.
use super::super::designs::{C17, S27, S27_CHAIN};
use diagnosis::{Design, design_of};
use scan_model::Profile;
use std::alloc::Global;
use std::process::Abort;

/// The texts of a design, with patterns that come fourteen times, and two logs of a die of it, which agree in most of their
/// bits.
#[derive(Clone, Copy)]
pub(crate) struct Row {
    pub(crate) netlist: &'static [u8],
    pub(crate) scan: &'static [u8],
    pub(crate) patterns: &'static str,
    pub(crate) pairs: &'static [u8],
    pub(crate) logs: [&'static [u8]; 2],
}

pub(crate) const C17_DIE: Row = Row {
    netlist: C17,
    scan: b"",
    patterns: "CAPTURE 10110\nCAPTURE 01X01\nCAPTURE 00111\nCAPTURE 11011\nCAPTURE 0110X\n",
    pairs: b"net_a,net_b\n10,19\n11,10\n",
    logs: [
        b"FAILLOG 1\ndie D1\ndesign d\ntested 0 66\nfail 0 out 22\nfail 3 out 23\nfail 10 out 23\nfail 15 out 22\nfail 24 out 23\nfail 28 out 22\nfail 28 out 23\nfail 31 out 23\nfail 38 out 22\nfail 39 out 22\nfail 44 out 22\nfail 45 out 23\nfail 47 out 23\nfail 50 out 22\nfail 52 out 23\nfail 59 out 23\nfail 65 out 22\nfail 66 out 23\nend\n",
        b"FAILLOG 1\ndie D1\ndesign d\ntested 0 66\nfail 3 out 23\nfail 10 out 23\nfail 15 out 22\nfail 24 out 23\nfail 28 out 22\nfail 28 out 23\nfail 31 out 23\nfail 38 out 22\nfail 39 out 22\nfail 47 out 23\nfail 50 out 22\nfail 52 out 23\nfail 59 out 23\nfail 65 out 22\nfail 66 out 23\nend\n",
    ],
};

pub(crate) const S27_DIE: Row = Row {
    netlist: S27,
    scan: S27_CHAIN,
    patterns: "CAPTURE 0110 1X0\nSHIFT 101\nCAPTURE 1X01 011\nCAPTURE 0000 110\nSHIFT 0X1\n",
    pairs: b"net_a,net_b\nG14,G12\n",
    logs: [
        b"FAILLOG 1\ndie D1\ndesign d\ntested 0 66\nfail 3 cell c0 2\nfail 3 cell c0 1\nfail 3 cell c0 0\nfail 5 cell c0 0\nfail 8 out G17\nfail 10 cell c0 2\nfail 10 cell c0 1\nfail 10 cell c0 0\nfail 12 cell c0 0\nfail 14 cell c0 2\nfail 17 cell c0 2\nfail 17 cell c0 1\nfail 17 cell c0 0\nfail 20 cell c0 2\nfail 23 out G17\nfail 24 cell c0 2\nfail 24 cell c0 1\nfail 24 cell c0 0\nfail 31 cell c0 2\nfail 31 cell c0 1\nfail 31 cell c0 0\nfail 32 cell c0 0\nfail 37 cell c0 1\nfail 38 cell c0 2\nfail 38 cell c0 1\nfail 38 cell c0 0\nfail 45 cell c0 2\nfail 45 cell c0 1\nfail 45 cell c0 0\nfail 52 cell c0 1\nfail 57 cell c0 1\nfail 59 cell c0 2\nfail 59 cell c0 1\nfail 59 cell c0 0\nfail 62 out G17\nfail 62 cell c0 0\nfail 63 cell c0 0\nfail 66 cell c0 2\nfail 66 cell c0 1\nfail 66 cell c0 0\nend\n",
        b"FAILLOG 1\ndie D1\ndesign d\ntested 0 66\nfail 3 cell c0 2\nfail 3 cell c0 1\nfail 5 cell c0 0\nfail 8 out G17\nfail 10 cell c0 2\nfail 10 cell c0 1\nfail 10 cell c0 0\nfail 12 cell c0 0\nfail 14 cell c0 2\nfail 17 cell c0 2\nfail 17 cell c0 1\nfail 17 cell c0 0\nfail 20 cell c0 2\nfail 23 out G17\nfail 24 cell c0 2\nfail 24 cell c0 0\nfail 31 cell c0 2\nfail 31 cell c0 1\nfail 31 cell c0 0\nfail 32 cell c0 0\nfail 37 cell c0 1\nfail 38 cell c0 2\nfail 38 cell c0 1\nfail 38 cell c0 0\nfail 45 cell c0 1\nfail 45 cell c0 0\nfail 52 cell c0 1\nfail 59 cell c0 2\nfail 59 cell c0 1\nfail 59 cell c0 0\nfail 62 out G17\nfail 62 cell c0 0\nfail 63 cell c0 0\nfail 66 cell c0 2\nfail 66 cell c0 1\nfail 66 cell c0 0\nend\n",
    ],
};

// A gate that reads a net twice, and a flop in no chain.
pub(crate) const ODD_DIE: Row = Row {
    netlist: b"INPUT(a)\nOUTPUT(y)\nf = DFF(y)\ng = DFF(n)\nh = DFF(f)\nn = XOR(a, a)\nm = AND(f, h)\ny = OR(m, n)\n",
    scan: b"CHAIN c g h\n",
    patterns: "CAPTURE 1 0X\nSHIFT 10\nCAPTURE X 11\nCAPTURE 0 10\nSHIFT X1\n",
    pairs: b"",
    logs: [
        b"FAILLOG 1\ndie D1\ndesign d\ntested 0 66\nfail 3 out y\nfail 3 cell c 1\nfail 3 cell c 0\nfail 5 cell c 0\nfail 10 cell c 1\nfail 13 cell c 0\nfail 17 cell c 1\nfail 17 cell c 0\nfail 23 out y\nfail 23 cell c 0\nfail 24 cell c 1\nfail 24 cell c 0\nfail 31 cell c 1\nfail 31 cell c 0\nfail 38 cell c 1\nfail 38 cell c 0\nfail 43 cell c 0\nfail 45 cell c 1\nfail 45 cell c 0\nfail 51 cell c 1\nfail 52 cell c 1\nfail 52 cell c 0\nfail 59 cell c 1\nfail 59 cell c 0\nfail 66 cell c 1\nfail 66 cell c 0\nend\n",
        b"FAILLOG 1\ndie D1\ndesign d\ntested 0 66\nfail 3 out y\nfail 3 cell c 1\nfail 3 cell c 0\nfail 5 cell c 0\nfail 10 cell c 1\nfail 17 cell c 1\nfail 17 cell c 0\nfail 23 out y\nfail 23 cell c 0\nfail 24 cell c 1\nfail 31 cell c 1\nfail 31 cell c 0\nfail 38 cell c 1\nfail 38 cell c 0\nfail 43 cell c 0\nfail 45 cell c 0\nfail 51 cell c 1\nfail 52 cell c 1\nfail 52 cell c 0\nfail 59 cell c 1\nfail 59 cell c 0\nfail 66 cell c 1\nfail 66 cell c 0\nend\n",
    ],
};

/// The design d of a row, in profile 2.
pub(crate) fn design(rt: &impl Abort, alloc: Global, row: &Row) -> Design {
    let patterns = row.patterns.repeat(alloc, 14).expect(rt, "memory");
    let design = design_of(
        alloc,
        b"d",
        Profile::Two,
        row.netlist,
        row.scan,
        patterns.as_bytes(),
        row.pairs,
    )
    .expect(rt, "a design");
    drop(patterns);
    design
}
