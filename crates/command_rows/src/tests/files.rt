//! The files of all runs.
use desk_outside::File;
use scan_model::{Name, Rows};
use std::alloc::Global;
use std::process::Abort;

const C17: &[u8] =
    b"INPUT(1)\nINPUT(2)\nINPUT(3)\nINPUT(6)\nINPUT(7)\nOUTPUT(22)\nOUTPUT(23)\n10 = NAND(1, 3)\n11 = NAND(3, 6)\n16 = NAND(2, 11)\n19 = NAND(11, 7)\n22 = NAND(10, 16)\n23 = NAND(16, 19)\n";

const FAILS: &[u8] = b"FAILLOG 1\ndie D1\ndesign c17\ntested 0 0\nfail 0 out 22\nend\n";

// The files of all runs, by their names.
const FILES: &[(&[u8], &[u8])] = &[
    (b"net", C17),
    (b"scan", b""),
    (b"pat", b"CAPTURE 11111\n"),
    (b"near", b""),
    (b"log", FAILS),
    (b"copy", FAILS),
];

fn add(rt: &impl Abort, alloc: Global, files: &mut Rows<File>, name: &[u8], text: &[u8]) {
    let name = Name::copy_of(alloc, name).expect(rt, "memory");
    let text = Name::copy_of(alloc, text).expect(rt, "memory");
    files.push(File { name, text }).expect(rt, "memory");
}

pub fn files_in_memory(rt: &impl Abort, alloc: Global) -> Rows<File> {
    let mut files = Rows::new(alloc);
    for (name, text) in FILES {
        add(rt, alloc, &mut files, name, text);
    }
    files
}
