//! What a worker asks of a desk.
ghost use Rattle.std.specs.Prelude.{◌≡◌, ◌<◌, length};
ghost use Rattle.book.specs.Changes.{IsViewIn};

use book::{Design, DieView, Put, PutFault, check_report, log_of, read_bundle};
use desk_outside::MemKeeper;
use scan_model::{Digest, Name, NoMemory};
use shared_desk::{Desk, DeskSeat, Marked};
use std::alloc::Global;
use std::process::Abort;
use std::sync::{Arc, Wait};
use std::thread::Threads;

const BUNDLE: &[u8] =
    b"%netlist\nINPUT(1)\nINPUT(2)\nINPUT(3)\nINPUT(6)\nINPUT(7)\nOUTPUT(22)\nOUTPUT(23)\n10 = NAND(1, 3)\n11 = NAND(3, 6)\n16 = NAND(2, 11)\n19 = NAND(11, 7)\n22 = NAND(10, 16)\n23 = NAND(16, 19)\n%scan\n%patterns\nCAPTURE 11111\n%neighbours\n";

/// The design c17.
pub(super) fn c17(alloc: Global) -> Result<Arc<Design>, NoMemory> {
    match read_bundle(alloc, b"c17", BUNDLE) {
        Ok(design) => Ok(Arc::new(alloc, design)?),
        Err(_) => Err(NoMemory),
    }
}

/// Puts a log of die D1, as a worker does that looks for the design first.
pub(super) fn put_log<R: Wait>(
    rt: &R,
    alloc: Global,
    desk: &Desk<MemKeeper>,
    seat: &mut DeskSeat,
    name: &[u8],
    text: &[u8],
) -> Result<Marked<Result<Put, PutFault>>, NoMemory>
    requires { seat.old.desk ≡ desk.now }
    ensures desk { seat.new.desk ≡ seat.old.desk }
    ensures number { seat.new.number ≡ seat.old.number }
{
    let looked = desk.look_design(rt, seat, name);
    let Ok(design) = looked.answer else {
        return Err(NoMemory);
    };
    let _design = design.name();
    let Ok(log) = log_of(alloc, &design, b"D1", text) else {
        return Err(NoMemory);
    };
    let log = Arc::new(alloc, log)?;
    Ok(desk.put_log(rt, seat, &log))
}

// Signs the revision that the seat has seen.
fn sign_view<R: Abort + Threads + Wait + Sync>(
    rt: &R,
    alloc: Global,
    desk: &Desk<MemKeeper>,
    seat: &mut DeskSeat,
    view: &DieView,
    digest: &Digest,
) -> Marked<Result<Put, PutFault>>
    requires desk { seat.old.desk ≡ desk.now }
    requires logs { 0 < length view.now.logs }
    requires view { IsViewIn seat.old.seen view.now }
    ensures desk { seat.new.desk ≡ seat.old.desk }
    ensures number { seat.new.number ≡ seat.old.number }
{
    let checked = check_report(rt, alloc, view).expect(rt, "memory");
    let signer = Name::copy_of(alloc, b"ann").expect(rt, "memory");
    desk.sign(rt, seat, &checked, &signer, digest)
}

/// Signs the first revision of die D1 of c17, as a worker does that looks at the die first.
pub(super) fn sign_first<R: Abort + Threads + Wait + Sync>(
    rt: &R,
    alloc: Global,
    desk: &Desk<MemKeeper>,
    seat: &mut DeskSeat,
    digest: &Digest,
) -> Marked<Result<Put, PutFault>>
    requires { seat.old.desk ≡ desk.now }
    ensures desk { seat.new.desk ≡ seat.old.desk }
    ensures number { seat.new.number ≡ seat.old.number }
{
    let looked = desk.look_die(rt, seat, b"c17", b"D1", Some(1));
    let Ok(view) = looked.answer else {
        rt.panic("the die is there");
    };
    assert!(rt; view.revision() != 0);
    sign_view(rt, alloc, desk, seat, &view, digest)
}
