//! What two seats of a desk are told: one that did nothing finds what the other put, and a sign-off
//! stays with its revision.
ghost use Rattle.std.specs.Prelude.{◌≡◌};

use super::super::desks::{finish_two, start_two};
use super::super::new_keeper;
use super::calls::{c17, put_log, sign_first};
use book::{LookFault, Put, PutFault, Sign};
use desk_outside::MemKeeper;
use scan_model::Digest;
use shared_desk::{Desk, DeskSeat, Marked};
use std::alloc::Global;
use std::process::Abort;
use std::sync::Wait;
use std::thread::Threads;

const FAILS: &[u8] = b"FAILLOG 1\ndie D1\ndesign c17\ntested 0 0\nfail 0 out 22\nend\n";

const PASSES: &[u8] = b"FAILLOG 1\ndie D1\ndesign c17\ntested 0 0\nend\n";

// SHA-256 of the report of c17's die of which 22 fails.
const RIGHT: [u8; 32] = [
    0xf8, 0xb6, 0x58, 0xff, 0x1c, 0x75, 0x35, 0xfc, 0xdb, 0x3e, 0x94, 0xbb, 0xc5, 0x99, 0x98, 0xac,
    0xa3, 0xc6, 0x39, 0xea, 0x60, 0xab, 0xb6, 0x00, 0xf8, 0x5c, 0x4b, 0x97, 0x4f, 0xf6, 0xae, 0x23,
];

// Whether the answer at this mark is that a deed was made, or was there already, with this number.
fn is_put(put: &Marked<Result<Put, PutFault>>, mark: u64, due: &Put) -> bool {
    put.mark == mark && matches!(&put.answer, Ok(told) if told == due)
}

fn is_refused(put: &Marked<Result<Put, PutFault>>, mark: u64) -> bool {
    put.mark == mark
        && matches!(&put.answer, Err(PutFault::DigestDiffers { right }) if right.as_bytes() == &RIGHT)
}

// The design and a log are put.
fn put_both<R: Abort + Threads + Wait + Sync>(
    rt: &R,
    alloc: Global,
    desk: &Desk<MemKeeper>,
    seat: &mut DeskSeat,
)
    requires { seat.old.desk ≡ desk.now }
    ensures desk { seat.new.desk ≡ seat.old.desk }
    ensures number { seat.new.number ≡ seat.old.number }
{
    let c17 = c17(alloc).expect(rt, "memory");
    let design = desk.put_design(rt, seat, &c17);
    assert!(rt; is_put(&design, 1, &Put::Created { number: 1 }));
    let log = put_log(rt, alloc, desk, seat, b"c17", FAILS).expect(rt, "memory");
    assert!(rt; is_put(&log, 2, &Put::Created { number: 1 }));
}

// A look finds the log, and its report is signed by the right digest alone.
fn find_and_sign<R: Abort + Threads + Wait + Sync>(
    rt: &R,
    alloc: Global,
    desk: &Desk<MemKeeper>,
    seat: &mut DeskSeat,
)
    requires { seat.old.desk ≡ desk.now }
    ensures desk { seat.new.desk ≡ seat.old.desk }
    ensures number { seat.new.number ≡ seat.old.number }
{
    let looked = desk.look_die(rt, seat, b"c17", b"D1", None);
    assert_eq!(rt; looked.mark, 2);
    assert!(rt; matches!(&looked.answer, Ok(view) if view.revision() == 1));
    let wrong = sign_first(rt, alloc, desk, seat, &Digest::from_bytes([0; 32]));
    assert!(rt; is_refused(&wrong, 2));
    let right = sign_first(rt, alloc, desk, seat, &Digest::from_bytes(RIGHT));
    assert!(rt; is_put(&right, 3, &Put::Created { number: 1 }));
}

fn is_signed(sign: &Result<Sign, LookFault>) -> bool {
    matches!(sign, Ok(sign) if sign.revision == 1 && sign.digest.as_bytes() == &RIGHT)
}

// Behind another log the sign-off is there as it was.
fn find_signed<R: Abort + Threads + Wait + Sync>(
    rt: &R,
    alloc: Global,
    desk: &Desk<MemKeeper>,
    seat: &mut DeskSeat,
)
    requires { seat.old.desk ≡ desk.now }
    ensures desk { seat.new.desk ≡ seat.old.desk }
    ensures number { seat.new.number ≡ seat.old.number }
{
    let log = put_log(rt, alloc, desk, seat, b"c17", PASSES).expect(rt, "memory");
    assert!(rt; is_put(&log, 4, &Put::Created { number: 2 }));
    let again = sign_first(rt, alloc, desk, seat, &Digest::from_bytes(RIGHT));
    assert!(rt; is_put(&again, 4, &Put::Same { number: 1 }));
    let sign = desk.look_sign(rt, seat, b"c17", b"D1", 1);
    assert!(rt; is_signed(&sign.answer));
}

#[test]
fn seats_are_told(rt: HostRuntime) {
    let alloc = rt.alloc();
    let (desk, mut first, mut second) = start_two(&rt, alloc, new_keeper(&rt, alloc), 10);
    put_both(&rt, alloc, &desk, &mut first);
    find_and_sign(&rt, alloc, &desk, &mut second);
    find_signed(&rt, alloc, &desk, &mut first);
    let book = finish_two(&rt, alloc, desk, first, second);
    assert_eq!(rt; book.deeds(), 4);
}
