//! The objects in memory of which no call fails.
use super::files::files_in_memory;
use desk_outside::{
    Deed, DeedKind, Keeper, Link, LinkRead, Shelf, ShelfAnswer, SureKeeper, SureLink, SureShelf,
    SureSink, are_distinct, send_all, write_all,
};
use scan_model::{Name, Rows};

#[test]
fn a_file_goes_from_a_shelf_to_a_sink(rt: HostRuntime) {
    let files = files_in_memory(&rt, rt.alloc());
    assert!(rt; are_distinct(files.as_slice()));
    let mut shelf = SureShelf::make(rt.alloc(), files).expect(&rt, "memory");
    let mut text = Vec::new(rt.alloc());
    assert!(rt; shelf.read("gone", 14, &mut text) == ShelfAnswer::Absent);
    assert!(rt; shelf.read("pat", 13, &mut text) == ShelfAnswer::TooLong);
    assert!(rt; shelf.read("pat", 14, &mut text) == ShelfAnswer::Read);
    assert!(rt; text.as_slice() == b"CAPTURE 11111\n".as_slice());
    let mut sink = SureSink::make(rt.alloc()).expect(&rt, "memory");
    assert!(rt; write_all(&mut sink, &text) == Ok(()));
}

// A deed is kept, and is the last.
fn keeps(keeper: &mut SureKeeper, deed: &Deed) -> bool {
    keeper.append(deed).is_ok()
        && matches!(keeper.row(0), Ok(Some(kept)) if kept.by == deed.by)
        && matches!(keeper.row(1), Ok(None))
}

#[test]
fn a_deed_is_kept(rt: HostRuntime) {
    let name = Name::copy_of(rt.alloc(), b"c").expect(&rt, "memory");
    let text = Name::new(rt.alloc());
    let what = DeedKind::Design { name, text };
    let mut keeper = SureKeeper::make(rt.alloc(), Rows::new(rt.alloc())).expect(&rt, "memory");
    assert!(rt; keeps(&mut keeper, &Deed { by: 7, what }));
}

#[test]
fn a_link_takes_what_is_sent(rt: HostRuntime) {
    let mut link = SureLink::make(rt.alloc(), Name::new(rt.alloc())).expect(&rt, "memory");
    assert!(rt; send_all(&mut link, b"yes") == Ok(()));
    assert!(rt; link.read(&mut [0; 2]) == LinkRead::End);
}
