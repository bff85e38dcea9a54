//! `serve` over a cabinet without memory.
ghost use Rattle.std.specs.Prelude.{◌≡◌};

use super::runs::{cabinet, shelf, sink, street, strings};
use desk_outside::{Cabinet, KeepFault};
use desk_run::run;
use scan_model::Rows;

// A cabinet that has no memory for a keeper.
#[derive(Drop)]
struct LackingCabinet<C: Cabinet> {
    cabinet: C,
}

impl<C: Cabinet> Cabinet for LackingCabinet<C> {
    type K = C::K;

    ghost told = { λ c. C.told c.cabinet };

    ghost faults = { λ c. C.faults c.cabinet };

    fn keeper(&mut self, _: &str) -> Result<C::K, KeepFault> {
        Err(KeepFault::NoMemory)
    }

    fn back(&mut self, keeper: C::K) {
        self.cabinet.back(keeper);
    }
}

#[test]
fn a_cabinet_without_memory(rt: HostRuntime) {
    let alloc = rt.alloc();
    let words = strings(&rt, alloc, &["serve", "8080", "1", "1", "desk"]);
    let mut street = street(&rt, alloc, Rows::new(alloc), 0);
    let mut cabinet = LackingCabinet {
        cabinet: cabinet(&rt, alloc, Rows::new(alloc), 0),
    };
    let mut sink = sink(&rt, alloc, 0);
    let status = run(
        &rt,
        alloc,
        &words,
        &mut shelf(&rt, alloc, 0),
        &mut sink,
        &mut street,
        &mut cabinet,
    );
    assert_eq!(rt; status, 8);
    assert_eq!(rt; sink.bytes(), b"memory\n".as_slice());
    assert!(rt; street.ports().is_empty());
}
