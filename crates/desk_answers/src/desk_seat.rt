//! A seat of a shared desk, as a seat that sessions ask.
ghost use Rattle.desk_answers.specs.DeskSeats.{of_desk, IsSeatOf};

use crate::seat::SeatAt;
use book::{CheckedView, Design, DieView, LookFault, Put, PutFault, ReadLog, Sign};
use desk_outside::Keeper;
use scan_model::{Digest, Name};
use shared_desk::{Desk, DeskSeat};
use std::sync::{Arc, Wait};

impl<R: Wait, K: Keeper> SeatAt<R, Desk<K>> for DeskSeat {
    ghost facts = { λ seat desk. of_desk seat };

    ghost belongs = { λ seat desk. IsSeatOf seat desk };

    fn mark(&self, desk: &Desk<K>) -> u64 {
        DeskSeat::mark(self)
    }

    fn put_design(
        &mut self,
        rt: &R,
        desk: &Desk<K>,
        design: &Arc<Design>,
    ) -> Result<Put, PutFault> {
        // The deeds of the opening are among those that it has seen.
        let _mark = DeskSeat::mark(self);
        desk.put_design(rt, self, design).answer
    }

    fn put_log(&mut self, rt: &R, desk: &Desk<K>, log: &Arc<ReadLog>) -> Result<Put, PutFault> {
        // The deeds of the opening are among those that it has seen.
        let _mark = DeskSeat::mark(self);
        desk.put_log(rt, self, log).answer
    }

    fn sign(
        &mut self,
        rt: &R,
        desk: &Desk<K>,
        checked: &CheckedView,
        signer: &Name,
        digest: &Digest,
    ) -> Result<Put, PutFault> {
        // The deeds of the opening are among those that it has seen.
        let _mark = DeskSeat::mark(self);
        desk.sign(rt, self, checked, signer, digest).answer
    }

    fn look_design(
        &mut self,
        rt: &R,
        desk: &Desk<K>,
        name: &[u8],
    ) -> Result<Arc<Design>, LookFault> {
        // The deeds of the opening are among those that it has seen.
        let _mark = DeskSeat::mark(self);
        desk.look_design(rt, self, name).answer
    }

    fn look_die(
        &mut self,
        rt: &R,
        desk: &Desk<K>,
        design: &[u8],
        die: &[u8],
        revision: Option<u64>,
    ) -> Result<DieView, LookFault> {
        // The deeds of the opening are among those that it has seen.
        let _mark = DeskSeat::mark(self);
        desk.look_die(rt, self, design, die, revision).answer
    }

    fn look_sign(
        &mut self,
        rt: &R,
        desk: &Desk<K>,
        design: &[u8],
        die: &[u8],
        number: u64,
    ) -> Result<Sign, LookFault> {
        // The deeds of the opening are among those that it has seen.
        let _mark = DeskSeat::mark(self);
        desk.look_sign(rt, self, design, die, number).answer
    }
}
