//! A door in memory.
ghost use Rattle.std.specs.Prelude.{◌≡◌, ◌≤◌, ◌<◌, ◌+◌, ◌∷◌, ◌++◌, ℕ, List, Option, Some, None, IfOk, IsOk, OnOk, OnErr, [], length, vec_len, vec_capacity, All, false, not, ◌==◌};
ghost use Rattle.desk_outside.specs.Doors.{DoorTold, handed, came_home, fresh_door};
ghost use Rattle.desk_outside.specs.Faults.{Rose};
ghost use Rattle.desk_outside.specs.LinkMemory.{link_left, link_sent, link_calls, IsUnusedLink, IsEmptyLink};
ghost use Rattle.desk_outside.specs.Schedule.{fresh_calls, fails_next, after_call, after_failure};

use super::link::MemLink;
use crate::calls::{Calls, Failed};
use crate::door::{Door, LinkHome};
use crate::street::DoorHome;
use scan_model::{Name, NoMemory, Rows};
use std::alloc::Global;

/// Connections in memory, which are handed out in order, and after the last of them connections with nothing left. The
/// calls of `next` that are listed fail, and so does one for which there is no memory.
#[derive(Drop)]
pub struct MemDoor {
    alloc: Global,
    links: Vec<MemLink>,
    given: Vec<Name>,
    done: Vec<LinkHome>,
    out: usize,
    calls: Calls,
    ghost room: { vec_len done + out ≤ vec_capacity done },
    ghost unused: { All IsUnusedLink links.items },
}

// Takes out the next connection, or makes one with nothing left after the last, and notes what it has left.
fn next_link(
    alloc: Global,
    links: &mut Vec<MemLink>,
    given: &mut Vec<Name>,
) -> Result<MemLink, NoMemory>
    requires unused { All IsUnusedLink links.old.items }
    ensures unused { IfOk result IsUnusedLink }
    ensures in_order { IfOk result (λ link. 0 < length links.old.items → links.old.items ≡ link ∷ links.new.items) }
    ensures after_last { IfOk result (λ link. links.old.items ≡ [] → IsEmptyLink link × (links.new.items ≡ [])) }
    ensures kept { OnErr result (links.new.items ≡ links.old.items) }
    ensures others { All IsUnusedLink links.new.items }
    ensures given { IfOk result (λ link. given.new.items ≡ given.old.items ++ link_left link ∷ []) }
    ensures same { OnErr result (given.new.items ≡ given.old.items) }
{
    if links.is_empty() {
        given.push(Rows::new(alloc))?;
        return Ok(MemLink::empty(alloc));
    }
    let left = links[0].copy_left(alloc)?;
    given.push(left)?;
    Ok(links.remove(0))
}

// Hands out the next connection, notes what it has left, and takes the room for its coming home.
fn hand_out(
    alloc: Global,
    links: &mut Vec<MemLink>,
    given: &mut Vec<Name>,
    done: &mut Vec<LinkHome>,
    out: usize,
) -> Result<MemLink, NoMemory>
    requires unused { All IsUnusedLink links.old.items }
    requires room { vec_len done.old + out ≤ vec_capacity done.old }
    ensures unused { IfOk result IsUnusedLink }
    ensures in_order { IfOk result (λ link. 0 < length links.old.items → links.old.items ≡ link ∷ links.new.items) }
    ensures after_last { IfOk result (λ link. links.old.items ≡ [] → IsEmptyLink link × (links.new.items ≡ [])) }
    ensures kept { OnErr result (links.new.items ≡ links.old.items) }
    ensures others { All IsUnusedLink links.new.items }
    ensures given { IfOk result (λ link. given.new.items ≡ given.old.items ++ link_left link ∷ []) }
    ensures same { OnErr result (given.new.items ≡ given.old.items) }
    ensures done { done.new.items ≡ done.old.items }
    ensures room { vec_len done.new + out ≤ vec_capacity done.new }
    ensures more_room { OnOk result (vec_len done.new + out + 1 ≤ vec_capacity done.new) }
{
    done.reserve(out + 1)?;
    next_link(alloc, links, given)
}

impl MemDoor {
    ghost use Rattle.desk_outside.specs.DoorMemory.{door_links, door_told, door_calls};

    /// A door with these links, which are unused, and of which no call is listed.
    pub fn make(alloc: Global, links: Rows<MemLink>) -> Result<MemDoor, NoMemory>
        requires { All IsUnusedLink links }
        ensures ok { IsOk result }
        ensures links { IfOk result (λ d. door_links d ≡ links) }
        ensures told { IfOk result (λ d. door_told d ≡ fresh_door) }
        ensures calls { IfOk result (λ d. door_calls d ≡ fresh_calls []) }
    {
        Ok(MemDoor {
            alloc,
            links: links.into_vec(),
            given: Vec::new(alloc),
            done: Vec::new(alloc),
            out: 0,
            calls: Calls::sure(alloc),
        })
    }

    /// A door with these links, which are unused, and whose calls of `next` with these numbers fail, counted from 1.
    pub fn make_failing(
        alloc: Global,
        links: Rows<MemLink>,
        calls: Rows<u64>,
    ) -> Result<MemDoor, NoMemory>
        requires { All IsUnusedLink links }
        ensures ok { IsOk result }
        ensures links { IfOk result (λ d. door_links d ≡ links) }
        ensures told { IfOk result (λ d. door_told d ≡ fresh_door) }
        ensures calls { IfOk result (λ d. door_calls d ≡ fresh_calls calls) }
    {
        Ok(MemDoor {
            alloc,
            links: links.into_vec(),
            given: Vec::new(alloc),
            done: Vec::new(alloc),
            out: 0,
            calls: Calls::failing(calls),
        })
    }

    /// The bytes that each link had left when it was handed out, in that order.
    pub fn given(&self) -> &[Name]
        ensures { result.now ≡ (door_told self.now).given }
    {
        &self.given
    }

    /// The links that are home, in the order of coming home.
    pub fn done(&self) -> &[LinkHome]
        ensures { result.now ≡ (door_told self.now).done }
    {
        &self.done
    }
}

impl MemDoor {
    ghost use Rattle.desk_outside.specs.DoorMemory.{door_told, door_calls, IsEmptyDoor};

    // A door without links, of which no call is listed.
    pub(crate) fn empty(alloc: Global) -> MemDoor
        ensures { IsEmptyDoor result }
    {
        MemDoor {
            alloc,
            links: Vec::new(alloc),
            given: Vec::new(alloc),
            done: Vec::new(alloc),
            out: 0,
            calls: Calls::sure(alloc),
        }
    }

    // Both its lists, and whether it has failed.
    pub(crate) fn into_home(self) -> DoorHome
        ensures given { result.given ≡ (door_told self).given }
        ensures done { result.done ≡ (door_told self).done }
        ensures failed { result.failed ≡ not ((door_calls self).faults == 0) }
    {
        let MemDoor {
            given,
            done,
            calls,
            ..
        } = self;
        DoorHome {
            given: Rows::from_vec(given),
            done: Rows::from_vec(done),
            failed: calls.faults != 0,
        }
    }
}

impl Door for MemDoor {
    ghost use Rattle.desk_outside.specs.DoorMemory.{door_links, door_told, door_calls};

    type L = MemLink;

    ghost told = { λ d. Some (door_told d) };

    ghost faults = { λ d. (door_calls d).faults };

    fn next(&mut self) -> Result<MemLink, Failed>
        ensures unfailed { IfOk result (λ link. (link_calls link).faults ≡ 0) }
        ensures unsent { IfOk result (λ link. (sent : List ℕ) → Some (link_sent link) ≡ Some sent → sent ≡ []) }
        ensures handed { IfOk result (λ link. (told_old : DoorTold) → Some (door_told self.old) ≡ Some told_old
            → (left : List ℕ) × (Some (link_left link) ≡ Some left) × (Some (link_sent link) ≡ Some []) × (Some (door_told self.new) ≡ Some (handed told_old left))) }
        ensures same { OnErr result (Some (door_told self.new) ≡ Some (door_told self.old)) }
        ensures silent { Some (door_told self.old) ≡ None → Some (door_told self.new) ≡ None }
        ensures later { (door_calls self.old).faults ≤ (door_calls self.new).faults }
        ensures failed { OnErr result (Rose (door_calls self.old).faults (door_calls self.new).faults) }

        // The links are handed out in order, and after the last come links with nothing left.
        ensures in_order { IfOk result (λ link. 0 < length (door_links self.old) → door_links self.old ≡ link ∷ door_links self.new) }
        ensures after_last { IfOk result (λ link. door_links self.old ≡ [] → IsEmptyLink link × (door_links self.new ≡ [])) }
        ensures kept { OnErr result (door_links self.new ≡ door_links self.old) }

        // Its count rises in a call that is listed, or that finds no memory, and in no other.
        ensures listed { OnOk result (fails_next (door_calls self.old) ≡ false) }
        ensures counted { OnOk result (door_calls self.new ≡ after_call (door_calls self.old)) }
        ensures refused { OnErr result (door_calls self.new ≡ after_failure (door_calls self.old)) }
    {
        if self.calls.fails() {
            return Err(Failed);
        }
        let made = hand_out(
            self.alloc,
            &mut self.links,
            &mut self.given,
            &mut self.done,
            self.out,
        );
        match made {
            Ok(link) => {
                self.out += 1;
                Ok(link)
            }
            Err(NoMemory) => {
                self.calls.fault();
                Err(Failed)
            }
        }
    }

    fn back(&mut self, link: MemLink)
        requires { (told_old : DoorTold) → Some (door_told self.old) ≡ Some told_old → 0 < told_old.out }
        ensures home { (told_old : DoorTold) (sent : List ℕ) → Some (door_told self.old) ≡ Some told_old → Some (link_sent link) ≡ Some sent
            → Some (door_told self.new) ≡ Some (came_home told_old sent (link_calls link).faults) }
        ensures silent { Some (door_told self.old) ≡ None → Some (door_told self.new) ≡ None }
        ensures count { (door_calls self.new).faults ≡ (door_calls self.old).faults }
        ensures later { (door_calls self.old).faults ≤ (door_calls self.new).faults }
        ensures kept { door_links self.new ≡ door_links self.old }
        ensures calls { door_calls self.new ≡ door_calls self.old }
    {
        let served = link.into_home();
        // The room was taken when a link was handed out.
        let _ = self.done.push(served);
        self.out -= 1;
    }
}
