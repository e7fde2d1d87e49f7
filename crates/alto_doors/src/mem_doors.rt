ghost use Rattle.std.specs.Prelude.{◌≡◌, ◌<◌, ◌+◌, ◌≤◌, ◌++◌, [], IfOk, IfSome, length, vec_len, vec_capacity};
ghost use Rattle.std.specs.List.{position_from};
ghost use Rattle.alto_doors.specs.Calls.{fails};
ghost use Rattle.alto_doors.specs.Door.{just_opened};
ghost use Rattle.alto_doors.specs.Doors.{at_first};
ghost use Rattle.alto_doors.specs.MemDoors.{waits_at};

use crate::counts::DoorCounts;
use crate::doors::Doors;
use crate::fault::DoorFault;
use crate::key::DoorKey;
use crate::mem_door::MemDoor;
use crate::waiting::Waiting;
use alto_addr::Addr;
use alto_answers::Side;
use alto_http::{Failed, Link};
use alto_serve::Served;
use std::alloc::{AllocError, Global};

/// Doors in memory, for tests. Each open gives the next of the doors that were made for its side and address, and one
/// that gives no connection where none is left. Chosen opens fail.
#[derive(Drop)]
pub struct MemDoors<L> {
    waiting: Vec<Waiting<L>>,
    failing: Vec<u64>,
    opens: u64,
    room: usize,
    served: Vec<Served<L>>,
    counts: DoorCounts,
}

impl<L: Drop> MemDoors<L> {
    ghost use Rattle.std.specs.Prelude.{OnOk, OnErr};
    ghost use Rattle.alto_doors.specs.MemDoors.{IsAdded};

    /// Doors of which none waits to be opened.
    pub fn new(alloc: Global) -> MemDoors<L>
        ensures waiting { result.waiting.items ≡ [] }
        ensures failing { result.failing.items ≡ [] }
        ensures opens { result.opens ≡ 0 }
        ensures served { result.served.items ≡ [] }
        ensures counts { result.counts ≡ at_first }
    {
        MemDoors {
            waiting: Vec::new(alloc),
            failing: Vec::new(alloc),
            opens: 0,
            room: 0,
            served: Vec::new(alloc),
            counts: DoorCounts::new(),
        }
    }

    /// The same, where the opens of these numbers fail, counted from 0.
    pub fn with_failing(mut self, opens: Vec<u64>) -> MemDoors<L>
        ensures { result ≡ record self { failing = opens } }
    {
        self.failing = opens;
        self
    }

    /// Adds a door that waits to be opened at a side and an address, behind those that wait there already. It gives
    /// these connections, and its accepts of these numbers fail, counted from 0.
    pub fn add_door(
        &mut self,
        alloc: Global,
        side: Side,
        address: &str,
        connections: Vec<(L, Option<Addr>)>,
        failing: Vec<u64>,
    ) -> Result<(), AllocError>
        ensures added { OnOk result (IsAdded side address.now connections.items failing.items
            self.old.waiting.items self.new.waiting.items) }
        ensures refused { OnErr result (self.new.waiting.items ≡ self.old.waiting.items) }
        ensures served { self.new.served.items ≡ self.old.served.items }
        ensures counts { self.new.counts ≡ self.old.counts }
    {
        self.room = self.room.saturating_add(connections.len());
        self.served.reserve(self.room)?;
        let key = DoorKey::new(alloc, side, address)?;
        let door = MemDoor::new(alloc, connections, failing)?;
        self.waiting.push(Waiting::new(key, door))?;
        Ok(())
    }

    /// What was counted.
    pub fn counts(&self) -> DoorCounts
        ensures { result ≡ self.now.counts }
    {
        self.counts
    }

    /// The links that were given back to the doors that were closed, in turn.
    pub fn served(&self) -> &[Served<L>]
        ensures { result.now ≡ self.now.served.items }
    {
        &self.served
    }
}

impl<L: Link + Drop> Doors for MemDoors<L> {
    ghost use Rattle.std.specs.Prelude.{is_err, OnErr};
    ghost use Rattle.alto_http.specs.Link.{one_more};
    ghost use Rattle.alto_doors.specs.Door.{has_failed};
    ghost use Rattle.alto_doors.specs.Doors.{closed, opened};
    ghost use Rattle.alto_doors.specs.MemDoors.{Opens};

    type Link = L;

    type Door = MemDoor<L>;

    ghost counts = { λ doors. doors.counts };

    fn open(&mut self, alloc: Global, side: Side, address: &str) -> Result<MemDoor<L>, DoorFault>
        ensures fails { is_err result ≡ fails self.old.failing.items self.old.opens }
        ensures called { self.new.opens ≡ one_more self.old.opens }
        ensures opens { IfOk result (Opens side address.now self.old.waiting.items self.new.waiting.items) }
        ensures refused { OnErr result (self.new.waiting.items ≡ self.old.waiting.items) }
        ensures failing { self.new.failing ≡ self.old.failing }
        ensures served { self.new.served ≡ self.old.served }

        ensures fresh { IfOk result (λ door. door.state ≡ just_opened) }
        ensures counted { self.new.counts ≡ opened result self.old.counts }
    {
        let call = self.opens;
        self.opens = call.saturating_add(1);
        if self.failing.contains(&call) {
            return Err(self.counts.fail_open());
        }
        match next_at(&self.waiting, side, address) {
            Some(place) => Ok(self.waiting.remove(place).into_door()),
            None => Ok(MemDoor::empty(alloc)),
        }
    }

    /// Keeps the links that were given back to the door, for which `add_door` made room.
    fn close(&mut self, door: MemDoor<L>) -> Result<(), Failed>
        ensures kept { vec_len self.old.served + vec_len door.served ≤ vec_capacity self.old.served
            → self.new.served.items ≡ self.old.served.items ++ door.served.items }
        ensures waiting { self.new.waiting ≡ self.old.waiting }

        ensures failed { is_err result ≡ has_failed door.state }
        ensures counted { self.new.counts ≡ closed door.state self.old.counts }
    {
        let state = door.state();
        let _ = self.served.append(&mut door.into_served());
        self.counts.close(state)
    }
}

/// The place of the first door that waits at a side and an address.
fn next_at<L>(waiting: &[Waiting<L>], side: Side, address: &str) -> Option<usize>
    ensures place { result ≡ position_from (waits_at side address.now) 0 waiting.now }
    ensures within { IfSome result (λ place. place < length waiting.now) }
{
    waiting.iter().position(|door| door.is_at(side, address))
}
