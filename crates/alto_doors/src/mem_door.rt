ghost use Rattle.std.specs.Prelude.{◌≡◌, ◌<◌, ◌+◌, ◌≤◌, [], true, vec_len, vec_capacity, IfOk};
ghost use Rattle.std.specs.VecDeque.{deque_len};
ghost use Rattle.alto_doors.specs.Calls.{fails};
ghost use Rattle.alto_doors.specs.Door.{just_opened};

use crate::door::Door;
use crate::state::DoorState;
use alto_addr::Addr;
use alto_http::{Failed, Link};
use alto_serve::Served;
use std::alloc::{AllocError, Global};
use std::collections::VecDeque;

/// A door in memory, for tests. It gives its connections one after another and then None, chosen accepts fail, and it
/// keeps what was given back.
#[derive(Drop)]
pub struct MemDoor<L> {
    left: VecDeque<(L, Option<Addr>)>,
    served: Vec<Served<L>>,
    failing: Vec<u64>,
    accepts: u64,
    state: DoorState,
    ghost ended: { state.has_ended ≡ true → deque_len left ≡ 0 },
    ghost room: { vec_len served + deque_len left ≤ vec_capacity served },
    ghost room_out: { state.is_out ≡ true → vec_len served + deque_len left < vec_capacity served },
}

impl<L> MemDoor<L> {
    /// A door that was just opened and gives these connections. The accepts of these numbers fail, counted from 0.
    pub(crate) fn new(
        alloc: Global,
        connections: Vec<(L, Option<Addr>)>,
        failing: Vec<u64>,
    ) -> Result<MemDoor<L>, AllocError>
    where
        L: Drop,
        ensures left { IfOk result (λ door. door.left.items ≡ connections.items) }
        ensures served { IfOk result (λ door. door.served.items ≡ []) }
        ensures failing { IfOk result (λ door. door.failing ≡ failing) }
        ensures accepts { IfOk result (λ door. door.accepts ≡ 0) }
        ensures state { IfOk result (λ door. door.state ≡ just_opened) }
    {
        Ok(MemDoor {
            served: Vec::with_capacity(alloc, connections.len())?,
            left: VecDeque::from(connections),
            failing,
            accepts: 0,
            state: DoorState::new(),
        })
    }

    /// A door that was just opened and gives no connection. Takes no memory.
    pub(crate) fn empty(alloc: Global) -> MemDoor<L>
        ensures left { result.left.items ≡ [] }
        ensures served { result.served.items ≡ [] }
        ensures failing { result.failing.items ≡ [] }
        ensures accepts { result.accepts ≡ 0 }
        ensures state { result.state ≡ just_opened }
    {
        MemDoor {
            left: VecDeque::new(alloc),
            served: Vec::new(alloc),
            failing: Vec::new(alloc),
            accepts: 0,
            state: DoorState::new(),
        }
    }

    /// What has happened to it since it was opened.
    pub fn state(&self) -> DoorState
        ensures { result ≡ self.now.state }
    {
        self.state
    }

    /// The links that were given back, in turn.
    pub fn served(&self) -> &[Served<L>]
        ensures { result.now ≡ self.now.served.items }
    {
        &self.served
    }

    /// The links that were given back, in turn.
    pub(crate) fn into_served(self) -> Vec<Served<L>>
    where
        L: Drop,
        ensures { result ≡ self.served }
    {
        self.served
    }
}

impl<L: Link + Drop> Door for MemDoor<L> {
    ghost use Rattle.std.specs.Prelude.{◌++◌, ◌∷◌, false, Some, None, is_err, OnErr, IsSome, option_to_list};
    ghost use Rattle.alto_http.specs.Link.{one_more};
    ghost use Rattle.alto_doors.specs.Door.{accepted, given_back};

    type Link = L;

    ghost left = { λ door. Some door.left.items };

    ghost state = { λ door. door.state };

    fn accept(&mut self) -> Result<Option<(L, Option<Addr>)>, Failed>
        requires none_out { self.old.state.is_out ≡ false }

        ensures fails { is_err result ≡ fails self.old.failing.items self.old.accepts }
        ensures called { self.new.accepts ≡ one_more self.old.accepts }
        ensures failing { self.new.failing ≡ self.old.failing }
        ensures served { self.new.served ≡ self.old.served }

        ensures given { IfOk result (λ given. self.old.left.items ≡ option_to_list given ++ self.new.left.items) }
        ensures at_end { IfOk result (λ given. given ≡ None → self.old.left.items ≡ []) }
        ensures for_good { IfOk result (λ given. IsSome given → self.old.state.has_ended ≡ false) }
        ensures refused { OnErr result (self.new.left.items ≡ self.old.left.items) }
        ensures noted { self.new.state ≡ accepted result self.old.state }
    {
        let call = self.accepts;
        self.accepts = call.saturating_add(1);
        if self.failing.contains(&call) {
            return Err(self.state.fail());
        }
        match self.left.pop_front() {
            Some(connection) => {
                self.state.give();
                Ok(Some(connection))
            }
            None => {
                self.state.end();
                Ok(None)
            }
        }
    }

    fn give_back(&mut self, served: Served<L>)
        requires one_out { self.old.state.is_out ≡ true }

        ensures kept { self.new.served.items ≡ self.old.served.items ++ served ∷ [] }
        ensures failing { self.new.failing ≡ self.old.failing }
        ensures accepts { self.new.accepts ≡ self.old.accepts }
        ensures left { self.new.left ≡ self.old.left }
        ensures noted { self.new.state ≡ given_back self.old.state }
    {
        self.served.push(served).unwrap();
        self.state.give_back();
    }
}
