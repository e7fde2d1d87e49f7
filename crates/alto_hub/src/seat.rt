ghost use Rattle.std.specs.Prelude.{◌≡◌, false, IfOk, OnOk, OnErr};
ghost use Rattle.std.specs.Arc.{arc_value};
ghost use Rattle.alto_versions.specs.Front.{StandsFor};
ghost use Rattle.alto_serve.specs.Events.{Emits, OneLook, PrefixOf};
ghost use Rattle.alto_hub.specs.Seen.{known_at};

use crate::bell::Bell;
use crate::hub::Hub;
use crate::mark::Naming;
use crate::place::Place;
use crate::submission::Submission;
use crate::visitor::Visitor;
use alto_answers::Client;
use alto_desk::{Command, EditFault, Front, Receipt};
use alto_http::Request;
use alto_keeper::Keeper;
use alto_serve::{Look, Looks, Office};
use row_chunks::Chunks;
use std::alloc::{AllocError, Global};
use std::marker::Model;
use std::sync::{Arc, Wait};

/// The office of one connection at a hub. A look takes no lock and doesn't wait, and an edit takes the lock. Contracts
/// see what is known of it.
#[derive(Drop)]
pub struct Seat<'h, H, B, K, L, J: Naming> {
    rt: &'h H,
    hub: &'h B,
    visitor: Visitor<K, J>,
    bell: &'h L,
}

impl<'h, H, B, K, L, J: Naming> Model for Seat<'h, H, B, K, L, J> {
    ghost use Rattle.alto_serve.specs.Events.{Known};

    ghost Value = { Known };

    ghost view = { λ seat. seat.visitor };
}

impl<'h, H, B, K, L, J: Naming> Seat<'h, H, B, K, L, J> {
    /// A seat at a place of this hub.
    pub fn new(rt: &'h H, hub: &'h B, place: Place<J>, bell: &'h L) -> Seat<'h, H, B, K, L, J>
        ensures { result ≡ known_at J.opening place 0 0 }
    {
        Seat {
            rt,
            hub,
            visitor: Visitor::new(place),
            bell,
        }
    }

    /// Looks, with no lock and no wait: gives the version that is published.
    pub fn front(&mut self) -> Result<Arc<Front<Chunks>>, AllocError>
        ensures stands { IfOk result (λ front. StandsFor (arc_value front) self.new.seen) }
        ensures looked { OnOk result (Emits false (OneLook self.new.seen) self.old self.new) }
        ensures lost { OnErr result (Emits false (PrefixOf (OneLook self.new.seen)) self.old self.new) }
    {
        self.visitor.look()
    }
}

impl<'h, H, B, K, L, J: Naming> Looks for Seat<'h, H, B, K, L, J> {
    ghost use Rattle.std.specs.Prelude.{false};

    ghost alone = { false };

    ghost known = { λ seat. seat };

    ghost is_backed = { λ _. Unit {0} };

    fn look(
        &mut self,
        alloc: Global,
        client: &Client,
        request: &Request,
    ) -> Result<Look, AllocError> {
        let front = self.front()?;
        Look::at(&*front, alloc, client, request)
    }
}

impl<'h, H: Wait, W: Wait + Drop, K: Keeper + Drop, L: Bell, J: Naming> Office
    for Seat<'h, H, Hub<W, K, J>, K, L, J> {
    fn edit(&mut self, alloc: Global, command: Command, moment: u64) -> Result<Receipt, EditFault> {
        let submission = Submission { command, moment };
        self.hub
            .edit(self.rt, self.bell, alloc, &mut self.visitor, submission)
    }

    fn wait(&mut self, known: u64) {
        self.visitor.count_wait(known);
        self.bell.wait(known);
    }
}
