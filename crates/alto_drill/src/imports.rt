//! The imports of a drill.
ghost use Rattle.std.specs.Prelude.{◌≡◌, ◌≤◌, ◌==◌, if◌then◌else◌, IfOk, OnOk};
ghost use Rattle.alto_drill.specs.Draws.{state_after};
ghost use Rattle.alto_drill.specs.Imports.{edits_from, import_from};

use crate::choice::next_choice;
use crate::draws::Draws;
use crate::edits::{later_edits, opening_edits};
use crate::names::id;
use alto_book::Command;
use alto_edits::Edit;
use sha2::{Digest, Sha256};
use std::alloc::{AllocError, Global};

/// Import `k`, which takes the draws that it needs.
#[tactic(auto, unfolding(crate::specs::Imports::import_from))]
pub(crate) fn next_import(alloc: Global, k: u64, draws: &mut Draws) -> Result<Command, AllocError>
    requires { k ≤ 1000 }
    ensures import { IfOk result (λ command. command ≡ import_from draws.old.state k) }
    ensures state { OnOk result (draws.new.state
        ≡ (if k == 1 then draws.old.state else state_after draws.old.state 6)) }
{
    let id = id(alloc, k)?;
    let digest = Sha256::digest(id.as_bytes());
    let edits = next_edits(alloc, k, draws)?;
    Ok(Command { id, digest, edits })
}

/// The edits of import `k`.
#[tactic(auto, unfolding(crate::specs::Imports::edits_from))]
fn next_edits(alloc: Global, k: u64, draws: &mut Draws) -> Result<Vec<Edit>, AllocError>
    requires { k ≤ 1000 }
    ensures edits { IfOk result (λ edits. edits.items ≡ edits_from draws.old.state k) }
    ensures state { OnOk result (draws.new.state
        ≡ (if k == 1 then draws.old.state else state_after draws.old.state 6)) }
{
    if k == 1 {
        return opening_edits(alloc);
    }
    let choice = next_choice(draws);
    later_edits(alloc, k, choice)
}
