ghost use Rattle.std.specs.Prelude.{◌≡◌, ◌++◌, ◌∷◌, [], length, OnOk};
ghost use Rattle.sha2.specs.Sha256.{sha256};
ghost use Rattle.alto_drill.specs.Drilled.{failures_in};

use sha2::{Digest, Sha256};
use std::alloc::{AllocError, Global};
use std::marker::Model;

/// The texts of the bodies that were made, and for each edge whether it leads on.
#[derive(Drop)]
pub(crate) struct Trials {
    bodies: Vec<u8>,
    leads: Vec<bool>,
}

impl Model for Trials {
    ghost use Rattle.alto_drill.specs.Trials.{TrialData};

    ghost Value = { TrialData };

    ghost view = { λ trials. record { bodies = trials.bodies.items; leads = trials.leads.items } };
}

impl Trials {
    /// None yet.
    pub(crate) fn new(alloc: Global) -> Trials
        ensures { result ≡ record { bodies = []; leads = [] } }
    {
        Trials {
            bodies: Vec::new(alloc),
            leads: Vec::new(alloc),
        }
    }

    /// Adds a body's text.
    pub(crate) fn add_body(&mut self, body: &[u8]) -> Result<(), AllocError>
        ensures { OnOk result (self.new ≡ record self.old { bodies = self.old.bodies ++ body.now }) }
    {
        self.bodies.extend_from_slice(body)
    }

    /// Adds the texts of both patches of an edge, and whether it leads on.
    pub(crate) fn add_patches(
        &mut self,
        merge: &[u8],
        operations: &[u8],
        leads: bool,
    ) -> Result<(), AllocError>
        ensures { OnOk result (self.new ≡ record {
          bodies = (self.old.bodies ++ merge.now) ++ operations.now;
          leads = self.old.leads ++ leads ∷ [];
        }) }
    {
        self.add_body(merge)?;
        self.add_body(operations)?;
        self.add_edge(leads)
    }

    /// Adds whether an edge leads on.
    pub(crate) fn add_edge(&mut self, leads: bool) -> Result<(), AllocError>
        ensures { OnOk result (self.new ≡ record self.old { leads = self.old.leads ++ leads ∷ [] }) }
    {
        self.leads.push(leads)?;
        Ok(())
    }

    /// How many edges there were.
    pub(crate) fn edges(&self) -> usize
        ensures { result ≡ length self.now.leads }
    {
        self.leads.len()
    }

    /// How many of them don't lead on.
    pub(crate) fn failed(&self) -> usize
        ensures { result ≡ failures_in self.now.leads }
    {
        failures_in(self.leads.as_slice())
    }

    /// The digest of all bodies.
    pub(crate) fn digest(&self) -> [u8; 32]
        ensures { result ≡ sha256 self.now.bodies }
    {
        Sha256::digest(self.bodies.as_slice())
    }
}

/// How many don't lead on.
#[tactic(auto, unfolding(crate::specs::Drilled::failures_in))]
fn failures_in(leads: &[bool]) -> usize
    ensures { result ≡ failures_in leads.now }
{
    leads.iter().filter(|leads| !**leads).count()
}
