//! The PIDs that lists ask for.
ghost use Rattle.std.specs.Prelude.{◌≡◌, ◌≢◌, ◌++◌, ◌∷◌, [], Ok, Err, IfOk, IfErr, OnOk, filter, map};
ghost use Rattle.std.specs.Prelude.{option_map};
ghost use Rattle.json_tree.specs.Tree.{data_of};
ghost use Rattle.net_docs.specs.declared.ask.Pick.TheVariants as pick;
ghost use Rattle.net_docs.specs.Ask.{is_pid_name, pick_of};
ghost use Rattle.cost_filters.specs.Ask.{picked};
ghost use Rattle.cost_filters.specs.Picks.{names_in};

use crate::fields::{items_at, nested};
use alto_asks::{AskFault, texts_of};
use cost_tables::PidText;
use json_tree::Tree;
use std::alloc::{AllocError, Global};
use std::marker::Model;

/// Which PIDs are asked for, by their names as they stand in the ask.
#[derive(Debug, Drop)]
pub struct PidPick<'t> {
    /// `None` where all are.
    names: Option<Vec<PidText<'t>>>,
}

impl<'t> Model for PidPick<'t> {
    ghost use Rattle.std.specs.Prelude.{option_map};
    ghost use Rattle.net_docs.specs.declared.ask.Pick.{Pick};
    ghost use Rattle.cost_filters.specs.Picks.{pick_given};

    ghost Value = { Pick };

    ghost view = { λ pick. pick_given (option_map (λ names. names.items) pick.names) };
}

impl<'t> PidPick<'t> {
    /// All PIDs.
    pub fn all() -> PidPick<'t>
        ensures { result ≡ pick.All }
    {
        PidPick { names: None }
    }

    /// Those of these names that are there.
    pub fn only(names: Vec<PidText<'t>>) -> PidPick<'t>
        ensures { result ≡ pick.Only names.entry.items }
    {
        PidPick { names: Some(names) }
    }

    /// The names; `None` where all are asked for.
    pub fn names(&self) -> Option<&[PidText<'t>]>
        ensures { option_map (λ names. names.now) result ≡ names_in self.now }
    {
        match &self.names {
            Some(names) => Some(names.as_slice()),
            None => None,
        }
    }
}

/// The PIDs that a list in the value of `pids` asks for.
pub(crate) fn picked<'t>(
    alloc: Global,
    name: &str,
    object: &'t Tree,
) -> Result<PidPick<'t>, AskFault>
    ensures ok { IfOk result (λ pick. picked name.now (data_of object.now) ≡ Ok pick) }
    ensures err { IfErr result (λ fault. fault ≢ AskFault.Memory → picked name.now (data_of object.now) ≡ Err fault) }
{
    let items = items_at(alloc, "pids", name, object)?;
    let path = nested(alloc, "pids", name)?;
    let texts = texts_of(alloc, &path, items)?;
    Ok(pick_of(alloc, &texts)?)
}

/// The PIDs that a list of texts asks for: all, where it is empty.
fn pick_of<'t>(alloc: Global, texts: &[&'t str]) -> Result<PidPick<'t>, AllocError>
    ensures { IfOk result (λ pick. pick ≡ pick_of (map (λ text. text.now) texts.now)) }
{
    if texts.is_empty() {
        Ok(PidPick::all())
    } else {
        Ok(PidPick::only(pid_names(alloc, texts)?))
    }
}

/// Those of the texts that are names of PIDs.
fn pid_names<'t>(alloc: Global, texts: &[&'t str]) -> Result<Vec<PidText<'t>>, AllocError>
    ensures { IfOk result (λ names. names.items ≡ filter is_pid_name (map (λ text. text.now) texts.now)) }
{
    let mut names = Vec::with_capacity(alloc, texts.len())?;
    for text in texts {
        push_pid(text, &mut names)?;
    }
    Ok(names)
}

/// Puts a text that is the name of a PID.
fn push_pid<'t>(text: &'t str, names: &mut Vec<PidText<'t>>) -> Result<(), AllocError>
    ensures { OnOk result (names.new.items ≡ names.old.items ++ filter is_pid_name (text.now ∷ [])) }
{
    if let Some(name) = PidText::read(text) {
        names.push(name)?;
    }
    Ok(())
}
