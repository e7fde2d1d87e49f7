ghost use Rattle.std.specs.Prelude.{◌≡◌, ◌≢◌, Ok, Err, IfOk, IfErr, map, filter, [], ◌∷◌};
ghost use Rattle.json_tree.specs.Tree.{data_of, items_data};
ghost use Rattle.net_docs.specs.Ask.{families_of, family_name, family_named, is_pid_name, net_ask, or_both, pick_of};

use alto_asks::{AskFault, optional_items, required_items, text_in, texts_of};
use alto_names::{NameFault, PidName};
use json_tree::Tree;
use std::alloc::{AllocError, Global};
use std::marker::Model;

/// A family of addresses.
#[derive(Clone, Copy, Debug, PartialEq, Eq)]
pub enum Family {
    V4,
    V6,
}

impl Family {
    /// Its name (RFC 7285, section 10.4.2).
    pub fn as_str(self) -> &'static str
        ensures { result.now ≡ family_name self }
    {
        match self {
            Family::V4 => "ipv4",
            Family::V6 => "ipv6",
        }
    }
}

/// Names of PIDs, in the order of a request. A contract sees the list.
#[derive(Debug, Drop)]
pub struct PidNames {
    names: Vec<PidName>,
}

impl Model for PidNames {
    ghost use Rattle.std.specs.Prelude.{ℕ, List};

    ghost Value = { List (List ℕ) };

    ghost view = { λ list. list.names.items };
}

impl PidNames {
    /// The list of these names. Takes no memory.
    pub fn new(names: Vec<PidName>) -> PidNames
        ensures { result ≡ names.items }
    {
        PidNames { names }
    }

    /// The names. Takes no memory.
    pub fn as_slice(&self) -> &[PidName]
        ensures { result.now ≡ self.now }
    {
        &self.names
    }
}

/// Which PIDs are asked for.
#[derive(Debug, Drop)]
pub enum Pick {
    /// All.
    All,
    /// Those of these names that are there.
    Only(PidNames),
}

/// What is asked of a network map (RFC 7285, section 11.3.1.3).
#[derive(Debug, Drop)]
pub struct NetAsk {
    pub pids: Pick,
    /// Of which families prefixes are asked for.
    pub families: Vec<Family>,
}

impl Model for NetAsk {
    ghost use Rattle.net_docs.specs.Ask.{NetAskData};

    ghost Value = { NetAskData };

    ghost view = { λ ask. record { pids = ask.pids; families = ask.families.items } };
}

/// What the body of a request asks of a network map. Linear in the body.
///
/// # Errors
///
/// `Bad` with `MissingField` where it has no `pids`; with `InvalidFieldType` where `pids` isn't a list of texts, or
/// `address-types` is there and isn't one; with `InvalidFieldValue` where a text of `address-types` is no family. The
/// first fault is told.
#[tactic(auto, unfolding(crate::specs::Ask::net_ask))]
pub fn read_net_ask(alloc: Global, ask: &Tree) -> Result<NetAsk, AskFault>
    ensures ok { IfOk result (λ read. net_ask (data_of ask.now) ≡ Ok read) }
    ensures err { IfErr result (λ fault. fault ≢ AskFault.Memory → net_ask (data_of ask.now) ≡ Err fault) }
{
    let items = required_items(alloc, ask, "pids")?;
    let texts = texts_of(alloc, "pids", items)?;
    let types = optional_items(alloc, ask, "address-types")?;
    let families = families_of(alloc, types)?;
    Ok(NetAsk {
        pids: pick_of(alloc, &texts)?,
        families: or_both(alloc, families)?,
    })
}

/// The PIDs that a list asks for.
fn pick_of(alloc: Global, texts: &[&str]) -> Result<Pick, AllocError>
    ensures { IfOk result (λ pick. pick ≡ pick_of (map (λ text. text.now) texts.now)) }
{
    if texts.is_empty() {
        Ok(Pick::All)
    } else {
        Ok(Pick::Only(PidNames::new(pid_names(alloc, texts)?)))
    }
}

/// Those of the texts that are names of PIDs.
fn pid_names(alloc: Global, texts: &[&str]) -> Result<Vec<PidName>, AllocError>
    ensures { IfOk result (λ names. names.items ≡ filter is_pid_name (map (λ text. text.now) texts.now)) }
{
    let mut names = Vec::new(alloc);
    for text in texts {
        match PidName::read(alloc, text.as_bytes()) {
            Ok(name) => names.push(name)?,
            Err(NameFault::Memory) => return Err(AllocError),
            Err(_) => {}
        }
    }
    Ok(names)
}

/// The families that items name.
fn families_of(alloc: Global, items: &[Tree]) -> Result<Vec<Family>, AskFault>
    ensures ok { IfOk result (λ families. families_of (items_data items.now) ≡ Ok families.items) }
    ensures err { IfErr result (λ fault. fault ≢ AskFault.Memory → families_of (items_data items.now) ≡ Err fault) }
{
    let mut families = Vec::new(alloc);
    for item in items {
        let text = text_in(alloc, "address-types", item)?;
        families.push(family_named(alloc, text)?)?;
    }
    Ok(families)
}

/// The family that a text names.
fn family_named(alloc: Global, text: &str) -> Result<Family, AskFault>
    ensures ok { IfOk result (λ family. family_named text.now ≡ Ok family) }
    ensures err { IfErr result (λ fault. fault ≢ AskFault.Memory → family_named text.now ≡ Err fault) }
{
    match text {
        "ipv4" => Ok(Family::V4),
        "ipv6" => Ok(Family::V6),
        _ => Err(AskFault::wrong_text(alloc, "address-types", text)?),
    }
}

/// The families, or both where there is none.
fn or_both(alloc: Global, families: Vec<Family>) -> Result<Vec<Family>, AllocError>
    ensures { IfOk result (λ all. all.items ≡ or_both families.items) }
{
    if families.is_empty() {
        return Ok(vec![in alloc; Family::V4, Family::V6]?);
    }
    Ok(families)
}
