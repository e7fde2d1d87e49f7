ghost use Rattle.std.specs.Prelude.{◌≡◌, ◌≢◌, Ok, Err, IfOk, IfErr, map};
ghost use Rattle.serde_json.specs.Find.{as_str};
ghost use Rattle.json_tree.specs.Tree.{data_of, items_data};
ghost use Rattle.alto_asks.specs.Asks.{required_items as items_asked, text_in as text_of};
ghost use Rattle.prop_docs.specs.Ask.{ReadsEntities, ReadsList, ReadsPropAsk, ReadsText, entities_field, names_asked};

use alto_asks::{AskFault, required_items, text_in, texts_of};
use alto_names::NetName;
use alto_rows::{Entity, read_entity};
use json_tree::{Name, Tree};
use std::alloc::{AllocError, Global};
use std::marker::Model;

/// What is asked of a property map (RFC 9240, section 8.3).
#[derive(Debug, Drop)]
pub struct PropAsk {
    /// The entities; none asks for all.
    pub entities: Vec<Entity>,
    /// The names of properties; none asks for all.
    pub properties: Vec<Name>,
}

impl Model for PropAsk {
    ghost use Rattle.prop_docs.specs.Ask.{PropAskData};

    ghost Value = { PropAskData };

    ghost view = { λ ask. record { entities = ask.entities.items; properties = ask.properties.items } };
}

/// What the body of a request asks of a network's property map. Linear in the body.
///
/// # Errors
///
/// `Bad` with `MissingField` where it has no `entities` or no `properties`; with `InvalidFieldType` where either isn't
/// a list of texts; with `InvalidFieldValue` where a text of `entities` is no entity of the network. The first fault
/// is told, and those of `entities` come first.
pub fn read_prop_ask(alloc: Global, net: &NetName, ask: &Tree) -> Result<PropAsk, AskFault>
    ensures ok { IfOk result (λ read. ReadsPropAsk net.now (data_of ask.now) (Ok read)) }
    ensures err { IfErr result (λ fault. fault ≢ AskFault.Memory → ReadsPropAsk net.now (data_of ask.now) (Err fault)) }
{
    let entities = entities_asked(alloc, net, ask)?;
    let properties = names_asked(alloc, ask)?;
    Ok(PropAsk {
        entities,
        properties,
    })
}

/// The entities in their field.
fn entities_asked(alloc: Global, net: &NetName, ask: &Tree) -> Result<Vec<Entity>, AskFault>
    ensures ok { IfOk result (λ entities.
        ReadsList net.now (items_asked entities_field (data_of ask.now)) (Ok entities.items)) }
    ensures err { IfErr result (λ fault. fault ≢ AskFault.Memory
        → ReadsList net.now (items_asked entities_field (data_of ask.now)) (Err fault)) }
{
    let items = required_items(alloc, ask, "entities")?;
    entities_in(alloc, net, items)
}

/// The entities that items write.
fn entities_in(alloc: Global, net: &NetName, items: &[Tree]) -> Result<Vec<Entity>, AskFault>
    ensures ok { IfOk result (λ entities. ReadsEntities net.now (items_data items.now) (Ok entities.items)) }
    ensures err { IfErr result (λ fault. fault ≢ AskFault.Memory
        → ReadsEntities net.now (items_data items.now) (Err fault)) }
{
    let mut entities = Vec::new(alloc);
    for item in items {
        entities.push(entity_in(alloc, net, item)?)?;
    }
    Ok(entities)
}

/// The entity that an item writes.
fn entity_in(alloc: Global, net: &NetName, item: &Tree) -> Result<Entity, AskFault>
    ensures ok { IfOk result (λ entity.
        ReadsText net.now (text_of entities_field (as_str (data_of item.now))) (Ok entity)) }
    ensures err { IfErr result (λ fault. fault ≢ AskFault.Memory
        → ReadsText net.now (text_of entities_field (as_str (data_of item.now))) (Err fault)) }
{
    let text = text_in(alloc, "entities", item)?;
    entity_of(alloc, net, text)
}

/// The entity that a text writes.
fn entity_of(alloc: Global, net: &NetName, text: &str) -> Result<Entity, AskFault>
    ensures ok { IfOk result (λ entity. ReadsText net.now (Ok text.now) (Ok entity)) }
    ensures err { IfErr result (λ fault. fault ≢ AskFault.Memory → ReadsText net.now (Ok text.now) (Err fault)) }
{
    match read_entity(alloc, net, text.as_bytes())? {
        Some(entity) => Ok(entity),
        None => Err(AskFault::wrong_text(alloc, "entities", text)?),
    }
}

/// The names in the field of properties.
fn names_asked(alloc: Global, ask: &Tree) -> Result<Vec<Name>, AskFault>
    ensures ok { IfOk result (λ names. names_asked (data_of ask.now) ≡ Ok names.items) }
    ensures err { IfErr result (λ fault. fault ≢ AskFault.Memory → names_asked (data_of ask.now) ≡ Err fault) }
{
    let items = required_items(alloc, ask, "properties")?;
    let texts = texts_of(alloc, "properties", items)?;
    Ok(names_of(alloc, &texts)?)
}

/// Texts as names.
fn names_of(alloc: Global, texts: &[&str]) -> Result<Vec<Name>, AllocError>
    ensures { IfOk result (λ names. names.items ≡ map (λ text. text.now) texts.now) }
{
    let mut names = Vec::with_capacity(alloc, texts.len())?;
    for text in texts {
        names.push(Name::from_str(alloc, text)?)?;
    }
    Ok(names)
}
