ghost use Rattle.std.specs.Prelude.{◌≡◌, [], ◌∷◌, codes, nat_lt, IfOk, MatchOption};
ghost use Rattle.std.specs.Prelude.{option_copied, option_map};
ghost use Rattle.json_tree.specs.Document.{object_of};
ghost use Rattle.json_tree.specs.Tree.{data_of};
ghost use Rattle.alto_maps.specs.Shape.{member_in, section_object, stands};
ghost use Rattle.alto_names.specs.Name.{IsPropName};
ghost use Rattle.alto_rows.specs.Good.{AreGood};
ghost use Rattle.alto_rows.specs.Rows.{value_of};
ghost use Rattle.alto_rows.specs.Span.{count_in};
ghost use Rattle.alto_rows.specs.declared.key.Key.TheVariants as key;
ghost use Rattle.prop_docs.specs.PropertyMap.{prop_face, prop_meta, value_data};

use crate::entities::{entities_of, entity_named, group_names};
use crate::properties::{group, props_span, value_tree};
use crate::writing::{group_text, write_groups, write_meta};
use alto_maps::{MapSource, Walked};
use alto_names::{NameFault, NetName, PropName};
use alto_rows::{Entity, Key, RowStore, Span, Value};
use doc_pieces::Grouped;
use json::Writer;
use json_tree::{Members, Name, Tree};
use net_docs::dependent_tags;
use std::alloc::{AllocError, Global};
use std::marker::Model;
use text_buffer::TextBuffer;

/// The property map of a network at good rows, from which its document and its edges are made. A contract sees the rows
/// and the network's name.
#[derive(Drop)]
pub struct PropMap<'a, R: RowStore> {
    rows: &'a R,
    net: &'a NetName,
}

impl<'a, R: RowStore> Model for PropMap<'a, R> {
    ghost use Rattle.std.specs.Prelude.{ℕ, List};
    ghost use Rattle.alto_names.specs.Name.{IsPropName};
    ghost use Rattle.alto_rows.specs.Good.{AreGood};
    ghost use Rattle.alto_rows.specs.Rows.{value_of};
    ghost use Rattle.alto_rows.specs.Span.{count_in};
    ghost use Rattle.alto_rows.specs.declared.key.Key.TheVariants as key;
    ghost use Rattle.alto_rows.specs.Rows.{Rows};

    ghost Value = { Rows × List ℕ };

    ghost view = { λ map. (R.rows map.rows.now, map.net.now) };

    ghost invariant = { λ map. AreGood (R.rows map.rows.now) };
}

impl<'a, R: RowStore> PropMap<'a, R> {
    /// The property map of a network at these rows. Takes no memory.
    pub fn new(rows: &'a R, net: &'a NetName) -> PropMap<'a, R>
        requires { AreGood (R.rows rows.now) }
        ensures { result ≡ (R.rows rows.now, net.now) }
    {
        PropMap { rows, net }
    }
}

impl<'a, R: RowStore> MapSource for PropMap<'a, R> {
    ghost use Rattle.prop_docs.specs.PropertyMap.{prop_face, prop_shape};

    ghost shape = { prop_shape };

    ghost face = { λ map. prop_face map.1 map.0 };

    fn section(&self) -> &str {
        "property-map"
    }

    fn path(&self, alloc: Global) -> Result<Vec<Name>, AllocError> {
        let mut path = Vec::new(alloc);
        path.push(Name::from_str(alloc, "dependent-vtags")?)?;
        Ok(path)
    }

    fn version(&self, alloc: Global) -> Result<Tree, AllocError> {
        dependent_tags(alloc, self.rows, self.net)
    }

    fn meta(&self, alloc: Global) -> Result<Tree, AllocError> {
        meta(alloc, self.rows, self.net)
    }

    fn groups(&self, alloc: Global) -> Result<Tree, AllocError> {
        groups(alloc, self.rows, self.net)
    }

    fn stands(&self, alloc: Global, name: &Name) -> Result<bool, AllocError> {
        has_group(alloc, self.rows, self.net, name)
    }

    fn group(&self, alloc: Global, name: &Name) -> Result<Tree, AllocError> {
        group(alloc, self.rows, self.net, name)
    }

    fn value(&self, alloc: Global, name: &Name, member: &Name) -> Result<Option<Tree>, AllocError> {
        value(alloc, self.rows, self.net, name, member)
    }
}

impl<'a, R: RowStore> Walked for PropMap<'a, R> {
    fn write_meta(&self, alloc: Global, out: &mut Writer) -> Result<(), AllocError> {
        write_meta(alloc, self.rows, self.net, out)
    }

    fn write_groups(&self, alloc: Global, out: &mut Writer) -> Result<(), AllocError> {
        write_groups(alloc, self.rows, self.net, out)
    }
}

impl<'a, R: RowStore> Grouped for PropMap<'a, R> {
    ghost use Rattle.prop_docs.specs.PropertyMap.{prop_face};

    ghost map = { λ map. prop_face map.1 map.0 };

    fn group_names(&self, alloc: Global) -> Result<Vec<Name>, AllocError> {
        group_names(alloc, self.rows, self.net)
    }

    fn has_group(&self, alloc: Global, name: &Name) -> Result<bool, AllocError> {
        self.stands(alloc, name)
    }

    fn push_group(
        &self,
        alloc: Global,
        name: &Name,
        out: &mut TextBuffer,
    ) -> Result<(), AllocError> {
        out.push(&group_text(alloc, self.rows, self.net, name)?)
    }
}

/// The meta.
fn meta<R: RowStore>(alloc: Global, rows: &R, net: &NetName) -> Result<Tree, AllocError>
    ensures { IfOk result (λ tree. data_of tree ≡ prop_meta net.now (R.rows rows.now)) }
{
    meta_of(alloc, dependent_tags(alloc, rows, net)?)
}

/// The meta with these version tags.
fn meta_of(alloc: Global, tags: Tree) -> Result<Tree, AllocError>
    ensures { IfOk result (λ tree. data_of tree ≡ object_of ((codes "dependent-vtags", data_of tags) ∷ [])) }
{
    let mut meta = Members::new(alloc);
    meta.put(alloc, "dependent-vtags", tags)?;
    Ok(meta.into_tree())
}

/// The groups: one walk over the rows of the network's properties for the texts of their entities, then for each entity
/// one search and one walk over the rows of its properties.
fn groups<R: RowStore>(alloc: Global, rows: &R, net: &NetName) -> Result<Tree, AllocError>
    requires { AreGood (R.rows rows.now) }
    ensures { IfOk result (λ tree. data_of tree ≡ section_object (prop_face net.now (R.rows rows.now))) }
{
    let mut groups = Members::new(alloc);
    for text in entities_of(alloc, rows, net)? {
        let group = group(alloc, rows, net, &text)?;
        groups.put_name(text, group)?;
    }
    Ok(groups.into_tree())
}

/// Whether an entity has this text and properties. Two searches.
fn has_group<R: RowStore>(
    alloc: Global,
    rows: &R,
    net: &NetName,
    text: &Name,
) -> Result<bool, AllocError>
    requires { AreGood (R.rows rows.now) }
    ensures { IfOk result (λ standing. standing ≡ stands (prop_face net.now (R.rows rows.now)) text.now) }
{
    match entity_named(alloc, net, text)? {
        Some(entity) => Ok(has_row_in(rows, props_span(net, entity)?)),
        None => Ok(false),
    }
}

/// Whether a key of a span has a row. Two searches.
fn has_row_in<R: RowStore>(rows: &R, span: Span) -> bool
    ensures { result ≡ nat_lt 0 (count_in (R.rows rows.now) span) }
{
    let count = rows.count_in(&span);
    // what is let go by a call is cheaper to prove than what is dropped in place, variant by variant
    drop(span);
    count > 0
}

/// The value of a property of the entity of this text, `None` exactly where it has no such property. One search.
fn value<R: RowStore>(
    alloc: Global,
    rows: &R,
    net: &NetName,
    text: &Name,
    name: &Name,
) -> Result<Option<Tree>, AllocError>
    requires { AreGood (R.rows rows.now) }
    ensures { IfOk result (λ value. option_map data_of value
        ≡ member_in (prop_face net.now (R.rows rows.now)) text.now name.now) }
{
    match entity_named(alloc, net, text)? {
        Some(entity) => value_owned(alloc, rows, net, entity, name),
        None => Ok(None),
    }
}

/// The value of a property of an entity, `None` exactly where it has no such property.
fn value_owned<R: RowStore>(
    alloc: Global,
    rows: &R,
    net: &NetName,
    entity: Entity,
    name: &Name,
) -> Result<Option<Tree>, AllocError>
    requires { AreGood (R.rows rows.now) }
    ensures { IfOk result (λ value. option_map data_of value
        ≡ option_map value_data (value_of (R.rows rows.now) (key.Prop net.now entity name.now))) }
{
    match read_name(alloc, name) {
        Ok(Some(name)) => value_at(alloc, rows, prop_key(net, entity, name)?),
        Ok(None) => {
            drop(entity);
            Ok(None)
        }
        Err(fault) => {
            drop(entity);
            Err(fault)
        }
    }
}

/// The key of a property of an entity.
fn prop_key(net: &NetName, entity: Entity, name: PropName) -> Result<Key, AllocError>
    ensures { IfOk result (λ made. made ≡ key.Prop net.now entity name) }
{
    match net.clone() {
        Ok(net) => Ok(Key::Prop(net, entity, name)),
        Err(fault) => {
            drop(entity);
            Err(fault)
        }
    }
}

/// The name of a property, `None` exactly where none can have it.
fn read_name(alloc: Global, name: &Name) -> Result<Option<PropName>, AllocError>
    ensures { IfOk result (λ found. MatchOption found (¬ (IsPropName name.now)) (λ read. read ≡ name.now)) }
{
    match PropName::read(alloc, name.as_str().as_bytes()) {
        Ok(name) => Ok(Some(name)),
        Err(NameFault::Memory) => Err(AllocError),
        Err(_) => Ok(None),
    }
}

/// The value at a key, `None` exactly where it has no row. One search.
fn value_at<R: RowStore>(alloc: Global, rows: &R, key: Key) -> Result<Option<Tree>, AllocError>
    ensures { IfOk result (λ value. option_map data_of value ≡ option_map value_data (value_of (R.rows rows.now) key)) }
{
    let value = shown(alloc, rows.get(&key));
    drop(key);
    value
}

/// A value as JSON, if there is one.
fn shown(alloc: Global, value: Option<&Value>) -> Result<Option<Tree>, AllocError>
    ensures { IfOk result (λ found. option_map data_of found ≡ option_map value_data (option_copied value.entry)) }
{
    match value {
        Some(value) => Ok(Some(value_tree(alloc, value)?)),
        None => Ok(None),
    }
}
