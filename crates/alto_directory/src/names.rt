//! Names of properties, gathered by the domains of their entities.
ghost use Rattle.std.specs.Prelude.{◌≡◌, [], IfOk, OnOk};
ghost use Rattle.std.specs.List.{filter_map};
ghost use Rattle.alto_directory.specs.Names.{with_property};
ghost use Rattle.alto_directory.specs.Network as spec;

use crate::domain::{Domain, domain_of};
use alto_names::{NetName, PropName};
use alto_rows::{Key, RowStore, Span, Within, rows_in};
use json_tree::Name;
use std::alloc::{AllocError, Global};
use std::collections::BTreeSet;
use std::marker::Model;

/// Names of properties by the domains of their entities, each list in byte order.
#[derive(Drop)]
pub(crate) struct PropertyNames {
    pub(crate) ipv4: Vec<Name>,
    pub(crate) ipv6: Vec<Name>,
    pub(crate) pid: Vec<Name>,
}

impl Model for PropertyNames {
    ghost use Rattle.alto_directory.specs.Network.{PropertyNames as Names};

    ghost Value = { Names };

    ghost view = { λ names. record { ipv4 = names.ipv4.items; ipv6 = names.ipv6.items; pid = names.pid.items } };
}

/// The same while they are gathered.
#[derive(Drop)]
struct NameSets {
    ipv4: BTreeSet<PropName>,
    ipv6: BTreeSet<PropName>,
    pid: BTreeSet<PropName>,
}

impl Model for NameSets {
    ghost use Rattle.alto_directory.specs.Network.{PropertyNames as Names};

    ghost Value = { Names };

    ghost view = { λ sets. record { ipv4 = sets.ipv4.keys; ipv6 = sets.ipv6.keys; pid = sets.pid.keys } };
}

impl NameSets {
    #[tactic(auto, unfolding(alto_maps::specs::Places::set_of))]
    fn new(alloc: Global) -> NameSets
        ensures { result ≡ spec.names_of [] }
    {
        NameSets {
            ipv4: BTreeSet::new(alloc),
            ipv6: BTreeSet::new(alloc),
            pid: BTreeSet::new(alloc),
        }
    }

    fn insert(&mut self, domain: Domain, name: PropName) -> Result<(), AllocError>
        ensures { OnOk result (self.new ≡ with_property self.old (domain, name)) }
    {
        match domain {
            Domain::Ipv4 => self.ipv4.insert(name)?,
            Domain::Ipv6 => self.ipv6.insert(name)?,
            Domain::Pid => self.pid.insert(name)?,
        };
        Ok(())
    }

    fn into_names(self, alloc: Global) -> Result<PropertyNames, AllocError>
        ensures { IfOk result (λ names. names ≡ self) }
    {
        let NameSets { ipv4, ipv6, pid } = self;
        Ok(PropertyNames {
            ipv4: texts_of(alloc, ipv4)?,
            ipv6: texts_of(alloc, ipv6)?,
            pid: texts_of(alloc, pid)?,
        })
    }
}

/// The names of a set, in its order.
fn texts_of(alloc: Global, names: BTreeSet<PropName>) -> Result<Vec<Name>, AllocError>
    ensures { IfOk result (λ texts. texts.items ≡ names.keys) }
{
    let mut texts = Vec::with_capacity(alloc, names.len())?;
    for name in names {
        texts.push(Name::from_str(alloc, name.as_str())?)?;
    }
    Ok(texts)
}

/// The names of the properties that entities of a network have. One walk over the rows of these properties, and one
/// search among the names for each; the names are shared with the rows.
pub(crate) fn property_names<R: RowStore>(
    alloc: Global,
    rows: &R,
    net: &NetName,
) -> Result<PropertyNames, AllocError>
    ensures { IfOk result (λ names. names ≡ spec.property_names (R.rows rows.now) net.now) }
{
    let mut properties = rows_in(rows, Span::Props(net.clone()?));
    let names = names_walked(alloc, &mut properties);
    // dropped by a call: that is far cheaper to prove than a drop in place at each exit of the loop
    drop(properties);
    names
}

/// The names of the properties that the rows of a walk give.
fn names_walked<R: RowStore>(
    alloc: Global,
    properties: &mut Within<R>,
) -> Result<PropertyNames, AllocError>
    ensures { IfOk result (λ names. names ≡ spec.names_of (filter_map spec.property_in properties.old)) }
{
    let mut names = NameSets::new(alloc);
    while let Some(row) = properties.next() {
        if let Key::Prop(_, entity, name) = &row.0 {
            names.insert(domain_of(entity), name.clone()?)?;
        }
    }
    names.into_names(alloc)
}
