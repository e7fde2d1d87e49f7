ghost use Rattle.std.specs.Prelude.{◌≡◌, IfOk, MatchOption, map, option_map};
ghost use Rattle.json_tree.specs.Tree.{data_of};
ghost use Rattle.alto_maps.specs.Shape.{group_object, member_in, stands};
ghost use Rattle.alto_names.specs.Name.{IsPidName};
ghost use Rattle.alto_rows.specs.Good.{AreGood};
ghost use Rattle.net_docs.specs.NetworkMap.{net_face};
ghost use Rattle.net_docs.specs.Prefixes as spec;

use crate::document::{meta_of, version_tag};
use crate::pids::{group, group_names, groups, is_declared};
use crate::prefixes::{prefixes_of, texts_in_family};
use crate::version::net_tag;
use crate::writing::{group_text, write_groups, write_meta};
use alto_maps::{MapSource, Walked};
use alto_names::{NameFault, NetName, PidName};
use alto_rows::RowStore;
use doc_pieces::Grouped;
use json::Writer;
use json_tree::{Name, Tree};
use std::alloc::{AllocError, Global};
use std::marker::Model;
use text_buffer::TextBuffer;

/// The map of a network at good rows, from which its document and its edges are made. A contract sees the rows and the
/// network's name.
#[derive(Drop)]
pub struct NetMap<'a, R: RowStore> {
    rows: &'a R,
    net: &'a NetName,
}

impl<'a, R: RowStore> Model for NetMap<'a, R> {
    ghost use Rattle.std.specs.Prelude.{ℕ, List};
    ghost use Rattle.alto_rows.specs.Good.{AreGood};
    ghost use Rattle.alto_rows.specs.Rows.{Rows};

    ghost Value = { Rows × List ℕ };

    ghost view = { λ map. (R.rows map.rows.now, map.net.now) };

    ghost invariant = { λ map. AreGood (R.rows map.rows.now) };
}

impl<'a, R: RowStore> NetMap<'a, R> {
    /// The map of a network at these rows. Takes no memory.
    pub fn new(rows: &'a R, net: &'a NetName) -> NetMap<'a, R>
        requires { AreGood (R.rows rows.now) }
        ensures { result ≡ (R.rows rows.now, net.now) }
    {
        NetMap { rows, net }
    }
}

impl<'a, R: RowStore> MapSource for NetMap<'a, R> {
    ghost use Rattle.net_docs.specs.NetworkMap.{net_face, net_shape};

    ghost shape = { net_shape };

    ghost face = { λ map. net_face map.1 map.0 };

    fn section(&self) -> &str {
        "network-map"
    }

    fn path(&self, alloc: Global) -> Result<Vec<Name>, AllocError> {
        let mut path = Vec::new(alloc);
        path.push(Name::from_str(alloc, "vtag")?)?;
        path.push(Name::from_str(alloc, "tag")?)?;
        Ok(path)
    }

    fn version(&self, alloc: Global) -> Result<Tree, AllocError> {
        Ok(Tree::from_name(net_tag(alloc, self.rows, self.net)?))
    }

    fn meta(&self, alloc: Global) -> Result<Tree, AllocError> {
        meta_of(alloc, version_tag(alloc, self.rows, self.net)?)
    }

    fn groups(&self, alloc: Global) -> Result<Tree, AllocError> {
        groups(alloc, self.rows, self.net)
    }

    fn stands(&self, alloc: Global, name: &Name) -> Result<bool, AllocError> {
        Ok(pid_standing(alloc, self.rows, self.net, name)?.is_some())
    }

    fn group(&self, alloc: Global, name: &Name) -> Result<Tree, AllocError> {
        match pid_standing(alloc, self.rows, self.net, name)? {
            Some(pid) => group(alloc, self.rows, self.net, &pid),
            None => unreachable!(),
        }
    }

    fn value(&self, alloc: Global, name: &Name, member: &Name) -> Result<Option<Tree>, AllocError> {
        match pid_standing(alloc, self.rows, self.net, name)? {
            Some(pid) => member_of(alloc, self.rows, self.net, &pid, member),
            None => unreachable!(),
        }
    }
}

impl<'a, R: RowStore> Walked for NetMap<'a, R> {
    fn write_meta(&self, alloc: Global, out: &mut Writer) -> Result<(), AllocError> {
        write_meta(alloc, self.rows, self.net, out)
    }

    fn write_groups(&self, alloc: Global, out: &mut Writer) -> Result<(), AllocError> {
        write_groups(alloc, self.rows, self.net, out)
    }
}

impl<'a, R: RowStore> Grouped for NetMap<'a, R> {
    ghost use Rattle.net_docs.specs.NetworkMap.{net_face};

    ghost map = { λ map. net_face map.1 map.0 };

    fn group_names(&self, alloc: Global) -> Result<Vec<Name>, AllocError> {
        group_names(alloc, self.rows, self.net)
    }

    fn has_group(&self, alloc: Global, name: &Name) -> Result<bool, AllocError> {
        self.stands(alloc, name)
    }

    fn push_group(
        &self,
        alloc: Global,
        name: &Name,
        out: &mut TextBuffer,
    ) -> Result<(), AllocError> {
        match pid_standing(alloc, self.rows, self.net, name)? {
            Some(pid) => out.push(&group_text(alloc, self.rows, self.net, &pid)?),
            None => unreachable!(),
        }
    }
}

/// The PID of a group, `None` exactly where no such group stands. One search.
fn pid_standing<R: RowStore>(
    alloc: Global,
    rows: &R,
    net: &NetName,
    name: &Name,
) -> Result<Option<PidName>, AllocError>
    requires { AreGood (R.rows rows.now) }
    ensures { IfOk result (λ found. found ≡ spec.pid_standing (R.rows rows.now) net.now name.now) }
{
    match read_pid(alloc, name)? {
        Some(pid) => if_declared(rows, net, pid),
        None => Ok(None),
    }
}

/// The PID of this name, `None` exactly where no PID can have it.
fn read_pid(alloc: Global, name: &Name) -> Result<Option<PidName>, AllocError>
    ensures { IfOk result (λ found. MatchOption found (¬ (IsPidName name.now)) (λ pid. pid ≡ name.now)) }
{
    match PidName::read(alloc, name.as_str().as_bytes()) {
        Ok(pid) => Ok(Some(pid)),
        Err(NameFault::Memory) => Err(AllocError),
        Err(_) => Ok(None),
    }
}

/// The PID, where it is declared. One search.
fn if_declared<R: RowStore>(
    rows: &R,
    net: &NetName,
    pid: PidName,
) -> Result<Option<PidName>, AllocError>
    ensures { IfOk result (λ found. found ≡ spec.pid_standing (R.rows rows.now) net.now pid) }
{
    if is_declared(rows, net, &pid)? {
        Ok(Some(pid))
    } else {
        Ok(None)
    }
}

/// The prefixes of this family that a PID has, `None` exactly where there are none.
fn member_of<R: RowStore>(
    alloc: Global,
    rows: &R,
    net: &NetName,
    pid: &PidName,
    kind: &Name,
) -> Result<Option<Tree>, AllocError>
    requires { AreGood (R.rows rows.now) }
    ensures { IfOk result (λ value. option_map data_of value
        ≡ member_in (net_face net.now (R.rows rows.now)) pid.now kind.now) }
{
    let prefixes = prefixes_of(alloc, rows, net, pid)?;
    let texts = texts_in_family(alloc, &prefixes, kind.as_str())?;
    Ok(listed(texts))
}

/// Texts as one value, `None` exactly where there are none.
fn listed(texts: Vec<Tree>) -> Option<Tree>
    ensures { option_map data_of result ≡ spec.listed (map data_of texts.items) }
{
    if texts.is_empty() {
        None
    } else {
        Some(Tree::list(texts))
    }
}
