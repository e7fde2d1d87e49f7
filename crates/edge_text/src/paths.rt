//! Where the operations on a cost map point (RFC 6901).
ghost use Rattle.std.specs.Prelude.{◌≡◌, ◌∷◌, ◌++◌, [], IfOk, OnOk, codes, string_bytes};
ghost use Rattle.json_tree.specs.Pointer.{pointer_text, slash, token_of};

use alto_names::{Kind, PidKind, PidName};
use std::alloc::{AllocError, Global};

/// The length of the longest pointer to a cost.
const LONGEST: usize = "/cost-map/".len() + PidKind::LONGEST + "/".len() + PidKind::LONGEST;

/// The pointer to the group of a source, with room for that to one of its costs. Takes memory once.
pub(crate) fn group_path(alloc: Global, source: &PidName) -> Result<String, AllocError>
    ensures { IfOk result (λ path. string_bytes path ≡ pointer_text (codes "cost-map" ∷ source.now ∷ [])) }
{
    let mut path = String::with_capacity(alloc, LONGEST)?;
    path.push_str("/cost-map")?;
    push_name(&mut path, source)?;
    Ok(path)
}

/// The pointer to the cost of a pair. Takes memory once.
pub(crate) fn pair_path(
    alloc: Global,
    source: &PidName,
    destination: &PidName,
) -> Result<String, AllocError>
    ensures { IfOk result (λ path. string_bytes path
        ≡ pointer_text (codes "cost-map" ∷ source.now ∷ destination.now ∷ [])) }
{
    let mut path = group_path(alloc, source)?;
    push_name(&mut path, destination)?;
    Ok(path)
}

/// Adds a name to a pointer as it is, for the alphabet of PIDs has no byte that is escaped there.
fn push_name(path: &mut String, name: &PidName) -> Result<(), AllocError>
    ensures { OnOk result (string_bytes path.new ≡ string_bytes path.old ++ slash ∷ token_of name.now) }
{
    // Its promise tells that the bytes are a name.
    let _ = name.as_bytes();
    path.push_str("/")?;
    path.push_str(name.as_str())
}
