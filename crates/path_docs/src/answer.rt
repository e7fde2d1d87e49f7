ghost use Rattle.std.specs.Prelude.{◌≡◌, IfOk};
ghost use Rattle.json_tree.specs.Tree.{data_of};
ghost use Rattle.alto_rows.specs.Good.{AreGood};
ghost use Rattle.path_docs.specs.PathCosts.{path_costs};
ghost use Rattle.path_docs.specs.PathProperties.{path_properties};

use crate::ask::PathAsk;
use crate::costs::costs_part;
use crate::found::sources_found;
use crate::properties::properties_part;
use alto_names::NetName;
use alto_rows::RowStore;
use json_tree::Tree;
use std::alloc::{AllocError, Global};

/// Both parts of the path vectors of a network, cut to what is asked (RFC 9275, section 7.2.6), after `n` accepted
/// batches. One walk over the rows of the network's PIDs where all sources are asked for. For each source that is one
/// search and one walk over the rows of its paths, or one search for each destination where these are asked for. Then
/// for each ANE on a path one search in the set of them, and for each distinct one a search for its property.
pub fn path_vector<R: RowStore>(
    alloc: Global,
    rows: &R,
    net: &NetName,
    ask: &PathAsk,
    n: u64,
) -> Result<(Tree, Tree), AllocError>
    requires { AreGood (R.rows rows.now) }
    ensures costs { IfOk result (λ parts. data_of parts.0 ≡ path_costs (R.rows rows.now) net.now ask.now n) }
    ensures properties { IfOk result (λ parts. data_of parts.1 ≡ path_properties (R.rows rows.now) net.now ask.now n) }
{
    let sources = sources_found(alloc, rows, net, ask)?;
    let costs = costs_part(alloc, rows, net, &sources, n)?;
    let properties = properties_part(alloc, rows, net, &sources, ask.bandwidth, n)?;
    Ok((costs, properties))
}
