ghost use Rattle.std.specs.Prelude.{◌≡◌, ◌≢◌, Ok, Err, IfOk, IfErr};
ghost use Rattle.serde_json.specs.Find.{get};
ghost use Rattle.json_tree.specs.Tree.{data_of};
ghost use Rattle.net_docs.specs.Ask.{pids_field};
ghost use Rattle.cost_filters.specs.Ask.{cost_ask, ends_in};

use crate::constraints::{Tests, read_constraints};
use crate::fields::object_in;
use crate::picks::{PidPick, picked};
use crate::types::{AskedTypes, CostType, read_types};
use alto_asks::AskFault;
use alto_names::NetName;
use alto_rows::RowStore;
use cost_rule::Constraint;
use json_tree::Tree;
use std::alloc::Global;
use std::marker::Model;

/// What is asked of the cost maps of a network (RFC 7285, section 11.3.2.3; RFC 8189, section 4.1.2).
#[derive(Debug, Drop)]
pub struct CostAsk<'t> {
    /// Whether the cost types are asked for in the form of several.
    pub multi: bool,
    /// The cost types, in the order in which they are asked for.
    pub types: Vec<CostType>,
    /// The cost types that the index of a constraint counts in.
    pub tested: Vec<CostType>,
    /// Lists of constraints, of which one must hold whole.
    pub alternatives: Vec<Vec<Constraint>>,
    pub srcs: PidPick<'t>,
    pub dsts: PidPick<'t>,
}

impl<'t> Model for CostAsk<'t> {
    ghost use Rattle.std.specs.Prelude.{map};
    ghost use Rattle.cost_filters.specs.Ask.{CostAskData};

    ghost Value = { CostAskData };

    ghost view = { λ ask. record {
      multi = ask.multi;
      types = ask.types.items;
      tested = ask.tested.items;
      alternatives = map (λ constraints. constraints.items) ask.alternatives.items;
      srcs = ask.srcs;
      dsts = ask.dsts;
    } };
}

/// Which sources and which destinations are asked for.
#[derive(Debug, Drop)]
struct Ends<'t> {
    srcs: PidPick<'t>,
    dsts: PidPick<'t>,
}

/// What the body of a request asks of the cost maps of a network. Linear in the body, with one search for each cost
/// type in it.
///
/// # Errors
///
/// `Bad` with the first fault in the order of the fields: those of [`read_types`], those of [`read_constraints`], and
/// `InvalidFieldType` where `pids` is no object, or its `srcs` or `dsts` no list of texts.
#[tactic(auto, unfolding(crate::specs::Ask::cost_ask))]
pub fn read_cost_ask<'t, R: RowStore>(
    alloc: Global,
    rows: &R,
    net: &NetName,
    object: &'t Tree,
) -> Result<CostAsk<'t>, AskFault>
    ensures ok { IfOk result (λ ask. cost_ask (R.rows rows.now) net.now (data_of object.now) ≡ Ok ask) }
    ensures err { IfErr result (λ fault. fault ≢ AskFault.Memory
        → cost_ask (R.rows rows.now) net.now (data_of object.now) ≡ Err fault) }
{
    let AskedTypes { multi, types } = read_types(alloc, rows, net, object)?;
    let Tests {
        tested,
        alternatives,
    } = read_constraints(alloc, rows, net, &types, object)?;
    let Ends { srcs, dsts } = read_ends(alloc, object)?;
    Ok(CostAsk {
        multi,
        types,
        tested,
        alternatives,
        srcs,
        dsts,
    })
}

/// The sources and the destinations that are asked for.
fn read_ends(alloc: Global, ask: &Tree) -> Result<Ends<'_>, AskFault>
    ensures ok { IfOk result (λ ends. ends_in (get pids_field (data_of ask.now)) ≡ Ok ends) }
    ensures err { IfErr result (λ fault. fault ≢ AskFault.Memory
        → ends_in (get pids_field (data_of ask.now)) ≡ Err fault) }
{
    match ask.member("pids") {
        Some(value) => {
            let object = object_in(alloc, "pids", value)?;
            let srcs = picked(alloc, "srcs", object)?;
            let dsts = picked(alloc, "dsts", object)?;
            Ok(Ends { srcs, dsts })
        }
        None => Ok(Ends {
            srcs: PidPick::all(),
            dsts: PidPick::all(),
        }),
    }
}
