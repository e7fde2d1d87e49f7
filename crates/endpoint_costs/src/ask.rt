ghost use Rattle.std.specs.Prelude.{◌≢◌, Ok, Err, IfOk, IfErr};
ghost use Rattle.serde_json.specs.Find.{get};
ghost use Rattle.json_tree.specs.Tree.{data_of};
ghost use Rattle.endpoint_costs.specs.Ask.{ReadsEndAsk, ReadsEnds, ends_field};

use crate::addrs::{addrs_at, ends_in};
use alto_addr::Addr;
use alto_asks::AskFault;
use alto_names::NetName;
use alto_rows::RowStore;
use cost_filters::{AskedTypes, CostType, Tests, read_constraints, read_types};
use cost_rule::Constraint;
use json_tree::Tree;
use std::alloc::Global;
use std::marker::Model;

/// What is asked of the costs between addresses (RFC 7285, section 11.5.1.3; RFC 8189, section 4.2.2).
#[derive(Debug, Drop)]
pub struct EndAsk {
    /// Whether the cost types are asked for in the form of several.
    pub multi: bool,
    /// The cost types, in the order in which they are asked for.
    pub types: Vec<CostType>,
    /// The cost types that the index of a constraint counts in.
    pub tested: Vec<CostType>,
    /// Lists of constraints, of which one must hold whole.
    pub alternatives: Vec<Vec<Constraint>>,
    /// The sources; `None` where none are given, which means the client's own address.
    pub srcs: Option<Vec<Addr>>,
    /// The same of the destinations.
    pub dsts: Option<Vec<Addr>>,
}

impl Model for EndAsk {
    ghost use Rattle.std.specs.Prelude.{map, option_map};
    ghost use Rattle.endpoint_costs.specs.Ask.{EndAskData};

    ghost Value = { EndAskData };

    ghost view = { λ ask. record {
      multi = ask.multi;
      types = ask.types.items;
      tested = ask.tested.items;
      alternatives = map (λ constraints. constraints.items) ask.alternatives.items;
      srcs = option_map (λ addrs. addrs.items) ask.srcs;
      dsts = option_map (λ addrs. addrs.items) ask.dsts;
    } };
}

/// From and to which addresses costs are asked for.
#[derive(Debug, Drop)]
struct Ends {
    srcs: Option<Vec<Addr>>,
    dsts: Option<Vec<Addr>>,
}

impl Model for Ends {
    ghost use Rattle.std.specs.Prelude.{option_map};
    ghost use Rattle.endpoint_costs.specs.Ask.{EndsData};

    ghost Value = { EndsData };

    ghost view = { λ ends. record {
      srcs = option_map (λ addrs. addrs.items) ends.srcs;
      dsts = option_map (λ addrs. addrs.items) ends.dsts;
    } };
}

/// What the body of a request asks of the costs between addresses. Linear in the body, with one search for each cost
/// type in it.
///
/// # Errors
///
/// `Bad` with the first fault in the order of the fields: those of [`read_types`], those of [`read_constraints`],
/// `MissingField` where there is no `endpoints`, `InvalidFieldType` where it is no object, or its `srcs` or `dsts` no
/// list of texts, and `InvalidFieldValue` with the first text that writes no address behind its type.
pub fn read_end_ask<R: RowStore>(
    alloc: Global,
    rows: &R,
    net: &NetName,
    object: &Tree,
) -> Result<EndAsk, AskFault>
    ensures ok { IfOk result (λ ask. ReadsEndAsk (R.rows rows.now) net.now (data_of object.now) (Ok ask)) }
    ensures err { IfErr result (λ fault. fault ≢ AskFault.Memory
        → ReadsEndAsk (R.rows rows.now) net.now (data_of object.now) (Err fault)) }
{
    let AskedTypes { multi, types } = read_types(alloc, rows, net, object)?;
    let Tests {
        tested,
        alternatives,
    } = read_constraints(alloc, rows, net, &types, object)?;
    let Ends { srcs, dsts } = read_ends(alloc, object)?;
    Ok(EndAsk {
        multi,
        types,
        tested,
        alternatives,
        srcs,
        dsts,
    })
}

/// The sources and the destinations that are asked for.
fn read_ends(alloc: Global, ask: &Tree) -> Result<Ends, AskFault>
    ensures ok { IfOk result (λ ends. ReadsEnds (get ends_field (data_of ask.now)) (Ok ends)) }
    ensures err { IfErr result (λ fault. fault ≢ AskFault.Memory
        → ReadsEnds (get ends_field (data_of ask.now)) (Err fault)) }
{
    let object = ends_in(alloc, ask)?;
    let srcs = addrs_at(alloc, "srcs", object)?;
    let dsts = addrs_at(alloc, "dsts", object)?;
    Ok(Ends { srcs, dsts })
}
