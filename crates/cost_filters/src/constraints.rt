ghost use Rattle.std.specs.Prelude.{◌≡◌, ◌≢◌, Ok, Err, IfOk, IfErr, OnOk, map};
ghost use Rattle.serde_json.specs.Data.{no_items};
ghost use Rattle.serde_json.specs.Find.{get};
ghost use Rattle.json_tree.specs.Tree.{data_of, items_data};
ghost use Rattle.cost_rule.specs.Stages.{spelled};
ghost use Rattle.cost_filters.specs.Constraints.{all_field, alternatives_by, alternatives_in, asked_tests};
ghost use Rattle.cost_filters.specs.Constraints.{constraint_named, constraints_in, no_alternatives, no_lists};
ghost use Rattle.cost_filters.specs.Constraints.{only_text_lists, or_none, tested_by, tested_field, testing};
ghost use Rattle.cost_filters.specs.Constraints.{tests_one};

use crate::fields::{items_in, wrong_value};
use crate::types::{CostType, cost_types_in};
use alto_asks::{AskFault, optional_items, text_in, texts_of};
use alto_names::NetName;
use alto_rows::RowStore;
use cost_rule::{Constraint, read_constraint};
use json_tree::Tree;
use std::alloc::{AllocError, Global};
use std::marker::Model;

/// What is asked of the costs of each pair.
#[derive(Debug, Drop)]
pub struct Tests {
    /// The cost types that the index of a constraint counts in.
    pub tested: Vec<CostType>,
    /// Lists of constraints, of which one must hold whole.
    pub alternatives: Vec<Vec<Constraint>>,
}

impl Model for Tests {
    ghost use Rattle.std.specs.Prelude.{map};
    ghost use Rattle.cost_filters.specs.Constraints.{TestsData};

    ghost Value = { TestsData };

    ghost view = { λ tests. record {
      tested = tests.tested.items;
      alternatives = map (λ constraints. constraints.items) tests.alternatives.items;
    } };
}

/// The constraints in the body of a request that asks for these cost types, by the fields `testable-cost-types`,
/// `constraints` and `or-constraints`. Linear in these fields, with one search for each type that may be tested.
///
/// # Errors
///
/// `Bad` with the first fault: those of cost types; `InvalidFieldType` where a field or an inner list is no list, or
/// an item no text; `InvalidFieldValue` where a text is no constraint, or one on a type that isn't there or on ranks,
/// and where both of the last two fields are there and the second isn't empty.
#[tactic(auto, unfolding(crate::specs::Constraints::asked_tests))]
pub fn read_constraints<R: RowStore>(
    alloc: Global,
    rows: &R,
    net: &NetName,
    asked: &[CostType],
    ask: &Tree,
) -> Result<Tests, AskFault>
    ensures ok { IfOk result (λ tests. asked_tests (R.rows rows.now) net.now asked.now (data_of ask.now) ≡ Ok tests) }
    ensures err { IfErr result (λ fault. fault ≢ AskFault.Memory
        → asked_tests (R.rows rows.now) net.now asked.now (data_of ask.now) ≡ Err fault) }
{
    let tested = tested_by(alloc, rows, net, asked, ask)?;
    let alternatives = alternatives_by(alloc, &tested, ask)?;
    Ok(Tests {
        tested,
        alternatives,
    })
}

/// The types that an index counts in.
fn tested_by<R: RowStore>(
    alloc: Global,
    rows: &R,
    net: &NetName,
    asked: &[CostType],
    ask: &Tree,
) -> Result<Vec<CostType>, AskFault>
    ensures ok { IfOk result (λ tested.
        tested_by (R.rows rows.now) net.now asked.now (get tested_field (data_of ask.now))
        ≡ Ok tested.items) }
    ensures err { IfErr result (λ fault. fault ≢ AskFault.Memory
        → tested_by (R.rows rows.now) net.now asked.now (get tested_field (data_of ask.now)) ≡ Err fault) }
{
    match ask.member("testable-cost-types") {
        Some(value) => {
            let items = items_in(alloc, "testable-cost-types", value)?;
            cost_types_in(alloc, rows, net, "testable-cost-types", items)
        }
        None => Ok(copies(alloc, asked)?),
    }
}

/// The same types again.
fn copies(alloc: Global, types: &[CostType]) -> Result<Vec<CostType>, AllocError>
    ensures { IfOk result (λ copies. copies.items ≡ types.now) }
{
    let mut copies = Vec::with_capacity(alloc, types.len())?;
    for one in types {
        copies.push(one.copy()?)?;
    }
    Ok(copies)
}

/// The alternatives, by the fields of both forms.
fn alternatives_by(
    alloc: Global,
    types: &[CostType],
    ask: &Tree,
) -> Result<Vec<Vec<Constraint>>, AskFault>
    ensures ok { IfOk result (λ alternatives.
        alternatives_by types.now (data_of ask.now) (get all_field (data_of ask.now))
        ≡ Ok (map (λ constraints. constraints.items) alternatives.items)) }
    ensures err { IfErr result (λ fault. fault ≢ AskFault.Memory
        → alternatives_by types.now (data_of ask.now) (get all_field (data_of ask.now)) ≡ Err fault) }
{
    match ask.member("constraints") {
        Some(value) => {
            let items = items_in(alloc, "constraints", value)?;
            let constraints = constraints_in(alloc, types, "constraints", items)?;
            no_alternatives(alloc, ask)?;
            Ok(vec![in alloc; constraints]?)
        }
        None => {
            let items = optional_items(alloc, ask, "or-constraints")?;
            let alternatives = alternatives_in(alloc, types, items)?;
            Ok(or_none(alloc, alternatives)?)
        }
    }
}

/// There are no alternatives beside constraints that must all hold.
fn no_alternatives(alloc: Global, ask: &Tree) -> Result<(), AskFault>
    ensures ok { OnOk result (no_alternatives (data_of ask.now) ≡ Ok no_items) }
    ensures err { IfErr result (λ fault. fault ≢ AskFault.Memory → no_alternatives (data_of ask.now) ≡ Err fault) }
{
    let items = optional_items(alloc, ask, "or-constraints")?;
    only_text_lists(alloc, items)?;
    no_lists(alloc, items)
}

/// Each item is a list of texts.
fn only_text_lists(alloc: Global, items: &[Tree]) -> Result<(), AskFault>
    ensures ok { OnOk result (only_text_lists (items_data items.now) ≡ Ok no_items) }
    ensures err { IfErr result (λ fault. fault ≢ AskFault.Memory → only_text_lists (items_data items.now) ≡ Err fault) }
{
    for item in items {
        let list = items_in(alloc, "or-constraints", item)?;
        texts_of(alloc, "or-constraints", list)?;
    }
    Ok(())
}

/// There is no item.
fn no_lists(alloc: Global, items: &[Tree]) -> Result<(), AskFault>
    ensures ok { OnOk result (no_lists (items_data items.now) ≡ Ok no_items) }
    ensures err { IfErr result (λ fault. fault ≢ AskFault.Memory → no_lists (items_data items.now) ≡ Err fault) }
{
    if items.is_empty() {
        Ok(())
    } else {
        Err(wrong_value(alloc, "or-constraints")?)
    }
}

/// The alternatives, or one without a constraint where there are none.
fn or_none(
    alloc: Global,
    alternatives: Vec<Vec<Constraint>>,
) -> Result<Vec<Vec<Constraint>>, AllocError>
    ensures { IfOk result (λ all. map (λ constraints. constraints.items) all.items
        ≡ or_none (map (λ constraints. constraints.items) alternatives.items)) }
{
    if alternatives.is_empty() {
        return Ok(vec![in alloc; Vec::new(alloc)]?);
    }
    Ok(alternatives)
}

/// The lists of constraints that items are.
fn alternatives_in(
    alloc: Global,
    types: &[CostType],
    items: &[Tree],
) -> Result<Vec<Vec<Constraint>>, AskFault>
    ensures ok { IfOk result (λ alternatives. alternatives_in types.now (items_data items.now)
        ≡ Ok (map (λ constraints. constraints.items) alternatives.items)) }
    ensures err { IfErr result (λ fault. fault ≢ AskFault.Memory
        → alternatives_in types.now (items_data items.now) ≡ Err fault) }
{
    let mut alternatives = Vec::new(alloc);
    for item in items {
        let texts = items_in(alloc, "or-constraints", item)?;
        alternatives.push(constraints_in(alloc, types, "or-constraints", texts)?)?;
    }
    Ok(alternatives)
}

/// The constraints that the items of a field's list are.
fn constraints_in(
    alloc: Global,
    types: &[CostType],
    field: &str,
    items: &[Tree],
) -> Result<Vec<Constraint>, AskFault>
    ensures ok { IfOk result (λ constraints. constraints_in types.now field.now (items_data items.now)
        ≡ Ok constraints.items) }
    ensures err { IfErr result (λ fault. fault ≢ AskFault.Memory
        → constraints_in types.now field.now (items_data items.now) ≡ Err fault) }
{
    let mut constraints = Vec::new(alloc);
    for item in items {
        let text = text_in(alloc, field, item)?;
        constraints.push(constraint_named(alloc, types, field, text)?)?;
    }
    Ok(constraints)
}

/// The constraint of a text on one of these types.
fn constraint_named(
    alloc: Global,
    types: &[CostType],
    field: &str,
    text: &str,
) -> Result<Constraint, AskFault>
    ensures ok { IfOk result (λ constraint. constraint_named types.now field.now text.now ≡ Ok constraint) }
    ensures err { IfErr result (λ fault. fault ≢ AskFault.Memory
        → constraint_named types.now field.now text.now ≡ Err fault) }
{
    match spelled(text) {
        Some(constraint) => testing(alloc, types, field, text, constraint),
        None => Err(AskFault::wrong_text(alloc, field, text)?),
    }
}

/// The constraint, if it tests one of these types.
fn testing(
    alloc: Global,
    types: &[CostType],
    field: &str,
    text: &str,
    constraint: Constraint,
) -> Result<Constraint, AskFault>
    ensures ok { IfOk result (λ read. testing types.now field.now text.now (Some constraint) ≡ Ok read) }
    ensures err { IfErr result (λ fault. fault ≢ AskFault.Memory
        → testing types.now field.now text.now (Some constraint) ≡ Err fault) }
{
    if tests_one(types, &constraint) {
        Ok(constraint)
    } else {
        Err(AskFault::wrong_text(alloc, field, text)?)
    }
}

/// The constraint that a text spells.
fn spelled(text: &str) -> Option<Constraint>
    ensures { result ≡ spelled text.now }
{
    read_constraint(text.as_bytes()).ok()
}

/// Whether a constraint tests the costs of one of these types.
fn tests_one(types: &[CostType], constraint: &Constraint) -> bool
    ensures { result ≡ tests_one types.now constraint.now }
{
    let index = constraint.index.unwrap_or(0);
    match types.get(usize::from(index)) {
        Some(one) => !one.ordinal,
        None => false,
    }
}
