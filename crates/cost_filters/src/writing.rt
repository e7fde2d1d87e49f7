//! Costs and cost types as JSON text.
ghost use Rattle.std.specs.Prelude.{◌≡◌, map, OnOk};
ghost use Rattle.alto_maps.specs.Writing.{AddsMember, AddsValue};
ghost use Rattle.cost_filters.specs.Filter.{mode_of, type_data, types_data, types_name};
ghost use Rattle.cost_filters.specs.Text.{AddsItems};

use crate::types::CostType;
use json::Writer;
use net_docs::write_text;
use std::alloc::AllocError;

/// Writes the cost types with their name: in the form of several a list, else the one.
pub fn write_types(multi: bool, types: &[CostType], out: &mut Writer) -> Result<(), AllocError>
    ensures { OnOk result (AddsMember (types_name multi) (types_data multi types.now) out.old out.new) }
{
    out.key(types_name(multi))?;
    write_types_data(multi, types, out)
}

/// The name of the member that tells the cost types.
fn types_name(multi: bool) -> &'static str
    ensures { result.now ≡ types_name multi }
{
    if multi {
        "multi-cost-types"
    } else {
        "cost-type"
    }
}

fn write_types_data(multi: bool, types: &[CostType], out: &mut Writer) -> Result<(), AllocError>
    ensures { OnOk result (AddsValue (types_data multi types.now) out.old out.new) }
{
    if multi {
        out.begin_array()?;
        write_each_type(types, out)?;
        return out.end_array();
    }
    match types.first() {
        Some(one) => write_type(one, out),
        None => out.null(),
    }
}

fn write_each_type(types: &[CostType], out: &mut Writer) -> Result<(), AllocError>
    ensures { OnOk result (AddsItems (map type_data types.now) out.old out.new) }
{
    for one in types {
        write_type(one, out)?;
    }
    Ok(())
}

fn write_type(one: &CostType, out: &mut Writer) -> Result<(), AllocError>
    ensures { OnOk result (AddsValue (type_data one.now) out.old out.new) }
{
    out.begin_object()?;
    write_text(out, "cost-metric", one.metric.as_str())?;
    write_text(out, "cost-mode", mode_of(one))?;
    out.end_object()
}

/// The mode of a cost type.
fn mode_of(one: &CostType) -> &'static str
    ensures { result.now ≡ mode_of one.now }
{
    if one.ordinal { "ordinal" } else { "numerical" }
}
