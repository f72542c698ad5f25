//! The stops of a workload file.
ghost use Rattle.std.specs.Prelude.{◌≡◌, ◌≤◌, length, IfOk};
ghost use Rattle.std.specs.Option.{option_map};
ghost use Rattle.toml.specs.View.{view, table_view, items_view};
ghost use Rattle.rc_config.specs.Workload.{needed, each};
ghost use Rattle.rc_config.specs.Workload as workload_spec;

use crate::plan::{StopPlan, StopPlans};
use crate::toml_values::{
    TableKind, has_known_keys, items_in, member, node_at, number_in_table, small_number_in_table,
};
use rc_ids::{NoMemory, NodeId};
use std::alloc::Global;
use toml::{Table, Value};

/// The node at a key of the table.
fn node_in(dcs: u8, shards: u8, table: &Table, name: &str) -> Option<NodeId>
    requires dcs { dcs ≤ 7 }
    requires shards { shards ≤ 8 }
    ensures { result ≡ needed (workload_spec.node_at dcs shards) name.now (table_view table.now) }
{
    node_at(dcs, shards, member(table, name)?)
}

/// The stop that the table is, in a world of so many datacentres and shards.
fn stop_from(dcs: u8, shards: u8, table: &Table) -> Option<StopPlan>
    requires dcs { dcs ≤ 7 }
    requires shards { shards ≤ 8 }
    ensures { result ≡ workload_spec.stop_from dcs shards (table_view table.now) }
{
    let node = node_in(dcs, shards, table, "node")?;
    let call = number_in_table(table, "call", 1, 1_000)?;
    let pick = small_number_in_table(table, "pick", 0, 3)?;
    if !has_known_keys(TableKind::Stop, table) {
        return None;
    }
    Some(StopPlan { node, call, pick })
}

/// The stop that the value is.
fn stop_at(dcs: u8, shards: u8, value: &Value) -> Option<StopPlan>
    requires dcs { dcs ≤ 7 }
    requires shards { shards ≤ 8 }
    ensures { result ≡ workload_spec.stop_at dcs shards (view value.now) }
{
    stop_from(dcs, shards, value.as_table()?)
}

/// The stops that the items are, if all are stops.
fn each_stop(
    alloc: Global,
    dcs: u8,
    shards: u8,
    items: &[Value],
) -> Result<Option<StopPlans>, NoMemory>
    requires dcs { dcs ≤ 7 }
    requires shards { shards ≤ 8 }
    ensures { IfOk result (λ found. found ≡ each (workload_spec.stop_at dcs shards) (items_view items.now)) }
{
    let mut stops = StopPlans::new(Vec::new(alloc));
    for item in items {
        let Some(StopPlan { node, call, pick }) = stop_at(dcs, shards, item) else {
            return Ok(None);
        };
        stops.push(node, call, pick)?;
    }
    Ok(Some(stops))
}

/// Whether the stops are of other nodes than this one.
fn have_other_nodes(node: &NodeId, stops: &[StopPlan]) -> bool
    ensures { result ≡ workload_spec.have_other_nodes node.now stops.now }
{
    stops.iter().all(|stop| !stop.node.is(node))
}

/// Whether no two stops are of one node.
fn nodes_differ(stops: &[StopPlan]) -> bool
    ensures { result ≡ workload_spec.nodes_differ stops.now }
{
    match stops {
        [] => true,
        [stop, others @ ..] => have_other_nodes(&stop.node, others) && nodes_differ(others),
    }
}

/// Whether there are at most 32 stops, one for a node.
fn are_stops(stops: &[StopPlan]) -> bool
    ensures { result ≡ workload_spec.are_stops stops.now }
{
    stops.len() <= 32 && nodes_differ(stops)
}

/// The stops that the value is, in a world of so many datacentres and shards.
pub(crate) fn stops_at(
    alloc: Global,
    dcs: u8,
    shards: u8,
    value: &Value,
) -> Result<Option<StopPlans>, NoMemory>
    requires dcs { dcs ≤ 7 }
    requires shards { shards ≤ 8 }
    ensures { IfOk result (λ found. found ≡ workload_spec.stops_at dcs shards (view value.now)) }
{
    let Some(items) = items_in(value) else {
        return Ok(None);
    };
    let Some(stops) = each_stop(alloc, dcs, shards, items)? else {
        return Ok(None);
    };
    if !are_stops(stops.as_slice()) {
        return Ok(None);
    }
    Ok(Some(stops))
}
