//! The arrays of a workload file.
ghost use Rattle.std.specs.Prelude.{◌≡◌, ◌≤◌, IfOk};
ghost use Rattle.std.specs.Option.{option_map};
ghost use Rattle.toml.specs.Data.{as_str};
ghost use Rattle.toml.specs.View.{view, items_view};
ghost use Rattle.rc_config.specs.Workload.{each, number_at};
ghost use Rattle.rc_config.specs.Workload as workload_spec;

use crate::course::are_operations;
use crate::operation::{Operation, Operations, operation_of};
use crate::toml_values::{items_in, key_at, small_number_at};
use rc_ids::{Keys, NoMemory};
use rc_script::Weights;
use std::alloc::Global;
use toml::Value;

/// The keys that the items are, if all are keys.
fn each_key(alloc: Global, items: &[Value]) -> Result<Option<Keys>, NoMemory>
    ensures { IfOk result (λ found. found ≡ each workload_spec.key_at (items_view items.now)) }
{
    let mut keys = Keys::new(alloc);
    for item in items {
        let Some(key) = key_at(item) else {
            return Ok(None);
        };
        keys.push(key)?;
    }
    Ok(Some(keys))
}

/// The weights that the items are, if all are weights.
fn each_weight(alloc: Global, items: &[Value]) -> Result<Option<Vec<u8>>, NoMemory>
    ensures { IfOk result (λ found. option_map (λ v. v.items) found ≡ each (number_at 1 9) (items_view items.now)) }
{
    let mut weights = Vec::new(alloc);
    for item in items {
        let Some(weight) = small_number_at(item, 1, 9) else {
            return Ok(None);
        };
        weights.push(weight)?;
    }
    Ok(Some(weights))
}

/// The operation that the value spells.
fn operation_at(alloc: Global, value: &Value) -> Result<Option<Operation>, NoMemory>
    ensures { IfOk result (λ found. found ≡ workload_spec.operation_at (view value.now)) }
{
    match value.as_str() {
        None => Ok(None),
        Some(text) => operation_of(alloc, text.as_bytes()),
    }
}

/// The operations that the items spell, if all spell one.
fn each_operation(alloc: Global, items: &[Value]) -> Result<Option<Vec<Operation>>, NoMemory>
    ensures { IfOk result (λ found. option_map (λ v. v.items) found ≡ each workload_spec.operation_at (items_view items.now)) }
{
    let mut operations = Vec::new(alloc);
    for item in items {
        let Some(operation) = operation_at(alloc, item)? else {
            return Ok(None);
        };
        operations.push(operation)?;
    }
    Ok(Some(operations))
}

/// The split keys that the value is.
pub(crate) fn splits_at(alloc: Global, value: &Value) -> Result<Option<Keys>, NoMemory>
    ensures { IfOk result (λ found. found ≡ workload_spec.splits_at (view value.now)) }
{
    match items_in(value) {
        None => Ok(None),
        Some(items) => each_key(alloc, items),
    }
}

/// The weights that the value is.
pub(crate) fn weights_at(alloc: Global, value: &Value) -> Result<Option<Weights>, NoMemory>
    ensures { IfOk result (λ found. found ≡ workload_spec.weights_at (view value.now)) }
{
    let Some(items) = items_in(value) else {
        return Ok(None);
    };
    let Some(weights) = each_weight(alloc, items)? else {
        return Ok(None);
    };
    Ok(Some(Weights::new(weights)))
}

/// The operations that the value is, if a client may have them.
pub(crate) fn operations_at(alloc: Global, value: &Value) -> Result<Option<Operations>, NoMemory>
    ensures { IfOk result (λ found. found ≡ workload_spec.operations_at (view value.now)) }
{
    let Some(items) = items_in(value) else {
        return Ok(None);
    };
    let Some(operations) = each_operation(alloc, items)? else {
        return Ok(None);
    };
    if !are_operations(alloc, operations.as_slice())? {
        return Ok(None);
    }
    Ok(Some(Operations::new(operations)))
}
