//! What the values of a TOML document are.
ghost use Rattle.std.specs.Prelude.{◌≡◌, ◌≤◌, IfSome};
ghost use Rattle.std.specs.Option.{option_map};
ghost use Rattle.toml.specs.Data.{get_member, as_array};
ghost use Rattle.toml.specs.View.{view, table_view, items_view};
ghost use Rattle.rc_config.specs.Workload.{is_among, names_of, file_keys, client_keys, stop_keys, has_only, needed};
ghost use Rattle.rc_config.specs.Workload as workload_spec;

use rc_ids::{Key, NodeId};
use rc_script::words::{key, node};
use toml::{Table, Value};

/// The tables of a workload file.
#[derive(Clone, Copy, Debug)]
pub(crate) enum TableKind {
    File,
    Client,
    Stop,
}

/// The number, if it is in this range.
fn integer_in(number: i64, low: u32, high: u32) -> Option<u32>
    ensures value { result ≡ workload_spec.integer_in low high number }
    ensures range { IfSome result (λ n. (low ≤ n) × (n ≤ high)) }
{
    if number < i64::from(low) || i64::from(high) < number {
        return None;
    }
    Some(number as u32)
}

/// The integer in this range that the value is.
pub(crate) fn number_at(value: &Value, low: u32, high: u32) -> Option<u32>
    ensures value { result ≡ workload_spec.number_at low high (view value.now) }
    ensures range { IfSome result (λ n. (low ≤ n) × (n ≤ high)) }
{
    integer_in(value.as_integer()?, low, high)
}

/// The same for a small number.
pub(crate) fn small_number_at(value: &Value, low: u8, high: u8) -> Option<u8>
    ensures value { result ≡ workload_spec.number_at low high (view value.now) }
    ensures range { IfSome result (λ n. (low ≤ n) × (n ≤ high)) }
{
    let number = number_at(value, u32::from(low), u32::from(high))?;
    Some(number as u8)
}

/// The key that the value is.
pub(crate) fn key_at(value: &Value) -> Option<Key>
    ensures { result ≡ workload_spec.key_at (view value.now) }
{
    key(value.as_str()?.as_bytes())
}

/// The node that the value names, of a world of so many datacentres and shards.
pub(crate) fn node_at(dcs: u8, shards: u8, value: &Value) -> Option<NodeId>
    requires dcs { dcs ≤ 7 }
    requires shards { shards ≤ 8 }
    ensures { result ≡ workload_spec.node_at dcs shards (view value.now) }
{
    node(dcs, shards, value.as_str()?.as_bytes())
}

/// The items of the array that the value is.
pub(crate) fn items_in(value: &Value) -> Option<&[Value]>
    ensures { option_map (λ items. items_view items.now) result ≡ as_array (view value.now) }
{
    match value.as_array() {
        None => None,
        Some(items) => Some(items.as_slice()),
    }
}

/// The value at a key of the table.
pub(crate) fn member<'a>(table: &'a Table, name: &str) -> Option<&'a Value>
    ensures { option_map (λ v. view v.now) result ≡ get_member name.now (table_view table.now) }
{
    table.get(name)
}

/// The number in this range at a key of the table.
pub(crate) fn number_in_table(table: &Table, name: &str, low: u32, high: u32) -> Option<u32>
    ensures value { result ≡ needed (workload_spec.number_at low high) name.now (table_view table.now) }
    ensures range { IfSome result (λ n. (low ≤ n) × (n ≤ high)) }
{
    number_at(member(table, name)?, low, high)
}

/// The same for a small number.
pub(crate) fn small_number_in_table(table: &Table, name: &str, low: u8, high: u8) -> Option<u8>
    ensures value { result ≡ needed (workload_spec.number_at low high) name.now (table_view table.now) }
    ensures range { IfSome result (λ n. (low ≤ n) × (n ≤ high)) }
{
    small_number_at(member(table, name)?, low, high)
}

fn is_file_key(name: &str) -> bool
    ensures { result ≡ is_among file_keys name.now }
{
    matches!(
        name,
        "dcs" | "shards" | "splits" | "weights" | "lose_every" | "repeat_every" | "client" | "stop"
    )
}

fn is_client_key(name: &str) -> bool
    ensures { result ≡ is_among client_keys name.now }
{
    name == "tx" || name == "ops"
}

fn is_stop_key(name: &str) -> bool
    ensures { result ≡ is_among stop_keys name.now }
{
    name == "node" || name == "call" || name == "pick"
}

/// Whether a table of this kind may have the key.
fn is_known(kind: TableKind, name: &str) -> bool
    ensures { result ≡ is_among (names_of kind) name.now }
{
    match kind {
        TableKind::File => is_file_key(name),
        TableKind::Client => is_client_key(name),
        TableKind::Stop => is_stop_key(name),
    }
}

/// Whether the table has the keys of its kind alone.
pub(crate) fn has_known_keys(kind: TableKind, table: &Table) -> bool
    ensures { result ≡ has_only (names_of kind) (table_view table.now) }
{
    for name in table.keys() {
        if !is_known(kind, name.as_str()) {
            return false;
        }
    }
    true
}
