//! The clients of a workload file.
ghost use Rattle.std.specs.Prelude.{◌≡◌, ◌≤◌, length, IfOk};
ghost use Rattle.std.specs.Option.{option_map};
ghost use Rattle.toml.specs.View.{view, table_view, items_view};
ghost use Rattle.rc_config.specs.Workload.{needed, each};
ghost use Rattle.rc_config.specs.Workload as workload_spec;

use crate::arrays::operations_at;
use crate::operation::Operations;
use crate::plan::{ClientPlan, ClientPlans};
use crate::toml_values::{TableKind, has_known_keys, items_in, member, number_in_table};
use rc_ids::{NoMemory, TxId};
use std::alloc::Global;
use toml::{Table, Value};

/// The operations at a key of the table.
fn operations_in(alloc: Global, table: &Table, name: &str) -> Result<Option<Operations>, NoMemory>
    ensures { IfOk result (λ found. found ≡ needed workload_spec.operations_at name.now (table_view table.now)) }
{
    match member(table, name) {
        None => Ok(None),
        Some(value) => operations_at(alloc, value),
    }
}

/// The client that the table is.
fn client_from(alloc: Global, table: &Table) -> Result<Option<ClientPlan>, NoMemory>
    ensures { IfOk result (λ found. found ≡ workload_spec.client_from (table_view table.now)) }
{
    let Some(number) = number_in_table(table, "tx", 1, u32::MAX) else {
        return Ok(None);
    };
    let Some(operations) = operations_in(alloc, table, "ops")? else {
        return Ok(None);
    };
    if !has_known_keys(TableKind::Client, table) {
        return Ok(None);
    }
    let tx = TxId(number);
    Ok(Some(ClientPlan { tx, operations }))
}

/// The client that the value is.
fn client_at(alloc: Global, value: &Value) -> Result<Option<ClientPlan>, NoMemory>
    ensures { IfOk result (λ found. found ≡ workload_spec.client_at (view value.now)) }
{
    match value.as_table() {
        None => Ok(None),
        Some(table) => client_from(alloc, table),
    }
}

/// The clients that the items are, if all are clients.
fn each_client(alloc: Global, items: &[Value]) -> Result<Option<Vec<ClientPlan>>, NoMemory>
    ensures { IfOk result (λ found. option_map (λ v. v.items) found ≡ each workload_spec.client_at (items_view items.now)) }
{
    let mut clients = Vec::new(alloc);
    for item in items {
        let Some(client) = client_at(alloc, item)? else {
            return Ok(None);
        };
        clients.push(client)?;
    }
    Ok(Some(clients))
}

/// Whether the clients have other transactions than this one.
fn have_other_txs(tx: TxId, clients: &[ClientPlan]) -> bool
    ensures { result ≡ workload_spec.have_other_txs tx clients.now }
{
    clients.iter().all(|client| client.tx.0 != tx.0)
}

/// Whether no two clients have one transaction.
fn txs_differ(clients: &[ClientPlan]) -> bool
    ensures { result ≡ workload_spec.txs_differ clients.now }
{
    match clients {
        [] => true,
        [client, others @ ..] => have_other_txs(client.tx, others) && txs_differ(others),
    }
}

/// Whether there are 1 to 32 clients, whose transactions differ.
fn are_clients(clients: &[ClientPlan]) -> bool
    ensures { result ≡ workload_spec.are_clients clients.now }
{
    1 <= clients.len() && clients.len() <= 32 && txs_differ(clients)
}

/// The clients that the value is.
pub(crate) fn clients_at(alloc: Global, value: &Value) -> Result<Option<ClientPlans>, NoMemory>
    ensures { IfOk result (λ found. found ≡ workload_spec.clients_at (view value.now)) }
{
    let Some(items) = items_in(value) else {
        return Ok(None);
    };
    let Some(clients) = each_client(alloc, items)? else {
        return Ok(None);
    };
    if !are_clients(clients.as_slice()) {
        return Ok(None);
    }
    Ok(Some(ClientPlans::new(clients)))
}
