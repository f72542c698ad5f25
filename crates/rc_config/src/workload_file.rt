//! Workload files.
ghost use Rattle.std.specs.Prelude.{◌≡◌, ◌≢◌, ◌≤◌, ◌⊎◌, [], Some, None, Err, IfOk, codes, is_none};
ghost use Rattle.rc_ids.specs.Cluster.{layout, cluster_fault, equal_weights};
ghost use Rattle.toml.specs.Data.{get_member};
ghost use Rattle.toml.specs.Errors.{IsMemory};
ghost use Rattle.toml.specs.View.{table_view};
ghost use Rattle.rc_config.specs.Sound.{IsWorkload};
ghost use Rattle.rc_config.specs.Workload.{needed, optional, document_of, workload_in, GivesWorkload};
ghost use Rattle.rc_config.specs.Workload as workload_spec;

use crate::arrays::{splits_at, weights_at};
use crate::clients::clients_at;
use crate::plan::{ClientPlans, StopPlans};
use crate::stops::stops_at;
use crate::toml_values::{TableKind, has_known_keys, member, number_at, small_number_in_table};
use crate::workload::{Workload, WorkloadFault};
use rc_ids::{Cluster, Key, Keys, NoMemory};
use rc_script::Weights;
use std::alloc::Global;
use toml::Table;
use toml::de::Error;

/// The split keys, none where they are missing.
fn splits_in(alloc: Global, table: &Table) -> Result<Option<Keys>, NoMemory>
    ensures { IfOk result (λ found. found ≡ optional [] workload_spec.splits_at (get_member (codes "splits") (table_view table.now))) }
{
    match member(table, "splits") {
        None => Ok(Some(Keys::new(alloc))),
        Some(value) => splits_at(alloc, value),
    }
}

/// The weights of so many datacentres, all 1 where they are missing.
fn weights_in(alloc: Global, dcs: u8, table: &Table) -> Result<Option<Weights>, NoMemory>
    ensures { IfOk result (λ found. found ≡ optional (equal_weights dcs) workload_spec.weights_at (get_member (codes "weights") (table_view table.now))) }
{
    match member(table, "weights") {
        None => Ok(Some(Weights::new(vec![in alloc; 1u8; usize::from(dcs)]?))),
        Some(value) => weights_at(alloc, value),
    }
}

/// How often messages are lost or repeated, 0 where the key is missing.
fn every_in(table: &Table, name: &str) -> Option<u32>
    ensures { result ≡ optional 0 (workload_spec.number_at 0 1000000) (get_member name.now (table_view table.now)) }
{
    match member(table, name) {
        None => Some(0),
        Some(value) => number_at(value, 0, 1_000_000),
    }
}

/// The clients.
fn clients_in(alloc: Global, table: &Table) -> Result<Option<ClientPlans>, NoMemory>
    ensures { IfOk result (λ found. found ≡ needed workload_spec.clients_at (codes "client") (table_view table.now)) }
{
    match member(table, "client") {
        None => Ok(None),
        Some(value) => clients_at(alloc, value),
    }
}

/// The stops, none where they are missing.
fn stops_in(
    alloc: Global,
    dcs: u8,
    shards: u8,
    table: &Table,
) -> Result<Option<StopPlans>, NoMemory>
    requires dcs { dcs ≤ 7 }
    requires shards { shards ≤ 8 }
    ensures { IfOk result (λ found. found ≡ optional [] (workload_spec.stops_at dcs shards) (get_member (codes "stop") (table_view table.now))) }
{
    match member(table, "stop") {
        None => Ok(Some(StopPlans::new(Vec::new(alloc)))),
        Some(value) => stops_at(alloc, dcs, shards, value),
    }
}

/// A copy of the keys.
fn copied(alloc: Global, keys: &[Key]) -> Result<Vec<Key>, NoMemory>
    ensures { IfOk result (λ copies. copies.items ≡ keys.now) }
{
    let mut copies = Vec::new(alloc);
    for key in keys {
        copies.push(key.copy())?;
    }
    Ok(copies)
}

/// Whether there is such a cluster.
fn is_cluster(
    alloc: Global,
    dcs: u8,
    shards: u8,
    splits: &Keys,
    weights: &Weights,
) -> Result<bool, NoMemory>
    ensures { IfOk result (λ is. is ≡ is_none (cluster_fault (layout dcs shards splits.now weights.now))) }
{
    let splits = copied(alloc, splits.as_slice())?;
    let weights = Vec::from_slice(alloc, weights.as_slice())?;
    Ok(Cluster::weighted(dcs, shards, splits, weights).is_ok())
}

/// The workload that the table is.
#[tactic(auto, unfolding(crate::specs::Workload::workload_of))]
fn workload_of(alloc: Global, table: &Table) -> Result<Option<Workload>, NoMemory>
    ensures { IfOk result (λ found. found ≡ workload_spec.workload_of (table_view table.now)) }
{
    let Some(dcs) = small_number_in_table(table, "dcs", 1, 7) else {
        return Ok(None);
    };
    let Some(shards) = small_number_in_table(table, "shards", 1, 8) else {
        return Ok(None);
    };
    let Some(splits) = splits_in(alloc, table)? else {
        return Ok(None);
    };
    let Some(weights) = weights_in(alloc, dcs, table)? else {
        return Ok(None);
    };
    let Some(lose_every) = every_in(table, "lose_every") else {
        return Ok(None);
    };
    let Some(repeat_every) = every_in(table, "repeat_every") else {
        return Ok(None);
    };
    let Some(clients) = clients_in(alloc, table)? else {
        return Ok(None);
    };
    let Some(stops) = stops_in(alloc, dcs, shards, table)? else {
        return Ok(None);
    };
    if !has_known_keys(TableKind::File, table) {
        return Ok(None);
    }
    if !is_cluster(alloc, dcs, shards, &splits, &weights)? {
        return Ok(None);
    }
    Ok(Some(Workload {
        dcs,
        shards,
        splits,
        weights,
        lose_every,
        repeat_every,
        clients,
        stops,
    }))
}

/// Why `toml` gave no table.
fn fault_of(error: &Error) -> WorkloadFault
    ensures { (IsMemory error.now × (result ≡ WorkloadFault.NoMemory)) ⊎ ((IsMemory error.now → ⊥) × (result ≡ WorkloadFault.NotToml)) }
{
    if error.is_memory() {
        WorkloadFault::NoMemory
    } else {
        WorkloadFault::NotToml
    }
}

/// The table of the file.
fn document(alloc: Global, bytes: &[u8]) -> Result<Table, WorkloadFault>
    ensures found { IfOk result (λ table. document_of bytes.now ≡ Some (table_view table)) }
    ensures none { result ≡ Err WorkloadFault.NotToml → document_of bytes.now ≡ None }
    ensures schema { result ≢ Err WorkloadFault.Schema }
{
    match toml::table_from_slice(alloc, bytes) {
        Ok(table) => Ok(table),
        Err(error) => Err(fault_of(&error)),
    }
}

/// The workload that the file is. `NotToml` comes where the bytes are no TOML in UTF-8, `Schema` where they are and the
/// table is no workload. The limit of bytes is the caller's to test.
pub fn read_workload(alloc: Global, bytes: &[u8]) -> Result<Workload, WorkloadFault>
    // The workload or the fault that the definition gives, unless memory runs out.
    ensures exact { GivesWorkload (workload_in (document_of bytes.now)) result }

    // What holds of each workload that is read.
    ensures sound { IfOk result IsWorkload }
{
    let table = document(alloc, bytes)?;
    match workload_of(alloc, &table)? {
        Some(workload) => Ok(workload),
        None => Err(WorkloadFault::Schema),
    }
}
