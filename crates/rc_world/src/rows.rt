// The lines that show the rows of a shard server.
ghost use Rattle.std.specs.Prelude.{◌≡◌, ◌++◌, map, is_some, IfOk, OnOk, if◌then◌else◌};
ghost use Rattle.rc_ids.specs.Tables.{put, added};
ghost use Rattle.rc_ids.specs.Texts.{key_cmp};
ghost use Rattle.rc_record.specs.Rows.{version_at, value_at};
ghost use Rattle.rc_report.specs.declared.line.Hold.TheVariants.{Held, Free};
ghost use Rattle.rc_protocol.specs.Shard.{holder};
ghost use Rattle.rc_protocol.specs.Shown.{with_written, with_held};
ghost use Rattle.rc_world.specs.Shown.{RowsRise, keys_in, keys_shown, row_of};

use rc_body::Body;
use rc_disk::Disk;
use rc_ids::{Key, NoMemory, NodeId, Val, Version};
use rc_locks::{Locks, Prepared};
use rc_log::Log;
use rc_report::{Hold, Line, Lines};
use rc_shard::Shard;
use std::alloc::Global;
use std::collections::{BTreeMap, BTreeSet};

/// The version and the value of each key that was written.
type RowMap = BTreeMap<Key, (Version, Val)>;

/// Gives the key the version and the value.
fn put_row(rows: &mut RowMap, key: &Key, version: Version, val: &Val) -> Result<(), NoMemory>
    ensures { OnOk result (rows.new.entries ≡ put key_cmp rows.old.entries key.now (version, val.now)) }
{
    let row = (version, val.copy()?);
    rows.insert(key.copy(), row)?;
    Ok(())
}

/// The rows of a shard server.
fn rows_of<D: Disk>(alloc: Global, shard: &Shard<Log<D>, Locks>) -> Result<RowMap, NoMemory>
    ensures { IfOk result (λ rows. RowsRise shard.now.durable.rows → rows.entries ≡ shard.now.durable.rows) }
{
    let mut rows = BTreeMap::new(alloc);
    for (key, version, val) in shard.rows() {
        put_row(&mut rows, key, version, val)?;
    }
    Ok(rows)
}

/// Adds the key.
fn add_key(keys: &mut BTreeSet<Key>, key: &Key) -> Result<(), NoMemory>
    ensures { OnOk result (keys.new.keys ≡ added key_cmp keys.old.keys key.now) }
{
    keys.insert(key.copy())?;
    Ok(())
}

/// Adds the key, if it is written.
fn add_if(keys: &mut BTreeSet<Key>, key: &Key, is_written: bool) -> Result<(), NoMemory>
    ensures { OnOk result (keys.new.keys ≡ (if is_written then added key_cmp keys.old.keys key.now else keys.old.keys)) }
{
    if is_written {
        add_key(keys, key)?;
    }
    Ok(())
}

/// Adds the keys that the part writes.
fn add_written(keys: &mut BTreeSet<Key>, part: &Body) -> Result<(), NoMemory>
    ensures { OnOk result (keys.new.keys ≡ with_written keys.old.keys part.now) }
{
    for index in 0..part.len() {
        let entry = part.entry(index);
        let is_written = entry.write.is_some();
        add_if(keys, entry.key, is_written)?;
    }
    Ok(())
}

/// Adds the keys that are held exclusively.
fn add_held(keys: &mut BTreeSet<Key>, parts: &[Prepared]) -> Result<(), NoMemory>
    ensures { OnOk result (keys.new.keys ≡ with_held keys.old.keys parts.now) }
{
    for part in parts {
        add_written(keys, &part.1)?;
    }
    Ok(())
}

/// The keys that were written.
fn row_keys(alloc: Global, rows: &RowMap) -> Result<BTreeSet<Key>, NoMemory>
    ensures { IfOk result (λ keys. keys.keys ≡ keys_in rows.now.entries) }
{
    let mut keys = BTreeSet::new(alloc);
    for (key, _) in rows {
        add_key(&mut keys, key)?;
    }
    Ok(keys)
}

/// The version of the key, 0 where it was never written.
fn version_in(rows: &RowMap, key: &Key) -> Version
    ensures { result ≡ version_at rows.now.entries key.now }
{
    match rows.get(key) {
        Some(row) => row.0,
        None => Version(0),
    }
}

/// The value of the key, where it was ever written.
fn value_in(rows: &RowMap, key: &Key) -> Result<Option<Val>, NoMemory>
    ensures { IfOk result (λ value. value ≡ value_at rows.now.entries key.now) }
{
    match rows.get(key) {
        Some(row) => Ok(Some(row.1.copy()?)),
        None => Ok(None),
    }
}

/// Whether a transaction holds the key exclusively.
fn hold_of<D: Disk>(shard: &Shard<Log<D>, Locks>, key: &Key) -> Hold
    ensures { result ≡ (if is_some (holder shard.now.durable.parts key.now) then Held else Free) }
{
    match shard.holder(key) {
        Some(_) => Hold::Held,
        None => Hold::Free,
    }
}

/// The line of a key.
fn row_line<D: Disk>(
    node: NodeId,
    shard: &Shard<Log<D>, Locks>,
    rows: &RowMap,
    key: Key,
) -> Result<Line, NoMemory>
    ensures { IfOk result (λ line. line ≡ row_of node rows.now.entries shard.now.durable.parts key) }
{
    let version = version_in(rows, &key);
    let value = value_in(rows, &key)?;
    let hold = hold_of(shard, &key);
    Ok(Line::Row(node, key, version, hold, value))
}

/// Adds a line for each key.
fn push_rows<D: Disk>(
    node: NodeId,
    shard: &Shard<Log<D>, Locks>,
    rows: &RowMap,
    keys: BTreeSet<Key>,
    lines: &mut Lines,
) -> Result<(), NoMemory>
    ensures { OnOk result (lines.new ≡ lines.old ++ map (row_of node rows.now.entries shard.now.durable.parts) keys.keys) }
{
    for key in keys {
        lines.push(row_line(node, shard, rows, key)?)?;
    }
    Ok(())
}

/// Adds a line for each key that was written or is held exclusively at a shard server, in key order.
pub(crate) fn show_rows<D: Disk>(
    alloc: Global,
    node: NodeId,
    shard: &Shard<Log<D>, Locks>,
    lines: &mut Lines,
) -> Result<(), NoMemory>
    ensures { RowsRise shard.now.durable.rows → OnOk result (lines.new ≡ lines.old ++ map (row_of node shard.now.durable.rows shard.now.durable.parts) (keys_shown shard.now.durable.rows shard.now.durable.parts)) }
{
    let rows = rows_of(alloc, shard)?;
    let mut keys = row_keys(alloc, &rows)?;
    add_held(&mut keys, shard.parts())?;
    push_rows(node, shard, &rows, keys, lines)
}
