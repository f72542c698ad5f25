// What is shown of a shard server.
ghost use Rattle.std.specs.Prelude.{◌≡◌, ◌++◌, map, is_some, IfOk, OnOk, ℕ, List, if◌then◌else◌};
ghost use Rattle.rc_ids.specs.Tables.{added};
ghost use Rattle.rc_ids.specs.Texts.{key_cmp};
ghost use Rattle.rc_ids.specs.declared.names.NodeId.TheVariants.{Shard as ShardServer};
ghost use Rattle.rc_record.specs.ShardState.{version_at, value_at};
ghost use Rattle.rc_report.specs.declared.line.Line.TheVariants.{Row};
ghost use Rattle.rc_report.specs.declared.line.Hold.TheVariants.{Held, Free};
ghost use Rattle.rc_protocol.specs.Shard as shard_spec;
ghost use Rattle.rc_protocol.specs.Shown.{with_written, with_held};
ghost use Rattle.rc_plain_shard.specs.Shown.{keys_shown, row_of};

use crate::durable::Durable;
use crate::parts::holder;
use crate::prepared::PreparedParts;
use rc_body::Body;
use rc_ids::{DcId, Key, NoMemory, NodeId, ShardId};
use rc_record::Rows;
use rc_report::{Hold, Line, Lines};
use std::alloc::Global;
use std::collections::BTreeSet;

/// Adds the key.
fn add_key(keys: &mut BTreeSet<Key>, key: &Key) -> Result<(), NoMemory>
    ensures { OnOk result (keys.new.keys ≡ added key_cmp keys.old.keys key.now) }
{
    keys.insert(key.copy())?;
    Ok(())
}

/// Adds the key, if it is written.
fn add_if(keys: &mut BTreeSet<Key>, key: &Key, is_written: bool) -> Result<(), NoMemory>
    ensures { OnOk result (keys.new.keys ≡ (if is_written then added key_cmp keys.old.keys key.now else keys.old.keys)) }
{
    if is_written {
        add_key(keys, key)?;
    }
    Ok(())
}

/// Adds the keys that the part writes.
fn add_written(keys: &mut BTreeSet<Key>, part: &Body) -> Result<(), NoMemory>
    ensures { OnOk result (keys.new.keys ≡ with_written keys.old.keys part.now) }
{
    for index in 0..part.len() {
        let entry = part.entry(index);
        let is_written = entry.write.is_some();
        add_if(keys, entry.key, is_written)?;
    }
    Ok(())
}

/// Adds the keys that are held exclusively.
fn add_held(keys: &mut BTreeSet<Key>, parts: &PreparedParts) -> Result<(), NoMemory>
    ensures { OnOk result (keys.new.keys ≡ with_held keys.old.keys parts.now) }
{
    for (_, part) in parts.as_map() {
        add_written(keys, part)?;
    }
    Ok(())
}

/// The keys that were written.
fn row_keys(alloc: Global, rows: &Rows) -> Result<BTreeSet<Key>, NoMemory>
    ensures { IfOk result (λ keys. keys.keys ≡ map (λ (row : List ℕ × (ℕ × List ℕ)). row.0) rows.now) }
{
    let mut keys = BTreeSet::new(alloc);
    for (key, _) in rows.as_map() {
        add_key(&mut keys, key)?;
    }
    Ok(keys)
}

/// The line of a key.
fn row_line(dc: DcId, shard: ShardId, durable: &Durable, key: Key) -> Result<Line, NoMemory>
    ensures { IfOk result (λ line. line ≡ row_of (ShardServer dc shard) durable.now key) }
{
    let version = durable.rows.version(&key);
    let value = durable.rows.value(&key)?;
    let hold = match holder(&durable.parts, &key) {
        Some(_) => Hold::Held,
        None => Hold::Free,
    };
    Ok(Line::Row(NodeId::Shard(dc, shard), key, version, hold, value))
}

/// Adds a line for each key.
fn push_rows(
    dc: DcId,
    shard: ShardId,
    durable: &Durable,
    keys: BTreeSet<Key>,
    lines: &mut Lines,
) -> Result<(), NoMemory>
    ensures { OnOk result (lines.new ≡ lines.old ++ map (row_of (ShardServer dc shard) durable.now) keys.keys) }
{
    for key in keys {
        lines.push(row_line(dc, shard, durable, key)?)?;
    }
    Ok(())
}

/// Adds a line for each key that was written or is held exclusively, in key order.
pub fn show_rows(
    alloc: Global,
    dc: DcId,
    shard: ShardId,
    durable: &Durable,
    lines: &mut Lines,
) -> Result<(), NoMemory>
    ensures { OnOk result (lines.new ≡ lines.old ++ map (row_of (ShardServer dc shard) durable.now) (keys_shown durable.now)) }
{
    let mut keys = row_keys(alloc, &durable.rows)?;
    add_held(&mut keys, &durable.parts)?;
    push_rows(dc, shard, durable, keys, lines)
}
