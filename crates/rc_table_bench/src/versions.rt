// Versions of many keys.
use crate::keys::key_of;
use rc_ids::{Val, Version};
use rc_versions::Versions;
use std::alloc::Global;

/// A step through all sizes, so that keys do not come in their order.
const STEP: u64 = 7_919;

/// Writes so many keys, in an order that jumps about, reads each, and goes over all.
pub fn run(alloc: Global, size: u32) -> anyhow::Result<String> {
    let mut versions = Versions::new(alloc);
    for place in 0..size {
        let number = (place as u64 * STEP % size as u64) as u32;
        let key = key_of(alloc, number)?;
        versions.apply(&key, Version(1), Val::new(alloc, b"a value")?)?;
    }
    let mut found = 0u32;
    for number in 0..size {
        let (version, _) = versions.get(&key_of(alloc, number)?);
        if version == Version(1) {
            found = found.saturating_add(1);
        }
    }
    let mut rows = 0u32;
    for _ in versions.rows() {
        rows = rows.saturating_add(1);
    }
    Ok(format!(in alloc; "{found} found, {rows} rows")?)
}
