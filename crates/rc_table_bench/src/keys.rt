// Keys by number.
use rc_ids::Key;
use std::alloc::Global;

/// The key of a number.
pub fn key_of(alloc: Global, number: u32) -> anyhow::Result<Key> {
    let text = format!(in alloc; "k{number}")?;
    Ok(Key::new(text.as_bytes())?)
}
