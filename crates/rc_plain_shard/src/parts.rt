// Who holds a key by the prepared parts of transactions.
ghost use Rattle.std.specs.Prelude.{◌≡◌};
ghost use Rattle.rc_protocol.specs.Shard as shard;

use crate::entries::writes_key;
use crate::prepared::PreparedParts;
use rc_ids::{Key, TxId};

/// Who holds the key exclusively: the least transaction whose part writes it.
pub fn holder(parts: &PreparedParts, key: &Key) -> Option<TxId>
    ensures { result ≡ shard.holder parts.now key.now }
{
    for (tx, part) in parts.as_map() {
        if writes_key(part, key) {
            return Some(*tx);
        }
    }
    None
}

/// The least transaction whose part has the key.
pub fn reader(parts: &PreparedParts, key: &Key) -> Option<TxId>
    ensures { result ≡ shard.reader parts.now key.now }
{
    for (tx, part) in parts.as_map() {
        if part.has(key) {
            return Some(*tx);
        }
    }
    None
}

/// Whether nobody holds the key of the mark exclusively.
pub fn is_free(parts: &PreparedParts, mark: &(Key, TxId)) -> bool
    ensures { result ≡ shard.is_free parts.now mark.now }
{
    holder(parts, &mark.0).is_none()
}
