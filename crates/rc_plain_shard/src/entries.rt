// What a body says of a key.
ghost use Rattle.std.specs.Prelude.{◌≡◌};
ghost use Rattle.rc_body.specs.Bodies.{writes};
ghost use Rattle.rc_protocol.specs.Shard.{is_taken};

use rc_body::Body;
use rc_ids::{Key, TxId};

/// Whether the body writes the key.
pub fn writes_key(body: &Body, key: &Key) -> bool
    ensures { result ≡ writes key.now body.now }
{
    for index in 0..body.len() {
        let entry = body.entry(index);
        if entry.key == key && entry.write.is_some() {
            return true;
        }
    }
    false
}

/// Whether a prepare of this part by this transaction takes the plain lock of the mark away.
pub fn takes(tx: TxId, part: &Body, mark: &(Key, TxId)) -> bool
    ensures { result ≡ is_taken tx part.now mark.now }
{
    mark.1 != tx && writes_key(part, &mark.0)
}
