// What a client is told to do.
use rc_ids::{Key, Val};

/// An operation of a client. A deletion writes the gone value.
#[derive(Drop)]
pub enum Command {
    Read(Key),
    Write(Key, Val),
    Cancel(Key),
    Commit,
    Vanish,
}
