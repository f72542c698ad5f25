// What happens to the content of a memory disk.

/// A call of a memory disk that was done, or at which its power went off.
#[derive(Clone, Copy, Debug, PartialEq, Eq)]
pub enum Change {
    /// So many bytes were written from a place on.
    Wrote(u64, u64),
    /// The content was cut to a length.
    Shortened(u64),
    /// All was put on the disk.
    Synced,
}

/// A change, with the pick if the power went off at it.
#[derive(Clone, Copy, Debug, PartialEq, Eq)]
pub struct Event {
    pub change: Change,
    pub fell: Option<u8>,
}
