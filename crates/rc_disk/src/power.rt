// The power of a disk, and why its calls fail.

/// Whether a disk has its power.
#[derive(Clone, Copy, Debug, PartialEq, Eq)]
pub enum Power {
    /// It has.
    On,
    /// It goes off at the k-th call from now, counted from 1. What that leaves, the pick says.
    Armed(u64, u8),
    /// It went off. Each call fails.
    Off,
}

/// Why a call failed.
#[derive(Clone, Copy, Debug, PartialEq, Eq)]
pub enum Cause {
    /// Its number is one of those that are to fail.
    ByList,
    /// The power went off at it, with this pick.
    ByCut(u8),
    /// The power was off.
    WhileOff,
}

/// A call that failed, by its number.
#[derive(Clone, Copy, Debug, PartialEq, Eq)]
pub struct Failure {
    /// Calls are counted from 1.
    pub number: u64,
    /// Why it failed.
    pub cause: Cause,
}
