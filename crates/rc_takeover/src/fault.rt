// Why a take-over does not open.
use thiserror::Error;

/// No ballot is left to the datacentre above the promise.
#[derive(Clone, Copy, Debug, PartialEq, Eq, Error)]
#[error("no ballot is left")]
pub struct BallotsSpent;
