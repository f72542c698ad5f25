// Why a text or a cluster is refused.
use std::alloc::AllocError;
use thiserror::Error;

/// Why bytes are no key or no value.
#[derive(Clone, Copy, Debug, PartialEq, Eq, Error)]
pub enum TextFault {
    /// There was no memory.
    #[error("out of memory")]
    NoMemory,
    /// There are too few or too many bytes.
    #[error("the length is out of range")]
    BadLength,
    /// The place of the first byte that may not stand there.
    #[error("byte {0} may not stand there")]
    BadByte(usize),
}

impl From<AllocError> for TextFault {
    ghost use Rattle.std.specs.Prelude.{◌≡◌};
    ghost use Rattle.rc_ids.specs.declared.fault.TextFault.TheVariants.{NoMemory as OutOfMemory};

    ghost from_gives = { λ _ e. e ≡ OutOfMemory };

    fn from(_error: AllocError) -> Self {
        TextFault::NoMemory
    }
}

/// Why there is no such cluster.
#[derive(Clone, Copy, Debug, PartialEq, Eq, Error)]
pub enum ClusterFault {
    /// The number of datacentres is none of 1, 3, 5 and 7.
    #[error("the number of datacentres is none of 1, 3, 5 and 7")]
    BadDcs,
    /// The number of shards is not from 1 to 8.
    #[error("the number of shards is not from 1 to 8")]
    BadShards,
    /// The split keys are not one fewer than the shards, or do not rise.
    #[error("the split keys are not one fewer than the shards, or do not rise")]
    BadSplits,
    /// There is not one weight from 1 to 9 for each datacentre.
    #[error("there is not one weight from 1 to 9 for each datacentre")]
    BadWeights,
}
