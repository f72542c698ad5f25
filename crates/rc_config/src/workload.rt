//! What a workload file holds.
ghost use Rattle.std.specs.Prelude.{◌≡◌};
ghost use Rattle.rc_config.specs.declared.workload.WorkloadFault.TheVariants.{NoMemory as OutOfMemory};

use crate::plan::{ClientPlans, StopPlans};
use rc_ids::{Keys, NoMemory};
use rc_script::Weights;
use std::alloc::AllocError;
use thiserror::Error;

/// What a workload file asks for. There is a cluster of its datacentres, shards, split keys and weights.
#[derive(Debug, Drop)]
pub struct Workload {
    /// How many datacentres there are.
    pub dcs: u8,
    /// How many shards each of them has.
    pub shards: u8,
    /// The split keys, rising.
    pub splits: Keys,
    /// The weight of each datacentre.
    pub weights: Weights,
    /// Where it is not 0, a message whose number it divides is lost as it is sent.
    pub lose_every: u32,
    /// Where it is not 0, a message whose number it divides is pending twice.
    pub repeat_every: u32,
    /// The clients.
    pub clients: ClientPlans,
    /// Where power is cut.
    pub stops: StopPlans,
}

/// Why bytes are no workload.
#[derive(Clone, Copy, Debug, PartialEq, Eq, Error)]
pub enum WorkloadFault {
    /// There was no memory.
    #[error("out of memory")]
    NoMemory,
    /// The file is not TOML.
    #[error("the file is not TOML")]
    NotToml,
    /// The file is TOML, but no workload.
    #[error("the file is no workload")]
    Schema,
}

impl From<NoMemory> for WorkloadFault {
    ghost from_gives = { λ _ e. e ≡ OutOfMemory };

    fn from(_error: NoMemory) -> Self {
        WorkloadFault::NoMemory
    }
}

impl From<AllocError> for WorkloadFault {
    ghost from_gives = { λ _ e. e ≡ OutOfMemory };

    fn from(_error: AllocError) -> Self {
        WorkloadFault::NoMemory
    }
}
