//! What a client and a stop of a workload are.
ghost use Rattle.std.specs.Prelude.{◌≡◌, ◌++◌, [], ◌∷◌, OnOk};

use crate::operation::Operations;
use rc_ids::{NoMemory, NodeId, TxId};
use std::marker::Model;

/// A client: its transaction, and what it does.
#[derive(Debug, Drop)]
pub struct ClientPlan {
    pub tx: TxId,
    pub operations: Operations,
}

/// A cut of a node's power at a call of its disk.
#[derive(Debug, Drop)]
pub struct StopPlan {
    pub node: NodeId,
    pub call: u32,
    pub pick: u8,
}

/// The clients of a workload.
#[derive(Debug, Drop)]
pub struct ClientPlans {
    items: Vec<ClientPlan>,
}

impl Model for ClientPlans {
    ghost use Rattle.std.specs.Prelude.{List};
    ghost use Rattle.rc_config.specs.declared.plan.ClientPlan.{ClientPlan};

    ghost Value = { List ClientPlan };

    ghost view = { λ c. c.items.items };
}

impl ClientPlans {
    /// These clients.
    pub fn new(items: Vec<ClientPlan>) -> Self
        ensures { result ≡ items.items }
    {
        ClientPlans { items }
    }

    /// The clients, in the order of the file.
    pub fn as_slice(&self) -> &[ClientPlan]
        ensures { result.now ≡ self.now }
    {
        self.items.as_slice()
    }
}

/// The stops of a workload.
#[derive(Debug, Drop)]
pub struct StopPlans {
    items: Vec<StopPlan>,
}

impl Model for StopPlans {
    ghost use Rattle.std.specs.Prelude.{List};
    ghost use Rattle.rc_config.specs.declared.plan.StopPlan.{StopPlan};

    ghost Value = { List StopPlan };

    ghost view = { λ s. s.items.items };
}

impl StopPlans {
    /// These stops.
    pub fn new(items: Vec<StopPlan>) -> Self
        ensures { result ≡ items.items }
    {
        StopPlans { items }
    }

    /// Adds a stop at the end.
    pub(crate) fn push(&mut self, node: NodeId, call: u32, pick: u8) -> Result<(), NoMemory>
        ensures { OnOk result (self.new ≡ self.old ++ record { node = node; call = call; pick = pick } ∷ []) }
    {
        self.items.push(StopPlan { node, call, pick })?;
        Ok(())
    }

    /// The stops, in the order of the file.
    pub fn as_slice(&self) -> &[StopPlan]
        ensures { result.now ≡ self.now }
    {
        self.items.as_slice()
    }
}
