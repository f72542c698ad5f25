// Nodes stop between two messages, and have the power of their disks cut later.
ghost use Rattle.std.specs.Prelude.{◌≡◌, ◌≤◌, [], ◌∷◌, None, IfOk, IfErr};
ghost use Rattle.rc_ids.specs.declared.names.NodeId.TheVariants.{Coord as Coordinator, Shard as ShardServer};
ghost use Rattle.rc_ids.specs.declared.names.Party.TheVariants.{Node as NodeParty};
ghost use Rattle.rc_report.specs.declared.line.Line.TheVariants.{Stopped};
ghost use Rattle.rc_runs.specs.declared.event.Event.TheVariants.{Crash, CrashAt};
ghost use Rattle.rc_runs.specs.Refusals.{wants_up};
ghost use Rattle.rc_runs.specs.Session.{Session};
ghost use Rattle.rc_begin.specs.Hosts.{views};
ghost use Rattle.rc_world.specs.Words.{parts_of};
ghost use Rattle.rc_begin.specs.Hosts.{Runs};
ghost use Rattle.rc_world.specs.Steps.{event_limit};
ghost use Rattle.rc_world.specs.Limits.{CauseIs};
ghost use Rattle.rc_world.specs.Worlds.{IsWorld, HasActed, KeepsCarried, AreTold};

use crate::WorldFault;
use crate::stopping::{coord_arms, coord_stops, shard_arms, shard_stops};
use crate::world::{Sending, World};
use rc_disk::{Disk, Farm};
use rc_ids::{DcId, NodeId, Party, Sends, ShardId};
use rc_log::{Journal, Log};
use rc_order::count_laws;
use rc_report::{Line, Lines};
use std::alloc::Global;

/// A node that acts and sends nothing.
pub(crate) fn silent(alloc: Global, node: &NodeId) -> Sending
    ensures from { result.from ≡ NodeParty node.now }
    ensures sends { result.sends ≡ [] }
{
    Sending {
        from: Party::Node(*node),
        sends: Sends::new(alloc),
    }
}

impl<F: Farm> World<F> {
    /// A coordinator of the world that is up stops.
    fn coord_crashes(&mut self, dc: DcId)
        ensures did { (r : Runs) (z : Session) → IsWorld (views ⟦<Log<F::D> as Journal>⟧.state F.D.told F.D.content F.D.power) r (parts_of self.old) z → event_limit (parts_of self.old).events ≡ None → wants_up z.world.parties (Coordinator dc) ≡ None
            → HasActed (views ⟦<Log<F::D> as Journal>⟧.state F.D.told F.D.content F.D.power) r z (Crash (Coordinator dc)) (parts_of self.new) (NodeParty (Coordinator dc)) [] (Stopped (Coordinator dc) ∷ []) }
        ensures carried { KeepsCarried (parts_of self.old) (parts_of self.new) }
        ensures grew { (r : Runs) → AreTold (views ⟦<Log<F::D> as Journal>⟧.state F.D.told F.D.content F.D.power) r (parts_of self.new) → AreTold (views ⟦<Log<F::D> as Journal>⟧.state F.D.told F.D.content F.D.power) r (parts_of self.old) }
    {
        count_laws();
        if let Some(place) = self.coord_place(dc) {
            coord_stops(&mut self.coords, place);
        }
    }

    /// A shard server of the world that is up stops.
    fn shard_crashes(&mut self, dc: DcId, shard: ShardId)
        ensures did { (r : Runs) (z : Session) → IsWorld (views ⟦<Log<F::D> as Journal>⟧.state F.D.told F.D.content F.D.power) r (parts_of self.old) z → event_limit (parts_of self.old).events ≡ None → wants_up z.world.parties (ShardServer dc shard) ≡ None
            → HasActed (views ⟦<Log<F::D> as Journal>⟧.state F.D.told F.D.content F.D.power) r z (Crash (ShardServer dc shard)) (parts_of self.new) (NodeParty (ShardServer dc shard)) [] (Stopped (ShardServer dc shard) ∷ []) }
        ensures carried { KeepsCarried (parts_of self.old) (parts_of self.new) }
        ensures grew { (r : Runs) → AreTold (views ⟦<Log<F::D> as Journal>⟧.state F.D.told F.D.content F.D.power) r (parts_of self.new) → AreTold (views ⟦<Log<F::D> as Journal>⟧.state F.D.told F.D.content F.D.power) r (parts_of self.old) }
    {
        if let Some(place) = self.shard_place(dc, shard) {
            shard_stops(&mut self.shards, place);
        }
    }

    /// A node of the world that is up stops.
    fn node_crashes(&mut self, node: &NodeId)
        ensures did { (r : Runs) (z : Session) → IsWorld (views ⟦<Log<F::D> as Journal>⟧.state F.D.told F.D.content F.D.power) r (parts_of self.old) z → event_limit (parts_of self.old).events ≡ None → wants_up z.world.parties node.now ≡ None
            → HasActed (views ⟦<Log<F::D> as Journal>⟧.state F.D.told F.D.content F.D.power) r z (Crash node.now) (parts_of self.new) (NodeParty node.now) [] (Stopped node.now ∷ []) }
        ensures carried { KeepsCarried (parts_of self.old) (parts_of self.new) }
        ensures grew { (r : Runs) → AreTold (views ⟦<Log<F::D> as Journal>⟧.state F.D.told F.D.content F.D.power) r (parts_of self.new) → AreTold (views ⟦<Log<F::D> as Journal>⟧.state F.D.told F.D.content F.D.power) r (parts_of self.old) }
    {
        match node {
            NodeId::Coord(dc) => self.coord_crashes(*dc),
            NodeId::Shard(dc, shard) => self.shard_crashes(*dc, *shard),
        }
    }

    /// A node that is up stops between two messages.
    pub(crate) fn crash(&mut self, node: &NodeId, lines: &mut Lines) -> Result<Sending, WorldFault>
        requires lines { lines.old ≡ [] }
        ensures ok { (r : Runs) (z : Session) → IsWorld (views ⟦<Log<F::D> as Journal>⟧.state F.D.told F.D.content F.D.power) r (parts_of self.old) z
            → IfOk result (λ s. HasActed (views ⟦<Log<F::D> as Journal>⟧.state F.D.told F.D.content F.D.power) r z (Crash node.now) (parts_of self.new) s.from s.sends lines.new) }
        ensures err { (r : Runs) (z : Session) → IsWorld (views ⟦<Log<F::D> as Journal>⟧.state F.D.told F.D.content F.D.power) r (parts_of self.old) z
            → IfErr result (CauseIs z (Crash node.now)) }
        ensures carried { KeepsCarried (parts_of self.old) (parts_of self.new) }
        ensures grew { (r : Runs) → AreTold (views ⟦<Log<F::D> as Journal>⟧.state F.D.told F.D.content F.D.power) r (parts_of self.new) → AreTold (views ⟦<Log<F::D> as Journal>⟧.state F.D.told F.D.content F.D.power) r (parts_of self.old) }
    {
        self.wants_up(node)?;
        self.event_limit()?;
        lines.push(Line::Stopped(*node))?;
        self.node_crashes(node);
        Ok(silent(self.alloc, node))
    }
}

impl<F: Farm> World<F> {
    /// A cut is armed at the disk of a coordinator of the world that is up.
    fn coord_is_armed(&mut self, dc: DcId, k: u64, pick: u8)
        requires call { 1 ≤ k }
        requires pick { pick ≤ 3 }
        ensures did { (r : Runs) (z : Session) → IsWorld (views ⟦<Log<F::D> as Journal>⟧.state F.D.told F.D.content F.D.power) r (parts_of self.old) z → event_limit (parts_of self.old).events ≡ None → wants_up z.world.parties (Coordinator dc) ≡ None
            → HasActed (views ⟦<Log<F::D> as Journal>⟧.state F.D.told F.D.content F.D.power) r z (CrashAt (Coordinator dc) k pick) (parts_of self.new) (NodeParty (Coordinator dc)) [] [] }
        ensures carried { KeepsCarried (parts_of self.old) (parts_of self.new) }
        ensures grew { (r : Runs) → AreTold (views ⟦<Log<F::D> as Journal>⟧.state F.D.told F.D.content F.D.power) r (parts_of self.new) → AreTold (views ⟦<Log<F::D> as Journal>⟧.state F.D.told F.D.content F.D.power) r (parts_of self.old) }
    {
        count_laws();
        if let Some(place) = self.coord_place(dc) {
            coord_arms(&mut self.coords, place, k, pick);
        }
    }

    /// A cut is armed at the disk of a shard server of the world that is up.
    fn shard_is_armed(&mut self, dc: DcId, shard: ShardId, k: u64, pick: u8)
        requires call { 1 ≤ k }
        requires pick { pick ≤ 3 }
        ensures did { (r : Runs) (z : Session) → IsWorld (views ⟦<Log<F::D> as Journal>⟧.state F.D.told F.D.content F.D.power) r (parts_of self.old) z → event_limit (parts_of self.old).events ≡ None → wants_up z.world.parties (ShardServer dc shard) ≡ None
            → HasActed (views ⟦<Log<F::D> as Journal>⟧.state F.D.told F.D.content F.D.power) r z (CrashAt (ShardServer dc shard) k pick) (parts_of self.new) (NodeParty (ShardServer dc shard)) [] [] }
        ensures carried { KeepsCarried (parts_of self.old) (parts_of self.new) }
        ensures grew { (r : Runs) → AreTold (views ⟦<Log<F::D> as Journal>⟧.state F.D.told F.D.content F.D.power) r (parts_of self.new) → AreTold (views ⟦<Log<F::D> as Journal>⟧.state F.D.told F.D.content F.D.power) r (parts_of self.old) }
    {
        if let Some(place) = self.shard_place(dc, shard) {
            shard_arms(&mut self.shards, place, k, pick);
        }
    }

    /// A cut is armed at the disk of a node of the world that is up.
    fn node_is_armed(&mut self, node: &NodeId, k: u64, pick: u8)
        requires call { 1 ≤ k }
        requires pick { pick ≤ 3 }
        ensures did { (r : Runs) (z : Session) → IsWorld (views ⟦<Log<F::D> as Journal>⟧.state F.D.told F.D.content F.D.power) r (parts_of self.old) z → event_limit (parts_of self.old).events ≡ None → wants_up z.world.parties node.now ≡ None
            → HasActed (views ⟦<Log<F::D> as Journal>⟧.state F.D.told F.D.content F.D.power) r z (CrashAt node.now k pick) (parts_of self.new) (NodeParty node.now) [] [] }
        ensures carried { KeepsCarried (parts_of self.old) (parts_of self.new) }
        ensures grew { (r : Runs) → AreTold (views ⟦<Log<F::D> as Journal>⟧.state F.D.told F.D.content F.D.power) r (parts_of self.new) → AreTold (views ⟦<Log<F::D> as Journal>⟧.state F.D.told F.D.content F.D.power) r (parts_of self.old) }
    {
        match node {
            NodeId::Coord(dc) => self.coord_is_armed(*dc, k, pick),
            NodeId::Shard(dc, shard) => self.shard_is_armed(*dc, *shard, k, pick),
        }
    }

    /// The power of the disk of a node that is up is to be cut at its k-th call from now on; `pick` says what that leaves.
    pub(crate) fn arm(&mut self, node: &NodeId, k: u64, pick: u8) -> Result<Sending, WorldFault>
        requires call { 1 ≤ k }
        requires pick { pick ≤ 3 }
        ensures ok { (r : Runs) (z : Session) → IsWorld (views ⟦<Log<F::D> as Journal>⟧.state F.D.told F.D.content F.D.power) r (parts_of self.old) z
            → IfOk result (λ s. HasActed (views ⟦<Log<F::D> as Journal>⟧.state F.D.told F.D.content F.D.power) r z (CrashAt node.now k pick) (parts_of self.new) s.from s.sends []) }
        ensures err { (r : Runs) (z : Session) → IsWorld (views ⟦<Log<F::D> as Journal>⟧.state F.D.told F.D.content F.D.power) r (parts_of self.old) z
            → IfErr result (CauseIs z (CrashAt node.now k pick)) }
        ensures carried { KeepsCarried (parts_of self.old) (parts_of self.new) }
        ensures grew { (r : Runs) → AreTold (views ⟦<Log<F::D> as Journal>⟧.state F.D.told F.D.content F.D.power) r (parts_of self.new) → AreTold (views ⟦<Log<F::D> as Journal>⟧.state F.D.told F.D.content F.D.power) r (parts_of self.old) }
    {
        self.wants_up(node)?;
        self.event_limit()?;
        self.node_is_armed(node, k, pick);
        Ok(silent(self.alloc, node))
    }
}
