// A node starts again in an event.
ghost use Rattle.std.specs.Prelude.{◌≡◌, [], ◌∷◌, None, false, IfOk, IfErr};
ghost use Rattle.rc_ids.specs.declared.names.NodeId.TheVariants.{Coord as Coordinator, Shard as ShardServer};
ghost use Rattle.rc_report.specs.declared.line.Line.TheVariants.{Up};
ghost use Rattle.rc_runs.specs.declared.event.Event.TheVariants.{Restart};
ghost use Rattle.rc_runs.specs.Session.{Session};
ghost use Rattle.rc_runs.specs.World.{is_up};
ghost use Rattle.rc_begin.specs.Hosts.{views};
ghost use Rattle.rc_world.specs.Words.{parts_of};
ghost use Rattle.rc_begin.specs.Hosts.{Runs};
ghost use Rattle.rc_world.specs.Steps.{event_limit};
ghost use Rattle.rc_world.specs.Limits.{CauseIs};
ghost use Rattle.rc_world.specs.Worlds.{IsWorld, HasActed, KeepsCarried, AreTold};

use crate::WorldFault;
use crate::powering::silent;
use crate::starting::{coord_starts, shard_starts};
use crate::world::{Sending, World};
use rc_disk::{Disk, Farm};
use rc_ids::{DcId, NodeId, Party, ShardId};
use rc_log::{Journal, Log};
use rc_msg::Outbox;
use rc_order::count_laws;
use rc_report::{Line, Lines, Wrong};

impl<F: Farm> World<F> {
    /// A coordinator that is down starts, if it is one of the world.
    fn coord_restarts(&mut self, dc: DcId) -> Result<Sending, WorldFault>
        ensures ok { (r : Runs) (z : Session) → IsWorld (views ⟦<Log<F::D> as Journal>⟧.state F.D.told F.D.content F.D.power) r (parts_of self.old) z → event_limit (parts_of self.old).events ≡ None → is_up z.world.parties (Coordinator dc) ≡ false
            → AreTold (views ⟦<Log<F::D> as Journal>⟧.state F.D.told F.D.content F.D.power) r (parts_of self.new)
            → IfOk result (λ s. HasActed (views ⟦<Log<F::D> as Journal>⟧.state F.D.told F.D.content F.D.power) r z (Restart (Coordinator dc)) (parts_of self.new) s.from s.sends (Up (Coordinator dc) ∷ [])) }
        ensures err { (r : Runs) (z : Session) → IsWorld (views ⟦<Log<F::D> as Journal>⟧.state F.D.told F.D.content F.D.power) r (parts_of self.old) z → event_limit (parts_of self.old).events ≡ None → is_up z.world.parties (Coordinator dc) ≡ false
            → AreTold (views ⟦<Log<F::D> as Journal>⟧.state F.D.told F.D.content F.D.power) r (parts_of self.new)
            → IfErr result (CauseIs z (Restart (Coordinator dc))) }
        ensures carried { KeepsCarried (parts_of self.old) (parts_of self.new) }
        ensures grew { (r : Runs) → AreTold (views ⟦<Log<F::D> as Journal>⟧.state F.D.told F.D.content F.D.power) r (parts_of self.new) → AreTold (views ⟦<Log<F::D> as Journal>⟧.state F.D.told F.D.content F.D.power) r (parts_of self.old) }
    {
        count_laws();
        let node = NodeId::Coord(dc);
        match self.coord_place(dc) {
            Some(place) => {
                let mut out = Outbox::new(self.alloc, Party::Node(node));
                coord_starts(
                    self.alloc,
                    &self.cluster,
                    &mut self.coords,
                    place,
                    &node,
                    &mut out,
                )?;
                Ok(Sending {
                    from: Party::Node(node),
                    sends: out.into_sends(),
                })
            }
            None => Ok(silent(self.alloc, &node)),
        }
    }

    /// A shard server that is down starts, if it is one of the world.
    fn shard_restarts(&mut self, dc: DcId, shard: ShardId) -> Result<Sending, WorldFault>
        ensures ok { (r : Runs) (z : Session) → IsWorld (views ⟦<Log<F::D> as Journal>⟧.state F.D.told F.D.content F.D.power) r (parts_of self.old) z → event_limit (parts_of self.old).events ≡ None → is_up z.world.parties (ShardServer dc shard) ≡ false
            → AreTold (views ⟦<Log<F::D> as Journal>⟧.state F.D.told F.D.content F.D.power) r (parts_of self.new)
            → IfOk result (λ s. HasActed (views ⟦<Log<F::D> as Journal>⟧.state F.D.told F.D.content F.D.power) r z (Restart (ShardServer dc shard)) (parts_of self.new) s.from s.sends (Up (ShardServer dc shard) ∷ [])) }
        ensures err { (r : Runs) (z : Session) → IsWorld (views ⟦<Log<F::D> as Journal>⟧.state F.D.told F.D.content F.D.power) r (parts_of self.old) z → event_limit (parts_of self.old).events ≡ None → is_up z.world.parties (ShardServer dc shard) ≡ false
            → AreTold (views ⟦<Log<F::D> as Journal>⟧.state F.D.told F.D.content F.D.power) r (parts_of self.new)
            → IfErr result (CauseIs z (Restart (ShardServer dc shard))) }
        ensures carried { KeepsCarried (parts_of self.old) (parts_of self.new) }
        ensures grew { (r : Runs) → AreTold (views ⟦<Log<F::D> as Journal>⟧.state F.D.told F.D.content F.D.power) r (parts_of self.new) → AreTold (views ⟦<Log<F::D> as Journal>⟧.state F.D.told F.D.content F.D.power) r (parts_of self.old) }
    {
        let node = NodeId::Shard(dc, shard);
        match self.shard_place(dc, shard) {
            Some(place) => {
                let mut out = Outbox::new(self.alloc, Party::Node(node));
                shard_starts(
                    self.alloc,
                    &self.cluster,
                    &mut self.shards,
                    place,
                    &node,
                    &mut out,
                )?;
                Ok(Sending {
                    from: Party::Node(node),
                    sends: out.into_sends(),
                })
            }
            None => Ok(silent(self.alloc, &node)),
        }
    }

    /// A node that is down starts, if it is one of the world.
    fn node_restarts(&mut self, node: &NodeId) -> Result<Sending, WorldFault>
        ensures ok { (r : Runs) (z : Session) → IsWorld (views ⟦<Log<F::D> as Journal>⟧.state F.D.told F.D.content F.D.power) r (parts_of self.old) z → event_limit (parts_of self.old).events ≡ None → is_up z.world.parties node.now ≡ false
            → AreTold (views ⟦<Log<F::D> as Journal>⟧.state F.D.told F.D.content F.D.power) r (parts_of self.new)
            → IfOk result (λ s. HasActed (views ⟦<Log<F::D> as Journal>⟧.state F.D.told F.D.content F.D.power) r z (Restart node.now) (parts_of self.new) s.from s.sends (Up node.now ∷ [])) }
        ensures err { (r : Runs) (z : Session) → IsWorld (views ⟦<Log<F::D> as Journal>⟧.state F.D.told F.D.content F.D.power) r (parts_of self.old) z → event_limit (parts_of self.old).events ≡ None → is_up z.world.parties node.now ≡ false
            → AreTold (views ⟦<Log<F::D> as Journal>⟧.state F.D.told F.D.content F.D.power) r (parts_of self.new)
            → IfErr result (CauseIs z (Restart node.now)) }
        ensures carried { KeepsCarried (parts_of self.old) (parts_of self.new) }
        ensures grew { (r : Runs) → AreTold (views ⟦<Log<F::D> as Journal>⟧.state F.D.told F.D.content F.D.power) r (parts_of self.new) → AreTold (views ⟦<Log<F::D> as Journal>⟧.state F.D.told F.D.content F.D.power) r (parts_of self.old) }
    {
        match node {
            NodeId::Coord(dc) => self.coord_restarts(*dc),
            NodeId::Shard(dc, shard) => self.shard_restarts(*dc, *shard),
        }
    }

    /// A node that is down starts from its log, and asks the others for the outcomes that it missed.
    pub(crate) fn restart(
        &mut self,
        node: &NodeId,
        lines: &mut Lines,
    ) -> Result<Sending, WorldFault>
        requires lines { lines.old ≡ [] }
        ensures ok { (r : Runs) (z : Session) → IsWorld (views ⟦<Log<F::D> as Journal>⟧.state F.D.told F.D.content F.D.power) r (parts_of self.old) z
            → AreTold (views ⟦<Log<F::D> as Journal>⟧.state F.D.told F.D.content F.D.power) r (parts_of self.new)
            → IfOk result (λ s. HasActed (views ⟦<Log<F::D> as Journal>⟧.state F.D.told F.D.content F.D.power) r z (Restart node.now) (parts_of self.new) s.from s.sends lines.new) }
        ensures err { (r : Runs) (z : Session) → IsWorld (views ⟦<Log<F::D> as Journal>⟧.state F.D.told F.D.content F.D.power) r (parts_of self.old) z
            → AreTold (views ⟦<Log<F::D> as Journal>⟧.state F.D.told F.D.content F.D.power) r (parts_of self.new)
            → IfErr result (CauseIs z (Restart node.now)) }
        ensures carried { KeepsCarried (parts_of self.old) (parts_of self.new) }
        ensures grew { (r : Runs) → AreTold (views ⟦<Log<F::D> as Journal>⟧.state F.D.told F.D.content F.D.power) r (parts_of self.new) → AreTold (views ⟦<Log<F::D> as Journal>⟧.state F.D.told F.D.content F.D.power) r (parts_of self.old) }
    {
        if self.is_up(node) {
            return Err(WorldFault::Naming(Wrong::Up(*node)));
        }
        self.event_limit()?;
        lines.push(Line::Up(*node))?;
        self.node_restarts(node)
    }
}
