// Nodes act in an event.
ghost use Rattle.std.specs.Prelude.{◌≡◌, [], false, None, IfOk, IfErr};
ghost use Rattle.rc_ids.specs.declared.names.NodeId.TheVariants.{Coord as Coordinator, Shard as ShardServer};
ghost use Rattle.rc_ids.specs.declared.names.Party.TheVariants.{Node as NodeParty};
ghost use Rattle.rc_runs.specs.declared.event.Event.{Event as AnyEvent};
ghost use Rattle.rc_runs.specs.declared.event.Event.TheVariants.{Catch, Take};
ghost use Rattle.rc_runs.specs.Refusals.{wrong, begins};
ghost use Rattle.rc_runs.specs.Session.{Session};
ghost use Rattle.rc_runs.specs.World.{deed, coord_does, shard_does, actor};
ghost use Rattle.rc_host.specs.Causes.{cause_of};
ghost use Rattle.rc_grammar.specs.Acts.{HasNodeCause};
ghost use Rattle.rc_grammar.specs.Worlds.{HasEvent};
ghost use Rattle.rc_begin.specs.Hosts.{views};
ghost use Rattle.rc_world.specs.Words.{parts_of};
ghost use Rattle.rc_begin.specs.Hosts.{Runs, CoordsAreTold, ShardsAreTold};
ghost use Rattle.rc_world.specs.Steps.{IsDone, node_does};
ghost use Rattle.rc_world.specs.Limits.{CauseIs};
ghost use Rattle.rc_world.specs.Worlds.{IsWorld, HasActed, KeepsCarried, AreTold};

use crate::WorldFault;
use crate::coords::coord_acts;
use crate::noting::note;
use crate::shards::{is_shard_of, place_of, shard_acts};
use crate::world::{Sending, World};
use rc_disk::{Disk, Farm};
use rc_host::Cause;
use rc_ids::{DcId, NodeId, Party, Sends, ShardId, TxId};
use rc_log::{Journal, Log};
use rc_order::count_laws;
use rc_report::{Lines, Wrong};

impl<F: Farm> World<F> {
    /// A shard server, if it is one of the world and up, does what moves it.
    pub(crate) fn shard_does(
        &mut self,
        dc: DcId,
        shard: ShardId,
        cause: &Cause<'_>,
        lines: &mut Lines,
    ) -> Result<Sending, WorldFault>
        requires lines { lines.old ≡ [] }
        ensures ok { (r : Runs) (z : Session) (e : AnyEvent) → IsWorld (views ⟦<Log<F::D> as Journal>⟧.state F.D.told F.D.content F.D.power) r (parts_of self.old) z
            → HasNodeCause (cause_of cause.now) → IsDone z e → deed z.world.parties z.world.sent e ≡ shard_does z.world.parties dc shard (cause_of cause.now) → actor z.world.sent e ≡ NodeParty (ShardServer dc shard)
            → wrong z.world e ≡ None → begins e ≡ false
            → ShardsAreTold (views ⟦<Log<F::D> as Journal>⟧.state F.D.told F.D.content F.D.power).shards r (parts_of self.new).shards
            → IfOk result (λ s. HasActed (views ⟦<Log<F::D> as Journal>⟧.state F.D.told F.D.content F.D.power) r z e (parts_of self.new) s.from s.sends lines.new) }
        ensures err { (r : Runs) (z : Session) (e : AnyEvent) → IsWorld (views ⟦<Log<F::D> as Journal>⟧.state F.D.told F.D.content F.D.power) r (parts_of self.old) z
            → HasNodeCause (cause_of cause.now) → IsDone z e → deed z.world.parties z.world.sent e ≡ shard_does z.world.parties dc shard (cause_of cause.now) → actor z.world.sent e ≡ NodeParty (ShardServer dc shard)
            → wrong z.world e ≡ None → begins e ≡ false
            → ShardsAreTold (views ⟦<Log<F::D> as Journal>⟧.state F.D.told F.D.content F.D.power).shards r (parts_of self.new).shards
            → IfErr result (CauseIs z e) }
        ensures carried { KeepsCarried (parts_of self.old) (parts_of self.new) }
        ensures grew { (r : Runs) → AreTold (views ⟦<Log<F::D> as Journal>⟧.state F.D.told F.D.content F.D.power) r (parts_of self.new) → AreTold (views ⟦<Log<F::D> as Journal>⟧.state F.D.told F.D.content F.D.power) r (parts_of self.old) }
    {
        self.event_limit()?;
        let node = NodeId::Shard(dc, shard);
        if is_shard_of(&self.cluster, dc, shard) {
            let place = place_of(&self.cluster, dc, shard);
            if place < self.shards.len() {
                let out = shard_acts(
                    self.alloc,
                    &self.cluster,
                    &mut self.shards,
                    place,
                    &node,
                    cause,
                    lines,
                )?;
                return Ok(Sending {
                    from: Party::Node(node),
                    sends: out.into_sends(),
                });
            }
        }
        Ok(Sending {
            from: Party::Node(node),
            sends: Sends::new(self.alloc),
        })
    }

    /// A coordinator, if it is one of the world and up, does what moves it, and the order has the vote that this leaves in its log.
    pub(crate) fn coord_does(
        &mut self,
        dc: DcId,
        cause: &Cause<'_>,
        lines: &mut Lines,
    ) -> Result<Sending, WorldFault>
        requires lines { lines.old ≡ [] }
        ensures ok { (r : Runs) (z : Session) (e : AnyEvent) → IsWorld (views ⟦<Log<F::D> as Journal>⟧.state F.D.told F.D.content F.D.power) r (parts_of self.old) z
            → HasNodeCause (cause_of cause.now) → IsDone z e → deed z.world.parties z.world.sent e ≡ coord_does z.world.parties dc (cause_of cause.now) → actor z.world.sent e ≡ NodeParty (Coordinator dc)
            → wrong z.world e ≡ None → begins e ≡ false
            → CoordsAreTold (views ⟦<Log<F::D> as Journal>⟧.state F.D.told F.D.content F.D.power).coords r (parts_of self.new).coords
            → IfOk result (λ s. HasActed (views ⟦<Log<F::D> as Journal>⟧.state F.D.told F.D.content F.D.power) r z e (parts_of self.new) s.from s.sends lines.new) }
        ensures err { (r : Runs) (z : Session) (e : AnyEvent) → IsWorld (views ⟦<Log<F::D> as Journal>⟧.state F.D.told F.D.content F.D.power) r (parts_of self.old) z
            → HasNodeCause (cause_of cause.now) → IsDone z e → deed z.world.parties z.world.sent e ≡ coord_does z.world.parties dc (cause_of cause.now) → actor z.world.sent e ≡ NodeParty (Coordinator dc)
            → wrong z.world e ≡ None → begins e ≡ false
            → CoordsAreTold (views ⟦<Log<F::D> as Journal>⟧.state F.D.told F.D.content F.D.power).coords r (parts_of self.new).coords
            → IfErr result (CauseIs z e) }
        ensures carried { KeepsCarried (parts_of self.old) (parts_of self.new) }
        ensures grew { (r : Runs) → AreTold (views ⟦<Log<F::D> as Journal>⟧.state F.D.told F.D.content F.D.power) r (parts_of self.new) → AreTold (views ⟦<Log<F::D> as Journal>⟧.state F.D.told F.D.content F.D.power) r (parts_of self.old) }
    {
        count_laws();
        self.event_limit()?;
        let node = NodeId::Coord(dc);
        let place = dc.0 as usize - 1;
        if place < self.coords.len() {
            self.order.room()?;
            let (out, vote) = coord_acts(self.alloc, &mut self.coords, place, &node, cause, lines)?;
            note(&mut self.order, dc, vote);
            return Ok(Sending {
                from: Party::Node(node),
                sends: out.into_sends(),
            });
        }
        Ok(Sending {
            from: Party::Node(node),
            sends: Sends::new(self.alloc),
        })
    }

    /// A node, if it is one of the world and up, does what moves it.
    pub(crate) fn node_does(
        &mut self,
        node: &NodeId,
        cause: &Cause<'_>,
        lines: &mut Lines,
    ) -> Result<Sending, WorldFault>
        requires lines { lines.old ≡ [] }
        ensures ok { (r : Runs) (z : Session) (e : AnyEvent) → IsWorld (views ⟦<Log<F::D> as Journal>⟧.state F.D.told F.D.content F.D.power) r (parts_of self.old) z
            → HasNodeCause (cause_of cause.now) → IsDone z e → deed z.world.parties z.world.sent e ≡ node_does z.world.parties node.now (cause_of cause.now) → actor z.world.sent e ≡ NodeParty node.now
            → wrong z.world e ≡ None → begins e ≡ false
            → CoordsAreTold (views ⟦<Log<F::D> as Journal>⟧.state F.D.told F.D.content F.D.power).coords r (parts_of self.new).coords
            → ShardsAreTold (views ⟦<Log<F::D> as Journal>⟧.state F.D.told F.D.content F.D.power).shards r (parts_of self.new).shards
            → IfOk result (λ s. HasActed (views ⟦<Log<F::D> as Journal>⟧.state F.D.told F.D.content F.D.power) r z e (parts_of self.new) s.from s.sends lines.new) }
        ensures err { (r : Runs) (z : Session) (e : AnyEvent) → IsWorld (views ⟦<Log<F::D> as Journal>⟧.state F.D.told F.D.content F.D.power) r (parts_of self.old) z
            → HasNodeCause (cause_of cause.now) → IsDone z e → deed z.world.parties z.world.sent e ≡ node_does z.world.parties node.now (cause_of cause.now) → actor z.world.sent e ≡ NodeParty node.now
            → wrong z.world e ≡ None → begins e ≡ false
            → CoordsAreTold (views ⟦<Log<F::D> as Journal>⟧.state F.D.told F.D.content F.D.power).coords r (parts_of self.new).coords
            → ShardsAreTold (views ⟦<Log<F::D> as Journal>⟧.state F.D.told F.D.content F.D.power).shards r (parts_of self.new).shards
            → IfErr result (CauseIs z e) }
        ensures carried { KeepsCarried (parts_of self.old) (parts_of self.new) }
        ensures grew { (r : Runs) → AreTold (views ⟦<Log<F::D> as Journal>⟧.state F.D.told F.D.content F.D.power) r (parts_of self.new) → AreTold (views ⟦<Log<F::D> as Journal>⟧.state F.D.told F.D.content F.D.power) r (parts_of self.old) }
    {
        match node {
            NodeId::Coord(dc) => self.coord_does(*dc, cause, lines),
            NodeId::Shard(dc, shard) => self.shard_does(*dc, *shard, cause, lines),
        }
    }

    /// A node that is up catches up with the others.
    pub(crate) fn catch(&mut self, node: &NodeId, lines: &mut Lines) -> Result<Sending, WorldFault>
        requires lines { lines.old ≡ [] }
        ensures ok { (r : Runs) (z : Session) → IsWorld (views ⟦<Log<F::D> as Journal>⟧.state F.D.told F.D.content F.D.power) r (parts_of self.old) z
            → CoordsAreTold (views ⟦<Log<F::D> as Journal>⟧.state F.D.told F.D.content F.D.power).coords r (parts_of self.new).coords
            → ShardsAreTold (views ⟦<Log<F::D> as Journal>⟧.state F.D.told F.D.content F.D.power).shards r (parts_of self.new).shards
            → IfOk result (λ s. HasActed (views ⟦<Log<F::D> as Journal>⟧.state F.D.told F.D.content F.D.power) r z (Catch node.now) (parts_of self.new) s.from s.sends lines.new) }
        ensures err { (r : Runs) (z : Session) → IsWorld (views ⟦<Log<F::D> as Journal>⟧.state F.D.told F.D.content F.D.power) r (parts_of self.old) z
            → CoordsAreTold (views ⟦<Log<F::D> as Journal>⟧.state F.D.told F.D.content F.D.power).coords r (parts_of self.new).coords
            → ShardsAreTold (views ⟦<Log<F::D> as Journal>⟧.state F.D.told F.D.content F.D.power).shards r (parts_of self.new).shards
            → IfErr result (CauseIs z (Catch node.now)) }
        ensures carried { KeepsCarried (parts_of self.old) (parts_of self.new) }
        ensures grew { (r : Runs) → AreTold (views ⟦<Log<F::D> as Journal>⟧.state F.D.told F.D.content F.D.power) r (parts_of self.new) → AreTold (views ⟦<Log<F::D> as Journal>⟧.state F.D.told F.D.content F.D.power) r (parts_of self.old) }
    {
        self.wants_up(node)?;
        self.node_does(node, &Cause::Catches, lines)
    }

    /// A coordinator that is up takes a transaction over.
    pub(crate) fn take(
        &mut self,
        dc: DcId,
        tx: TxId,
        lines: &mut Lines,
    ) -> Result<Sending, WorldFault>
        requires lines { lines.old ≡ [] }
        ensures ok { (r : Runs) (z : Session) → IsWorld (views ⟦<Log<F::D> as Journal>⟧.state F.D.told F.D.content F.D.power) r (parts_of self.old) z
            → HasEvent (Take dc tx)
            → CoordsAreTold (views ⟦<Log<F::D> as Journal>⟧.state F.D.told F.D.content F.D.power).coords r (parts_of self.new).coords
            → IfOk result (λ s. HasActed (views ⟦<Log<F::D> as Journal>⟧.state F.D.told F.D.content F.D.power) r z (Take dc tx) (parts_of self.new) s.from s.sends lines.new) }
        ensures err { (r : Runs) (z : Session) → IsWorld (views ⟦<Log<F::D> as Journal>⟧.state F.D.told F.D.content F.D.power) r (parts_of self.old) z
            → HasEvent (Take dc tx)
            → CoordsAreTold (views ⟦<Log<F::D> as Journal>⟧.state F.D.told F.D.content F.D.power).coords r (parts_of self.new).coords
            → IfErr result (CauseIs z (Take dc tx)) }
        ensures carried { KeepsCarried (parts_of self.old) (parts_of self.new) }
        ensures grew { (r : Runs) → AreTold (views ⟦<Log<F::D> as Journal>⟧.state F.D.told F.D.content F.D.power) r (parts_of self.new) → AreTold (views ⟦<Log<F::D> as Journal>⟧.state F.D.told F.D.content F.D.power) r (parts_of self.old) }
    {
        self.wants_up(&NodeId::Coord(dc))?;
        if !self.clients.is_begun(tx) {
            return Err(WorldFault::Naming(Wrong::NotBegun(tx)));
        }
        self.coord_does(dc, &Cause::Takes(tx), lines)
    }
}
