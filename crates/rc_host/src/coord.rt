// A coordinator is a node.
ghost use Rattle.rc_record.specs.Replay.{coord_replay};
ghost use Rattle.rc_host.specs.AnyNode.{OfCoord, IsCoordinator, coord_seen, coord_back};
ghost use Rattle.rc_host.specs.CoordLogs.{coord_gives_back, coord_begins};

use crate::{Cause, Node};
use rc_coord::{Coord, coord_laws};
use rc_ids::{Blobs, Cluster, NoMemory, NodeId};
use rc_log::Journal;
use rc_msg::Outbox;
use rc_node::NodeFault;
use rc_record::{CoordDurable, ReplayFault, record_laws, replay_coord};
use std::alloc::Global;

impl<J: Journal> Node<J> for Coord<J> {
    type Durable = CoordDurable;

    ghost seen = { λ coord. coord_seen coord };

    ghost gives = { λ durable. OfCoord durable };

    ghost back = { coord_back };

    ghost is_kind = { IsCoordinator };

    fn restart(
        alloc: Global,
        node: NodeId,
        cluster: &Cluster,
        journal: J,
        durable: CoordDurable,
    ) -> Result<Self, (NoMemory, J)> {
        Coord::restart(alloc, node, cluster, journal, durable)
    }

    fn act(&mut self, cause: &Cause<'_>, out: &mut Outbox) -> Result<(), NodeFault> {
        match cause {
            Cause::Came(from, msg) => Coord::handle(self, *from, msg, out),
            Cause::Catches => Ok(Coord::catch(self, out)?),
            Cause::Takes(tx) => Coord::take(self, *tx, out),
        }
    }

    fn stopped(&self) -> bool {
        Coord::stopped(self)
    }

    fn into_journal(self) -> J {
        Coord::into_journal(self)
    }

    fn power_cut(&mut self, k: u64, pick: u8) {
        Coord::power_cut(self, k, pick)
    }

    fn logged_acts() {
        record_laws();
        coord_laws();
    }

    ghost replayed = { coord_replay };

    fn replay(
        alloc: Global,
        node: NodeId,
        cluster: &Cluster,
        blobs: &Blobs,
    ) -> Result<CoordDurable, ReplayFault> {
        replay_coord(alloc, node, cluster, blobs)
    }

    ghost gives_back = { coord_gives_back };

    ghost begins = { coord_begins };
}
