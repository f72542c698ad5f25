// Where the nodes of a world stand.
ghost use Rattle.std.specs.Prelude.{◌≡◌, ◌<◌, true, false, length, None, IfSome};
ghost use Rattle.rc_ids.specs.Cluster.{is_dc};
ghost use Rattle.rc_protocol.specs.Nodes.{coord_index, shard_index};
ghost use Rattle.rc_runs.specs.Session.{Session};
ghost use Rattle.rc_runs.specs.World.{is_shard_of as is_of_world};
ghost use Rattle.rc_begin.specs.Hosts.{views};
ghost use Rattle.rc_world.specs.Words.{parts_of};
ghost use Rattle.rc_begin.specs.Hosts.{Runs};
ghost use Rattle.rc_world.specs.Worlds.{IsWorld};

use crate::shards::{is_shard_of, place_of};
use crate::world::World;
use rc_disk::{Disk, Farm};
use rc_ids::{DcId, ShardId};
use rc_log::{Journal, Log};

impl<F: Farm> World<F> {
    /// The place of a coordinator, if it is one of the world.
    pub(crate) fn coord_place(&self, dc: DcId) -> Option<usize>
        ensures place { IfSome result (λ place. place ≡ coord_index dc) }
        ensures within { IfSome result (λ place. place < length self.now.coords.items) }
        ensures known { IfSome result (λ _. is_dc self.now.cluster dc ≡ true) }
        ensures none { (r : Runs) (z : Session) → IsWorld (views ⟦<Log<F::D> as Journal>⟧.state F.D.told F.D.content F.D.power) r (parts_of self.now) z → result ≡ None → is_dc z.world.parties.layout dc ≡ false }
    {
        let place = dc.0 as usize - 1;
        if dc.0 <= self.cluster.dcs() && place < self.coords.len() {
            Some(place)
        } else {
            None
        }
    }

    /// The place of a shard server, if it is one of the world.
    pub(crate) fn shard_place(&self, dc: DcId, shard: ShardId) -> Option<usize>
        ensures place { IfSome result (λ place. place ≡ shard_index self.now.cluster dc shard) }
        ensures within { IfSome result (λ place. place < length self.now.shards.items) }
        ensures known { IfSome result (λ _. is_of_world self.now.cluster dc shard ≡ true) }
        ensures none { (r : Runs) (z : Session) → IsWorld (views ⟦<Log<F::D> as Journal>⟧.state F.D.told F.D.content F.D.power) r (parts_of self.now) z → result ≡ None → is_of_world z.world.parties.layout dc shard ≡ false }
    {
        if !is_shard_of(&self.cluster, dc, shard) {
            return None;
        }
        let place = place_of(&self.cluster, dc, shard);
        if place < self.shards.len() {
            Some(place)
        } else {
            None
        }
    }
}
