// What a world shows of a run.
ghost use Rattle.std.specs.Prelude.{◌≡◌, length};
ghost use Rattle.rc_runs.specs.Session.{Session};
ghost use Rattle.rc_runs.specs.World.{order};
ghost use Rattle.rc_begin.specs.Hosts.{views};
ghost use Rattle.rc_world.specs.Words.{parts_of};
ghost use Rattle.rc_begin.specs.Hosts.{Runs};
ghost use Rattle.rc_world.specs.Worlds.{IsWorld};

use crate::world::World;
use rc_disk::{Disk, Farm};
use rc_ids::TxId;
use rc_log::{Journal, Log};

impl<F: Farm> World<F> {
    /// The transactions whose commits were chosen in this run, in the order in which each first was.
    pub fn order(&self) -> &[TxId]
        ensures { (r : Runs) (z : Session) → IsWorld (views ⟦<Log<F::D> as Journal>⟧.state F.D.told F.D.content F.D.power) r (parts_of self.now) z → result.now ≡ order z.world }
    {
        self.order.listed()
    }

    /// How often messages were delivered in this run.
    pub fn deliveries(&self) -> u64
        ensures { (r : Runs) (z : Session) → IsWorld (views ⟦<Log<F::D> as Journal>⟧.state F.D.told F.D.content F.D.power) r (parts_of self.now) z → result ≡ length z.world.delivered }
    {
        self.deliveries
    }
}
