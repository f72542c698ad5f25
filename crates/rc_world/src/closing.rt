// The farm has the disks of a world back.
ghost use Rattle.std.specs.Prelude.{◌≡◌, true, false, IsTrue};
ghost use Rattle.rc_ids.specs.declared.names.NodeId.{NodeId as NodeName};
ghost use Rattle.rc_disk.specs.declared.power.Power.TheVariants.{On};
ghost use Rattle.rc_begin.specs.Hosts.{Runs, views};
ghost use Rattle.rc_begin.specs.Starts.{is_node_of, AllStandKept};
ghost use Rattle.rc_world.specs.Words.{parts_of};
ghost use Rattle.rc_world.specs.Worlds.{AreTold};

use crate::world::World;
use rc_begin::{give_coords_back, give_shards_back};
use rc_disk::{Disk, Farm};
use rc_log::{Journal, Log};

impl<F: Farm> World<F> {
    /// The farm has every disk back, with its power on, also from a world that is spent.
    pub fn close(self, farm: &mut F)
        requires { (n : NodeName) → IsTrue (is_node_of self.cluster n) → F.is_lent farm.old n ≡ true }
        ensures lent { (n : NodeName) → IsTrue (is_node_of self.cluster n) → F.is_lent farm.new n ≡ false }
        ensures told { (r : Runs) → r.cluster ≡ self.cluster → AllStandKept r (F.stands farm.new) → AreTold (views ⟦<Log<F::D> as Journal>⟧.state F.D.told F.D.content F.D.power) r (parts_of self) }
        ensures on { (n : NodeName) → IsTrue (is_node_of self.cluster n) → (F.stands farm.new n).power ≡ On }
        ensures others_lent { (n : NodeName) → is_node_of self.cluster n ≡ false → F.is_lent farm.new n ≡ F.is_lent farm.old n }
        ensures others { (n : NodeName) → is_node_of self.cluster n ≡ false → F.stands farm.new n ≡ F.stands farm.old n }
        ensures start { (n : NodeName) → F.start farm.new n ≡ F.start farm.old n }
        ensures faults { F.faults farm.new ≡ F.faults farm.old }
    {
        let World {
            alloc: _,
            cluster,
            coords,
            shards,
            clients: _,
            order: _,
            net: _,
            events: _,
            deliveries: _,
        } = self;
        let dcs = cluster.dcs() as usize;
        prove!(coords.len() == dcs);
        give_coords_back::<F>(farm, coords);
        give_shards_back::<F>(farm, &cluster, shards);
    }
}
