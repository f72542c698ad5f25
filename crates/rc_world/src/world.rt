// A world of nodes on their disks, clients and the network between them.
ghost use Rattle.std.specs.Prelude.{◌≡◌, ◌*◌, IsTrue, length};
ghost use Rattle.std.specs.List.{list_all};
ghost use Rattle.rc_begin.specs.Wells.{is_well};
ghost use Rattle.rc_world.specs.Weights.{are_of};

use crate::clients::Clients;
use rc_begin::{CoordHost, ShardHost};
use rc_disk::Farm;
use rc_ids::{Cluster, Party, Sends};
use rc_net::Net;
use rc_order::Order;
use std::alloc::Global;

/// What a party sends in an event.
#[derive(Drop)]
pub(crate) struct Sending {
    pub(crate) from: Party,
    pub(crate) sends: Sends,
}

/// A world: its nodes, each on its host, its clients, and the network between them.
#[derive(Drop)]
pub struct World<F: Farm> {
    pub(crate) alloc: Global,
    pub(crate) cluster: Cluster,
    pub(crate) coords: Vec<CoordHost<F::D>>,
    pub(crate) shards: Vec<ShardHost<F::D>>,
    pub(crate) clients: Clients,
    pub(crate) order: Order,
    pub(crate) net: Net,
    pub(crate) events: u32,
    pub(crate) deliveries: u64,
    ghost coords_are_well: { IsTrue (list_all (is_well (λ n. n.stopped)) coords.items) },
    ghost shards_are_well: { IsTrue (list_all (is_well (λ n. n.stopped)) shards.items) },
    ghost clients_are_of: { IsTrue (are_of cluster clients.cores) },
    ghost all_coords: { length coords.items ≡ cluster.dcs },
    ghost all_shards: { length shards.items ≡ cluster.dcs * cluster.shards },
}
