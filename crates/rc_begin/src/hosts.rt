// The hosts of coordinators and of shard servers.
use rc_coord::Coord;
use rc_host::Host;
use rc_locks::Locks;
use rc_log::Log;
use rc_shard::Shard;

/// A coordinator on its host.
pub type CoordHost<D> = Host<Coord<Log<D>>, Log<D>, D>;

/// A shard server on its host.
pub type ShardHost<D> = Host<Shard<Log<D>, Locks>, Log<D>, D>;
