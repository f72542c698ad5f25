// A journal gives its coordinator back.
ghost use Rattle.rc_ids.specs.Cluster.{Layout};
ghost use Rattle.rc_ids.specs.declared.names.NodeId.{NodeId};
ghost use Rattle.rc_coord.specs.Replays.{ReplayLaws};

/// A journal whose records give a coordinator's durable state back still does after each act.
pub fn coord_laws()
    ensures { (node : NodeId) (c : Layout) → ReplayLaws node c }
{}
