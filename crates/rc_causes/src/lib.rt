//! Causes: why a run prints what it prints. Each law is the contract of a function that does nothing, and holds of every list of
//! happenings.
#![tactic(auto)]

ghost use Rattle.std.specs.Prelude.{List};
ghost use Rattle.rc_ids.specs.Cluster.{Layout, IsLayout};
ghost use Rattle.rc_ids.specs.declared.names.NodeId.{NodeId};
ghost use Rattle.rc_protocol.specs.Nodes.{CoordNode, ShardNode};
ghost use Rattle.rc_runs.specs.World.{World, Start, started_world};
ghost use Rattle.rc_runs.specs.Refusals.{Happening};
ghost use Rattle.rc_runs.specs.Devices.{Device};
ghost use Rattle.rc_claims.specs.Lives.{IsLife};
ghost use Rattle.rc_causes.specs.Printed.{PrintedIsChosen, LinesHaveMoments};
ghost use Rattle.rc_causes.specs.Stops.{StopsHaveCauses};
ghost use Rattle.rc_causes.specs.Refused.{RefusalsHaveCauses};
ghost use Rattle.rc_causes.specs.Aborts.{Begins, AbortsHaveCauses};
ghost use Rattle.rc_causes.specs.Calls.{AppendsAreTold};
ghost use Rattle.rc_causes.specs.Faults.{FaultsAreCounted};
ghost use Rattle.rc_causes.specs.Unread.{UnreadHaveCauses};

/// Each line of a run is printed in one of its happenings, and each outcome that is printed is chosen.
pub fn printed_outcomes()
    ensures moments { (w : World) (hs : List Happening) → LinesHaveMoments w hs }
    ensures chosen { (c : Layout) → IsLayout c → (earlier : List World) (w : World) → IsLife c earlier w → (later : List Happening) → PrintedIsChosen w later }
{}

/// A node stops where it is crashed, or where an append of its own stopped.
pub fn stops_have_causes()
    ensures { (w : World) (h : Happening) → StopsHaveCauses w h }
{}

/// A refusal that is printed was sent by the coordinator that it names, for the reason that it gives: from whatever logs the run began.
pub fn refusals_have_causes()
    ensures { (c : Layout) (start : Start) (coords : List CoordNode) (shards : List ShardNode) (before : List Happening) (now : Happening)
        → RefusalsHaveCauses (started_world c start coords shards) before now }
{}

/// An abort that is printed is chosen, after the transaction was taken over by command or refused by a quorum, in every life.
pub fn aborts_have_causes()
    ensures { (c : Layout) → IsLayout c → (w : World) → Begins c w → (before : List Happening) (now : Happening) → AbortsHaveCauses c w before now }
{}

/// A read that printed nothing and was not cancelled had grants of no quorum while it was under way and its client open or committing: from
/// whatever logs the run began.
pub fn unread_have_causes()
    ensures { (c : Layout) → IsLayout c → (start : Start) (coords : List CoordNode) (shards : List ShardNode) (before : List Happening) (now : Happening) (after : List Happening)
        → UnreadHaveCauses c (started_world c start coords shards) before now after }
{}

/// An append makes four calls, as many as up to the one that failed, or none where its log is full; and it fails at no other call than one
/// that is listed or at which an armed cut falls.
pub fn devices_are_told()
    ensures { (d : Device) → AppendsAreTold d }
{}

/// Of a disk that tells nothing but the count of its faults: no more appends of its node failed than the count rose by.
pub fn faults_are_counted()
    ensures { (node : NodeId) (w : World) (hs : List Happening) → FaultsAreCounted node w hs }
{}
