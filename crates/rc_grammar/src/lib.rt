//! The grammar of runs: whatever comes, as long as it has a spelling, all that nodes and clients send and log has one too. So what is
//! sent as bytes is read back as it was, and what is logged is replayed. Each law is the contract of a function that does nothing.
#![tactic(auto)]

ghost use Rattle.std.specs.Prelude.{ℕ, List, map, IsTrue, IfOk};
ghost use Rattle.std.specs.List.{AllByRecursion};
ghost use Rattle.rc_ids.specs.Cluster.{Layout, IsLayout, is_dc, is_shard};
ghost use Rattle.rc_ids.specs.declared.names.NodeId.{NodeId};
ghost use Rattle.rc_fields.specs.Ranges.{IsTxNumber};
ghost use Rattle.rc_fields.specs.Formats.{IsBytes};
ghost use Rattle.rc_record.specs.declared.record.Record.{Record};
ghost use Rattle.rc_report.specs.declared.line.Line.{Line};
ghost use Rattle.rc_runs.specs.declared.event.Event.{Event};
ghost use Rattle.rc_protocol.specs.Shard.{ShardDurable, ShardVolatile};
ghost use Rattle.rc_protocol.specs.Coordinator.{CoordDurable, CoordVolatile};
ghost use Rattle.rc_protocol.specs.Client.{Client};
ghost use Rattle.rc_protocol.specs.Nodes.{coord_started, shard_started};
ghost use Rattle.rc_protocol.specs.Acts.{NodeCause, ClientCause, shard_act, coord_act, client_act};
ghost use Rattle.rc_runs.specs.World.{World, Start, Course, started_world, new_world, course_deed, step};
ghost use Rattle.rc_runs.specs.Refusals.{Happening, run};
ghost use Rattle.rc_runs.specs.Session.{Session, happens};
ghost use Rattle.rc_runs.specs.Stored.{Place, new_session};
ghost use Rattle.rc_grammar.specs.Acts.{HasNodeCause, HasClientCause, HasLog};
ghost use Rattle.rc_grammar.specs.Shards.{HasShardDurable, HasShardVolatile, ShardSpeaks};
ghost use Rattle.rc_grammar.specs.Coordinators.{HasCoordDurable, HasCoordVolatile, CoordSpeaks};
ghost use Rattle.rc_grammar.specs.Clients.{HasClient, ClientSpeaks};
ghost use Rattle.rc_grammar.specs.Worlds.{HasEvent, HasWorld, DeedSpeaks};
ghost use Rattle.rc_grammar.specs.Back.{WorldIsReadBack};

/// A shard server says and keeps only what has a spelling.
pub fn shards_speak()
    ensures { (c : Layout) → IsLayout c → (d sh : ℕ) → IsTrue (is_dc c d) → IsTrue (is_shard c sh) → (s : ShardDurable) → HasShardDurable s → (v : ShardVolatile) → HasShardVolatile v
        → (cause : NodeCause) → HasNodeCause cause → ShardSpeaks s (shard_act c d sh s v cause) }
{}

/// A coordinator says and keeps only what has a spelling.
pub fn coords_speak()
    ensures { (c : Layout) → IsLayout c → (d : ℕ) → IsTrue (is_dc c d) → (s : CoordDurable) → HasCoordDurable s → (v : CoordVolatile) → HasCoordVolatile v
        → (cause : NodeCause) → HasNodeCause cause → CoordSpeaks s (coord_act c d s v cause) }
{}

/// A client says and keeps only what has a spelling, also where it refuses.
pub fn clients_speak()
    ensures { (c : Layout) → IsLayout c → (t : ℕ) → IsTxNumber t → (x : Client) → HasClient x → (cause : ClientCause) → HasClientCause cause → ClientSpeaks (client_act c t x cause) }
{}

/// A world in the grammar stays so with every event in the grammar, however the event's append goes, and what is sent and logged in the
/// event has a spelling. Worlds begin in the grammar: the new one, and that of nodes that start from logs whose records have a spelling.
pub fn worlds_speak()
    ensures steps { (w : World) → HasWorld w → (e : Event) → HasEvent e → (course : Course) → HasWorld (step w e course) }
    ensures deeds { (w : World) → HasWorld w → (e : Event) → HasEvent e → (course : Course) → DeedSpeaks (course_deed w e course) }
    ensures new { (c : Layout) → IsLayout c → HasWorld (new_world c) }
    ensures started { (c : Layout) → IsLayout c → (start : Start) → (coords shards : List (List Record)) → AllByRecursion HasLog coords → AllByRecursion HasLog shards
        → HasWorld (started_world c start (map coord_started coords) (map shard_started shards)) }
    ensures runs { (w : World) → HasWorld w → (hs : List Happening) → AllByRecursion (λ (h : Happening). HasEvent h.0) hs → HasWorld (run w hs) }
{}

/// A session that finds stored logs, whatever their bytes are, begins in the grammar, and stays so with every event in the grammar.
pub fn sessions_speak()
    ensures begin { (p : Place) → ((node : NodeId) → IsBytes (p.content node)) → (c : Layout) → IsLayout c → IfOk (new_session p c) (λ (z : Session). HasWorld z.world) }
    ensures go_on { (z : Session) → HasWorld z.world → (e : Event) → HasEvent e → IfOk (happens z e) (λ (y : Session × List Line). HasWorld y.0.world) }
{}

/// Each message that was sent in a world in the grammar is read back from its bytes as it is, and so is each record in its logs.
pub fn all_is_read_back()
    ensures { (w : World) → HasWorld w → WorldIsReadBack w }
{}
