//! Quiet quorums: where a quorum of datacentres is quiet for a transaction from its begin on, its client learns commit once a stated
//! number of messages is delivered. The law is the contract of a function that does nothing.
#![tactic(auto)]

ghost use Rattle.std.specs.Prelude.{ℕ, List};
ghost use Rattle.rc_ids.specs.Tables.{In};
ghost use Rattle.rc_ids.specs.Cluster.{Layout, IsLayout};
ghost use Rattle.rc_ids.specs.declared.names.Outcome.TheVariants.{Commit as Committed};
ghost use Rattle.rc_report.specs.declared.line.Line.TheVariants.{Learned};
ghost use Rattle.rc_runs.specs.World.{new_world};
ghost use Rattle.rc_runs.specs.Refusals.{Happening, run, lines};
ghost use Rattle.rc_claims.specs.Quiet.{IsQuiet, AreFew, AreDelivered, HasCommitted};

/// Of every run from a new world, and every stretch that goes on from it and in which a quorum of datacentres is quiet for a
/// transaction that has not begun before: the messages that have to be delivered are at most so many as is stated; and where they all
/// are delivered by the end of the stretch, the client of the transaction holds its commit with what it read and wrote, and the
/// stretch printed that it learned commit.
pub fn quiet_quorums()
    ensures few { (c : Layout) → IsLayout c → (earlier stretch : List Happening) (members : List ℕ) (t : ℕ) → IsQuiet (run (new_world c) earlier) members t stretch
        → AreFew (run (run (new_world c) earlier) stretch) members t }
    ensures commits { (c : Layout) → IsLayout c → (earlier stretch : List Happening) (members : List ℕ) (t : ℕ) → IsQuiet (run (new_world c) earlier) members t stretch
        → AreDelivered (run (run (new_world c) earlier) stretch) members t → HasCommitted (run (run (new_world c) earlier) stretch) t }
    ensures printed { (c : Layout) → IsLayout c → (earlier stretch : List Happening) (members : List ℕ) (t : ℕ) → IsQuiet (run (new_world c) earlier) members t stretch
        → AreDelivered (run (run (new_world c) earlier) stretch) members t → In (Learned t Committed) (lines (run (new_world c) earlier) stretch) }
{}
