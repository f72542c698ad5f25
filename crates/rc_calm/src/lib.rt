//! Calm scripts: transactions one after another, each read and commit directly followed by its settle. What the program prints for them is
//! what one map prints. The law is the contract of a function that does nothing.
#![tactic(auto)]

ghost use Rattle.std.specs.Prelude.{ℕ, List};
ghost use Rattle.rc_ids.specs.Cluster.{Layout};
ghost use Rattle.rc_script.specs.declared.script.NumberedCommand.{NumberedCommand};
ghost use Rattle.rc_runs.specs.Stored.{Place};
ghost use Rattle.rc_claims.specs.CalmScripts.{WritesCalmLines};

/// A calm script that names rightly is played to its end on empty disks of which no call fails, unless it meets a limit: every commit is
/// learned, every read has the one map's row, and each settle prints the number of deliveries that the map's formula gives. With at most
/// 1,024 transactions it meets no limit.
pub fn calm_scripts()
    ensures writes { (p : Place) (bytes : List ℕ) (c : Layout) (first : NumberedCommand) (rest : List NumberedCommand) → WritesCalmLines p bytes c first rest }
{}
