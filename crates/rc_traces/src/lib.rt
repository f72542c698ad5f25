//! What a script prints is what its run prints: each line of a script is a stretch of the run, with what the line itself prints behind
//! it. So a law over runs is a law on what was printed. The laws are the contract of a function that does nothing.
#![tactic(auto)]

ghost use Rattle.std.specs.Prelude.{◌≡◌, ◌++◌};
ghost use Rattle.rc_script.specs.declared.command.Command.{Command};
ghost use Rattle.rc_runs.specs.Refusals.{run, lines};
ghost use Rattle.rc_runs.specs.Session.{Session};
ghost use Rattle.rc_runs.specs.Script.{performs};
ghost use Rattle.rc_traces.specs.Own.{own_lines};

/// A line of a script does its trace and nothing else, and prints the lines of its trace and then its own.
pub fn lines_are_traced()
    ensures world { (z : Session) (c : Command) → (performs z c).after.world ≡ run z.world (performs z c).trace }
    ensures lines { (z : Session) (c : Command) → (performs z c).lines ≡ lines z.world (performs z c).trace ++ own_lines z c (performs z c) }
{}
