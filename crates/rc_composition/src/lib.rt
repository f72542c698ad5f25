//! Composition: the history of a wire as the events of a run, and what each party does in it by its own entries alone. The laws are the
//! contract of a function that does nothing.
#![tactic(auto)]

ghost use Rattle.std.specs.Prelude.{◌≡◌, ◌++◌, true, List};
ghost use Rattle.rc_ids.specs.Cluster.{Layout};
ghost use Rattle.rc_ids.specs.declared.names.Party.{Party};
ghost use Rattle.rc_net.specs.Network.{Message};
ghost use Rattle.rc_msg.specs.declared.msg.Envelope.{Envelope};
ghost use Rattle.rc_runs.specs.World.{Parties};
ghost use Rattle.rc_runs.specs.Refusals.{Happening};
ghost use Rattle.rc_protocol.specs.Messages.{Posts};
ghost use Rattle.rc_wire.specs.declared.rules.Rules.{Rules};
ghost use Rattle.rc_wire.specs.declared.turn.Turn.{Turn};
ghost use Rattle.rc_wire.specs.Chronicle.{Chronicle};
ghost use Rattle.rc_wire.specs.Passes.{is_legal};
ghost use Rattle.rc_composition.specs.Composed.{Operations};
ghost use Rattle.rc_composition.specs.Cuts.{EventsAreCut, PartsAreCut};
ghost use Rattle.rc_composition.specs.Deeds.{DeedsAreOwn};
ghost use Rattle.rc_composition.specs.Messages.{LettersAreMessages, NumbersStay};
ghost use Rattle.rc_composition.specs.Moves.{MovesAlone};
ghost use Rattle.rc_composition.specs.OneRun.{IsOneRun};
ghost use Rattle.rc_composition.specs.Steps.{AreCells};

mod command;

pub use command::Command;

/// Wherever a history is cut, its events are those before the cut and then those behind it, and so are the steps of each party.
pub fn cuts_compose()
    ensures events { (ops : Operations) (parties : List Party) (front later : List Turn) → EventsAreCut ops parties front later }
    ensures parts { (c : Layout) (ops : Operations) (sent : List Message) (p : Party) (mine more later : List Turn) → PartsAreCut c ops sent p mine more later }
{}

/// What a party does by itself is what it does in a world.
pub fn deeds_are_own()
    ensures { (w : Parties) (sent : List Envelope) (on_wire : List Message) → DeedsAreOwn w sent on_wire }
{}

/// A party's deed makes of it what it makes of the party by itself, and leaves the others as they were.
pub fn moves_are_own()
    ensures { (w : Parties) (c : Layout) (on_wire : List Message) (p : Party) (h : Happening) → MovesAlone w c on_wire p h }
{}

/// What a party posts are the messages that it sends, and a number names the same message in every longer history.
pub fn messages_stay()
    ensures letters { (p : Party) (ms : Posts) → LettersAreMessages p ms }
    ensures numbers { (rules : Rules) (front later : List Turn) → NumbersStay rules front later }
{}

/// Each front of a legal history of cells composes to one run of a new world.
pub fn history_is_one_run()
    ensures { (c : Layout) (ops : Operations) (wire : Chronicle) (front later : List Turn) → is_legal wire ≡ true → AreCells c ops wire → wire.turns ≡ front ++ later → IsOneRun c ops wire front later }
{}
