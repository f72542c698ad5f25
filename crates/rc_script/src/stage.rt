//! Which commands may stand where.
ghost use Rattle.std.specs.Prelude.{◌≡◌, ◌≤◌, ◌-◌, IfSome, IsTrue, ◌↔◌};
ghost use Rattle.rc_script.specs.Stages.{dcs_of, shards_of, is_above, FitsWorld};
ghost use Rattle.rc_script.specs.Stages as stages;

use crate::command::Command;
use rc_ids::Key;
use std::marker::Model;

/// The world that the first command made, and which splits are read.
#[derive(Drop)]
pub(crate) struct World {
    dcs: u8,
    shards: u8,
    missing: u8,
    last: Option<Key>,
}

impl Model for World {
    ghost use Rattle.std.specs.Prelude.{◌≤◌};
    ghost use Rattle.rc_script.specs.Stages.{World as Stage};

    ghost Value = { Stage };

    ghost view = { λ w. record { dcs = w.dcs; shards = w.shards; missing = w.missing; last = w.last } };

    ghost invariant = { λ w. (w.dcs ≤ 7) × (w.shards ≤ 8) };
}

impl World {
    /// The world after a split, if one is missing and this one is above the last.
    fn after_split(self, key: &Key) -> Option<World>
        ensures { result ≡ stages.after_command (Some self) (Command.Split key.now) }
    {
        if self.missing == 0 || !is_above(&self.last, key) {
            return None;
        }
        Some(World {
            dcs: self.dcs,
            shards: self.shards,
            missing: self.missing - 1,
            last: Some(key.copy()),
        })
    }

    /// The world after a command, if it may stand there.
    fn after(self, command: &Command) -> Option<World>
        ensures { result ≡ stages.after_command (Some self) command.now }
    {
        match command {
            Command::World { .. } => None,
            Command::Split(key) => self.after_split(key),
            _ => {
                if self.missing != 0 {
                    return None;
                }
                Some(self)
            }
        }
    }

    /// The number of datacentres and the number of shards.
    fn sizes(&self) -> (u8, u8)
        ensures dcs { (result.0 ≡ self.now.dcs) × (result.0 ≤ 7) }
        ensures shards { (result.1 ≡ self.now.shards) × (result.1 ≤ 8) }
    {
        (self.dcs, self.shards)
    }
}

/// Whether the key is above the last split.
fn is_above(last: &Option<Key>, key: &Key) -> bool
    ensures { result ≡ is_above last.now key.now }
{
    match last {
        None => true,
        Some(last) => last < key,
    }
}

/// The world that a first command makes.
fn opened(command: &Command) -> Option<World>
    requires { FitsWorld command.now }
    ensures { result ≡ stages.after_command None command.now }
{
    match command {
        Command::World { dcs, shards, .. } => Some(World {
            dcs: *dcs,
            shards: *shards,
            missing: *shards - 1,
            last: None,
        }),
        _ => None,
    }
}

/// The world after a command, if it may stand there.
pub(crate) fn after_command(before: Option<World>, command: &Command) -> Option<World>
    requires { FitsWorld command.now }
    ensures { result ≡ stages.after_command before command.now }
{
    match before {
        None => opened(command),
        Some(world) => world.after(command),
    }
}

/// The numbers of datacentres and of shards that names may reach.
pub(crate) fn sizes_of(before: &Option<World>) -> (u8, u8)
    ensures dcs { (result.0 ≡ dcs_of before.now) × (result.0 ≤ 7) }
    ensures shards { (result.1 ≡ shards_of before.now) × (result.1 ≤ 8) }
{
    match before {
        None => (0, 0),
        Some(world) => world.sizes(),
    }
}

/// Whether no split is missing at the end.
pub(crate) fn is_whole(before: &Option<World>) -> bool
    ensures { result ≡ stages.is_whole before.now }
{
    match before {
        None => true,
        Some(world) => world.missing == 0,
    }
}
