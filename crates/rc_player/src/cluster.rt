// The cluster of a script's world.
ghost use Rattle.std.specs.Prelude.{◌≡◌, [], ◌∷◌, ◌++◌, None, IfOk, OnOk};
ghost use Rattle.rc_ids.specs.Cluster.{layout, cluster_fault, equal_weights};
ghost use Rattle.rc_script.specs.Grammar.{IsScript, FollowsWorld, commands_of};
ghost use Rattle.rc_script.specs.Spelling.{IsCommandOf};
ghost use Rattle.rc_runs.specs.Text.{layout_of};
ghost use Rattle.rc_runs.specs.Text as text;
ghost use Rattle.rc_player.specs.Written.{LaysOut};

use rc_ids::{Cluster, Key, NoMemory};
use rc_script::{Command, NumberedCommand, Weights};
use std::alloc::Global;

/// Adds the key, if the line is a split.
fn keep_split(keys: &mut Vec<Key>, line: &NumberedCommand) -> Result<(), NoMemory>
    ensures { OnOk result (keys.new.items ≡ keys.old.items ++ text.split_keys (line.now ∷ [])) }
{
    if let Command::Split(key) = &line.command {
        keys.push(key.copy())?;
    }
    Ok(())
}

/// The keys of the splits.
fn split_keys(alloc: Global, later: &[NumberedCommand]) -> Result<Vec<Key>, NoMemory>
    ensures { IfOk result (λ keys. keys.items ≡ text.split_keys later.now) }
{
    let mut keys = Vec::new(alloc);
    for line in later {
        keep_split(&mut keys, line)?;
    }
    Ok(keys)
}

/// The cluster of equal weights.
fn equal(dcs: u8, shards: u8, splits: Vec<Key>) -> Cluster
    requires { cluster_fault (layout dcs shards splits.items (equal_weights dcs)) ≡ None }
    ensures { result ≡ layout dcs shards splits.items (equal_weights dcs) }
{
    let Ok(cluster) = Cluster::new(dcs, shards, splits) else {
        unreachable!()
    };
    cluster
}

/// The cluster of these weights.
fn weighted(dcs: u8, shards: u8, splits: Vec<Key>, weights: Vec<u8>) -> Cluster
    requires { cluster_fault (layout dcs shards splits.items weights.items) ≡ None }
    ensures { result ≡ layout dcs shards splits.items weights.items }
{
    let Ok(cluster) = Cluster::weighted(dcs, shards, splits, weights) else {
        unreachable!()
    };
    cluster
}

/// The cluster of a world line with the splits of the later lines.
fn of_world(
    alloc: Global,
    dcs: u8,
    shards: u8,
    weights: &Option<Weights>,
    later: &[NumberedCommand],
) -> Result<Cluster, NoMemory>
    requires world { IsCommandOf 0 0 (Command.World dcs shards weights.now) }
    requires later { FollowsWorld dcs shards (commands_of later.now) }
    ensures { IfOk result (λ c. c ≡ layout_of dcs shards weights.now later.now) }
{
    let splits = split_keys(alloc, later)?;
    match weights {
        None => Ok(equal(dcs, shards, splits)),
        Some(weights) => {
            let weights = Vec::from_slice(alloc, weights.as_slice())?;
            Ok(weighted(dcs, shards, splits, weights))
        }
    }
}

/// The cluster of a script, whose first line is that of its world.
pub fn cluster_of(
    alloc: Global,
    first: &Command,
    later: &[NumberedCommand],
) -> Result<Cluster, NoMemory>
    requires { IsScript (first.now ∷ commands_of later.now) }
    ensures { IfOk result (λ c. LaysOut first.now later.now c) }
{
    match first {
        Command::World {
            dcs,
            shards,
            weights,
        } => of_world(alloc, *dcs, *shards, weights, later),
        _ => unreachable!(),
    }
}
