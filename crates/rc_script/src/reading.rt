//! Lines as commands.
ghost use Rattle.std.specs.Prelude.{◌≡◌, ◌≤◌, IfOk, IfSome, length};
ghost use Rattle.std.specs.Option.{option_map};
ghost use Rattle.rc_script.specs.Commands.{weights_of, world_of, write_of, messages_of, crash_of, take_of};
ghost use Rattle.rc_script.specs.Commands as commands_spec;
ghost use Rattle.rc_script.specs.Words.{key_of, tx_of, dc_of, node_of};

use crate::command::{Command, Numbers, Weights};
use crate::numbers::{numbers_of, small_numbers_of};
use crate::verb::{Verb, verb_of};
use crate::words::{behind, cut, dc, key, node, number_in, small_number_in, tx, val};
use rc_ids::{Key, NoMemory, NodeId, TxId};
use std::alloc::Global;

/// A transaction and a key.
fn tx_and_key(words: &[u8]) -> Option<(TxId, Key)>
    ensures { result ≡ commands_spec.tx_and_key words.now }
{
    let (tx_word, others) = cut(words, b' ');
    let key_word = others?;
    let tx = tx(tx_word)?;
    let key = key(key_word)?;
    Some((tx, key))
}

/// The numbers of 1 to 64 messages.
fn messages(alloc: Global, words: &[u8]) -> Result<Option<Numbers>, NoMemory>
    ensures { IfOk result (λ found. found ≡ messages_of words.now) }
{
    let Some(numbers) = numbers_of(alloc, 0, u32::MAX, words)? else {
        return Ok(None);
    };
    if numbers.len() > 64 {
        return Ok(None);
    }
    Ok(Some(Numbers::new(numbers)))
}

/// One weight for each datacentre, where there are words for them.
fn weights(
    alloc: Global,
    dcs: u8,
    words: Option<&[u8]>,
) -> Result<Option<Option<Weights>>, NoMemory>
    ensures { IfOk result (λ found. found ≡ weights_of dcs (option_map (λ x. x.now) words.entry)) }
{
    let Some(words) = words else {
        return Ok(Some(None));
    };
    let Some(items) = small_numbers_of(alloc, 1, 9, words)? else {
        return Ok(None);
    };
    if items.len() != usize::from(dcs) {
        return Ok(None);
    }
    Ok(Some(Some(Weights::new(items))))
}

/// A `world` line.
fn world(alloc: Global, words: &[u8]) -> Result<Option<Command>, NoMemory>
    ensures { IfOk result (λ found. found ≡ world_of words.now) }
{
    let (dcs_word, Some(others)) = cut(words, b' ') else {
        return Ok(None);
    };
    let Some(dcs) = small_number_in(1, 7, dcs_word) else {
        return Ok(None);
    };
    let (shards_word, weight_words) = cut(others, b' ');
    let Some(shards) = small_number_in(1, 8, shards_word) else {
        return Ok(None);
    };
    let Some(weights) = weights(alloc, dcs, weight_words)? else {
        return Ok(None);
    };
    if dcs % 2 != 1 {
        return Ok(None);
    }
    Ok(Some(Command::World {
        dcs,
        shards,
        weights,
    }))
}

/// A `write` line.
fn write(alloc: Global, words: &[u8]) -> Result<Option<Command>, NoMemory>
    ensures { IfOk result (λ found. found ≡ write_of words.now) }
{
    let (tx_word, Some(others)) = cut(words, b' ') else {
        return Ok(None);
    };
    let Some(tx) = tx(tx_word) else {
        return Ok(None);
    };
    let (key_word, text) = cut(others, b' ');
    let Some(key) = key(key_word) else {
        return Ok(None);
    };
    let Some(val) = val(alloc, text.unwrap_or(&[]))? else {
        return Ok(None);
    };
    Ok(Some(Command::Write(tx, key, val)))
}

/// A `crash` line, whose node is read.
fn crash(node: NodeId, words: Option<&[u8]>) -> Option<Command>
    ensures { result ≡ crash_of node (option_map (λ x. x.now) words.entry) }
{
    let Some(words) = words else {
        return Some(Command::Crash(node));
    };
    let from_call = behind(b"at ", words)?;
    let (call_word, from_pick) = cut(from_call, b' ');
    let pick_word = behind(b"pick ", from_pick?)?;
    let call = number_in(1, 1000, call_word)?;
    let pick = small_number_in(0, 3, pick_word)?;
    Some(Command::CrashAt { node, call, pick })
}

/// A `take` line.
fn take(dcs: u8, words: &[u8]) -> Option<Command>
    requires { dcs ≤ 7 }
    ensures { result ≡ take_of dcs words.now }
{
    let (dc_word, others) = cut(words, b' ');
    let tx_word = others?;
    let dc = dc(dcs, dc_word)?;
    let tx = tx(tx_word)?;
    Some(Command::Take(dc, tx))
}

/// A line of one word.
fn bare_command(verb: Verb) -> Option<Command>
    ensures { result ≡ commands_spec.bare_command verb }
{
    match verb {
        Verb::Settle => Some(Command::Settle),
        Verb::Pending => Some(Command::Pending),
        Verb::Order => Some(Command::Order),
        _ => None,
    }
}

/// A line with words behind the first that takes no memory, in a world of so many datacentres and shards.
fn plain_command(dcs: u8, shards: u8, verb: Verb, words: &[u8]) -> Option<Command>
    requires dcs { dcs ≤ 7 }
    requires shards { shards ≤ 8 }
    ensures { result ≡ commands_spec.plain_command dcs shards verb words.now }
{
    match verb {
        Verb::Split => key(words).map(Command::Split),
        Verb::Begin => tx(words).map(Command::Begin),
        Verb::Read => {
            let (tx, key) = tx_and_key(words)?;
            Some(Command::Read(tx, key))
        }
        Verb::Delete => {
            let (tx, key) = tx_and_key(words)?;
            Some(Command::Delete(tx, key))
        }
        Verb::Commit => tx(words).map(Command::Commit),
        Verb::Cancel => {
            let (tx, key) = tx_and_key(words)?;
            Some(Command::Cancel(tx, key))
        }
        Verb::Retry => tx(words).map(Command::Retry),
        Verb::Vanish => tx(words).map(Command::Vanish),
        Verb::Step => number_in(1, 2_000_000, words).map(Command::Step),
        Verb::Crash => {
            let (node_word, others) = cut(words, b' ');
            crash(node(dcs, shards, node_word)?, others)
        }
        Verb::Restart => node(dcs, shards, words).map(Command::Restart),
        Verb::Take => take(dcs, words),
        Verb::Catch => node(dcs, shards, words).map(Command::Catch),
        Verb::Show => dc(dcs, words).map(Command::Show),
        Verb::World
        | Verb::Write
        | Verb::Settle
        | Verb::Deliver
        | Verb::Lose
        | Verb::Pending
        | Verb::Order => None,
    }
}

/// A line with words behind the first, in a world of so many datacentres and shards.
fn command_with(
    alloc: Global,
    dcs: u8,
    shards: u8,
    verb: Verb,
    words: &[u8],
) -> Result<Option<Command>, NoMemory>
    requires dcs { dcs ≤ 7 }
    requires shards { shards ≤ 8 }
    ensures { IfOk result (λ found. found ≡ commands_spec.command_with dcs shards verb words.now) }
{
    match verb {
        Verb::World => world(alloc, words),
        Verb::Write => write(alloc, words),
        Verb::Deliver => Ok(messages(alloc, words)?.map(Command::Deliver)),
        Verb::Lose => Ok(messages(alloc, words)?.map(Command::Lose)),
        _ => Ok(plain_command(dcs, shards, verb, words)),
    }
}

/// The command of a line, in a world of so many datacentres and shards.
#[tactic(auto, unfolding(crate::specs::Commands::command_of))]
pub(crate) fn command_of(
    alloc: Global,
    dcs: u8,
    shards: u8,
    line: &[u8],
) -> Result<Option<Command>, NoMemory>
    requires dcs { dcs ≤ 7 }
    requires shards { shards ≤ 8 }
    ensures { IfOk result (λ found. found ≡ commands_spec.command_of dcs shards line.now) }
{
    let (word, others) = cut(line, b' ');
    let Some(verb) = verb_of(word) else {
        return Ok(None);
    };
    match others {
        None => Ok(bare_command(verb)),
        Some(words) => command_with(alloc, dcs, shards, verb, words),
    }
}
