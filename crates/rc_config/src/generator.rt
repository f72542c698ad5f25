//! Scripts from a number.
ghost use Rattle.std.specs.Prelude.{◌≡◌, ◌++◌, ◌+◌, ◌<◌, ◌≤◌, ◌^◌, length, IfOk, OnOk};
ghost use Rattle.rc_script.specs.Grammar.{IsScript, commands_of};
ghost use Rattle.rc_config.specs.Generator.{key_name, value_name, maybe_settle, lines_of, state_after, generated};
ghost use Rattle.rc_config.specs.Generator as generator;

use crate::draws::Draws;
use crate::lines::Lines;
use rc_ids::{Key, NoMemory, Text, TextFault, TxId, Val};
use rc_script::{Command, Script};
use std::alloc::Global;

/// The key of this digit.
fn key_of(digit: u32) -> Key
    requires { digit < 10 }
    ensures { result ≡ key_name digit }
{
    match Key::new(&[b'k', b'0' + digit as u8]) {
        Ok(key) => key,
        Err(_) => unreachable!(),
    }
}

/// The text of the value that the transaction of this number writes.
fn value_text(alloc: Global, number: u32) -> Result<Text, NoMemory>
    ensures { IfOk result (λ text. text ≡ value_name number) }
{
    let digits = number.to_string(alloc)?;
    let mut text = Text::new(alloc);
    text.push(b'v')?;
    text.push_bytes(digits.as_bytes())?;
    Ok(text)
}

/// There was no memory for a text: the only fault that one without a bad byte has.
fn want_of_memory(_fault: TextFault) -> NoMemory
    requires { _fault ≡ TextFault.NoMemory }
{
    NoMemory
}

/// The value that the transaction of this number writes.
fn value_of(alloc: Global, number: u32) -> Result<Val, NoMemory>
    ensures { IfOk result (λ value. value ≡ value_name number) }
{
    let text = value_text(alloc, number)?;
    match Val::new(alloc, text.as_bytes()) {
        Ok(value) => Ok(value),
        Err(fault) => Err(want_of_memory(fault)),
    }
}

/// Adds a settle, unless the draw is 0.
fn push_settle(lines: &mut Lines, draw: u32) -> Result<(), NoMemory>
    requires { length lines.old < 65536 }
    ensures { OnOk result (lines.new ≡ lines.old ++ maybe_settle draw) }
{
    if draw != 0 {
        lines.push(Command::Settle)?;
    }
    Ok(())
}

/// Adds the lines of a transaction.
fn push_transaction(
    alloc: Global,
    lines: &mut Lines,
    draws: &mut Draws,
    number: u32,
) -> Result<(), NoMemory>
    requires tx { 1 ≤ number }
    requires room { length lines.old + 6 < 65536 }
    ensures lines { OnOk result (lines.new ≡ lines.old ++ lines_of number draws.old) }
    ensures draws { OnOk result (draws.new ≡ state_after draws.old) }
{
    let tx = TxId(number);
    lines.push(Command::Begin(tx))?;
    lines.push(Command::Read(tx, key_of(draws.below(10))))?;
    lines.push(Command::Settle)?;
    let key = key_of(draws.below(10));
    lines.push(Command::Write(tx, key, value_of(alloc, number)?))?;
    lines.push(Command::Commit(tx))?;
    push_settle(lines, draws.below(4))?;
    Ok(())
}

/// The lines that make the world.
fn world_lines(alloc: Global) -> Result<Lines, NoMemory>
    ensures { IfOk result (λ lines. lines ≡ generator.world_lines) }
{
    let mut lines = Lines::new(alloc);
    lines.push(Command::World {
        dcs: 3,
        shards: 2,
        weights: None,
    })?;
    lines.push(Command::Split(key_of(5)))?;
    Ok(lines)
}

/// The script of so many transactions that this number draws. Each of them reads and writes keys from `k0` to `k9`,
/// in a world of three datacentres and two shards.
pub fn generate(alloc: Global, number: u32, size: u32) -> Result<Script, NoMemory>
    requires number { number < 2 ^ 31 }
    requires least { 1 ≤ size }
    requires most { size ≤ 1024 }
    // The lines, as the text of the script would be read.
    ensures lines { IfOk result (λ script. script ≡ generated number size) }

    // They are a script of the grammar.
    ensures script { IfOk result (λ script. IsScript (commands_of script)) }
{
    let mut lines = world_lines(alloc)?;
    let mut draws = Draws::new(number);
    for tx in 0..size {
        push_transaction(alloc, &mut lines, &mut draws, tx + 1)?;
    }
    lines.push(Command::Settle)?;
    Ok(lines.into_script())
}
