//! Bytes as a script.
ghost use Rattle.std.specs.Prelude.{◌≡◌, ◌<◌, ◌≤◌, ◌++◌, List, length, IfOk, Ok, Err, OnOk, option_to_list};
ghost use Rattle.std.specs.Str.Lines.{lines};
ghost use Rattle.rc_script.specs.declared.script.NumberedCommand.{NumberedCommand};
ghost use Rattle.rc_script.specs.Grammar.{IsScriptOf};
ghost use Rattle.rc_script.specs.Reading.{Gives, numbered, script_of};
ghost use Rattle.rc_script.specs.Reading as reading;

use crate::command::Command;
use crate::fault::ScriptFault;
use crate::line::{first_line, line_of};
use crate::script::{NumberedCommand, Script};
use crate::stage::is_whole;
use rc_ids::NoMemory;
use std::alloc::Global;

/// The most lines that a script may have.
const MAX_LINES: usize = 65_536;

/// How many lines there are.
fn line_count(bytes: &[u8]) -> usize
    ensures { result ≡ length (lines bytes.now) }
{
    let mut count = 0;
    let mut rest = bytes;
    while !rest.is_empty() {
        let (_, others) = first_line(rest);
        count += 1;
        rest = others;
    }
    count
}

/// Adds a command, if there is one.
fn keep(
    commands: &mut Vec<NumberedCommand>,
    number: u32,
    command: Option<Command>,
) -> Result<(), NoMemory>
    ensures { OnOk result (commands.new.items ≡ commands.old.items ++ numbered number command) }
{
    if let Some(command) = command {
        commands.push(NumberedCommand { number, command })?;
    }
    Ok(())
}

/// The commands of the lines, or the first line outside the grammar.
fn read_lines(alloc: Global, bytes: &[u8]) -> Result<Vec<NumberedCommand>, ScriptFault>
    requires { length (lines bytes.now) ≤ 65536 }
    ensures { Gives (λ v. v.items) result (reading.read_lines None 1 (lines bytes.now)) }
{
    let mut commands = Vec::new(alloc);
    let mut before = None;
    let mut number = 1;
    let mut rest = bytes;
    while !rest.is_empty() {
        let (line, others) = first_line(rest);
        let Some((command, after)) = line_of(alloc, before, line)? else {
            return Err(ScriptFault::Line { number });
        };
        keep(&mut commands, number, command)?;
        before = after;
        number += 1;
        rest = others;
    }
    if !is_whole(&before) {
        return Err(ScriptFault::Line { number });
    }
    Ok(commands)
}

/// The same with the limit of lines before it.
#[tactic(auto, unfolding(crate::specs::Reading::script_of))]
fn read_script(alloc: Global, bytes: &[u8]) -> Result<Script, ScriptFault>
    ensures exact { Gives (λ script. script) result (script_of bytes.now) }
    ensures many { 65536 < length (lines bytes.now) → result ≡ Err ScriptFault.TooManyLines }
{
    if line_count(bytes) > MAX_LINES {
        return Err(ScriptFault::TooManyLines);
    }
    let commands = read_lines(alloc, bytes)?;
    Ok(Script::new(commands))
}

/// The script that the bytes are, or the first line outside the grammar. The limit of bytes is the caller's to test.
pub fn parse(alloc: Global, bytes: &[u8]) -> Result<Script, ScriptFault>
    // What is read is a script of the grammar, of these commands.
    ensures found { IfOk result (λ script. IsScriptOf bytes.now script) }

    // A script of the grammar is read as its commands, unless memory runs out.
    ensures only { (commands : List NumberedCommand) → IsScriptOf bytes.now commands → Gives (λ script. script) result (Ok commands) }

    // Too many lines are seen before the grammar.
    ensures many { 65536 < length (lines bytes.now) → result ≡ Err ScriptFault.TooManyLines }

    // Which script or fault it is, unless memory runs out.
    ensures exact { Gives (λ script. script) result (script_of bytes.now) }
{
    read_script(alloc, bytes)
}
