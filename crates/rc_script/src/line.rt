//! One line after the other.
ghost use Rattle.std.specs.Prelude.{◌≡◌, ◌<◌, ◌∷◌, length, IfOk, IfSome};
ghost use Rattle.std.specs.Str.Lines.{lines, strip_carriage_return};
ghost use Rattle.std.specs.List.{list_all};
ghost use Rattle.rc_ids.specs.Texts as texts;
ghost use Rattle.rc_script.specs.Reading as reading_spec;

use crate::command::Command;
use crate::reading::command_of;
use crate::stage::{World, after_command, sizes_of};
use crate::words::cut;
use rc_ids::{NoMemory, is_value_byte};
use std::alloc::Global;

/// The line without the carriage return at its end.
fn without_return(line: &[u8]) -> &[u8]
    ensures { result.now ≡ strip_carriage_return line.now }
{
    if line.is_empty() || line[line.len() - 1] != b'\r' {
        return line;
    }
    &line[..line.len() - 1]
}

/// The first line, and what follows it.
pub(crate) fn first_line(bytes: &[u8]) -> (&[u8], &[u8])
    requires { 0 < length bytes.now }
    ensures lines { lines bytes.now ≡ result.0.now ∷ lines result.1.now }
    ensures shorter { length result.1.now < length bytes.now }
{
    let (line, others) = cut(bytes, b'\n');
    match others {
        None => (line, &[]),
        Some(rest) => (without_return(line), rest),
    }
}

/// Whether the line is empty or a remark.
fn is_skipped(line: &[u8]) -> bool
    ensures { result ≡ reading_spec.is_skipped line.now }
{
    match line {
        [] => true,
        [first, ..] => *first == b'#',
    }
}

/// Whether all bytes are from the space to `~`.
fn is_printable(line: &[u8]) -> bool
    ensures { result ≡ list_all texts.is_value_byte line.now }
{
    line.iter().all(|b| is_value_byte(*b))
}

/// The command of a line that is not skipped, and the world after it.
fn command_line(
    alloc: Global,
    before: Option<World>,
    line: &[u8],
) -> Result<Option<(Option<Command>, Option<World>)>, NoMemory>
    ensures { IfOk result (λ found. found ≡ reading_spec.command_line before line.now) }
{
    let (dcs, shards) = sizes_of(&before);
    let Some(command) = command_of(alloc, dcs, shards, line)? else {
        return Ok(None);
    };
    let Some(after) = after_command(before, &command) else {
        return Ok(None);
    };
    Ok(Some((Some(command), Some(after))))
}

/// The command of a line, if it is not skipped, and the world after it; None where the line is outside the grammar.
#[tactic(auto, unfolding(crate::specs::Reading::line_of))]
pub(crate) fn line_of(
    alloc: Global,
    before: Option<World>,
    line: &[u8],
) -> Result<Option<(Option<Command>, Option<World>)>, NoMemory>
    ensures { IfOk result (λ found. found ≡ reading_spec.line_of before line.now) }
{
    if !is_skipped(line) {
        return command_line(alloc, before, line);
    }
    if !is_printable(line) {
        return Ok(None);
    }
    Ok(Some((None, before)))
}
