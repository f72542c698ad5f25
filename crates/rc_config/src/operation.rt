//! The operations of a client.
ghost use Rattle.std.specs.Prelude.{◌≡◌, IfOk};
ghost use Rattle.std.specs.Option.{option_map};
ghost use Rattle.std.specs.Str.{bytes_eq};
ghost use Rattle.rc_ids.specs.Texts.{gone};
ghost use Rattle.rc_script.specs.Words.{key_of};
ghost use Rattle.rc_config.specs.Plans as plans;

use rc_ids::{Key, NoMemory, Val};
use rc_script::words::{cut, key, val};
use std::alloc::Global;
use std::marker::Model;

/// What a client does next.
#[derive(Debug, Drop)]
pub enum Operation {
    /// It asks every datacentre for the key.
    Read(Key),
    /// It buffers the value, or the deletion where the value is gone.
    Write(Key, Val),
    /// It drops a read of the key that is under way.
    Cancel(Key),
    /// It proposes.
    Commit,
    /// It is gone.
    Vanish,
}

/// The operations of a client, in order.
#[derive(Debug, Drop)]
pub struct Operations {
    items: Vec<Operation>,
}

impl Model for Operations {
    ghost use Rattle.std.specs.Prelude.{List};
    ghost use Rattle.rc_config.specs.declared.operation.Operation.{Operation};

    ghost Value = { List Operation };

    ghost view = { λ o. o.items.items };
}

impl Operations {
    /// These operations.
    pub fn new(items: Vec<Operation>) -> Self
        ensures { result ≡ items.items }
    {
        Operations { items }
    }

    /// The operations, in order.
    pub fn as_slice(&self) -> &[Operation]
        ensures { result.now ≡ self.now }
    {
        self.items.as_slice()
    }
}

/// Whether the word is this name.
fn is_named(word: &[u8], name: &[u8]) -> bool
    ensures { result ≡ bytes_eq word.now name.now }
{
    word == name
}

/// A key, and behind it a value.
fn write_of(alloc: Global, words: &[u8]) -> Result<Option<Operation>, NoMemory>
    ensures { IfOk result (λ found. found ≡ plans.write_operation words.now) }
{
    let (key_word, text) = cut(words, b' ');
    let Some(key) = key(key_word) else {
        return Ok(None);
    };
    let Some(val) = val(alloc, text.unwrap_or(&[]))? else {
        return Ok(None);
    };
    Ok(Some(Operation::Write(key, val)))
}

/// A deletion of the key.
fn delete_of(alloc: Global, word: &[u8]) -> Result<Option<Operation>, NoMemory>
    ensures { IfOk result (λ found. found ≡ option_map (λ k. Operation.Write k gone) (key_of word.now)) }
{
    let Some(key) = key(word) else {
        return Ok(None);
    };
    Ok(Some(Operation::Write(key, Val::gone(alloc)?)))
}

/// An operation of one word.
fn bare_operation(word: &[u8]) -> Option<Operation>
    ensures { result ≡ plans.bare_operation word.now }
{
    if is_named(word, b"commit") {
        Some(Operation::Commit)
    } else if is_named(word, b"vanish") {
        Some(Operation::Vanish)
    } else {
        None
    }
}

/// An operation with words behind the first.
fn operation_with(alloc: Global, word: &[u8], words: &[u8]) -> Result<Option<Operation>, NoMemory>
    ensures { IfOk result (λ found. found ≡ plans.operation_with word.now words.now) }
{
    if is_named(word, b"read") {
        Ok(key(words).map(Operation::Read))
    } else if is_named(word, b"write") {
        write_of(alloc, words)
    } else if is_named(word, b"delete") {
        delete_of(alloc, words)
    } else if is_named(word, b"cancel") {
        Ok(key(words).map(Operation::Cancel))
    } else {
        Ok(None)
    }
}

/// The operation that the text spells, with the forms of the script.
#[tactic(auto, unfolding(crate::specs::Plans::operation_of))]
pub(crate) fn operation_of(alloc: Global, text: &[u8]) -> Result<Option<Operation>, NoMemory>
    ensures { IfOk result (λ found. found ≡ plans.operation_of text.now) }
{
    let (word, others) = cut(text, b' ');
    match others {
        None => Ok(bare_operation(word)),
        Some(words) => operation_with(alloc, word, words),
    }
}
