//! Words, and the numbers and names that they spell.
ghost use Rattle.std.specs.Prelude.{◌≡◌, ◌≤◌, ◌<◌, length, IfSome, IfOk, Some, None, ◌==◌, position};
ghost use Rattle.std.specs.Option.{option_map};
ghost use Rattle.rc_script.specs.Words.{cut_at, with_digit, with_digits, tx_of, dc_of, shard_of, node_of, key_of, val_of};
ghost use Rattle.rc_script.specs.Words as words;

use rc_ids::{DcId, Key, NoMemory, NodeId, ShardId, TextFault, TxId, Val};
use std::alloc::Global;

/// The place of the first such byte.
pub(crate) fn place_of(text: &[u8], byte: u8) -> Option<usize>
    ensures value { result ≡ position (λ b. b == byte) text.now }
    ensures within { IfSome result (λ at. at < length text.now) }
{
    text.iter().position(|b| *b == byte)
}

/// What stands before the first such byte, and what stands behind it, where there is one.
pub fn cut(text: &[u8], byte: u8) -> (&[u8], Option<&[u8]>)
    ensures { (result.0.now, option_map (λ x. x.now) result.1) ≡ words.cut byte text.now }
{
    match place_of(text, byte) {
        None => (text, None),
        Some(at) => (&text[..at], Some(&text[at + 1..])),
    }
}

/// What follows this text at the front.
pub fn behind<'a>(front: &[u8], text: &'a [u8]) -> Option<&'a [u8]>
    ensures { option_map (λ x. x.now) result ≡ words.text_after front.now text.now }
{
    text.strip_prefix(front)
}

/// The number with one more digit, where the byte is a digit and the limit is not passed.
fn with_one_digit(limit: u32, number: u32, byte: u8) -> Option<u32>
    ensures value { result ≡ with_digit limit number byte }
    ensures range { IfSome result (λ n. n ≤ limit) }
{
    if !byte.is_ascii_digit() {
        return None;
    }
    let longer = 10 * u64::from(number) + u64::from(byte - b'0');
    if longer > u64::from(limit) {
        return None;
    }
    Some(longer as u32)
}

/// The number that these digits spell, up to the limit.
fn with_all_digits(limit: u32, digits: &[u8]) -> Option<u32>
    ensures value { result ≡ with_digits limit 0 digits.now }
    ensures range { IfSome result (λ n. n ≤ limit) }
{
    let mut number = 0;
    for byte in digits {
        number = with_one_digit(limit, number, *byte)?;
    }
    Some(number)
}

/// The decimal number, without leading zeros and up to the limit, that the word spells.
fn number_up_to(limit: u32, word: &[u8]) -> Option<u32>
    ensures value { result ≡ words.number_up_to limit word.now }
    ensures range { IfSome result (λ n. n ≤ limit) }
{
    match word {
        [] => None,
        [_] => with_all_digits(limit, word),
        [first, _, ..] => {
            if *first == b'0' {
                return None;
            }
            with_all_digits(limit, word)
        }
    }
}

/// The decimal number in this range that the word spells.
pub fn number_in(low: u32, high: u32, word: &[u8]) -> Option<u32>
    ensures value { result ≡ words.number_in low high word.now }
    ensures range { IfSome result (λ n. (low ≤ n) × (n ≤ high)) }
{
    let number = number_up_to(high, word)?;
    if number < low {
        return None;
    }
    Some(number)
}

/// A small number in this range.
pub(crate) fn small_number_in(low: u8, high: u8, word: &[u8]) -> Option<u8>
    ensures { result ≡ words.number_in low high word.now }
{
    let number = number_in(u32::from(low), u32::from(high), word)?;
    Some(number as u8)
}

/// The number from 1 up to the limit that stands behind the letter.
fn named(letter: u8, limit: u32, word: &[u8]) -> Option<u32>
    ensures value { result ≡ words.named letter limit word.now }
    ensures range { IfSome result (λ n. (1 ≤ n) × (n ≤ limit)) }
{
    match word {
        [] => None,
        [first, number @ ..] => {
            if *first != letter {
                return None;
            }
            number_in(1, limit, number)
        }
    }
}

/// The transaction of this name.
pub(crate) fn tx(word: &[u8]) -> Option<TxId>
    ensures { result ≡ tx_of word.now }
{
    let number = named(b't', u32::MAX, word)?;
    Some(TxId(number))
}

/// The datacentre of this name, of a world of so many.
pub(crate) fn dc(dcs: u8, word: &[u8]) -> Option<DcId>
    requires { dcs ≤ 7 }
    ensures { result ≡ dc_of dcs word.now }
{
    let number = named(b'd', u32::from(dcs), word)?;
    Some(DcId(number as u8))
}

/// The shard of this name, of a world of so many.
fn shard(shards: u8, word: &[u8]) -> Option<ShardId>
    requires { shards ≤ 8 }
    ensures { result ≡ shard_of shards word.now }
{
    let number = named(b's', u32::from(shards), word)?;
    Some(ShardId(number as u8))
}

/// The node of this name, of a world of so many datacentres and shards.
pub fn node(dcs: u8, shards: u8, word: &[u8]) -> Option<NodeId>
    requires dcs { dcs ≤ 7 }
    requires shards { shards ≤ 8 }
    ensures { result ≡ node_of dcs shards word.now }
{
    let (dc_word, shard_word) = cut(word, b'.');
    let dc = dc(dcs, dc_word)?;
    match shard_word {
        None => Some(NodeId::Coord(dc)),
        Some(shard_word) => {
            let shard = shard(shards, shard_word)?;
            Some(NodeId::Shard(dc, shard))
        }
    }
}

/// The key of these bytes.
pub fn key(bytes: &[u8]) -> Option<Key>
    ensures { result ≡ key_of bytes.now }
{
    match Key::new(bytes) {
        Ok(key) => Some(key),
        Err(_) => None,
    }
}

/// The value of these bytes.
pub fn val(alloc: Global, bytes: &[u8]) -> Result<Option<Val>, NoMemory>
    ensures { IfOk result (λ found. found ≡ val_of bytes.now) }
{
    match Val::new(alloc, bytes) {
        Ok(val) => Ok(Some(val)),
        Err(TextFault::NoMemory) => Err(NoMemory),
        Err(_) => Ok(None),
    }
}
