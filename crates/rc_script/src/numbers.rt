//! Lists of numbers.
ghost use Rattle.std.specs.Prelude.{◌≡◌, IfOk};
ghost use Rattle.std.specs.Option.{option_map};
ghost use Rattle.rc_script.specs.Words as words_spec;

use crate::words::{cut, number_in, small_number_in};
use rc_ids::NoMemory;
use std::alloc::Global;

/// The numbers in this range that the words spell, one space between them.
pub(crate) fn numbers_of(
    alloc: Global,
    low: u32,
    high: u32,
    text: &[u8],
) -> Result<Option<Vec<u32>>, NoMemory>
    ensures { IfOk result (λ found. option_map (λ v. v.items) found ≡ words_spec.numbers_of low high text.now) }
{
    let mut numbers = Vec::new(alloc);
    let mut rest = Some(text);
    while let Some(words) = rest {
        let (word, others) = cut(words, b' ');
        let Some(number) = number_in(low, high, word) else {
            return Ok(None);
        };
        numbers.push(number)?;
        rest = others;
    }
    Ok(Some(numbers))
}

/// The same for small numbers.
pub(crate) fn small_numbers_of(
    alloc: Global,
    low: u8,
    high: u8,
    text: &[u8],
) -> Result<Option<Vec<u8>>, NoMemory>
    ensures { IfOk result (λ found. option_map (λ v. v.items) found ≡ words_spec.numbers_of low high text.now) }
{
    let mut numbers = Vec::new(alloc);
    let mut rest = Some(text);
    while let Some(words) = rest {
        let (word, others) = cut(words, b' ');
        let Some(number) = small_number_in(low, high, word) else {
            return Ok(None);
        };
        numbers.push(number)?;
        rest = others;
    }
    Ok(Some(numbers))
}
