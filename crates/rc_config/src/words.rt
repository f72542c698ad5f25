//! The words of a program.
ghost use Rattle.std.specs.Prelude.{◌≡◌, List, map, Err, IfOk, IfSome};
ghost use Rattle.std.specs.List.{AllByRecursion};
ghost use Rattle.std.specs.Option.{option_map};
ghost use Rattle.std.specs.Str.{bytes_eq, IsUtf8};
ghost use Rattle.rc_config.specs.declared.mode.Mode.{Mode};
ghost use Rattle.rc_config.specs.Checks as checks;
ghost use Rattle.rc_config.specs.Words.{IsWordsOf, GivesMode};

use crate::command_line::{logs_in, matches, numbers_in};
use crate::mode::{Mode, WordsFault};
use rc_ids::NoMemory;
use rc_ports::Word;
use rc_script::words::{behind, number_in};
use std::alloc::Global;

/// The words as texts, if each of them is one.
fn texts<'a>(alloc: Global, words: &'a [Word]) -> Result<Vec<&'a str>, WordsFault>
    ensures texts { IfOk result (λ texts. map (λ s. s.now) texts.items ≡ words.now) }
    ensures none { result ≡ Err WordsFault.BadWords → AllByRecursion IsUtf8 words.now → ⊥ }
{
    let mut texts = Vec::new(alloc);
    for word in words {
        let Ok(text) = std::str::from_utf8(word.as_bytes()) else {
            return Err(WordsFault::BadWords);
        };
        texts.push(text)?;
    }
    Ok(texts)
}

fn same(first: &[u8], second: &[u8]) -> bool
    ensures { result ≡ bytes_eq first.now second.now }
{
    first == second
}

/// Whether there is a first byte and it is no hyphen.
fn is_no_option(dir: &[u8]) -> bool
    ensures { result ≡ checks.is_no_option dir.now }
{
    match dir {
        [] => false,
        [first, ..] => *first != b'-',
    }
}

/// Whether the word is `--logs=` and the directory.
fn is_joined(word: &[u8], dir: &[u8]) -> bool
    ensures { result ≡ checks.is_joined word.now dir.now }
{
    match behind(b"--logs=", word) {
        None => false,
        Some(rest) => same(rest, dir),
    }
}

/// Whether the words are the option and the directory, and nothing else.
fn names_logs(words: &[Word], dir: &[u8]) -> bool
    ensures { result ≡ checks.names_logs words.now dir.now }
{
    match words {
        [word] => is_joined(word.as_bytes(), dir),
        [word, next] => same(word.as_bytes(), b"--logs") && same(next.as_bytes(), dir),
        _ => false,
    }
}

/// Whether the words are `generate` and the two numbers, and nothing else.
fn names_generate(words: &[Word], number: &[u8], size: &[u8]) -> bool
    ensures { result ≡ checks.names_generate words.now number.now size.now }
{
    match words {
        [word, first, second] => {
            same(word.as_bytes(), b"generate")
                && same(first.as_bytes(), number)
                && same(second.as_bytes(), size)
        }
        _ => false,
    }
}

/// The mode of no word.
fn plain_mode(words: &[Word]) -> Option<Mode>
    ensures exact { result ≡ checks.plain_mode words.now }
    ensures form { IfSome result (IsWordsOf words.now) }
{
    match words {
        [] => Some(Mode::Plain),
        _ => None,
    }
}

/// The mode of an option with a directory.
fn logs_mode(alloc: Global, words: &[Word], dir: &str) -> Result<Option<Mode>, NoMemory>
    ensures exact { IfOk result (λ found. found ≡ checks.logs_mode words.now dir.now) }
    ensures form { IfOk result (λ found. IfSome found (IsWordsOf words.now)) }
{
    if !is_no_option(dir.as_bytes()) || !names_logs(words, dir.as_bytes()) {
        return Ok(None);
    }
    Ok(Some(Mode::Logs(Word::new(alloc, dir.as_bytes())?)))
}

/// The mode of two numbers.
fn generate_mode(words: &[Word], number_word: &str, size_word: &str) -> Option<Mode>
    ensures exact { result ≡ checks.generate_mode words.now number_word.now size_word.now }
    ensures form { IfSome result (IsWordsOf words.now) }
{
    let number = number_in(0, 2_147_483_647, number_word.as_bytes())?;
    let size = number_in(1, 1_024, size_word.as_bytes())?;
    if !names_generate(words, number_word.as_bytes(), size_word.as_bytes()) {
        return None;
    }
    Some(Mode::Generate { number, size })
}

/// The mode of what was found, if the words are a form of it.
#[tactic(auto, unfolding(crate::specs::Checks::mode_found))]
fn mode_found(
    alloc: Global,
    words: &[Word],
    logs: Option<&str>,
    numbers: Option<(&str, &str)>,
) -> Result<Option<Mode>, NoMemory>
    ensures exact { IfOk result (λ found. found ≡ checks.mode_found words.now (option_map (λ s. s.now) logs.entry) (option_map (λ p. (p.0.now, p.1.now)) numbers.entry)) }
    ensures form { IfOk result (λ found. IfSome found (IsWordsOf words.now)) }
{
    match (logs, numbers) {
        (None, None) => Ok(plain_mode(words)),
        (Some(dir), None) => logs_mode(alloc, words, dir),
        (None, Some((number, size))) => Ok(generate_mode(words, number, size)),
        (Some(_), Some(_)) => Ok(None),
    }
}

/// What the words of a program ask for. The forms are no word; `--logs DIR` or `--logs=DIR`; and `generate NUMBER SIZE`.
/// DIR is text that does not begin with a hyphen, NUMBER a decimal number below 2^31, SIZE one from 1 to 1,024.
pub fn read_words(alloc: Global, words: &[Word]) -> Result<Mode, WordsFault>
    // What is read is a form of this mode.
    ensures found { IfOk result (IsWordsOf words.now) }

    // A form is read, unless memory runs out, so what is refused is none.
    ensures only { (mode : Mode) → IsWordsOf words.now mode → GivesMode mode result }
{
    let texts = texts(alloc, words)?;
    let matches = matches(alloc, texts.as_slice())?;
    match mode_found(alloc, words, logs_in(&matches), numbers_in(&matches))? {
        Some(mode) => Ok(mode),
        None => Err(WordsFault::BadWords),
    }
}
