//! The words as `clap` reads them.
ghost use Rattle.std.specs.Prelude.{◌≡◌, ◌≢◌, map, codes, true, Err, IfOk};
ghost use Rattle.std.specs.Option.{option_map};
ghost use Rattle.clap.specs.Words.{app_of, kind_of, first_of, matches_of, rows_of, found_of, subcommand_of, subcommand_rows_of, takes};
ghost use Rattle.rc_config.specs.Program as program_spec;

use crate::mode::WordsFault;
use clap::error::ErrorKind;
use clap::{Arg, ArgMatches, Command, Error};
use std::alloc::{AllocError, Global};

/// The program.
fn program<'a>(alloc: Global) -> Result<Command<'a>, AllocError>
    ensures { IfOk result (λ c. app_of c ≡ program_spec.program) }
{
    let logs = Arg::new(alloc, "logs").long("logs");
    let number = Arg::new(alloc, "number").required(true);
    let size = Arg::new(alloc, "size").required(true);
    let generate = Command::new(alloc, "generate").arg(number)?.arg(size)?;
    let plain = Command::new(alloc, "rc_play")
        .no_binary_name(true)
        .disable_help_flag(true)
        .disable_help_subcommand(true);
    plain.arg(logs)?.subcommand(generate)
}

/// Why `clap` took no words.
fn fault_of(error: &Error) -> WordsFault
    ensures { kind_of error.now ≡ ErrorKind.OutOfMemory → result ≡ WordsFault.NoMemory }
{
    match error.kind() {
        ErrorKind::OutOfMemory => WordsFault::NoMemory,
        _ => WordsFault::BadWords,
    }
}

/// What `clap` finds in the words.
pub(crate) fn matches<'a>(alloc: Global, words: &'a [&'a str]) -> Result<ArgMatches<'a>, WordsFault>
    ensures found { IfOk result (λ m. (rows_of (found_of m) ≡ matches_of program_spec.program (map (λ s. s.now) words.entry.now))
        × (subcommand_rows_of m ≡ subcommand_of program_spec.program (map (λ s. s.now) words.entry.now))) }
    ensures taken { takes program_spec.program (map (λ s. s.now) words.entry.now) ≡ true → result ≢ Err WordsFault.BadWords }
{
    match program(alloc)?.try_get_matches_from(words) {
        Ok(matches) => Ok(matches),
        Err(error) => Err(fault_of(&error)),
    }
}

/// The first word that stands for this argument.
fn text_in<'a>(matches: &ArgMatches<'a>, id: &str) -> Option<&'a str>
    ensures { option_map (λ s. s.now) result ≡ first_of id.now (rows_of (found_of matches.now)) }
{
    matches.get_str(id)
}

/// The directory behind `--logs`.
pub(crate) fn logs_in<'a>(matches: &ArgMatches<'a>) -> Option<&'a str>
    ensures { option_map (λ s. s.now) result ≡ first_of (codes "logs") (rows_of (found_of matches.now)) }
{
    text_in(matches, "logs")
}

/// The two words of `generate`.
fn pair_in<'a>(matches: &ArgMatches<'a>) -> Option<(&'a str, &'a str)>
    ensures { option_map (λ p. (p.0.now, p.1.now)) result ≡ program_spec.pair_in (rows_of (found_of matches.now)) }
{
    let number = text_in(matches, "number")?;
    let size = text_in(matches, "size")?;
    Some((number, size))
}

/// The two words behind `generate`.
pub(crate) fn numbers_in<'a>(matches: &ArgMatches<'a>) -> Option<(&'a str, &'a str)>
    ensures { option_map (λ p. (p.0.now, p.1.now)) result ≡ program_spec.numbers_in (subcommand_rows_of matches.now) }
{
    match matches.subcommand() {
        None => None,
        Some((_, inner)) => pair_in(inner),
    }
}
