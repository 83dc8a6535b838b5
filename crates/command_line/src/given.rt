//! The words behind a command, read by the kit's parser of command lines.

ghost use Rattle.std.specs.Prelude.{◌≡◌, ◌++◌, ◌∷◌, [], IfOk, false, map, string_bytes};
ghost use Rattle.std.specs.List.{list_all};
ghost use Rattle.clap.specs.Words.{app_of, rule_of};
ghost use Rattle.command_line.specs.Given.{is_value};
ghost use Rattle.command_line.specs.Steps.{IsShown, app_with, bare_rule, is_joined, is_plain, option_rule, rules_of, texts_in};
ghost use Rattle.command_line.specs.Reads.{Reads};

use crate::commands::{Command, is_option};
use crate::line::LineFault;
use clap::error::ErrorKind;
use clap::{Arg, ArgAction, ArgMatches};
use std::alloc::{AllocError, Global};

/// Whether a text can be the value behind `--name`, or a bare word: it has a byte, and does not begin with `-`.
fn is_value(text: &str) -> bool
    ensures { result ≡ is_value text.now }
{
    match text.as_bytes() {
        [] => false,
        [first, ..] => *first != b'-',
    }
}

/// Whether a word is `--name=value` of an option of the command, with a value.
fn is_joined(command: Command, word: &str) -> bool
    ensures { result ≡ is_joined command word.now }
{
    match word.split_once('=') {
        Some((name, value)) => is_option(command, name) && !value.is_empty(),
        None => false,
    }
}

/// Whether the parser may see a word. It takes more than the program does: `--`, short options and empty values.
fn is_plain(command: Command, word: &str) -> bool
    ensures { result ≡ is_plain command word.now }
{
    is_option(command, word) || is_value(word) || is_joined(command, word)
}

fn are_plain(command: Command, words: &[String]) -> bool
    ensures { result ≡ list_all (λ word. is_plain command (string_bytes word)) words.now }
{
    words.iter().all(|word| is_plain(command, word.as_str()))
}

/// `--name VALUE`, any number of times.
fn option<'a>(alloc: Global, name: &'a str) -> Arg<'a>
    ensures rule { rule_of result ≡ option_rule name.entry.now }
    ensures local { result.global ≡ false }
{
    Arg::new(alloc, name).long(name).action(ArgAction::Append)
}

/// Bare words, any number of them.
fn bare_words<'a>(alloc: Global) -> Arg<'a>
    ensures rule { rule_of result ≡ bare_rule }
    ensures local { result.global ≡ false }
{
    Arg::new(alloc, "n").action(ArgAction::Append)
}

/// A parser without arguments, help and version.
fn flat_parser<'a>(alloc: Global) -> clap::Command<'a>
    ensures { app_of result ≡ app_with [] }
{
    clap::Command::new(alloc, "bqstored")
        .no_binary_name(true)
        .disable_help_flag(true)
        .disable_help_subcommand(true)
        .disable_version_flag(true)
}

/// The parser of the words behind a command.
fn parser_of<'a>(alloc: Global, command: Command) -> Result<clap::Command<'a>, AllocError>
    ensures { IfOk result (λ parser. app_of parser ≡ app_with (rules_of command)) }
{
    let parser = flat_parser(alloc);
    match command {
        Command::Body | Command::Pipe => parser.arg(option(alloc, "table")),
        Command::Serve => parser
            .arg(option(alloc, "table"))?
            .arg(option(alloc, "listen"))?
            .arg(option(alloc, "workers"))?
            .arg(option(alloc, "connections")),
        Command::Drill => parser.arg(bare_words(alloc)),
    }
}

/// Reads the words behind a command.
pub(crate) fn matches_of<'a>(
    alloc: Global,
    command: Command,
    words: &'a [String],
) -> Result<ArgMatches<'a>, LineFault>
    ensures { Reads texts_in (IsShown command (map string_bytes words.now)) result }
{
    if !are_plain(command, words) {
        return Err(LineFault::Usage);
    }
    match parser_of(alloc, command)?.try_get_matches_from(words) {
        Ok(matches) => Ok(matches),
        Err(fault) => match fault.kind() {
            ErrorKind::OutOfMemory => Err(LineFault::Memory),
            _ => Err(LineFault::Usage),
        },
    }
}

/// The values of an option, or the bare words by `n`, in the order of the words.
pub(crate) fn values_of<'m, 'a>(matches: &'m ArgMatches<'a>, id: &str) -> &'m [&'a str]
    ensures { map (λ value. value.now) result.now ≡ texts_in matches.now id.now }
{
    matches.get_strs(id).unwrap_or_default()
}
