//! From the values found to a command line.

ghost use Rattle.std.specs.Prelude.{◌≡◌, ℕ, List, [], ◌∷◌, map, string_bytes};
ghost use Rattle.command_line.specs.declared.line.CommandLine.{CommandLine};
ghost use Rattle.command_line.specs.Line.{IsLine, IsBehind};
ghost use Rattle.command_line.specs.Reads.{Reads};
ghost use Rattle.command_line.specs.Steps.{IsOneAddress, IsOneNumber, TakesValuesAs, texts_in};

use crate::commands::{Command, command_named};
use crate::given::{matches_of, values_of};
use crate::line::{CommandLine, LineFault};
use crate::numbers::{is_address, number_of};
use crate::tables::{TableSpecs, spec_of, tables_of};
use clap::ArgMatches;
use outside::Text;
use std::alloc::Global;

/// The most workers of `serve`.
const MAX_WORKERS: u32 = 32;

/// The most connections of one run of `serve`.
const MAX_CONNECTIONS: u32 = 65_536;

/// The greatest N of `drill`.
const MAX_DRILL: u32 = 10_000;

/// The value of an option that is given exactly once.
fn only_value<'a>(values: &[&'a str]) -> Result<&'a str, LineFault>
    ensures { Reads (λ text. text.now) (λ text. map (λ value. value.now) values.now ≡ text ∷ []) result }
{
    match values {
        [value] => Ok(*value),
        _ => Err(LineFault::Usage),
    }
}

/// The number of an option that is given exactly once.
fn only_number(values: &[&str], most: u32) -> Result<u32, LineFault>
    ensures { Reads (λ n. n) (IsOneNumber most (map (λ value. value.now) values.now)) result }
{
    let text = only_value(values)?;
    number_of(text, 1, most).ok_or(LineFault::Usage)
}

/// The address to listen at.
fn only_address(alloc: Global, values: &[&str]) -> Result<Text, LineFault>
    ensures { Reads (λ text. text) (IsOneAddress (map (λ value. value.now) values.now)) result }
{
    let text = only_value(values)?;
    if is_address(alloc, text)? {
        Ok(Text::of(alloc, text)?)
    } else {
        Err(LineFault::Usage)
    }
}

fn body_line(alloc: Global, matches: &ArgMatches) -> Result<CommandLine, LineFault>
    ensures { Reads (λ line. line) (TakesValuesAs Command.Body (texts_in matches.now)) result }
{
    match values_of(matches, "table") {
        [] => Ok(CommandLine::Body { table: None }),
        [text] => Ok(CommandLine::Body {
            table: Some(spec_of(alloc, text)?),
        }),
        _ => Err(LineFault::Usage),
    }
}

fn pipe_line(alloc: Global, matches: &ArgMatches) -> Result<CommandLine, LineFault>
    ensures { Reads (λ line. line) (TakesValuesAs Command.Pipe (texts_in matches.now)) result }
{
    Ok(CommandLine::Pipe {
        tables: tables_of(alloc, values_of(matches, "table"))?,
    })
}

fn serve_line(alloc: Global, matches: &ArgMatches) -> Result<CommandLine, LineFault>
    ensures { Reads (λ line. line) (TakesValuesAs Command.Serve (texts_in matches.now)) result }
{
    let listen = only_address(alloc, values_of(matches, "listen"))?;
    let workers = only_number(values_of(matches, "workers"), MAX_WORKERS)?;
    let connections = only_number(values_of(matches, "connections"), MAX_CONNECTIONS)?;
    let tables = tables_of(alloc, values_of(matches, "table"))?;
    Ok(CommandLine::Serve {
        listen,
        workers,
        connections,
        tables,
    })
}

fn drill_line(matches: &ArgMatches) -> Result<CommandLine, LineFault>
    ensures { Reads (λ line. line) (TakesValuesAs Command.Drill (texts_in matches.now)) result }
{
    Ok(CommandLine::Drill {
        n: only_number(values_of(matches, "n"), MAX_DRILL)?,
    })
}

/// The line of a command with what was found behind it.
fn line_of(alloc: Global, command: Command, matches: &ArgMatches) -> Result<CommandLine, LineFault>
    ensures { Reads (λ line. line) (TakesValuesAs command (texts_in matches.now)) result }
{
    match command {
        Command::Body => body_line(alloc, matches),
        Command::Pipe => pipe_line(alloc, matches),
        Command::Serve => serve_line(alloc, matches),
        Command::Drill => drill_line(matches),
    }
}

/// The line of a command with the words behind it.
fn line_behind(alloc: Global, command: Command, words: &[String]) -> Result<CommandLine, LineFault>
    ensures { Reads (λ line. line) (IsBehind command (map string_bytes words.now)) result }
{
    let matches = matches_of(alloc, command, words)?;
    line_of(alloc, command, &matches)
}

/// Reads the words behind the program's name.
///
/// The answer is Ok exactly where the words are a command line, and then it is that one; it is
/// [`LineFault::Usage`] exactly where they are none. Want of memory may come in place of either.
pub fn command_of(alloc: Global, words: &[String]) -> Result<CommandLine, LineFault>
    ensures { Reads (λ line. line) (IsLine (map string_bytes words.now)) result }
{
    let Some((first, behind)) = words.split_first() else {
        return Err(LineFault::Usage);
    };
    match command_named(first.as_str()) {
        Some(command) => line_behind(alloc, command, behind),
        None => Err(LineFault::Usage),
    }
}

/// The law of command lines. It does nothing when it runs.
///
/// The same words are at most one command line.
pub fn one_line()
    ensures { (words : List (List ℕ)) (a b : CommandLine) → IsLine words a → IsLine words b → a ≡ b }
{}
