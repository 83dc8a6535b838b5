//! The plain table and the engine, which are given the same.

ghost use Rattle.std.specs.Prelude.{◌≤ℤ◌};
ghost use Rattle.table_model.specs.declared.limits.TheConstants.{LATEST_READING};

use crate::asked::command_in;
use crate::columns::schema;
use crate::reading::{engine_reads, plain_reads};
use crate::stop::Stop;
use crate::told::{entries_text, reply_text};
use crate::words::{When, cut, number_in, when_in};
use std::alloc::Global;
use table_engine::{Engine, Key};
use table_model::{LATEST_READING, Plain, Reply, Sessions};

/// Both tables of a script.
#[derive(Drop)]
pub(crate) struct Tables {
    plain: Plain,
    engine: Engine,
}

/// What both tell, or where they differ.
fn one_of(alloc: Global, plain: String, engine: String) -> Result<String, Stop> {
    if plain.as_str() == engine.as_str() {
        return Ok(plain);
    }
    Ok(format!(in alloc; "plain table: {plain}; engine: {engine}")?)
}

/// A reply and the counts behind it.
fn counted(alloc: Global, reply: &Reply, entries: u64, visible: u64) -> Result<String, Stop> {
    let reply = reply_text(alloc, reply)?;
    Ok(format!(in alloc; "{reply}; entries {entries} visible {visible}")?)
}

/// What the plain table answers.
fn step_plain(alloc: Global, table: &mut Plain, when: When, text: &str) -> Result<String, Stop>
    requires { when.now ≤ℤ LATEST_READING }
{
    let command = command_in(alloc, table.schema(), text)?;
    let reply = table.step(alloc, when.caller, &command, when.now)?;
    let entries = table.entries().len() as u64;
    let visible = table.visible_by(alloc, LATEST_READING)?;
    counted(alloc, &reply, entries, visible)
}

/// What the engine answers.
fn step_engine(alloc: Global, table: &mut Engine, when: When, text: &str) -> Result<String, Stop>
    requires { when.now ≤ℤ LATEST_READING }
{
    let command = command_in(alloc, table.schema(), text)?;
    let reply = table.step(alloc, when.caller, command, when.now)?;
    counted(alloc, &reply, table.entries(), table.visible())
}

impl Tables {
    /// Both without an entry.
    pub(crate) fn begin(alloc: Global) -> Result<Tables, Stop> {
        Ok(Tables {
            plain: Plain::new(alloc, schema(alloc)?),
            engine: Engine::new(alloc, schema(alloc)?)?,
        })
    }

    /// Does what a line asks for: `WHEN read SESSION NODE OFFSET`, or `WHEN` and a command.
    pub(crate) fn act(&mut self, alloc: Global, text: &str) -> Result<String, Stop> {
        let (when, rest) = cut(text);
        let when = when_in(when)?;
        match rest.strip_prefix("read ") {
            Some(rest) => self.read(alloc, when.now, rest),
            None => self.step(alloc, when, rest),
        }
    }

    /// Answers a command.
    fn step(&mut self, alloc: Global, when: When, text: &str) -> Result<String, Stop> {
        if when.now > LATEST_READING {
            return Err(Stop::Unread);
        }
        let plain = step_plain(alloc, &mut self.plain, when, text)?;
        let engine = step_engine(alloc, &mut self.engine, when, text)?;
        one_of(alloc, plain, engine)
    }

    /// Reads a node of a session: what both tell of it, and its rows.
    fn read(&self, alloc: Global, now: i64, text: &str) -> Result<String, Stop> {
        let (session, rest) = cut(text);
        let (node, offset) = cut(rest);
        let key = Key {
            session: number_in(session)?,
            node: number_in(node)?,
        };
        let plain = plain_reads(alloc, &self.plain, key, now)?;
        let (engine, rows) = engine_reads(alloc, &self.engine, key, now, number_in(offset)?)?;
        let mut told = one_of(alloc, plain, engine)?;
        told.push_str(rows.as_str())?;
        Ok(told)
    }

    /// The entries of both.
    pub(crate) fn history(&self, alloc: Global) -> Result<String, Stop> {
        let plain = entries_text(alloc, self.plain.entries())?;
        let entries = self.engine.history(alloc)?;
        let engine = entries_text(alloc, entries.as_slice())?;
        one_of(alloc, plain, engine)
    }
}
