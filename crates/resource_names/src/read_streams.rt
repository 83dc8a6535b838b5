//! The names of read sessions and their streams.

ghost use Rattle.std.specs.Prelude.{◌≡◌, ◌&&◌, if◌then◌else◌, map, IfOk};
ghost use Rattle.resource_names.specs.Reads.{Reads};
ghost use Rattle.resource_names.specs.Read.{place_behind, place_by, place_in, place_of, read_in, read_name_of, read_text, session_text};

use crate::faults::NameFault;
use crate::numbers::number_of;
use crate::parts::{MAX_NAME_BYTES, is_named, parts_of};
use outside::{Memory, Text};
use std::alloc::Global;

/// The location of every session that the server makes.
pub const LOCATION: &str = "local";

/// The name of a read stream: `projects/P/locations/L/sessions/S/streams/N`.
#[derive(Drop)]
pub struct ReadName {
    pub project: Text,
    pub location: Text,
    pub session: Text,
    pub stream: Text,
}

/// A node of a session.
#[derive(Clone, Copy, Debug, PartialEq, Eq)]
pub struct ReadPlace {
    /// The place of the table among those of the server, from 0.
    pub table: u32,
    /// The number of the session in its table, from 1.
    pub session: u32,
    /// The number of the node in its session, from 0.
    pub node: u32,
}

fn all_of_four(a: bool, b: bool, c: bool, d: bool) -> bool
    ensures { result ≡ (a && b && c && d) }
{
    a && b && c && d
}

/// The read stream of these parts, where words name them.
fn read_name(
    alloc: Global,
    is_named: bool,
    project: &str,
    location: &str,
    session: &str,
    stream: &str,
) -> Result<ReadName, NameFault>
    ensures { Reads (if is_named then Some (record { project = project.now; location = location.now; session = session.now; stream = stream.now }) else None) result }
{
    if !is_named {
        return Err(NameFault::BadName);
    }
    Ok(ReadName {
        project: Text::of(alloc, project)?,
        location: Text::of(alloc, location)?,
        session: Text::of(alloc, session)?,
        stream: Text::of(alloc, stream)?,
    })
}

/// The read stream that the words and parts of a text name.
fn read_in(alloc: Global, parts: &[&str]) -> Result<ReadName, NameFault>
    ensures { Reads (read_in (map (λ p. p.now) parts.now)) result }
{
    match parts {
        [
            projects,
            project,
            locations,
            location,
            sessions,
            session,
            streams,
            stream,
        ] => {
            let is_named = all_of_four(
                is_named("projects", projects, project),
                is_named("locations", locations, location),
                is_named("sessions", sessions, session),
                is_named("streams", streams, stream),
            );
            read_name(alloc, is_named, project, location, session, stream)
        }
        _ => Err(NameFault::BadName),
    }
}

fn place_by(table: Option<u32>, session: Option<u32>, node: Option<u32>) -> Option<ReadPlace>
    ensures { result ≡ place_by table session node }
{
    match (table, session, node) {
        (Some(table), Some(session), Some(node)) if session != 0 => Some(ReadPlace {
            table,
            session,
            node,
        }),
        _ => None,
    }
}

/// The node that the numbers of a session, with a dash between them, and the id of its stream name.
fn place_behind(numbers: &str, stream: &str) -> Option<ReadPlace>
    ensures { result ≡ place_behind numbers.now stream.now }
{
    match numbers.split_once('-') {
        Some((table, session)) => {
            place_by(number_of(table), number_of(session), number_of(stream))
        }
        None => None,
    }
}

/// The node that the ids of a session and of its stream name.
fn place_in(session: &str, stream: &str) -> Option<ReadPlace>
    ensures { result ≡ place_in session.now stream.now }
{
    match session.strip_prefix('t') {
        Some(numbers) => place_behind(numbers, stream),
        None => None,
    }
}

impl ReadName {
    /// Reads the name of a read stream; `BadName` exactly where the text is none.
    pub fn parse(alloc: Global, text: &str) -> Result<ReadName, NameFault>
        ensures { Reads (read_name_of text.now) result }
    {
        if text.len() > MAX_NAME_BYTES {
            return Err(NameFault::BadName);
        }
        let parts = parts_of(alloc, text)?;
        read_in(alloc, parts.as_slice())
    }

    /// The node that the name can be, whatever its project is: its location is [`LOCATION`], its session `tI-N`, with
    /// the place I of the table and the number N of the session, and its stream the number of the node. Numbers are in
    /// decimal without leading zeros. Where it is none, the stream is nowhere.
    #[tactic(auto, unfolding(crate::specs::Read::place_of))]
    pub fn place(&self) -> Option<ReadPlace>
        ensures { result ≡ place_of self.now }
    {
        if self.location.text() == LOCATION {
            place_in(self.session.text(), self.stream.text())
        } else {
            None
        }
    }
}

/// The name of a session of the table at this place.
pub fn session_text(alloc: Global, project: &str, place: u32, session: u32) -> Result<Text, Memory>
    ensures { IfOk result (λ text. text ≡ session_text project.now place session) }
{
    let text = format!(in alloc;
        "projects/{project}/locations/{LOCATION}/sessions/t{place}-{session}"
    )?;
    Ok(Text::from_string(text))
}

/// The name of a node of a session of the table at this place.
pub fn read_text(
    alloc: Global,
    project: &str,
    place: u32,
    session: u32,
    node: u32,
) -> Result<Text, Memory>
    ensures { IfOk result (λ text. text ≡ read_text project.now place session node) }
{
    let session = session_text(alloc, project, place, session)?;
    let text = format!(in alloc; "{}/streams/{node}", session.text())?;
    Ok(Text::from_string(text))
}
