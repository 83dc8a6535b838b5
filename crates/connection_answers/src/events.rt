//! Telling events.

use crate::spelled::shown;
use crate::stop::Stop;
use crate::told::Told;
use h2_conn::Event;
use hpack_blocks::Field;
use std::alloc::{AllocError, Global};

/// Says whether the client has ended the stream.
fn ending(ended: bool) -> &'static str {
    if ended { "ended" } else { "on" }
}

/// Octets as they stand, or by their digits where they are no text.
fn text_of(alloc: Global, octets: &[u8]) -> Result<String, AllocError> {
    match std::str::from_utf8(octets) {
        Ok(text) => String::from_str(alloc, text),
        Err(_) => shown(alloc, octets),
    }
}

/// Tells header fields, a line each.
fn tell_fields<P: Print>(
    alloc: Global,
    told: &mut Told<'_, P>,
    fields: &[Field],
) -> Result<(), Stop> {
    for field in fields {
        let name = text_of(alloc, field.name.bytes())?;
        let value = text_of(alloc, field.value.bytes())?;
        told.line(format!(in alloc; "  {name}: {value}")?)?;
    }
    Ok(())
}

/// Tells an event: a line, and a further one for each field of a request.
pub(crate) fn tell<P: Print>(
    alloc: Global,
    told: &mut Told<'_, P>,
    event: &Event,
) -> Result<(), Stop> {
    let line = match event {
        Event::Opened {
            stream,
            fields,
            ended,
        } => {
            told.line(format!(in alloc; "opened {stream} {}", ending(*ended))?)?;
            return tell_fields(alloc, told, fields.fields());
        }
        Event::TooLarge { stream } => format!(in alloc; "too large {stream}")?,
        Event::Body {
            stream,
            bytes,
            ended,
        } => {
            let digits = shown(alloc, bytes.bytes())?;
            format!(in alloc; "body {stream} {} {digits}", ending(*ended))?
        }
        Event::Ended { stream } => format!(in alloc; "ended {stream}")?,
        Event::Reset { stream, code } => format!(in alloc; "reset {stream} code {code}")?,
        Event::Fault { code, rule } => format!(in alloc; "fault code {code} rule {rule}")?,
    };
    told.line(line)?;
    Ok(())
}
