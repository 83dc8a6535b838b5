//! The words of a line.

use crate::stop::Stop;
use table_model::{StreamKind, StreamRef};

/// The first word of a text and what is behind its blank.
pub(crate) fn cut(text: &str) -> (&str, &str) {
    text.split_once(' ').unwrap_or((text, ""))
}

/// A number.
pub(crate) fn number_in(word: &str) -> Result<u32, Stop> {
    word.parse::<u32>().or(Err(Stop::Unread))
}

/// A number that may be negative.
pub(crate) fn signed_in(word: &str) -> Result<i64, Stop> {
    word.parse::<i64>().or(Err(Stop::Unread))
}

/// A number, or `-` for none.
pub(crate) fn number_or_none(word: &str) -> Result<Option<i64>, Stop> {
    if word == "-" {
        return Ok(None);
    }
    Ok(Some(signed_in(word)?))
}

/// `default`, `other`, or the number of a stream.
pub(crate) fn stream_in(word: &str) -> Result<StreamRef, Stop> {
    match word {
        "default" => Ok(StreamRef::Default),
        "other" => Ok(StreamRef::Other),
        _ => Ok(StreamRef::Number(number_in(word)?)),
    }
}

/// `COMMITTED`, `PENDING` or `BUFFERED`.
pub(crate) fn kind_in(word: &str) -> Result<StreamKind, Stop> {
    match word {
        "COMMITTED" => Ok(StreamKind::Committed),
        "PENDING" => Ok(StreamKind::Pending),
        "BUFFERED" => Ok(StreamKind::Buffered),
        _ => Err(Stop::Unread),
    }
}

/// Who gives a command, and what the clock reads then, in microseconds since 1970-01-01.
#[derive(Clone, Copy, Debug, PartialEq, Eq)]
pub(crate) struct When {
    pub(crate) now: i64,
    pub(crate) caller: u32,
}

/// `NOW`, or `NOW@CALLER`; caller 0 is the one where none is told.
pub(crate) fn when_in(word: &str) -> Result<When, Stop> {
    let (now, caller) = match word.split_once('@') {
        Some((now, caller)) => (signed_in(now)?, number_in(caller)?),
        None => (signed_in(word)?, 0),
    };
    Ok(When { now, caller })
}
