//! The lines of a script.

/// What a line asks for.
#[derive(Clone, Copy, Debug, PartialEq, Eq)]
pub(crate) enum Line<'a> {
    /// `# ..`, or an empty line.
    Comment,
    /// `= NAME`: a new connection.
    Begin,
    /// `< HEX`: the client's bytes.
    Bytes {
        times: u32,
        digits: &'a str,
    },
    /// `head ID`: the HEADERS that begin the answer of a call.
    Head {
        stream: u32,
    },
    /// `only ID CODE`: the answer of HTTP alone.
    Only {
        stream: u32,
        code: u16,
    },
    /// `reply ID HEX`: a reply, as it stands.
    Reply {
        stream: u32,
        times: u32,
        digits: &'a str,
    },
    /// `tail ID CODE TEXT`: the trailers of a call.
    Tail {
        stream: u32,
        code: u32,
        text: &'a str,
    },
    /// `abort ID CODE`: the caller's reset.
    Abort {
        stream: u32,
        code: u32,
    },
    /// `whole`: the latest frame made a request whole.
    Whole,
    /// `> ROOM`: all that may be written with this room for each frame.
    Produce {
        room: u32,
    },
    /// `room ID`: how many bytes may be given on a stream so that they can go at once.
    Room {
        stream: u32,
    },
    /// `waiting ID`: how many replies wait on a stream.
    Waiting {
        stream: u32,
    },
}

/// The first word of a text and what is behind its blank.
fn cut(text: &str) -> (&str, &str) {
    text.split_once(' ').unwrap_or((text, ""))
}

/// A number and what is behind its blank.
fn numbered(text: &str) -> Option<(u32, &str)> {
    let (number, rest) = cut(text);
    Some((number.parse::<u32>().ok()?, rest))
}

/// `N times TEXT`, or TEXT once.
fn repeated(text: &str) -> Option<(u32, &str)> {
    match text.split_once(" times ") {
        Some((count, rest)) => Some((count.parse::<u32>().ok()?, rest)),
        None => Some((1, text)),
    }
}

/// What is behind `<`.
fn bytes_line(rest: &str) -> Option<Line<'_>> {
    let (times, digits) = repeated(rest)?;
    Some(Line::Bytes { times, digits })
}

/// What is behind `only`.
fn only_line(rest: &str) -> Option<Line<'_>> {
    let (stream, code) = numbered(rest)?;
    let code = code.parse::<u16>().ok()?;
    Some(Line::Only { stream, code })
}

/// What is behind `reply`.
fn reply_line(rest: &str) -> Option<Line<'_>> {
    let (stream, rest) = numbered(rest)?;
    let (times, digits) = repeated(rest)?;
    Some(Line::Reply {
        stream,
        times,
        digits,
    })
}

/// What is behind `tail`.
fn tail_line(rest: &str) -> Option<Line<'_>> {
    let (stream, rest) = numbered(rest)?;
    let (code, text) = numbered(rest)?;
    Some(Line::Tail { stream, code, text })
}

/// What is behind `abort`.
fn abort_line(rest: &str) -> Option<Line<'_>> {
    let (stream, code) = numbered(rest)?;
    let code = code.parse::<u32>().ok()?;
    Some(Line::Abort { stream, code })
}

/// The line of a word and one number behind it.
fn short_line<'a>(word: &str, rest: &str) -> Option<Line<'a>> {
    let number = rest.parse::<u32>().ok()?;
    match word {
        "head" => Some(Line::Head { stream: number }),
        ">" => Some(Line::Produce { room: number }),
        "room" => Some(Line::Room { stream: number }),
        "waiting" => Some(Line::Waiting { stream: number }),
        _ => None,
    }
}

/// What a line asks for; none where it is no line of a script.
pub(crate) fn line_of(text: &str) -> Option<Line<'_>> {
    if text.is_empty() || text.starts_with('#') {
        return Some(Line::Comment);
    }
    let (word, rest) = cut(text);
    match word {
        "=" => Some(Line::Begin),
        "<" => bytes_line(rest),
        "only" => only_line(rest),
        "reply" => reply_line(rest),
        "tail" => tail_line(rest),
        "abort" => abort_line(rest),
        "whole" => Some(Line::Whole),
        _ => short_line(word, rest),
    }
}
