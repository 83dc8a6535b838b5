//! What bounds the frames of a stream.

ghost use Rattle.std.specs.Prelude.{◌≡◌, ◌==◌, ◌++◌, option_to_list};
ghost use Rattle.std.specs.List.{list_any};
ghost use Rattle.h2_conn.specs.Producing.{is_credit_on, is_held_by, send_on};

use h2_answers::Limits;
use h2_record::Control;
use h2_streams::Streams;
use std::collections::VecDeque;

// WINDOW_UPDATE on the stream.
fn is_credit_on(control: &Control, id: u32) -> bool
    ensures { result ≡ is_credit_on id control.now }
{
    match control {
        Control::Credit { stream, .. } => *stream == id,
        _ => false,
    }
}

// A control frame of the stream waits.
fn waits_on(waiting: &VecDeque<Control>, id: u32) -> bool
    ensures { result ≡ is_held_by waiting.now.items id }
{
    waiting.iter().any(|control| is_credit_on(control, id))
}

// The same of the credit of the latest frame, where there is one.
fn is_latest_on(latest: &Option<Control>, id: u32) -> bool
    ensures { result ≡ is_held_by (option_to_list latest.now) id }
{
    match latest {
        Some(control) => is_credit_on(control, id),
        None => false,
    }
}

/// The streams of a connection, and the control frames that wait on it, the last of them beside the others.
#[derive(Drop)]
pub(crate) struct StreamBounds<'a> {
    pub(crate) streams: &'a Streams,
    pub(crate) control: &'a VecDeque<Control>,
    pub(crate) latest: Option<Control>,
}

impl<'a> Limits for StreamBounds<'a> {
    ghost use Rattle.std.specs.Prelude.{◌++◌, option_to_list};
    ghost use Rattle.h2_conn.specs.Producing.{is_held_by, send_on};

    ghost windows = { λ b. send_on b.streams.now };

    ghost holds = { λ b. is_held_by (b.control.now.items ++ option_to_list b.latest) };

    fn send_window(&self, id: u32) -> i64 {
        self.streams.window_of(id).unwrap_or(0)
    }

    fn is_held(&self, id: u32) -> bool {
        waits_on(self.control, id) || is_latest_on(&self.latest, id)
    }
}
