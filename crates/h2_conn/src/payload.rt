//! The payload of DATA on a live stream.

ghost use Rattle.std.specs.Prelude.{◌≡◌, ℕ, IfSome};
ghost use Rattle.std.specs.List.{AllByRecursion};
ghost use Rattle.h2_streams.specs.Book.{find, state_in};
ghost use Rattle.h2_streams.specs.declared.stream.StreamState.TheVariants as is;
ghost use Rattle.h2_conn.specs.Payload.{Pays};
ghost use Rattle.h2_conn.specs.Within.{IsNearInitial};

use h2_streams::Streams;

// Takes a payload from the receive window of a live stream, and ends the stream with it where it is the last; or tells
// that it is more than the window has.
pub(crate) fn pay(streams: &mut Streams, id: u32, end: bool, counted: u32) -> bool
    requires { state_in streams.old id ≡ is.Live }
    ensures pays { IfSome (find streams.old id) (Pays streams.old id end counted result streams.new) }
    ensures near { (initial : ℕ) → AllByRecursion (IsNearInitial initial) streams.old.live → AllByRecursion (IsNearInitial initial) streams.new.live }
    ensures last { streams.new.last ≡ streams.old.last }
{
    match streams.body(id, counted) {
        Ok(()) => {
            if end {
                streams.end(id);
                return true;
            }
            true
        }
        Err(_) => false,
    }
}
