//! Moments of snapshots.

ghost use Rattle.std.specs.Prelude.{◌≡◌, false, true, option_copied};
ghost use Rattle.call_plans.specs.Snapshots.{is_bad_time, is_time, micros_of};
ghost use Rattle.call_plans.specs.Sessions.{snapshot_in, time_in};

use call_plans::{FIRST_SECOND, LAST_NANO, LAST_SECOND};
use read_msgs::ReadSession;
use write_msgs::Timestamp;

/// The time of the snapshot that is asked for.
fn time_in(session: &ReadSession) -> Option<&Timestamp>
    ensures { option_copied result ≡ time_in session.now }
{
    match &session.table_modifiers {
        Some(modifiers) => modifiers.snapshot_time.as_ref(),
        None => None,
    }
}

fn is_time(time: &Timestamp) -> bool
    ensures { result ≡ is_time time.now }
{
    FIRST_SECOND <= time.seconds
        && time.seconds <= LAST_SECOND
        && 0 <= time.nanos
        && time.nanos <= LAST_NANO
}

/// Whether a snapshot is asked for at what is no time.
pub(crate) fn has_bad_time(session: &ReadSession) -> bool
    ensures { result ≡ is_bad_time (time_in session.now) }
{
    match time_in(session) {
        Some(time) => !is_time(time),
        None => false,
    }
}

/// In microseconds since 1970-01-01, rounded down.
fn micros_of(time: &Timestamp) -> i64
    requires { is_time time.now ≡ true }
    ensures { result ≡ micros_of time.now }
{
    time.seconds * 1_000_000 + i64::from(time.nanos.div_euclid(1_000))
}

/// The moment of the snapshot that is asked for, in microseconds since 1970-01-01.
pub(crate) fn snapshot_in(session: &ReadSession) -> Option<i64>
    requires { is_bad_time (time_in session.now) ≡ false }
    ensures { result ≡ snapshot_in session.now }
{
    match time_in(session) {
        Some(time) => Some(micros_of(time)),
        None => None,
    }
}
