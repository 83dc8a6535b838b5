//! Moments as the messages carry them.

ghost use Rattle.std.specs.Prelude.{◌≡◌};
ghost use Rattle.call_plans.specs.Moments.{timestamp};

use write_msgs::Timestamp;

/// A moment in microseconds since 1970-01-01, as whole seconds and the nanoseconds behind them.
pub(crate) fn timestamp(micros: i64) -> Timestamp
    ensures { result ≡ timestamp micros }
{
    Timestamp {
        seconds: micros.div_euclid(1_000_000),
        nanos: micros.rem_euclid(1_000_000) as i32 * 1_000,
    }
}
