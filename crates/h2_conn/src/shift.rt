//! Changes of the initial size of send windows.

ghost use Rattle.std.specs.Prelude.{◌≡◌, ◌==◌, ◌^◌, ◌<◌, ◌≤◌, ◌&&◌, is_some, None, false, pos, ◌-ℤ◌};
ghost use Rattle.std.specs.List.{list_any, AllByRecursion};
ghost use Rattle.h2_streams.specs.Shifts.{first_above, shifted};
ghost use Rattle.h2_record.specs.Windows.{initial_after};
ghost use Rattle.h2_record.specs.Rules.{pairs_code};
ghost use Rattle.h2_conn.specs.Shift.{is_too_large, ShiftsTo};
ghost use Rattle.h2_conn.specs.Within.{IsNearInitial};

use crate::early::INITIAL_WINDOW_SIZE;
use h2_frames::Pair;
use h2_streams::Streams;

// Whether a pair makes a send window pass the greatest.
fn is_too_large(streams: &Streams, initial: u32, pair: &Pair) -> bool
    ensures { result ≡ is_too_large streams.now initial pair.now }
{
    pair.id == INITIAL_WINDOW_SIZE && !streams.can_shift(i64::from(pair.value) - i64::from(initial))
}

// Whether one of the pairs does.
fn any_too_large(streams: &Streams, initial: u32, pairs: &[Pair]) -> bool
    ensures { result ≡ list_any (is_too_large streams.now initial) pairs.now }
{
    pairs
        .iter()
        .any(|pair| is_too_large(streams, initial, pair))
}

// The initial size that the pairs leave.
fn initial_after(initial: u32, pairs: &[Pair]) -> u32
    ensures { result ≡ initial_after initial pairs.now }
{
    let mut last = initial;
    for pair in pairs {
        if pair.id == INITIAL_WINDOW_SIZE {
            last = pair.value;
        }
    }
    last
}

// The change of an initial size.
fn change(initial: u32, last: u32) -> i64
    ensures { result ≡ pos last -ℤ pos initial }
{
    i64::from(last) - i64::from(initial)
}

// Shifts all send windows to another initial size, which makes none pass the greatest.
fn shift_to(streams: &mut Streams, initial: u32, last: u32)
    requires near { AllByRecursion (IsNearInitial initial) streams.old.live }
    requires small { initial < 2 ^ 31 }
    requires last { last < 2 ^ 31 }
    requires fits { is_some (first_above streams.old (pos last -ℤ pos initial)) ≡ false }
    ensures { streams.new ≡ shifted streams.old (pos last -ℤ pos initial) }
{
    let by = change(initial, last);
    match streams.shift_all(by) {
        Ok(()) => {}
        Err(_) => unreachable!(),
    }
}

// Shifts all send windows to the initial size that the pairs leave, and gives it; none is shifted, and nothing given,
// where a pair makes one pass the greatest.
pub(crate) fn shift(streams: &mut Streams, initial: u32, pairs: &[Pair]) -> Option<u32>
    requires near { AllByRecursion (IsNearInitial initial) streams.old.live }
    requires small { initial < 2 ^ 31 }
    requires good { pairs_code pairs.now ≡ None }
    ensures { ShiftsTo streams.old initial pairs.now result streams.new }
{
    if any_too_large(streams, initial, pairs) {
        return None;
    }
    let last = initial_after(initial, pairs);
    if last != initial {
        shift_to(streams, initial, last);
    }
    Some(last)
}
