//! Two streams, call by call.

use h2_streams::*;
use std::test::Fail;

#[test]
fn ids_are_odd(rt: HostRuntime) {
    let mut streams = Streams::new(rt.alloc());
    assert_eq!(rt; streams.state_of(1), StreamState::Idle);
    let refusal = streams.begin(rt.alloc(), 2, 65_535, false).err();
    assert_eq!(rt; refusal, Some(BeginRefusal::NotOdd));
}

#[test]
fn ids_rise(rt: HostRuntime) -> Result<(), Fail> {
    let mut streams = Streams::new(rt.alloc());
    streams.begin(rt.alloc(), 5, 65_535, false)?;
    let refusal = streams.begin(rt.alloc(), 3, 65_535, false).err();
    assert_eq!(rt; refusal, Some(BeginRefusal::NotRising { last: 5 }));
    assert_eq!(rt; streams.state_of(5), StreamState::Live);
    let reset_by_server = false;
    assert_eq!(rt;
        streams.state_of(3),
        StreamState::Closed { reset_by_server }
    );
    Ok(())
}

#[test]
fn a_send_window_falls_below_zero_and_recovers(rt: HostRuntime) -> Result<(), Fail> {
    let mut streams = Streams::new(rt.alloc());
    streams.begin(rt.alloc(), 1, 65_535, false)?;
    streams.spend(1, 60_000);
    assert_eq!(rt; streams.shift_all(16_384 - 65_535), Ok(()));
    assert_eq!(rt; streams.send_of(1), -43_616);
    assert_eq!(rt; streams.grant(1, 43_617), Ok(()));
    assert_eq!(rt; streams.send_of(1), 1);
    Ok(())
}

#[test]
fn a_stream_ends_from_both_sides(rt: HostRuntime) -> Result<(), Fail> {
    let mut streams = Streams::new(rt.alloc());
    streams.begin(rt.alloc(), 1, 65_535, false)?;
    streams.end(1);
    assert_eq!(rt; streams.state_of(1), StreamState::Ended);
    streams.answered(1);
    let reset_by_server = false;
    assert_eq!(rt;
        streams.state_of(1),
        StreamState::Closed { reset_by_server }
    );
    Ok(())
}

#[test]
fn a_receive_window_is_used_up_and_credited(rt: HostRuntime) -> Result<(), Fail> {
    let mut streams = Streams::new(rt.alloc());
    streams.begin(rt.alloc(), 1, 65_535, false)?;
    assert_eq!(rt; streams.body(1, 65_535), Ok(()));
    assert_eq!(rt; streams.credit(1, 9), Ok(()));
    let overrun = BodyRefusal::Overrun { had: 9, asked: 10 };
    assert_eq!(rt; streams.body(1, 10), Err(overrun));
    Ok(())
}

#[test]
fn a_reset_is_remembered(rt: HostRuntime) -> Result<(), Fail> {
    let mut streams = Streams::new(rt.alloc());
    streams.begin(rt.alloc(), 1, 65_535, false)?;
    streams.reset(1, true);
    let reset_by_server = true;
    assert_eq!(rt;
        streams.state_of(1),
        StreamState::Closed { reset_by_server }
    );
    assert_eq!(rt; streams.body(1, 1), Err(BodyRefusal::Closed));
    Ok(())
}
