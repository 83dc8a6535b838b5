//! Each call once, with the numbers of RFC 9113 sections 6.9.1 and 6.9.2.

use h2_flow::*;

#[test]
fn a_send_window_falls_below_zero_and_recovers(rt: HostRuntime) {
    let mut window = Window::new(65_535);
    assert!(rt; window.value() == 65_535);
    window.spend(60_000);
    assert_eq!(rt; window.shift(16_384 - 65_535), Ok(()));
    assert_eq!(rt; window.value(), -43_616);
    assert_eq!(rt; window.grant(43_617), Ok(()));
    assert_eq!(rt; window.value(), 1);
}

#[test]
fn the_greatest_window_is_taken_and_one_more_is_refused(rt: HostRuntime) {
    let mut window = Window::new(65_535);
    assert_eq!(rt; window.grant(2_147_418_112), Ok(()));
    assert_eq!(rt; window.value(), 2_147_483_647);
    assert_eq!(rt;
        window.grant(1),
        Err(Overflow {
            value: 2_147_483_648
        })
    );
    assert_eq!(rt;
        window.credit(1),
        Err(Overflow {
            value: 2_147_483_648
        })
    );
    assert_eq!(rt; window.value(), 2_147_483_647);
}

#[test]
fn a_receive_window_is_used_up_and_credited(rt: HostRuntime) {
    let mut window = Window::new(65_535);
    assert_eq!(rt;
        window.receive(65_536),
        Err(Overrun {
            had: 65_535,
            asked: 65_536
        })
    );
    assert_eq!(rt; window.receive(65_535), Ok(()));
    assert_eq!(rt; window.value(), 0);
    assert_eq!(rt; window.credit(54), Ok(()));
    assert_eq!(rt; window.value(), 54);
}
