//! Tests of cuts in time, as values.
use ff_time::TimeCut;

#[test]
fn cuts(rt: HostRuntime) {
    let cut = TimeCut {
        start: 1_000_000_000_000_000,
        length: Some(0),
    };
    let open = TimeCut {
        start: 0,
        length: None,
    };
    assert_eq!(&rt; cut, cut);
    assert_ne!(&rt; cut, open);
}
