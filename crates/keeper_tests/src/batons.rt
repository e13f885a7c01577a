// Batons of streams.
use baton_store::{BatonStore, Redeem, limits_are};
use hrana_value::StreamNo;
use std::process::Abort;
use std::test::Fail;

// The URL-safe base64 of the first number and of two words: eight bytes that rise from one, and eight that fall from 255.
const FIRST: &str = "AAAAAAAAAAEBAgMEBQYHCP_-_fz7-vn4";

// That of the second number and of two words that are zero.
const SECOND: &str = "AAAAAAAAAAIAAAAAAAAAAAAAAAAAAAAA";

fn are_redeemed(rt: &impl Abort, store: &mut BatonStore, cases: &[(&str, u64, Redeem)]) {
    for (text, now, answer) in cases {
        let redeemed = store.redeem(text, *now) == *answer;
        assert!(rt; redeemed, "{text} at {now}");
    }
}

fn are_due(rt: &impl Abort, store: &BatonStore, cases: &[(u64, Option<StreamNo>)]) {
    for (now, due) in cases {
        assert!(rt; store.due(*now) == *due, "at {now}");
    }
}

#[test]
fn a_baton_is_accepted_once_and_within_its_life(rt: HostRuntime) -> Result<(), Fail> {
    limits_are();
    let mut store = BatonStore::new(rt.alloc())?;
    store.reserve_stream(StreamNo(7))?;
    let words = [0x0102_0304_0506_0708, 0xFFFE_FDFC_FBFA_F9F8];
    let first = store.issue(StreamNo(7), words, 0);
    assert_eq!(rt; first.text.as_slice(), FIRST.as_bytes());
    let Redeem::Live(stream) = store.redeem(FIRST, 0) else {
        return Err(Fail::new("the first baton is dead"));
    };
    let second = store.issue(stream, [0, 0], 1000);
    assert_eq!(rt; second.text.as_slice(), SECOND.as_bytes());
    let cases = [
        (FIRST, 1000, Redeem::Dead),
        ("", 1000, Redeem::Dead),
        ("AAAAAAAAAAIAAAAAAAAAAAAAAAAAAAAB", 1000, Redeem::Dead),
        ("AAAAAAAAAAIAAAAAAAAAAAAAAAAAAAAA=", 1000, Redeem::Dead),
        ("AAAAAAAAAAI=AAAAAAAAAAAAAAAAAAAA", 1000, Redeem::Dead),
        (SECOND, 11_000, Redeem::Dead),
        (SECOND, 10_999, Redeem::Live(StreamNo(7))),
        (SECOND, 10_999, Redeem::Dead),
    ];
    are_redeemed(&rt, &mut store, &cases);
    Ok(())
}

#[test]
fn the_lowest_stream_is_due_first(rt: HostRuntime) -> Result<(), Fail> {
    let mut store = BatonStore::new(rt.alloc())?;
    store.reserve_stream(StreamNo(5))?;
    store.reserve_stream(StreamNo(3))?;
    store.reserve_stream(StreamNo(2))?;
    let _five = store.issue(StreamNo(5), [0, 0], 0);
    let _three = store.issue(StreamNo(3), [0, 0], 1);
    let cases = [
        (9_999, None),
        (10_000, Some(StreamNo(5))),
        (10_001, Some(StreamNo(3))),
        (u64::MAX, Some(StreamNo(3))),
    ];
    are_due(&rt, &store, &cases);
    // Its moment is below that of the baton before.
    let _two = store.issue(StreamNo(2), [0, 0], 0);
    assert_eq!(rt; store.due(10_000), Some(StreamNo(2)));
    store.forget(StreamNo(2));
    assert_eq!(rt; store.due(10_000), Some(StreamNo(5)));
    assert_eq!(rt;
        store.redeem("AAAAAAAAAAMAAAAAAAAAAAAAAAAAAAAA", 0),
        Redeem::Dead
    );
    Ok(())
}
