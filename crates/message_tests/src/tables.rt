// Tables of texts, with what is told of each.
use hrana_value::{Decline, ReadFail, Txt};
use std::alloc::Global;
use std::process::Abort;

/// A kind of text: what is read of one is told as a text again.
pub trait Told<E> {
    fn told(alloc: Global, text: &str) -> Result<Txt, E>;
}

/// A failure by which a text is declined.
pub trait Declines {
    fn declined(decline: Decline) -> Self;
}

impl Declines for ReadFail {
    fn declined(decline: Decline) -> ReadFail {
        ReadFail::Declined(decline)
    }
}

fn is_told<E: Drop, T: Told<E>>(alloc: Global, text: &str, want: &str) -> bool {
    match T::told(alloc, text) {
        Ok(told) => told.as_str() == want,
        Err(_) => false,
    }
}

fn is_refused<E: PartialEq + Drop, T: Told<E>>(alloc: Global, text: &str, want: &E) -> bool {
    match T::told(alloc, text) {
        Ok(_) => false,
        Err(fail) => fail == *want,
    }
}

/// Each text is told as it is.
pub fn come_back<E: Drop, T: Told<E>>(rt: &impl Abort, alloc: Global, texts: &[&str]) {
    for text in texts {
        assert!(rt; is_told::<E, T>(alloc, text, text), "at {text}");
    }
}

/// Each text is told as the text beside it.
pub fn are_told<E: Drop, T: Told<E>>(rt: &impl Abort, alloc: Global, cases: &[(&str, &str)]) {
    for (text, want) in cases {
        assert!(rt; is_told::<E, T>(alloc, text, want), "at {text}");
    }
}

/// Each text fails as it says beside it.
pub fn are_refused<E: PartialEq + Drop, T: Told<E>>(
    rt: &impl Abort,
    alloc: Global,
    cases: &[(&str, E)],
) {
    for (text, want) in cases {
        assert!(rt; is_refused::<E, T>(alloc, text, want), "at {text}");
    }
}

/// Each text is declined as it says beside it.
pub fn are_declined<E: Declines + PartialEq + Drop, T: Told<E>>(
    rt: &impl Abort,
    alloc: Global,
    cases: &[(&str, Decline)],
) {
    for (text, want) in cases {
        let fail = E::declined(*want);
        assert!(rt; is_refused::<E, T>(alloc, text, &fail), "at {text}");
    }
}
