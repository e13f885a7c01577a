// Values.
use crate::tables::{Told, are_declined, are_told};
use hrana_value::{
    Bytes, Decline, NoMemory, ReadFail, Txt, Value, Values, index_of, int32, int64_of_text,
    option_of_json, optional_list_of_json, text_of, uint32, uint64, value_of_json, value_to_json,
};
use serde_json::Value as Json;
use std::alloc::Global;
use std::process::Abort;

fn json_of(alloc: Global, text: &str) -> Result<Json, ReadFail> {
    match Json::from_str(alloc, text) {
        Ok(json) => Ok(json),
        Err(_) => Err(ReadFail::NoMemory),
    }
}

// What is read is written again, so that a table shows both.
fn written(alloc: Global, value: &Value) -> Result<Txt, ReadFail> {
    let json = value_to_json(alloc, &value.copy(alloc)?)?;
    match json.to_string(alloc) {
        Ok(text) => Ok(Txt::from_string(text)),
        Err(_) => Err(ReadFail::NoMemory),
    }
}

struct ValueTexts;

impl Told<ReadFail> for ValueTexts {
    fn told(alloc: Global, text: &str) -> Result<Txt, ReadFail> {
        written(alloc, &value_of_json(alloc, &json_of(alloc, text)?)?)
    }
}

struct ListTexts;

impl Told<ReadFail> for ListTexts {
    fn told(alloc: Global, text: &str) -> Result<Txt, ReadFail> {
        let values: Values = optional_list_of_json(alloc, &json_of(alloc, text)?)?;
        Ok(text_of(alloc, &values.copy(alloc)?)?)
    }
}

#[test]
fn values_are_read_and_written(rt: HostRuntime) {
    are_told::<ReadFail, ValueTexts>(
        &rt,
        rt.alloc(),
        &[
            (r#"{"type":"null"}"#, r#"{"type":"null"}"#),
            (
                r#"{"type":"integer","value":"+5"}"#,
                r#"{"type":"integer","value":"5"}"#,
            ),
            (
                r#"{"type":"integer","value":"-9223372036854775808","x":1.5}"#,
                r#"{"type":"integer","value":"-9223372036854775808"}"#,
            ),
            (
                r#"{"type":"text","value":"caf\u00e9"}"#,
                r#"{"type":"text","value":"café"}"#,
            ),
            (
                r#"{"type":"blob","base64":"AQ"}"#,
                r#"{"base64":"AQ==","type":"blob"}"#,
            ),
            (
                r#"{"type":"blob","base64":""}"#,
                r#"{"base64":"","type":"blob"}"#,
            ),
        ],
    );
}

#[test]
fn other_values_are_declined(rt: HostRuntime) {
    are_declined::<ReadFail, ValueTexts>(
        &rt,
        rt.alloc(),
        &[
            (r#"{"type":"integer","value":""}"#, Decline::Shape),
            (r#"{"type":"integer","value":"5 "}"#, Decline::Shape),
            (r#"{"type":"integer","value":5}"#, Decline::Shape),
            (
                r#"{"type":"integer","value":"9223372036854775808"}"#,
                Decline::Range,
            ),
            (r#"{"type":"text"}"#, Decline::Shape),
            (r#"{"type":"blob","base64":"AR=="}"#, Decline::Shape),
            (r#"{"type":"blob","base64":"AQ="}"#, Decline::Shape),
            (r#"{"type":"float","value":"x"}"#, Decline::Float),
            (r#"{"type":"Null"}"#, Decline::Shape),
            ("[]", Decline::Shape),
        ],
    );
}

#[test]
fn lists_are_read_to_their_end(rt: HostRuntime) {
    let told = [
        ("null", "[]"),
        (
            r#"[{"type":"null"},{"type":"text","value":"a"}]"#,
            r#"[{"type":"null"},{"type":"text","value":"a"}]"#,
        ),
    ];
    let declined = [
        ("{}", Decline::Shape),
        (
            r#"[{"type":"float"},{"type":"null"},{"type":"null"}]"#,
            Decline::Float,
        ),
        (
            r#"[{"type":"null"},{"type":"float"},{"type":"integer","value":"9223372036854775808"},{"type":"float"}]"#,
            Decline::Range,
        ),
    ];
    are_told::<ReadFail, ListTexts>(&rt, rt.alloc(), &told);
    are_declined::<ReadFail, ListTexts>(&rt, rt.alloc(), &declined);
}

fn is_optional(alloc: Global, json: &Json, want: Option<&str>) -> bool {
    let read: Result<Option<Txt>, ReadFail> = option_of_json(alloc, json);
    match read {
        Ok(Some(text)) => want == Some(text.as_str()),
        Ok(None) => want.is_none(),
        Err(_) => false,
    }
}

#[test]
fn optional_texts_are_read(rt: HostRuntime) {
    let alloc = rt.alloc();
    let json = json_of(alloc, "\"a\"").expect(&rt, "it is JSON");
    assert!(rt; is_optional(alloc, &json, Some("a")));
    assert!(rt; is_optional(alloc, &Json::Null, None));
}

// A text, and what it gives as a number of each of three types.
type Numbers<'a> = (
    &'a str,
    Result<i32, Decline>,
    Result<u32, Decline>,
    Result<u64, Decline>,
);

fn are_numbers(alloc: Global, numbers: &Numbers) -> bool {
    let (text, signed, short, long) = numbers;
    let Ok(json) = json_of(alloc, text) else {
        return false;
    };
    int32(&json) == *signed && uint32(&json) == *short && uint64(&json) == *long
}

fn all_are_numbers(rt: &impl Abort, alloc: Global, cases: &[Numbers]) {
    for case in cases {
        assert!(rt; are_numbers(alloc, case), "at {}", case.0);
    }
}

#[test]
fn whole_numbers_are_read_or_declined(rt: HostRuntime) {
    let cases: [Numbers; 6] = [
        ("7", Ok(7), Ok(7), Ok(7)),
        ("-1", Ok(-1), Err(Decline::Range), Err(Decline::Range)),
        (
            "4294967295",
            Err(Decline::Range),
            Ok(4294967295),
            Ok(4294967295),
        ),
        (
            "18446744073709551615",
            Err(Decline::Range),
            Err(Decline::Range),
            Ok(18446744073709551615),
        ),
        (
            "-0",
            Err(Decline::Shape),
            Err(Decline::Shape),
            Err(Decline::Shape),
        ),
        (
            "\"7\"",
            Err(Decline::Shape),
            Err(Decline::Shape),
            Err(Decline::Shape),
        ),
    ];
    all_are_numbers(&rt, rt.alloc(), &cases);
    assert!(rt; int64_of_text("007") == Ok(7));
    assert!(rt; int64_of_text("99999999999999999999x") == Err(Decline::Shape));
    assert!(rt; index_of(&["a", "b"], "b") == Some(1));
    assert!(rt; index_of(&["a", "b"], "c").is_none());
}

fn pushed(alloc: Global) -> Result<Values, NoMemory> {
    let mut values = Values::new(alloc);
    values.push(Value::Integer(1))?;
    values.push(Value::Text(Txt::new(alloc, "a")?))?;
    values.push(Value::Blob(Bytes::new(alloc, &[1])?))?;
    values.copy(alloc)
}

#[test]
fn a_copied_list_has_its_items(rt: HostRuntime) {
    let values = pushed(rt.alloc()).expect(&rt, "there is memory");
    assert_eq!(rt; values.as_slice().len(), 3);
    assert_eq!(rt; values.into_vec().len(), 3);
}
