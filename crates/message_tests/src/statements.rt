// Statements, results and errors.
use crate::tables::{Told, are_declined, are_told, come_back};
use hrana_stmt::{
    Code, NamedArg, NamedArgs, SqlRef, Stmt, error_of_json, error_to_json, limits_are,
    result_of_json, result_to_json, stmt_of_json, stmt_to_json, wire_error,
};
use hrana_value::{Decline, NoMemory, ReadFail, Txt, Value, Values};
use serde_json::Value as Json;
use std::alloc::Global;

fn json_of(alloc: Global, text: &str) -> Result<Json, ReadFail> {
    match Json::from_str(alloc, text) {
        Ok(json) => Ok(json),
        Err(_) => Err(ReadFail::NoMemory),
    }
}

fn text_of(alloc: Global, json: &Json) -> Result<Txt, ReadFail> {
    match json.to_string(alloc) {
        Ok(text) => Ok(Txt::from_string(text)),
        Err(_) => Err(ReadFail::NoMemory),
    }
}

struct StmtTexts;

impl Told<ReadFail> for StmtTexts {
    fn told(alloc: Global, text: &str) -> Result<Txt, ReadFail> {
        let stmt = stmt_of_json(alloc, &json_of(alloc, text)?)?;
        text_of(alloc, &stmt_to_json(alloc, &stmt)?)
    }
}

struct ResultTexts;

impl Told<ReadFail> for ResultTexts {
    fn told(alloc: Global, text: &str) -> Result<Txt, ReadFail> {
        let result = result_of_json(alloc, &json_of(alloc, text)?)?;
        text_of(alloc, &result_to_json(alloc, &result)?)
    }
}

#[test]
fn declines_come_in_order(rt: HostRuntime) {
    are_declined::<ReadFail, StmtTexts>(
        &rt,
        rt.alloc(),
        &[
            ("5", Decline::Shape),
            ("{}", Decline::BothSql),
            (r#"{"sql":5,"sql_id":9999999999}"#, Decline::Shape),
            (r#"{"sql":"x","sql_id":9999999999}"#, Decline::BothSql),
            (r#"{"sql_id":9999999999}"#, Decline::Range),
            (r#"{"sql_id":-0}"#, Decline::Shape),
            (r#"{"sql":"x","want_rows":0}"#, Decline::Shape),
            (r#"{"sql":"x","args":{}}"#, Decline::Shape),
            (r#"{"args":[{"type":"float"}]}"#, Decline::BothSql),
            (
                r#"{"sql":"x","args":[{"type":"float"},{"type":"null"},{"type":"null"}]}"#,
                Decline::Float,
            ),
            (
                r#"{"sql":"x","named_args":[{"name":1},{"name":"a","value":{"type":"null"}}]}"#,
                Decline::Shape,
            ),
            (
                r#"{"sql":"x","args":[{"type":"float"}],"named_args":[{"name":"a"}]}"#,
                Decline::Shape,
            ),
        ],
    );
}

#[test]
fn statements_are_written_as_they_were_read(rt: HostRuntime) {
    are_told::<ReadFail, StmtTexts>(
        &rt,
        rt.alloc(),
        &[
            (
                r#"{"sql":"SELECT 1","args":null,"want_rows":true}"#,
                r#"{"sql":"SELECT 1"}"#,
            ),
            (
                r#"{"x":1,"sql_id":-3,"want_rows":false}"#,
                r#"{"sql_id":-3,"want_rows":false}"#,
            ),
            (
                r#"{"sql":"x","named_args":[{"name":"a","value":{"type":"null"}}],"args":[{"type":"integer","value":"+5"}]}"#,
                r#"{"args":[{"type":"integer","value":"5"}],"named_args":[{"name":"a","value":{"type":"null"}}],"sql":"x"}"#,
            ),
        ],
    );
}

#[test]
fn results_are_written_as_they_were_read(rt: HostRuntime) {
    let written = [
        r#"{"affected_row_count":0,"cols":[{"name":"a"},{"name":null}],"last_insert_rowid":"7","rows":[[{"type":"integer","value":"5"}],[]]}"#,
    ];
    let declined = [
        (
            r#"{"affected_row_count":0,"cols":[5,{}],"rows":[]}"#,
            Decline::Shape,
        ),
        (
            r#"{"affected_row_count":0,"cols":[],"rows":[[{"type":"float"}],[],[]]}"#,
            Decline::Float,
        ),
        (
            r#"{"affected_row_count":-1,"cols":[],"rows":[]}"#,
            Decline::Range,
        ),
    ];
    come_back::<ReadFail, ResultTexts>(&rt, rt.alloc(), &written);
    are_declined::<ReadFail, ResultTexts>(&rt, rt.alloc(), &declined);
}

// The error of this code as a text, where it is read again.
fn error_text(alloc: Global, code: Code) -> Result<Txt, ReadFail> {
    let json = error_to_json(alloc, &wire_error(alloc, code)?)?;
    let _read = error_of_json(alloc, &json)?;
    text_of(alloc, &json)
}

#[test]
fn an_error_has_its_code_and_message(rt: HostRuntime) {
    let text = error_text(rt.alloc(), Code::BadType).expect(&rt, "there is memory");
    assert_eq!(rt;
        text.as_str(),
        r#"{"code":"TYPE","message":"operand is not an integer"}"#
    );
}

// A statement of an SQL text of this many bytes, with this many positional arguments and a named one.
fn stmt_of(alloc: Global, bytes: usize, count: usize) -> Result<Stmt, NoMemory> {
    let mut text = String::new(alloc);
    for _ in 0..bytes {
        text.push('x')?;
    }
    let mut args = Values::new(alloc);
    for _ in 0..count {
        args.push(Value::Null)?;
    }
    let mut named = NamedArgs::new(alloc);
    named.push(NamedArg {
        name: Txt::new(alloc, "a")?,
        value: Value::Null,
    })?;
    Ok(Stmt {
        sql: SqlRef::Text(Txt::from_string(text)),
        args,
        named,
        want_rows: true,
    })
}

// Whether such a statement is read; nothing where it fails in another way than by its range.
fn fits(alloc: Global, bytes: usize, count: usize) -> Option<bool> {
    let stmt = stmt_of(alloc, bytes, count).ok()?;
    let json = stmt_to_json(alloc, &stmt).ok()?;
    match stmt_of_json(alloc, &json) {
        Ok(_) => Some(true),
        Err(ReadFail::Declined(Decline::Range)) => Some(false),
        Err(_) => None,
    }
}

#[test]
fn limits_are_those_of_the_protocol(rt: HostRuntime) {
    limits_are();
    for (bytes, count, want) in [(65536, 255, true), (65537, 255, false), (65536, 256, false)] {
        assert!(rt;
            fits(rt.alloc(), bytes, count) == Some(want),
            "at {bytes}, {count}"
        );
    }
}
